//! The verdict over what a hub left: whether what its threads did is a run of the store.
#![tactic(auto)]

mod epoch_check;
mod lookups;
mod missing;
mod next_step;
mod progress;
mod replay;
mod same;
mod search_order;
mod session_order;
mod settle_fault;
mod step_fault;
mod steps_taken;
mod verdict;
mod verdict_laws;

pub use epoch_check::{check_epoch, play_epoch};
pub use settle_fault::SettleFault;
pub use verdict::settle;
pub use verdict_laws::settled_answers_are_right;
