//! The client's side of a write: when it may commit, and when it is done.
#![tactic(auto)]

mod partitions;
mod write_progress;
mod writer;

pub use partitions::Partitions;
pub use writer::{WriteMove, Writer, put_write_set, write_set_of};
