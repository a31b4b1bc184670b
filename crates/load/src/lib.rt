//! A load: seats that put, get and search as they draw it, and the verdict over what they were answered. Beside it, how a
//! store is opened and closed, of a load and of a server, and parts of the lines that both report.
//!
//! Choices:
//! - A load whose journals are cut keeps every epoch, and joins them after the lines `load`. A missing epoch is
//!   OutOfMemory.
//! - What a seat draws depends on the seed and its numbers alone, so the operations of a load are the same in each
//!   run.
#![tactic(auto)]

mod all_there;
mod count_lines;
mod joined;
mod kept;
mod loading;
mod mix;
mod seats;
mod store;
mod tally;

pub use count_lines::push_count;
pub use loading::run_load;
pub use store::{NamedClosed, NamedEndings, close_store, open_hub};
