//! What a hub leaves when it is closed: journals, counts and transcripts; and the parts of these that were returned
//! before, put before the rest.
#![tactic(auto)]

mod closed;
mod config;
mod join;
mod transcript;

pub use closed::Closed;
pub use config::Config;
pub use entry_list::{Entry, EntryList, Operation, Taken};
pub use join::JoinFault;
pub use transcript::Transcript;
