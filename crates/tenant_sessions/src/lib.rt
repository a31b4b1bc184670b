//! The sessions of a tenant's clients: their counters, tickets and running transactions.
#![tactic(auto)]

mod begin;
mod call_batch;
mod current;
mod discards;
mod moves;
mod pending_set;
mod running;
mod running_read;
mod running_search;
mod running_write;
mod session;
mod sessions;
mod waiting;
mod write_records;

pub use begin::Begin;
pub use discards::Discards;
pub use moves::{Move, MoveKind};
pub use session::ClientSession;
pub use sessions::Sessions;
