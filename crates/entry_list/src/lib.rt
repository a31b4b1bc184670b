//! What a seat did, in its order, as few bytes.
#![tactic(auto)]

mod entry_decoding;
mod entry_encoding;
mod kinds;
mod notes;
mod packed_entries;
mod seat_entries;

pub use kinds::{Entry, LentAct, Operation, Taken};
pub use packed_entries::EntryList;
pub use seat_entries::SeatEntries;
