//! The one history of a running store. It exists in proofs alone: its threads share words, of which each counts the entries of one
//! partition or of one client, and carry evidence of what was entered, which takes no bytes.
#![tactic(auto)]

mod entry;
mod front;
mod history_laws;
mod rule;
mod tallies;

pub use entry::{
    AllLimits, CallToServe, Decision, Draw, HistoryEntry, JoinedClient, Mark, ServedCall,
    StoreOpening, StoreToOpen, Write, WriteToBegin,
};
pub use front::Front;
pub use history_laws::{
    a_stamp_has_one_write, calls_are_at_home, clocks_are_seen, commits_are_of_each_key,
    decided_puts_are_not_discarded, draws_rise, first_gets_show_decided_writes, gets_show_writes,
    versions_are_of_their_writes,
};
pub use rule::{Law, Naming};
pub use tallies::{ClockWords, NewHistory, PartitionWords, Tally};
