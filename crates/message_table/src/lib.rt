//! The messages of a tenant that were sent and not lost, by their rows.
#![tactic(auto)]

mod table;

pub use table::Table;
