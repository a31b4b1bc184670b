//! What a partition has of the running store's history: each call that it serves is an entry there, whether its event is kept or not.
#![tactic(auto)]

mod bare_shelf;
mod entering;
mod keeping;
mod traced;

pub use traced::TracedBook;
