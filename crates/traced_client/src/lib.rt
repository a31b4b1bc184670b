//! A client of a tenant, whose writes are entries of the running store's history.
#![tactic(auto)]

mod client_word;
mod client_words;

pub use client_word::TracedClient;
pub use client_words::ClientWords;
