//! Epochs and entries that were returned before, put before what is left.

mod adding;
mod filling;
mod joining;
mod replaying;
mod rising;

pub use joining::JoinFault;
