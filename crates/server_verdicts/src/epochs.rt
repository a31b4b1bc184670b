//! The epochs of a store that were checked while it ran, and what was left of its journals.

mod checked;
mod checker;
mod ending;
mod reached;

pub use checked::{CheckProgress, Checked, Standing, TakenEpoch};
pub use checker::{Checking, JournalChecks, Known, progress_at};
pub use ending::{Ending, LastEpochs};
