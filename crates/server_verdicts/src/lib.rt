//! What is reported of a store that was closed: the verdict over each tenant, and of epochs that were checked while it ran.
//!
//! Choices:
//! - A check of an epoch that could not allocate reports nothing of its tenant. An epoch that `server_verdicts`
//!   cannot pass on leaves its journal unknown.
//! - A journal keeps the first epoch that was not sound, as the reason for its no. If its limits are not its
//!   tenant's, OutOfMemory is returned, and no line.
#![tactic(auto)]

mod epochs;
mod verdict;

pub use epochs::{
    CheckProgress, Checked, Checking, Ending, JournalChecks, Known, LastEpochs, Standing,
    TakenEpoch, progress_at,
};
pub use verdict::{Judge, endings_of, name_at, tell_all, tell_checks, tell_verdicts};
