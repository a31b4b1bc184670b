//! What a hub leaves.
ghost use Rattle.std.specs.Prelude.{◌≡◌};

use crate::config::Config;
use crate::transcript::Transcript;
use partition::{Counts, Journal};

/// What a hub leaves when it is closed: plain data, that anyone may read and judge.
#[derive(Drop)]
pub struct Closed {
    /// How the hub was made.
    pub config: Config,
    /// For each partition a journal of each tenant: the epoch that is left in it, with its number, how many places were given
    /// before it, and the base at which it began. None where the partition's book was not there.
    pub journals: Vec<Vec<Journal>>,
    /// For each partition how many events its journals have; those of earlier epochs are not counted.
    pub counts: Vec<Counts>,
    /// The transcripts that were handed in. Entries that a seat returned before are not in them.
    pub transcripts: Vec<Transcript>,
}

impl Closed {
    /// What a hub is said to have left. Nothing is asked of its parts: journals may be false, and journals or transcripts
    /// may be missing.
    pub fn of(
        config: Config,
        journals: Vec<Vec<Journal>>,
        counts: Vec<Counts>,
        transcripts: Vec<Transcript>,
    ) -> Closed
        ensures config { result.config ≡ config }
        ensures journals { result.journals ≡ journals }
        ensures counts { result.counts ≡ counts }
        ensures transcripts { result.transcripts ≡ transcripts }
    {
        Closed {
            config,
            journals,
            counts,
            transcripts,
        }
    }
}
