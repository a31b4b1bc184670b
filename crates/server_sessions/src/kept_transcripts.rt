//! The transcripts of sessions that ended, and what their seats have seen of the store's history.
ghost use Rattle.std.specs.Prelude.{◌≡◌, ◌≤◌, ◌++◌, ◌∷◌, [], IfSome, MatchBool, vec_capacity, vec_len};
ghost use mathlib.Core.List.{IsPrefix};
ghost use Rattle.server_sessions.specs.Histories.{AreGivenIn, IsGivenIn};

use crate::line_session::SessionLeft;
use hub::{Front, Naming, Transcript};

/// The transcripts of sessions that ended, in that order, and what their seats have seen of the store's history: each reply in
/// them has its place there.
#[derive(Drop)]
pub struct KeptTranscripts<G: Naming> {
    transcripts: Vec<Transcript>,
    seen: Option<Front<G>>,
    ghost given: { ∥ AreGivenIn seen transcripts.items ∥₁ },
}

impl<G: Naming> KeptTranscripts<G> {
    /// None yet. They go into this list.
    pub fn new(transcripts: Vec<Transcript>) -> KeptTranscripts<G>
        requires { transcripts.items ≡ [] }
        ensures { result.transcripts ≡ transcripts }
    {
        KeptTranscripts {
            transcripts,
            seen: None,
        }
    }

    /// Keeps the transcript of a session behind those before, and what its seat has seen. Says whether it did; it is lost where it
    /// finds no memory.
    pub fn keep(&mut self, left: SessionLeft<G>) -> bool
        requires { IsGivenIn left.1 left.0 }
        ensures { MatchBool result
            (self.new.transcripts.items ≡ self.old.transcripts.items ++ left.0 ∷ [])
            ((self.new.transcripts.items ≡ self.old.transcripts.items)
            × (vec_capacity self.old.transcripts ≤ vec_len self.old.transcripts)) }
    {
        let (transcript, seen) = left;
        self.seen = Some(seen_by_both(&self.seen, seen));
        match self.transcripts.push(transcript) {
            Ok(()) => true,
            Err(_) => false,
        }
    }

    /// The transcripts, and what their seats have seen.
    pub fn into_both(self) -> (Vec<Transcript>, Option<Front<G>>)
        ensures transcripts { result.0 ≡ self.transcripts }
        ensures given { ∥ AreGivenIn result.1 result.0.items ∥₁ }
    {
        let KeptTranscripts { transcripts, seen } = self;
        (transcripts, seen)
    }
}

/// What both have seen.
fn seen_by_both<G: Naming>(before: &Option<Front<G>>, other: Front<G>) -> Front<G>
    ensures before { IfSome before.now (λ seen. IsPrefix seen result) }
    ensures other { IsPrefix other result }
{
    match before {
        Some(seen) => {
            let mut both = other;
            both.learn(seen);
            both
        }
        None => other,
    }
}
