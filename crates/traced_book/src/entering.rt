//! The step at which a call is entered into the history.
ghost use Rattle.std.specs.Prelude.{◌≡◌, ◌+◌, ◌<◌};
ghost use Rattle.stamps.specs.Limits.{max_parts};
ghost use Rattle.history.specs.Entries.{count};
ghost use Rattle.history.specs.Legal.{MayServe};

use history::{CallToServe, Front, Naming, Tally};
use partition::CallAdmission;

/// The most entries of a word.
pub const MOST: u64 = 1 << 62;

/// A call that is to be entered into the history, where its partition's word has as many entries as were seen.
#[derive(Drop)]
pub(crate) struct Entering<'t, 'm, 'e, 'c, J: Naming> {
    pub tally: &'t Tally<J>,
    /// How many entries the word has, by what the partition has seen.
    pub entries: u64,
    pub mine: &'m Front<J>,
    /// What shows that the call may be served.
    pub evidence: &'e Front<J>,
    pub asked: CallToServe<'c>,
    /// What was seen once it was entered.
    pub now: Front<J>,
    ghost key: { tally.now.key ≡ asked.partition + 1 },
    ghost here: { asked.partition < max_parts },
    ghost counted: { count tally.now.key mine.now ≡ entries },
    ghost may: { ∥ MayServe evidence.now asked.partition asked.tenant asked.call.now ∥₁ },
}

impl<'t, 'm, 'e, 'c, J: Naming> CallAdmission for Entering<'t, 'm, 'e, 'c, J> {
    ghost use Rattle.history.specs.Rules.{TakesNoEntry};
    ghost use Rattle.traced_book.specs.Entering.{HasEntered};

    ghost admits = { λ before after. HasEntered before.tally.now.key before.entries before.asked before.mine.now before.evidence.now after.now };

    ghost refuses = { λ before after. TakesNoEntry before.tally.now.key before.mine.now after.now };

    fn admit(&mut self) -> bool {
        if self.entries >= MOST {
            return false;
        }
        let mut front = self.mine.again();
        let did = front.serve(self.tally, self.entries, self.evidence, &self.asked);
        self.now = front;
        did
    }
}
