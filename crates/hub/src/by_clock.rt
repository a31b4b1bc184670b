//! A put whose stamp the clock of its tenant gives, so that it is above those of all puts that began before, and which is reported to
//! that clock, so that no later read misses it.
ghost use Rattle.std.specs.Prelude.{◌≡◌};
ghost use Rattle.hub.specs.Clocks.{is_written};

use crate::operation::tell_refusal;
use crate::seat::Seat;
use crate::seat_request::SeatRequest;
use history::Naming;
use plain_store::{Answer, Refusal};
use shard::Gate;
use stamps::Item;
use std::sync::Wait;

impl<'a, G: Gate + Naming> Seat<'a, G> {
    ghost use Rattle.std.specs.Prelude.{◌≡◌, ◌+◌, IfErr, OnErr, OnOk};
    ghost use Rattle.history.specs.Clock.{IsDrawnBehind};
    ghost use Rattle.history.specs.Legal.{IsLegal};
    ghost use Rattle.hub.specs.Clocks.{HasSeenMore, IsDrawRefusal, IsRaised, IsReported, PutsByClock, ReportsDone};

    /// Writes the items under a stamp that is drawn from its tenant's clock as the put begins, behind all that the seat has seen: so
    /// it is above the stamp of each such put of the tenant that began before, whatever keys and whichever client. `put_all` alone
    /// draws a stamp above those that this client has seen, which may be below what is there; nobody reads such a write.
    ///
    /// Its entries have two before those of the write: the client's counter is raised to one below what was drawn, as if its
    /// session ended, and began again from there. The answers are those of `put_all`, and 26 where the client's counter is more than 2^32
    /// above the clock, or the clock is used up. No entry is made then, nor where room for these two was refused (30).
    ///
    /// Once the write is done, it is reported to the clock: no read of the tenant misses it that looks at the clock from then on.
    pub fn put_by_clock<R: Wait>(&mut self, rt: &R, items: &[Item]) -> Answer
        ensures { PutsByClock items.now self.old result self.new }
    {
        let mut answer = Answer::Ignored;
        self.put_by_clock_into(rt, items, &mut answer);
        answer
    }

    /// As `put_by_clock`, with the answer written into the caller's buffer. It returns the number under which the write was reported to
    /// the clock: a read that returns this number or a greater one does not miss it.
    ///
    /// None where the write is not done. So it is, too, where other threads used the clock at each of 2^32 tries, or where the clock is
    /// used up. Such a write is done, but only a seat that has seen as much as this one is known to read it.
    pub fn put_by_clock_into<R: Wait>(
        &mut self,
        rt: &R,
        items: &[Item],
        answer: &mut Answer,
    ) -> Option<u64>
        ensures put { PutsByClock items.now self.old answer.new self.new }
        ensures reported { ReportsDone result items.now self.old answer.new self.new }
    {
        if let Some(refusal) = self.refuses() {
            tell_refusal(refusal, answer);
            return None;
        }
        if let Err(refusal) = self.draw() {
            tell_refusal(refusal, answer);
            return None;
        }
        self.run(rt, &SeatRequest::Put(items), usize::MAX, answer);
        if !is_done(answer) {
            return None;
        }
        self.report()
    }

    /// Draws from its tenant's clock, and raises its counter to one below what was drawn, which it enters. It fails where the clock gave
    /// none (26), and where room for the entries was refused (30); nothing has changed then.
    fn draw(&mut self) -> Result<(), Refusal>
        ensures raised { OnOk result (IsRaised self.old self.new) }
        ensures drawn { OnOk result (IsDrawnBehind self.old.seen self.new.seen
            (record { tenant = self.old.name.tenant; counter = self.new.counter + 1 })) }
        ensures unchanged { OnErr result (self.new ≡ self.old) }
        ensures refused { IfErr result IsDrawRefusal }
    {
        self.operation.draw()
    }

    /// Reports to its tenant's clock, behind all that it has seen, and answers the number of that entry. None where the clock was overrun.
    fn report(&mut self) -> Option<u64>
        ensures reported { IsReported result self.old.seen self.new.seen self.old.name.tenant }
        ensures more { HasSeenMore self.old self.new }
        ensures legal { ∥ IsLegal self.old.seen ∥₁ }
    {
        self.operation.report()
    }
}

// Whether a write is done.
fn is_done(answer: &Answer) -> bool
    ensures { result ≡ is_written answer.now }
{
    matches!(answer, Answer::Done(_))
}
