//! Steps of a client's session: it opens and closes, begins transactions, and sends its calls again.
ghost use Rattle.std.specs.Prelude.{◌≡◌, ◌≢◌, ◌+◌, ◌≤◌, false, MatchResult, OnErr};
ghost use Rattle.stamps.specs.Limits.{max_parts, max_rows};
ghost use Rattle.plain_store.specs.Words.{Setup, IsAct};
ghost use Rattle.plain_store.specs.declared.step.Act.{Act as Told};
ghost use Rattle.plain_store.specs.declared.step.Act.TheVariants.{Hello, Put, Get as GetAll, Find as Search, Retry, Stop};
ghost use Rattle.plain_store.specs.History.{History};
ghost use Rattle.plain_store.specs.Run.{rows_are_used, answer_to};
ghost use Rattle.tenant_sessions.specs.Sessions.{IsRun, IsBegin};
ghost use Rattle.world.specs.Standing.{TenantStandsFor, TenantSteps, IsBeginning, answered_in_place};
ghost use Rattle.world.specs.Served.{TakesAct, TakesActOf, TakesAtOnce};
ghost use Rattle.world.specs.Memory.{MayTakeMemory};

use crate::sending;
use crate::tenant::Tenant;
use plain_store::{Answer, OutOfMemory, Refusal};
use stamps::{Client, Counter, Item, Key, Tag};
use tenant_sessions::Begin;

impl Tenant {
    /// Opens the client's session. It takes memory where the client is new.
    pub fn hello(
        &mut self,
        client: Client,
        base: Counter,
        answer: &mut Answer,
    ) -> Result<(), OutOfMemory>
        ensures { TakesAct (Hello client base) self.old self.new
            (answered_in_place result answer.new) }
    {
        match self.sessions.hello(client, base) {
            Ok(counter) => {
                *answer = Answer::Ready(counter);
                Ok(())
            }
            Err(refusal) => refused(refusal, answer),
        }
    }

    /// Begins to write the items. Room for its PREPAREs is reserved before anything changes.
    pub fn put(
        &mut self,
        client: Client,
        items: &[Item],
        answer: &mut Answer,
    ) -> Result<(), OutOfMemory>
        ensures { TakesActOf client (Put client items.now) self.old self.new
            (answered_in_place result answer.new) }
    {
        if sending::rows_are_used(&self.table) {
            *answer = Answer::Refused(Refusal::RowsUsed);
            return Ok(());
        }
        match self.sessions.begin_put(client, items) {
            Ok(begin) => self.begin(&begin, answer),
            Err(refusal) => {
                *answer = Answer::Refused(refusal);
                Ok(())
            }
        }
    }

    /// Begins to read the keys. Room for its GETs is reserved before anything changes.
    pub fn get(
        &mut self,
        client: Client,
        keys: &[Key],
        answer: &mut Answer,
    ) -> Result<(), OutOfMemory>
        ensures { TakesActOf client (GetAll client keys.now) self.old self.new
            (answered_in_place result answer.new) }
    {
        if sending::rows_are_used(&self.table) {
            *answer = Answer::Refused(Refusal::RowsUsed);
            return Ok(());
        }
        match self.sessions.begin_get(client, keys) {
            Ok(begin) => self.begin(&begin, answer),
            Err(refusal) => {
                *answer = Answer::Refused(refusal);
                Ok(())
            }
        }
    }

    /// Begins to search for the tag. Room for its calls is reserved before anything changes.
    pub fn find(&mut self, client: Client, tag: Tag, answer: &mut Answer) -> Result<(), OutOfMemory>
        ensures { TakesActOf client (Search client tag) self.old self.new
            (answered_in_place result answer.new) }
    {
        if sending::rows_are_used(&self.table) {
            *answer = Answer::Refused(Refusal::RowsUsed);
            return Ok(());
        }
        match self.sessions.begin_find(client, tag) {
            Ok(begin) => self.begin(&begin, answer),
            Err(refusal) => {
                *answer = Answer::Refused(refusal);
                Ok(())
            }
        }
    }

    /// Begins a transaction that passed its tests: reserves room for its calls, starts it, and sends them.
    fn begin(&mut self, begin: &Begin<'_>, answer: &mut Answer) -> Result<(), OutOfMemory>
        requires { self.old.table.sent + max_parts ≤ max_rows }
        ensures takes { (setup : Setup) (history : History) (act : Told) → IsRun setup history
            → TenantStandsFor setup history self.old
            → rows_are_used history ≡ false → IsAct act → IsBeginning act
            → IsBegin setup history act begin.now
            → MatchResult (answered_in_place result answer.new)
            (λ told. TenantSteps setup history act told self.new)
            (λ _. TenantStandsFor setup history self.new) }
        ensures asks { OnErr (answered_in_place result answer.new)
            ((setup : Setup) (history : History) (act : Told) → IsBegin setup history act begin.now
            → MayTakeMemory history act (answer_to setup history act)) }
        ensures limits { self.new.limits ≡ self.old.limits }
    {
        let calls = begin.calls();
        let client = begin.client();
        self.table.reserve(calls)?;
        begin.answer_into(sending::next_rows(&self.table, calls), answer);
        self.sessions.start(begin);
        sending::send_waiting(&self.sessions, &mut self.table, client, calls);
        Ok(())
    }

    /// Sends again the calls that the client's transaction has no reply to. Room for them is reserved first.
    pub fn retry(&mut self, client: Client, answer: &mut Answer) -> Result<(), OutOfMemory>
        ensures { TakesAct (Retry client) self.old self.new
            (answered_in_place result answer.new) }
    {
        if sending::rows_are_used(&self.table) {
            *answer = Answer::Refused(Refusal::RowsUsed);
            return Ok(());
        }
        let calls = match self.sessions.retry(client) {
            Ok(calls) => calls,
            Err(refusal) => {
                *answer = Answer::Refused(refusal);
                return Ok(());
            }
        };
        if calls == 0 {
            *answer = Answer::Sent(None);
            return Ok(());
        }
        self.table.reserve(calls)?;
        let rows = sending::next_rows(&self.table, calls);
        sending::send_waiting(&self.sessions, &mut self.table, client, calls);
        *answer = Answer::Sent(Some(rows));
        Ok(())
    }

    /// Closes the client's session, and ends its transaction.
    pub fn stop(&mut self, client: Client, answer: &mut Answer)
        ensures { TakesAtOnce (Stop client) self.old self.new answer.new }
    {
        match self.sessions.stop(client) {
            Ok(()) => *answer = Answer::Stopped,
            Err(refusal) => *answer = Answer::Refused(refusal),
        }
    }
}

/// The answer that reports a refusal, where the cause is not an allocation that failed.
fn refused(refusal: Refusal, answer: &mut Answer) -> Result<(), OutOfMemory>
    ensures { MatchResult (answered_in_place result answer.new)
        (λ told. (told ≡ Answer.Refused refusal)
        × (refusal ≢ Refusal.OutOfMemory)) (λ _. refusal ≡ Refusal.OutOfMemory) }
{
    match refusal {
        Refusal::OutOfMemory => Err(OutOfMemory),
        refusal => {
            *answer = Answer::Refused(refusal);
            Ok(())
        }
    }
}
