//! Messages that are delivered, and messages that are lost.
ghost use Rattle.std.specs.Prelude.{◌++◌, List, map, take, cond, ◌≡◌, ◌+◌, ◌<◌, ◌≤◌, ◌∷◌, ℕ, length, false, Some, None, IsSome, MatchResult, OnErr};
ghost use Rattle.stamps.specs.Limits.{max_keys, max_parts, max_rows};
ghost use Rattle.plain_store.specs.Words.{Setup, setup_of};
ghost use Rattle.plain_store.specs.declared.step.Act.TheVariants.{Deliver, Lose};
ghost use Rattle.plain_store.specs.History.{History, message_at};
ghost use Rattle.plain_store.specs.Run.{moment_of, rows_are_used, with_reply, answer_to, call_message};
ghost use Rattle.message_table.specs.Content.{StandsFor as TableStandsFor};
ghost use Rattle.tenant_sessions.specs.Sessions.{IsRun, sends_calls, ending, waiting, StandsFor as SessionsStandFor};
ghost use Rattle.tenant_sessions.specs.Moves.{moved};
ghost use Rattle.plain_store.specs.declared.reading.Reading.{Reading as Told};
ghost use Rattle.plain_store.specs.declared.message.Message.{Message as Sent};
ghost use Rattle.world.specs.Standing.{TenantStandsFor, CellsStandFor, TenantSteps, OthersStay, answered_in_place};
ghost use Rattle.world.specs.Served.{HaveItsCells, ServesAct, TakesAtOnce};
ghost use Rattle.world.specs.Memory.{MayTakeMemory};

use crate::sending;
use crate::tenant::Tenant;
use message_table::Table;
use partition::Shelf;
use plain_store::{Answer, Message, OutOfMemory, Refusal, Reply, Rows};
use stamps::{Client, limits};
use tenant_sessions::{MoveKind, Sessions};

/// The most calls that a reply has its client send.
const MOST_ANSWERED: u32 = limits::MAX_KEYS as u32;

impl Tenant {
    /// Delivers the message of a row: a call to its partition, and a reply to its client.
    pub fn deliver(
        &mut self,
        number: u32,
        shelves: &mut [Shelf],
        row: u64,
        answer: &mut Answer,
    ) -> Result<(), OutOfMemory>
        requires { HaveItsCells number shelves.old }
        ensures { ServesAct (Deliver row) number self.old self.new shelves.old shelves.new
            (answered_in_place result answer.new) }
    {
        if sending::rows_are_used(&self.table) {
            *answer = Answer::Refused(Refusal::RowsUsed);
            return Ok(());
        }
        let Some(message) = self.table.get(row) else {
            *answer = Answer::Refused(Refusal::NoMessage);
            return Ok(());
        };
        if message.reply.is_some() {
            return self.deliver_reply(row, answer);
        }
        self.deliver_call(number, shelves, row, answer)
    }

    /// Has the tenant's cell at the partition of the row's call serve it, and sends the reply. Room for that is reserved
    /// first.
    fn deliver_call(
        &mut self,
        number: u32,
        shelves: &mut [Shelf],
        row: u64,
        answer: &mut Answer,
    ) -> Result<(), OutOfMemory>
        requires cells { HaveItsCells number shelves.old }
        requires rows { self.old.table.sent + max_parts ≤ max_rows }
        ensures serves { (setup : Setup) (history : History) (message : Sent)
            → setup ≡ setup_of (length shelves.old) self.old.limits → IsRun setup history
            → TenantStandsFor setup history self.old
            → CellsStandFor setup history shelves.old number
            → rows_are_used history ≡ false → message_at history row ≡ Some message
            → message.reply ≡ None
            → MatchResult (answered_in_place result answer.new)
            (λ told. TenantSteps setup history (Deliver row) told self.new
            × CellsStandFor setup (moment_of setup history (Deliver row)
            ∷ history) shelves.new number)
            (λ _. TenantStandsFor setup history self.new × (shelves.new ≡ shelves.old)) }
        ensures asks { OnErr (answered_in_place result answer.new)
            ((setup : Setup) (history : History) (message : Sent) → rows_are_used history ≡ false
            → message_at history row ≡ Some message → message.reply ≡ None
            → MayTakeMemory history (Deliver row) (answer_to setup history (Deliver row))) }
        ensures others { OthersStay shelves.old shelves.new number }
        ensures limits { self.new.limits ≡ self.old.limits }
    {
        self.table.reserve(1)?;
        let Some(message) = self.table.get(row) else {
            *answer = Answer::Refused(Refusal::NoMessage);
            return Ok(());
        };
        let place = message.partition as usize;
        if place >= shelves.len() {
            // No call of a transaction goes there.
            *answer = Answer::Refused(Refusal::NoPartition);
            return Ok(());
        }
        let reply = shelves[place].apply(number, &message.call);
        let answered = with_reply(message, &reply);
        let row = sending::send_reserved(&mut self.table, answered);
        *answer = Answer::Replied(row, reply);
        Ok(())
    }

    /// Hands the row's reply to its client, and sends the calls that follow on it. Room for the most of these is reserved
    /// first.
    fn deliver_reply(&mut self, row: u64, answer: &mut Answer) -> Result<(), OutOfMemory>
        requires { self.old.table.sent + max_parts ≤ max_rows }
        ensures takes { (setup : Setup) (history : History) (message : Sent) → IsRun setup history
            → TenantStandsFor setup history self.old
            → rows_are_used history ≡ false → message_at history row ≡ Some message
            → IsSome message.reply
            → MatchResult (answered_in_place result answer.new)
            (λ told. TenantSteps setup history (Deliver row) told self.new)
            (λ _. TenantStandsFor setup history self.new) }
        ensures asks { OnErr (answered_in_place result answer.new)
            ((setup : Setup) (history : History) (message : Sent) → rows_are_used history ≡ false
            → message_at history row ≡ Some message → IsSome message.reply
            → MayTakeMemory history (Deliver row) (answer_to setup history (Deliver row))) }
        ensures limits { self.new.limits ≡ self.old.limits }
    {
        self.table.reserve(MOST_ANSWERED)?;
        let sent = self.table.sent();
        let Some(message) = self.table.get(row) else {
            *answer = Answer::Refused(Refusal::NoMessage);
            return Ok(());
        };
        let client = message.client;
        let ticket = message.ticket;
        let taken = self.sessions.take_into(message, &mut self.readings);
        send_next(&self.sessions, &mut self.table, client, ticket, &taken);
        let rows = Rows {
            first: sent + 1,
            last: self.table.sent(),
        };
        taken.answer_into(&self.readings, rows, answer);
        Ok(())
    }

    /// Loses the message of a row.
    pub fn lose(&mut self, row: u64, answer: &mut Answer)
        ensures { TakesAtOnce (Lose row) self.old self.new answer.new }
    {
        if self.table.lose(row) {
            *answer = Answer::Lost;
        } else {
            *answer = Answer::Refused(Refusal::NoMessage);
        }
    }
}

/// The message that brings the reply to a call back.
fn with_reply(message: &Message, reply: &Reply) -> Message
    ensures { result ≡ with_reply message.now reply.now }
{
    let mut answered = *message;
    answered.reply = Some(*reply);
    answered
}

/// Sends the calls that follow on a reply that was taken, if any do. There are at most as many as a transaction has keys, and room for so many.
fn send_next(sessions: &Sessions, table: &mut Table, client: Client, ticket: u64, taken: &MoveKind)
    requires rows { table.old.sent + max_keys ≤ max_rows }
    requires room { max_keys ≤ table.old.reserved }
    ensures { (setup : Setup) (history : History) (messages : List Sent) (lost : List ℕ)
        (readings : List Told) → IsRun setup history
        → SessionsStandFor setup history sessions.now → TableStandsFor table.old messages lost
        → TableStandsFor table.new (messages
        ++ take max_keys
        (cond (sends_calls (moved taken.now readings)) (waiting setup history client)
        (map (call_message client ticket) (ending (moved taken.now readings))))) lost }
{
    if taken.sends() {
        sending::send_waiting(sessions, table, client, MOST_ANSWERED);
        return;
    }
    sending::send_ending(taken, table, client, ticket, MOST_ANSWERED);
}
