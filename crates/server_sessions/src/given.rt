//! What a line was answered. Once a seat has given an answer, nobody changes it.
ghost use Rattle.std.specs.Prelude.{◌≡◌, ◌≢◌, ◌+◌, ◌<◌, ◌≤◌, ◌++◌, ◌↔◌, true, false, cond, nat_lt, length, IsTrue};
ghost use Rattle.plain_store.specs.declared.answer.Answer.{Answer as Told};
ghost use Rattle.plain_store.specs.declared.answer.Answer.TheVariants.{Ignored, Keeps as KeepsSoMany, Refused};
ghost use Rattle.plain_store.specs.declared.refusal.Refusal.TheVariants.{NoTenant, OutOfMemory};
ghost use Rattle.line_protocol.specs.declared.request.Request.TheVariants.{Bye, Info};
ghost use Rattle.server_sessions.specs.Counting.{IsReceipt, counted_said};
ghost use Rattle.server_sessions.specs.Said.{Answers, Informs, said_line, said_ready};
ghost use Rattle.server_sessions.specs.SeatAnswers.{IsAnswered};
ghost use Rattle.server_sessions.specs.TenantCounting.{counted_for, said_of_tenant};

use crate::answer_counts::{AnswerCounts, Counted};
use bytes::BytesMut;
use hub::{Gate, Hub, Naming, Seat};
use line_protocol::{LINE_LIMIT, Request, write_info, write_ready_as};
use plain_store::{Answer, Refusal};
use stamps::{Client, Counter, Keep};
use std::marker::Model;
use std::sync::Wait;

/// What a line of a connection was answered, and the place for the next answer. What a seat puts there is written as it is, and
/// is replaced by the next answer alone. Contracts see it as what is said.
#[derive(Drop)]
pub(crate) struct Given {
    answer: Answer,
    // It stands in place of the store's answer.
    own: Option<OwnAnswer>,
}

/// An answer of the server's own.
#[derive(Clone, Copy)]
pub(crate) enum OwnAnswer {
    /// A session is open, with this counter, of this client, whose number was free.
    ReadyAs(Counter, Client),
    /// Which store it is, and whether its puts are newest.
    Informs(u64, bool),
}

impl Model for Given {
    ghost use Rattle.server_sessions.specs.Said.{Said, said_of};

    ghost Value = { Said };

    ghost view = { λ g. said_of g.answer g.own };
}

impl Given {
    /// Nothing was answered yet.
    pub(crate) fn new() -> Given
        ensures { result ≡ Answers Ignored }
    {
        Given {
            answer: Answer::Ignored,
            own: None,
        }
    }

    /// A seat was opened, and has this counter. Its client is said too, where that was not asked for.
    pub(crate) fn ready(&mut self, counter: Counter, told: Option<Client>)
        ensures { self.new ≡ said_ready counter told }
    {
        self.answer = Answer::Ready(counter);
        self.own = match told {
            Some(client) => Some(OwnAnswer::ReadyAs(counter, client)),
            None => None,
        };
    }

    /// It is said which store it is, and whether its puts are newest.
    pub(crate) fn inform(&mut self, store: u64, newest: bool)
        ensures { self.new ≡ Informs store newest }
    {
        self.own = Some(OwnAnswer::Informs(store, newest));
    }

    /// It is refused. A function of its own, so that no caller reserves stack space for a second `Answer`.
    pub(crate) fn refuse(&mut self, refusal: Refusal)
        ensures { self.new ≡ Answers (Refused refusal) }
    {
        self.answer = Answer::Refused(refusal);
        self.own = None;
    }

    /// Counts it, also of this tenant, if there is one, and answers the receipt.
    pub(crate) fn count(&self, counts: &AnswerCounts, tenant: Option<u32>) -> Counted
        ensures { IsReceipt (counted_said self.now)
            (counted_for tenant (said_of_tenant self.now)) result }
    {
        match self.own {
            None => counts.count(&self.answer, tenant),
            Some(OwnAnswer::ReadyAs(..)) => counts.count_opened(tenant),
            Some(OwnAnswer::Informs(..)) => Counted::nothing(),
        }
    }

    /// Whether it is an allocation failure.
    pub(crate) fn is_want_of_memory(&self) -> bool
        ensures { IsTrue result ↔ (self.now ≡ Answers (Refused OutOfMemory)) }
    {
        self.own.is_none() && matches!(&self.answer, Answer::Refused(Refusal::OutOfMemory))
    }
}

/// Appends the line of an answer, for which there is room.
pub(crate) fn put_answer(answer: &Given, out: &mut BytesMut)
    requires { LINE_LIMIT ≤ out.old.spare }
    ensures text { out.new.items ≡ out.old.items ++ said_line answer.now }
    ensures room { length out.old.items + out.old.spare ≤ length out.new.items + out.new.spare }
{
    match answer.own {
        None => line_runs::put_answer(&answer.answer, out),
        Some(OwnAnswer::ReadyAs(counter, client)) => {
            if write_ready_as(counter, client, out).is_err() {
                unreachable!();
            }
        }
        Some(OwnAnswer::Informs(store, newest)) => {
            if write_info(store, newest, out).is_err() {
                unreachable!();
            }
        }
    }
}

/// Answers a request by a seat, and says whether it is answered: neither an `info` nor a `bye` is. Newest: whether a put is above what
/// is there, by its tenant's clock.
pub(crate) fn ask_seat<G: Gate + Naming, H: Wait>(
    rt: &H,
    hub: &Hub<G>,
    newest: bool,
    seat: &mut Seat<'_, G>,
    request: &Request,
    answer: &mut Given,
) -> bool
    ensures answered { result ≡ true → (told : Told) × (answer.new ≡ Answers told)
        × IsAnswered newest (length hub.now.limits) request.now seat.old told seat.new }
    ensures stays { (seat.new.name ≡ seat.old.name) × (result ≡ false
        → ((request.now ≢ Info) → request.now ≡ Bye) × (seat.new ≡ seat.old)) }
{
    answer.own = None;
    match request {
        Request::Hello(..) => {
            answer.refuse(Refusal::Busy);
            true
        }
        Request::Put(items) => {
            let items = items.as_slice();
            if !newest {
                seat.put_all_into(rt, items, &mut answer.answer);
                return true;
            }
            seat.put_by_clock_into(rt, items, &mut answer.answer);
            true
        }
        Request::Get(keys) => {
            seat.get_all_into(rt, keys.as_slice(), &mut answer.answer);
            true
        }
        Request::Find(tag) => {
            seat.find_into(rt, *tag, &mut answer.answer);
            true
        }
        Request::Keep(keep) => {
            set_keep(rt, hub, seat.tenant(), *keep, answer);
            true
        }
        Request::Info | Request::Bye => false,
    }
}

// Sets how many versions a collection of this tenant keeps.
#[cold]
#[inline(never)]
fn set_keep<G: Gate + Naming, H: Wait>(
    rt: &H,
    hub: &Hub<G>,
    tenant: u32,
    keep: Keep,
    answer: &mut Given,
)
    ensures { answer.new ≡ Answers
        (cond (nat_lt tenant (length hub.now.limits)) (KeepsSoMany keep) (Refused NoTenant)) }
{
    answer.own = None;
    match hub.set_keep(rt, tenant, keep) {
        Ok(()) => answer.answer = Answer::Keeps(keep),
        Err(refusal) => answer.answer = Answer::Refused(refusal),
    }
}
