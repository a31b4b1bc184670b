//! One operation of a seat: its calls go out, and their replies come in until each is answered.
ghost use Rattle.std.specs.Prelude.{◌≡◌, ◌<◌, ◌≤◌, ◌+◌, ◌^◌, ◌↔◌, ℕ, true, None, Some, IfSome, IsNone, IsSome, IsTrue, is_some};
ghost use mathlib.Core.List.{IsPrefix};
ghost use Rattle.history.specs.Entries.{HasMark};
ghost use Rattle.history.specs.Legal.{IsDecided, IsGivenUp, IsLegal};
ghost use Rattle.hub.specs.Evidence.{HasBegunIn, IsMarkedSince, IsOfClient, MayBeDecided};
ghost use Rattle.hub.specs.Requests.{intent_of};
ghost use Rattle.tenant_sessions.specs.declared.moves.MoveKind.TheVariants.{Decided as Decides};
ghost use Rattle.hub.specs.Replies.{IsUnder};
ghost use Rattle.hub.specs.Rooms.{has_commits};
ghost use Rattle.plain_store.specs.declared.answer.Rows.{Rows as Told};
ghost use Rattle.tenant_sessions.specs.Moves.{moved, is_last, answer_of};
ghost use Rattle.traced_client.specs.Clients.{IsSameClient};
ghost use Rattle.hub.specs.Seats.{at_seat, is_final};
ghost use Rattle.history.specs.Rules.{IsClockOf};
ghost use Rattle.history.specs.Clock.{IsDrawnBehind};
ghost use Rattle.entry_list.specs.Raises.{raise_entries};
ghost use Rattle.hub.specs.Clocks.{IsDrawRefusal};
ghost use Rattle.hub.specs.Registered.{IsDeparture};

use crate::clients::Departure;
use crate::dispatcher::{Dispatcher, MOST_CALLS};
use crate::hub::Hub;
use crate::seat_request::SeatRequest;
use closed_store::{Entry, EntryList};
use entry_list::SeatEntries;
use history::{Front, Mark, Naming, Tally};
use plain_store::{Answer, Call, Message, Readings, Refusal, Reply, Rows};
use shard::{Fault, Gate, SeatName, SeatReply};
use stamps::{Counter, Stamp};
use std::alloc::{AllocError, Global};
use std::sync::Wait;
use tenant_sessions::{ClientSession, MoveKind};
use traced_client::TracedClient;

/// The room that an operation needs in the list of entries: for the replies to its calls, and for its answer, which takes
/// that of 5.
const MOST_ROOM: usize = MOST_CALLS + 5;

/// The mark of no entries: all that was seen has it.
const NO_MARK: Mark = Mark {
    word: 0,
    entries: 0,
};

/// That room is kept for the answer of an operation.
#[derive(Clone, Copy, Drop)]
pub(crate) struct AnswerRoom;

/// What the operations of a seat share, and how far the one that runs has come.
#[derive(Drop)]
pub(crate) struct RunningOperation<'a, G: Naming> {
    pub(crate) name: SeatName,
    pub(crate) dispatcher: Dispatcher<'a, G>,
    pub(crate) session: ClientSession,
    pub(crate) entries: SeatEntries,
    /// What it has seen of the history: each call of it that was answered.
    pub(crate) seen: Front<G>,
    /// That of the operation: what has it has what was seen as it began, if it reads or searches. What was seen has it.
    pub(crate) mark: Mark,
    /// Its client's word, until the session has ended.
    pub(crate) client: Option<TracedClient<G>>,
    /// Its tenant's clock.
    clock: &'a Tally<G>,
    /// How many calls were sent before this operation: its own are numbered on from there.
    pub(crate) first: u64,
    /// The room in which its answer is entered, until it is.
    place: Option<AnswerRoom>,
    /// The first fault of a worker.
    fault: Option<Fault>,
    /// Where the session writes what it read.
    readings: Box<Readings>,
    ghost numbers: { first ≤ 2 ^ 62 },
    ghost opened: { session.is_open ≡ true },
    ghost whose: { IsOfClient name client },
    ghost clocked: { IsClockOf clock.now.key name.tenant },
    ghost legal: { ∥ IsLegal seen ∥₁ },
    ghost marked: { HasMark seen mark },
    ghost recorded: { entries.recorded ≡ name.is_recorded },
}

/// Whether a call is not a PREPARE or COMMIT under another stamp.
fn is_under(call: &Call, own: Stamp) -> bool
    ensures { IsTrue result ↔ IsUnder own call.now }
{
    match call {
        Call::Prepare(version) => version.stamp == own,
        Call::Commit(stamp) => *stamp == own,
        _ => true,
    }
}

/// Whether a move sends COMMITs, by which a box for its calls is chosen.
fn sends_commits(taken: &MoveKind) -> bool
    ensures { result ≡ has_commits taken.now }
{
    matches!(taken, MoveKind::Decided(_))
}

/// One below the counter that was drawn, if one was. None past the greatest counter.
fn counter_below(drawn: Option<u64>) -> Option<Counter>
    ensures { IfSome result (λ base. drawn ≡ Some (base + 1)) }
{
    Counter::new(drawn?.checked_sub(1)?)
}

/// The fault that was there, if there was one, and else that of no tenant where not all went well.
fn first_fault(fault: Option<Fault>, is_well: bool) -> Option<Fault>
    ensures first { IsSome fault → result ≡ fault }
    ensures well { is_well ≡ true → result ≡ fault }
    ensures none { IsNone result → IsTrue is_well }
{
    if is_well {
        return fault;
    }
    Some(fault.unwrap_or(Fault::NoTenant))
}

/// Writes a refusal into `answer`. Kept out of line, so that no caller reserves stack space for a second `Answer`, of some 3,200
/// bytes.
#[cold]
#[inline(never)]
pub(crate) fn tell_refusal(refusal: Refusal, answer: &mut Answer)
    ensures { answer.new ≡ Answer.Refused refusal }
{
    *answer = Answer::Refused(refusal);
}

/// Answers that a transaction ended so, as `tell_refusal` does.
#[cold]
#[inline(never)]
fn tell_ended(refusal: Refusal, answer: &mut Answer)
    ensures { answer.new ≡ Answer.Ended refusal None }
{
    *answer = Answer::Ended(refusal, None);
}

/// Writes the answer that a move ends an operation with into the caller's buffer. An end names no rows.
fn tell_end(taken: &MoveKind, readings: &Readings, answer: &mut Answer)
    requires { is_last (moved taken.now readings.now) ≡ true }
    ensures exact { (rows : Told)
        → answer.new ≡ at_seat (answer_of (moved taken.now readings.now) rows) }
    ensures ends { is_final answer.new ≡ true }
{
    match taken {
        MoveKind::Ended(refusal, _) => tell_ended(*refusal, answer),
        _ => taken.answer_into(readings, Rows { first: 0, last: 0 }, answer),
    }
}

/// Enters what has begun in the history: a put of the session's client under this stamp, or a read or a search. It returns the entry's
/// position, the mark: what has that of a read or a search has all that stands before its entry. For a put it is 0. None is returned, and
/// nothing entered, if this seat does not hold the client's word, or that has other entries than the seat has seen.
fn enter_begun<G: Naming>(
    client: &mut Option<TracedClient<G>>,
    seen: &mut Front<G>,
    name: &SeatName,
    own: Stamp,
    request: &SeatRequest<'_>,
) -> Option<Mark>
    requires { IsOfClient name.now client.old }
    ensures began { IfSome result
        (λ _. HasBegunIn seen.new name.now.tenant (intent_of own request.now)) }
    ensures since { IfSome result
        (λ mark. IsMarkedSince name.now request.now mark seen.new seen.old) }
    ensures marked { IfSome result (λ mark. HasMark seen.new mark) }
    ensures later { IsPrefix seen.old seen.new }
    ensures legal { ∥ IsLegal seen.old ∥₁ → ∥ IsLegal seen.new ∥₁ }
    ensures whose { IsOfClient name.now client.new }
{
    let Some(its) = client else {
        return None;
    };
    let Some(mark) = begun_mark(its, seen, name, own, request) else {
        return None;
    };
    seen.learn(&its.seen());
    Some(mark)
}

/// Enters the put of this client under this stamp, or the read or search, and answers its mark.
fn begun_mark<G: Naming>(
    its: &mut TracedClient<G>,
    seen: &Front<G>,
    name: &SeatName,
    own: Stamp,
    request: &SeatRequest<'_>,
) -> Option<Mark>
    requires { IsOfClient name.now (Some its.old) }
    ensures began { IfSome result
        (λ _. HasBegunIn its.new.seen name.now.tenant (intent_of own request.now)) }
    ensures since { IfSome result
        (λ mark. IsMarkedSince name.now request.now mark its.new.seen seen.now) }
    ensures marked { IfSome result (λ mark. HasMark its.new.seen mark) }
    ensures whose { IsSameClient its.old its.new }
{
    let SeatRequest::Put(items) = request else {
        return its.begin_read(seen).ok();
    };
    let Ok(()) = its.begin(own, items) else {
        return None;
    };
    Some(NO_MARK)
}

/// Enters that a put of the session's client is decided, if the move says so, and says whether that was done. It was not where the
/// word is not here, or has other entries than were seen.
fn enter_decided<G: Naming>(
    client: &mut Option<TracedClient<G>>,
    seen: &mut Front<G>,
    name: &SeatName,
    taken: &MoveKind,
) -> bool
    requires whose { IsOfClient name.now client.old }
    requires decided { (stamp : ℕ) → taken.now ≡ Decides stamp
        → ∥ MayBeDecided seen.old name.now.tenant stamp ∥₁ }
    ensures decided { IsTrue result → (stamp : ℕ) → taken.now ≡ Decides stamp
        → IsDecided seen.new name.now.tenant stamp }
    ensures later { IsPrefix seen.old seen.new }
    ensures legal { ∥ IsLegal seen.old ∥₁ → ∥ IsLegal seen.new ∥₁ }
    ensures whose { IsOfClient name.now client.new }
{
    let MoveKind::Decided(stamp) = taken else {
        return true;
    };
    let Some(its) = client else {
        return false;
    };
    let Ok(()) = its.decide(*stamp, seen) else {
        return false;
    };
    seen.learn(&its.seen());
    true
}

/// Enters that the put of this stamp of the session's client was refused, and says whether that was done. It was not where the word is
/// not here, or has other entries than were seen, and where this is not the client's last put or has ended.
fn enter_given_up<G: Naming>(
    client: &mut Option<TracedClient<G>>,
    seen: &mut Front<G>,
    name: &SeatName,
    stamp: Stamp,
) -> bool
    requires { IsOfClient name.now client.old }
    ensures given_up { IsTrue result → IsGivenUp seen.new name.now.tenant stamp }
    ensures later { IsPrefix seen.old seen.new }
    ensures legal { ∥ IsLegal seen.old ∥₁ → ∥ IsLegal seen.new ∥₁ }
    ensures whose { IsOfClient name.now client.new }
{
    let Some(its) = client else {
        return false;
    };
    let Ok(()) = its.give_up(stamp) else {
        return false;
    };
    seen.learn(&its.seen());
    true
}

impl<'a, G: Gate + Naming> RunningOperation<'a, G> {
    ghost use Rattle.std.specs.Prelude.{◌≡◌, ◌<◌, ◌≤◌, ◌+◌, ◌^◌, ℕ, [], ◌∷◌, ◌++◌, List, Option, true, false, None, Some, Ok, Err, IfErr, IfOk, IfSome, IfNone, OnOk, OnErr, IsSome, IsNone, IsTrue, ◌↔◌, length, map, slice_get};
    ghost use Rattle.stamps.specs.Bounds.{IsParts};
    ghost use Rattle.plain_store.specs.declared.calls.Reply.{Reply as Served};
    ghost use Rattle.plain_store.specs.declared.answer.Rows.{Rows as Told};
    ghost use Rattle.plain_store.specs.declared.reading.Reading.{Reading as Shown};
    ghost use Rattle.tenant_sessions.specs.Moves.{moved, is_last, answer_of, ending};
    ghost use Rattle.entry_list.specs.declared.kinds.Entry.{Entry as Entered};
    ghost use Rattle.shard.specs.declared.jobs.Fault.{Fault as Broken};
    ghost use Rattle.hub.specs.Limits.{max_calls};
    ghost use Rattle.hub.specs.Operating.{BeginsAs, EntersReply, FollowsMove, GoesOnAs, IsUnderWayAt, KeepsSession, OnlyEnters, OnlySends, Performs, SeesMore, SendsOn, StagesOne, StartsUnder, TakesReplies};
    ghost use Rattle.hub.specs.Rooms.{HasPlaces, HasRoom, awaited};
    ghost use Rattle.tenant_sessions.specs.CallsLeft.{calls_left, calls_waiting, calls_sent};
    ghost use Rattle.plain_store.specs.declared.refusal.Refusal.{Refusal as Why};
    ghost use Rattle.hub.specs.Requests.{act_of, calls_for, test_of};
    ghost use Rattle.plain_store.specs.History.{Intent as Asked};
    ghost use Rattle.plain_store.specs.Words.{Setup};
    ghost use Rattle.hub.specs.Sights.{operation_of};
    ghost use mathlib.Core.List.{IsPrefix};
    ghost use Rattle.hub.specs.Replies.{IsUnder};
    ghost use Rattle.hub.specs.Evidence.{IsLookedAt};
    ghost use Rattle.hub.specs.Clocks.{IsReported};
    ghost use Rattle.hub.specs.Evidence.{no_mark};
    ghost use Rattle.stamps.specs.Stamp.{stamp};
    ghost use Rattle.hub.specs.Seats.{at_seat, is_final, outcome_of, recorded, spare, EndsSo, Follows, Extends};
    ghost use Rattle.shard.specs.Asked.{without_reply};
    ghost use Rattle.plain_store.specs.Run.{call_message};
    ghost use Rattle.plain_store.specs.declared.message.Message.{Message as Sent};
    ghost use Rattle.tenant_sessions.specs.Running.{waiting_calls, RunningStands};
    ghost use Rattle.tenant_sessions.specs.declared.running.Running.{Running};
    ghost use Rattle.hub.specs.Taken.{replies_in};
    ghost use Rattle.hub.specs.Staging.{AreStagedBehind, IsStagedNext};
    ghost use Rattle.history.specs.Legal.{IsLegal, IsOfPut};
    ghost use Rattle.hub.specs.Evidence.{AreOfPuts, MayBeDecided};
    ghost use Rattle.tenant_sessions.specs.Moves.{sends_calls};
    ghost use Rattle.tenant_sessions.specs.Sending.{SendsSo, waiting_of};
    ghost use Rattle.tenant_sessions.specs.declared.moves.MoveKind.TheVariants.{Decided as Decides};

    /// What a seat that has just begun has: no call sent and no entry.
    pub(crate) fn new(
        alloc: Global,
        name: SeatName,
        dispatcher: Dispatcher<'a, G>,
        session: ClientSession,
        readings: Box<Readings>,
        seen: Front<G>,
        client: TracedClient<G>,
        clock: &'a Tally<G>,
    ) -> RunningOperation<'a, G>
        requires open { session.is_open ≡ true }
        requires whose { IsOfClient name (Some client) }
        requires clock { IsClockOf clock.now.key name.tenant }
        requires legal { ∥ IsLegal seen ∥₁ }
        requires recorded { name.is_recorded ≡ true }
        ensures given { (result.name ≡ name) × (result.dispatcher ≡ dispatcher.entry)
            × (result.session ≡ session) × (result.readings ≡ readings) × (result.seen ≡ seen) }
        ensures begun { (result.first ≡ 0) × (result.entries.items ≡ []) × (result.place ≡ None)
            × (result.fault ≡ None) × (result.mark ≡ no_mark) }
    {
        RunningOperation {
            name,
            dispatcher,
            session,
            entries: SeatEntries::new(alloc),
            seen,
            mark: NO_MARK,
            client: Some(client),
            clock,
            first: 0,
            place: None,
            fault: None,
            readings,
        }
    }

    /// Makes room for an operation in a store of so many partitions, for every call that it can send, whatever replies come, enters
    /// that it began, and looks at its tenant's clock, as `look` does. Where an allocation failed, nothing was entered.
    pub(crate) fn prepare(
        &mut self,
        parts: u32,
        request: &SeatRequest<'_>,
    ) -> Result<u64, AllocError>
        requires { IsParts parts }
        ensures began { OnOk result (self.new.entries.items
            ≡ self.old.entries.items
            ++ Entry.Began (act_of self.old.name.client request.now) ∷ []) }
        ensures refused { OnErr result ((self.new.entries.items ≡ self.old.entries.items)
            × (self.new.seen ≡ self.old.seen)) }
        ensures looked { IfOk result
            (λ number. IsLookedAt request.now number self.new.name.tenant self.new.seen) }
        ensures room { OnOk result (max_calls + 5 ≤ self.new.entries.room) }
        ensures calls { OnOk result (HasRoom (calls_for parts request.now) self.new.dispatcher) }
        ensures place { OnOk result (IsSome self.new.place) }
        ensures fault { OnOk result (IsNone self.new.fault) }
        ensures awaited { awaited self.new.dispatcher ≡ awaited self.old.dispatcher }
        ensures keeps { BeginsAs self.old self.new }
    {
        self.dispatcher.reserve(request.most_calls(parts))?;
        self.entries
            .push_began(&request.lent(self.name.client), MOST_ROOM)?;
        self.place = Some(AnswerRoom);
        self.fault = None;
        Ok(self.look(request))
    }

    /// Looks at its tenant's clock before a read or a search, and answers how many entries that has: of each put that was reported under
    /// this number or a lower one, it has seen then all that the put's seat had seen. Before a put it does nothing.
    pub(crate) fn look(&mut self, request: &SeatRequest<'_>) -> u64
        ensures looked { IsLookedAt request.now result self.new.name.tenant self.new.seen }
        ensures more { SeesMore self.old self.new }
    {
        match request {
            SeatRequest::Put(_) => 0,
            _ => self.seen.look(self.clock),
        }
    }

    /// Reports to its tenant's clock, behind all that it has seen, and answers the number of that entry. None where the clock was overrun.
    pub(crate) fn report(&mut self) -> Option<u64>
        ensures reported { IsReported result self.old.seen self.new.seen self.old.name.tenant }
        ensures more { SeesMore self.old self.new }
    {
        let mut front = self.seen.again();
        let place = front.tell(self.clock, &self.seen, self.name.tenant);
        self.learn(&front);
        place
    }

    /// Begins the operation that was prepared, and enters that in the history. Answers the stamp under which it writes,
    /// if it writes.
    ///
    /// None where nothing is to be sent: the session refused it, and that is its answer; or what began could not be
    /// entered, which is a fault.
    pub(crate) fn begin(
        &mut self,
        parts: u32,
        request: &SeatRequest<'_>,
        answer: &mut Answer,
    ) -> Option<Stamp>
        requires parts { IsParts parts }
        requires place { IsSome self.old.place }
        requires fault { IsNone self.old.fault }
        requires room { max_calls + 5 ≤ self.old.entries.room }
        requires calls { HasRoom (calls_for parts request.now) self.old.dispatcher }
        ensures begun { IfSome result
            (λ own. StartsUnder parts request.now own self.old self.new answer.new) }
        ensures over { IfNone result
            (Performs parts 0 request.now (outcome_of self.new.fault self.new.place)
            self.old self.new answer.new) }
        ensures refused { (refusal : Why) → test_of self.old.session request.now ≡ Err refusal
            → (answer.new ≡ Answer.Refused refusal)
            × (outcome_of self.new.fault self.new.place ≡ Ok tt) }
    {
        let client = self.name.client;
        match request.start(&mut self.session, client, parts) {
            Ok(()) => {
                let own = self.last_stamp();
                let name = &self.name;
                let Some(mark) = enter_begun(&mut self.client, &mut self.seen, name, own, request)
                else {
                    self.fault = Some(Fault::NoTenant);
                    return None;
                };
                self.mark = mark;
                Some(own)
            }
            Err(refusal) => {
                tell_refusal(refusal, answer);
                self.enter_answer(answer);
                None
            }
        }
    }

    /// The stamp that the session drew last, that of what has just begun, if it writes.
    fn last_stamp(&self) -> Stamp
        ensures value { 0 < self.now.session.counter
            → result ≡ stamp self.now.session.counter self.now.name.client }
        // A client's number is below what a counter is multiplied by.
        ensures client { self.now.name.client < 65536 }
    {
        let counter = self.session.counter().get();
        Stamp::new(counter, self.name.client.get()).unwrap_or(Stamp::ZERO)
    }

    /// From now on it has seen what the other has.
    pub(crate) fn learn(&mut self, other: &Front<G>)
        ensures learned { IsPrefix other.now self.new.seen }
        ensures more { SeesMore self.old self.new }
    {
        self.seen.learn(other);
    }

    /// Draws from its tenant's clock above the session's counter, and raises that to one below what was drawn, which it enters: the session
    /// ends, and begins again from there. It fails where the clock gave none (26), and where room for the entries was refused (30); nothing
    /// has changed then.
    pub(crate) fn draw(&mut self) -> Result<(), Refusal>
        ensures drawn { OnOk result (IsDrawnBehind self.old.seen self.new.seen
            (record { tenant = self.old.name.tenant; counter = self.new.session.counter + 1 })) }
        ensures entered { OnOk result (self.new.entries.items ≡ self.old.entries.items
            ++ raise_entries self.old.name.client self.new.session.counter) }
        ensures later { IsPrefix self.old.seen self.new.seen }
        ensures counter { self.old.session.counter ≤ self.new.session.counter }
        ensures rest { (self.new.name ≡ self.old.name)
            × (self.new.dispatcher ≡ self.old.dispatcher)
            × (self.new.first ≡ self.old.first) × (self.new.mark ≡ self.old.mark) }
        ensures unchanged { OnErr result ((self.new.seen ≡ self.old.seen)
            × (self.new.session ≡ self.old.session)
            × (self.new.entries.items ≡ self.old.entries.items)) }
        ensures refused { IfErr result IsDrawRefusal }
    {
        let floor = self.session.counter().get();
        let mut front = self.seen.again();
        let drawn = front.draw_next(self.clock, &self.seen, self.name.tenant, floor);
        let Some(base) = counter_below(drawn) else {
            return Err(Refusal::RowsUsed);
        };
        let Ok(()) = self.entries.push_raise(self.name.client, base) else {
            return Err(Refusal::OutOfMemory);
        };
        self.learn(&front);
        let _ = self.session.stop();
        let _ = self.session.reopen(base);
        Ok(())
    }

    /// Hands out the entries so far, or none where they are not recorded.
    pub(crate) fn drain(&mut self) -> EntryList
        ensures handed { (result.items ≡ recorded self.old.name self.old.entries.items)
            × (self.new.entries.items ≡ []) }
        ensures rest { (self.new.name ≡ self.old.name) × (self.new.dispatcher ≡ self.old.dispatcher)
            × (self.new.session ≡ self.old.session) × (self.new.first ≡ self.old.first)
            × (self.new.place ≡ self.old.place) × (self.new.fault ≡ self.old.fault)
            × (self.new.readings ≡ self.old.readings) × (self.new.seen ≡ self.old.seen)
            × (self.new.mark ≡ self.old.mark) }
    {
        self.entries.take()
    }

    /// Forgets the entries so far, and records none from now on.
    pub(crate) fn stop_recording(&mut self)
        ensures none { self.new.entries.items ≡ [] }
        ensures name { self.new.name ≡ record self.old.name { is_recorded = false } }
        ensures rest { (self.new.dispatcher ≡ self.old.dispatcher)
            × (self.new.session ≡ self.old.session) × (self.new.first ≡ self.old.first)
            × (self.new.place ≡ self.old.place) × (self.new.fault ≡ self.old.fault)
            × (self.new.readings ≡ self.old.readings) × (self.new.seen ≡ self.old.seen)
            × (self.new.mark ≡ self.old.mark) }
    {
        self.entries.stop_recording();
        self.name.is_recorded = false;
    }

    /// Forgets the entries so far, and keeps their memory for those to come.
    pub(crate) fn forget(&mut self)
        ensures none { self.new.entries.items ≡ [] }
        ensures rest { (self.new.name ≡ self.old.name) × (self.new.dispatcher ≡ self.old.dispatcher)
            × (self.new.session ≡ self.old.session) × (self.new.first ≡ self.old.first)
            × (self.new.place ≡ self.old.place) × (self.new.fault ≡ self.old.fault)
            × (self.new.readings ≡ self.old.readings) × (self.new.seen ≡ self.old.seen)
            × (self.new.mark ≡ self.old.mark) }
    {
        self.entries.clear();
    }

    /// Ends the session at this hub, after so many transactions, with the counter that it has come to, and gives its client's word back,
    /// if that is here.
    pub(crate) fn leave<R: Wait>(&mut self, rt: &R, hub: &Hub<G>, ticket: u64) -> Departure
        ensures left { IsDeparture self.old.name self.old.session.counter ticket
            (is_some self.old.client) result }
        ensures rest { (self.new.name ≡ self.old.name) × (self.new.dispatcher ≡ self.old.dispatcher)
            × (self.new.session ≡ self.old.session) × (self.new.entries ≡ self.old.entries)
            × (self.new.first ≡ self.old.first) × (self.new.seen ≡ self.old.seen)
            × (self.new.mark ≡ self.old.mark) }
    {
        let counter = self.session.counter();
        let client = self.client.take();
        hub.leave(rt, &self.name, counter, ticket, client)
    }

    /// Ends an operation: counts the calls that it staged, and says whether there were any.
    pub(crate) fn count(&mut self) -> bool
        requires { self.old.first + max_calls ≤ 2 ^ 62 }
        ensures sent { IsTrue result ↔ (0 < self.old.dispatcher.sent) }
        ensures first { self.new.first ≡ self.old.first + self.old.dispatcher.sent }
        ensures few { (self.old.first ≤ self.new.first)
            × (self.new.first ≤ self.old.first + max_calls) }
        ensures entries { self.new.entries ≡ self.old.entries }
        ensures keeps { KeepsSession self.old self.new }
        ensures dispatcher { self.new.dispatcher ≡ self.old.dispatcher }
    {
        let sent = self.dispatcher.sent() as u64;
        self.first += sent;
        sent > 0
    }

    /// How the operation ended: with its first fault, and as one of no tenant where nothing was answered.
    pub(crate) fn outcome(&self) -> Result<(), Fault>
        ensures { result ≡ outcome_of self.now.fault self.now.place }
    {
        match self.fault {
            Some(fault) => Err(fault),
            None if self.place.is_some() => Err(Fault::NoTenant),
            None => Ok(()),
        }
    }

    /// Sends the calls of the operation that the session has begun, under this stamp if it writes, and takes replies until
    /// each call was answered, or so many were taken, or none can come. What a reply has the session ask for is sent
    /// before the next one is taken.
    ///
    /// After a fault nothing is entered any more. A call that did not go out, which is never for want of room, is one,
    /// and so is a reply that cannot come, or is still to come then.
    pub(crate) fn exchange<R: Wait>(
        &mut self,
        rt: &R,
        own: Stamp,
        takes: usize,
        answer: &mut Answer,
    )
        requires room { max_calls + spare self.old.place ≤ self.old.entries.room }
        requires calls { HasRoom (calls_waiting self.old.session.running
            + calls_left self.old.session.running) self.old.dispatcher }
        requires puts { ∥ AreOfPuts
            self.old.seen self.old.name.tenant (waiting_of self.old.session.running) ∥₁ }
        requires under_way { IsUnderWayAt
            (operation_of self.old.name self.old.mark self.old.seen) own self.old answer.old }
        ensures over { IsSome self.old.fault
            → (self.new.fault ≡ self.old.fault) × (self.new.entries ≡ self.old.entries) }
        ensures awaited { IsNone self.new.fault → awaited self.new.dispatcher ≡ 0 }
        ensures ends { EndsSo self.old.place answer.old → EndsSo self.new.place answer.new }
        ensures runs { TakesReplies takes own self.old answer.old self.new answer.new }
    {
        self.stage_calls(false);
        let most = takes.min(MOST_CALLS);
        for taken in 0..MOST_CALLS + 1 {
            let sent = self.dispatcher.dispatch(rt);
            self.fault = first_fault(self.fault, sent);
            if taken >= most || !self.dispatcher.awaits() {
                break;
            }
            let Some(reply) = self
                .dispatcher
                .next_reply(rt, &self.name, self.first, self.mark)
            else {
                self.fault = first_fault(self.fault, false);
                break;
            };
            self.seen.learn(&reply.front);
            self.enter_reply(own, &reply, answer);
            let SeatReply { message, .. } = reply;
            let dispatcher = &mut self.dispatcher;
            dispatcher.pool.keep(message);
        }
        self.fault = first_fault(self.fault, !self.dispatcher.awaits());
    }

    /// Enters a reply to a call of the operation under this stamp, which this thread or a worker served, hands it to the session, and
    /// follows its move. One that was not served is a fault, and so is one to a PREPARE or COMMIT under another stamp than this, and one
    /// of another partition than the call was made for. After a fault nothing is entered any more.
    fn enter_reply(&mut self, own: Stamp, reply: &SeatReply<G>, answer: &mut Answer)
        requires room { 1 + spare self.old.place ≤ self.old.entries.room }
        requires calls { HasRoom (calls_left self.old.session.running) self.old.dispatcher }
        requires own { (reply.now.tenant ≡ self.old.name.tenant)
            × (reply.now.seat ≡ self.old.name.seat) × (reply.now.mark ≡ self.old.mark)
            × IsPrefix reply.now.front self.old.seen }
        requires under_way { IsUnderWayAt
            (operation_of self.old.name self.old.mark self.old.seen) own self.old answer.old }
        ensures calls { HasRoom (calls_left self.new.session.running) self.new.dispatcher }
        ensures under_way { IsUnderWayAt
            (operation_of self.old.name self.old.mark self.new.seen) own self.new answer.new }
        ensures took { (place : ℕ) (told : Served) → IsNone self.old.fault
            → reply.now.outcome ≡ Ok place → reply.now.message.value.reply ≡ Some told
            → IsUnder own reply.now.message.value.call
            → reply.now.message.value.partition ≡ reply.now.partition
            → Extends (self.old.entries.items
            ++ Entry.Took reply.now.number reply.now.partition place told
            ∷ []) self.new.entries.items }
        ensures refused { (fault : Broken) → IsNone self.old.fault → reply.now.outcome ≡ Err fault
            → (self.new.fault ≡ Some fault) × (self.new.entries ≡ self.old.entries) }
        ensures over { IsSome self.old.fault
            → (self.new.fault ≡ self.old.fault) × (self.new.entries ≡ self.old.entries) }
        ensures takes { EntersReply own reply.now self.old answer.old self.new answer.new }
    {
        if self.fault.is_some() {
            return;
        }
        let place = match reply.outcome {
            Ok(place) => place,
            Err(refused) => {
                self.fault = Some(refused);
                return;
            }
        };
        let message = &*reply.message;
        let Some(told) = &message.reply else {
            self.fault = Some(Fault::NoTenant);
            return;
        };
        if !is_under(&message.call, own) || message.partition != reply.partition {
            self.fault = Some(Fault::NoTenant);
            return;
        }
        self.push_took(reply.number, reply.partition, place, told);
        let mut taken = MoveKind::Ignored;
        self.session
            .move_into(message, &mut *self.readings, &mut taken);
        self.follow(&taken, message.ticket, answer);
    }

    /// Follows the session's move: stages the calls that it asks for, or enters the answer that it ends the operation with and
    /// stages the calls of that end. Their replies are taken like any others.
    fn follow(&mut self, taken: &MoveKind, ticket: u64, answer: &mut Answer)
        requires room { spare self.old.place ≤ self.old.entries.room }
        requires calls { HasRoom
            (calls_sent (moved taken.now self.old.readings.value)
            (calls_waiting self.old.session.running)
            + calls_left self.old.session.running) self.old.dispatcher }
        requires asks { SendsSo (moved taken.now self.old.readings.value)
            (waiting_of self.old.session.running) }
        requires decided { (stamp : ℕ) → taken.now ≡ Decides stamp
            → ∥ MayBeDecided self.old.seen self.old.name.tenant stamp ∥₁ }
        ensures calls { HasRoom (calls_left self.old.session.running) self.new.dispatcher }
        ensures moves { FollowsMove taken.now self.old answer.old self.new answer.new }
        ensures counted { self.old.dispatcher.sent ≤ self.new.dispatcher.sent }
        ensures sent { IsNone self.new.fault
            → self.new.dispatcher.sent
            ≡ self.old.dispatcher.sent
            + calls_sent (moved taken.now self.old.readings.value)
            (calls_waiting self.old.session.running) }
        ensures session { self.new.session ≡ self.old.session }
        ensures same { GoesOnAs self.old self.new }
    {
        if taken.is_last() {
            self.enter_end(taken, answer);
            if !self.stage_discards(taken, ticket) {
                self.fault = Some(Fault::NoTenant);
            }
        } else if taken.sends() && !self.stage_asked(taken) {
            self.fault = Some(Fault::NoTenant);
        }
    }

    /// Stages the calls that a move asks for, and says whether it did. Where a put is decided by it, that is entered first.
    fn stage_asked(&mut self, taken: &MoveKind) -> bool
        requires room { HasRoom (calls_waiting self.old.session.running) self.old.dispatcher }
        requires sends { sends_calls (moved taken.now self.old.readings.value) ≡ true }
        requires asks { SendsSo (moved taken.now self.old.readings.value)
            (waiting_of self.old.session.running) }
        requires decided { (stamp : ℕ) → taken.now ≡ Decides stamp
            → ∥ MayBeDecided self.old.seen self.old.name.tenant stamp ∥₁ }
        ensures room { (calls : ℕ)
            → HasRoom (calls_waiting self.old.session.running + calls) self.old.dispatcher
            → HasRoom calls self.new.dispatcher }
        ensures sent { IsTrue result
            → self.new.dispatcher.sent
            ≡ self.old.dispatcher.sent + calls_waiting self.old.session.running }
        ensures rest { SendsOn self.old self.new }
    {
        let name = &self.name;
        if !enter_decided(&mut self.client, &mut self.seen, name, taken) {
            return false;
        }
        self.stage_calls(sends_commits(taken));
        true
    }

    /// Enters the answer that a move ends the operation with, once.
    fn enter_end(&mut self, taken: &MoveKind, answer: &mut Answer)
        requires last { is_last (moved taken.now self.old.readings.value) ≡ true }
        requires room { spare self.old.place ≤ self.old.entries.room }
        ensures only { OnlyEnters self.old self.new }
        ensures moves { FollowsMove taken.now self.old answer.old self.new answer.new }
    {
        if !self.place.is_some() {
            return;
        }
        tell_end(taken, &self.readings, answer);
        self.enter_answer(answer);
    }

    /// Enters the answer of an operation that was not answered yet.
    fn enter_answer(&mut self, answer: &Answer)
        requires place { IsSome self.old.place }
        requires room { spare self.old.place ≤ self.old.entries.room }
        ensures only { OnlyEnters self.old self.new }
        ensures answered { IsNone self.new.place }
        ensures answer { self.new.entries.items
            ≡ self.old.entries.items ++ Entry.Answered answer.now ∷ [] }
        ensures replies { replies_in self.new.entries.items ≡ replies_in self.old.entries.items }
        ensures room { self.old.entries.room + spare self.new.place
            ≤ self.new.entries.room + spare self.old.place }
        ensures entered { (start : List Entered) → Follows start None self.old.entries.items
            → Follows start (Some answer.now) self.new.entries.items }
        ensures kept { Extends self.old.entries.items self.new.entries.items }
    {
        if self.place.take().is_some() {
            self.entries.push_answered(answer);
        }
    }

    /// Enters a reply that was taken: to which call of the seat, from which partition, and its place in the journal there.
    fn push_took(&mut self, number: u64, partition: u32, place: u64, reply: &Reply)
        requires { 0 < self.old.entries.room }
        ensures room { self.new.entries.room + 1 ≡ self.old.entries.room }
        ensures only { OnlyEnters self.old self.new }
        ensures took { self.new.entries.items
            ≡ self.old.entries.items ++ Entry.Took number partition place reply.now ∷ [] }
        ensures place { self.new.place ≡ self.old.place }
    {
        self.entries.push_took(number, partition, place, reply);
    }

    /// Stages the calls that the session waits for, in boxes for COMMITs or for others.
    fn stage_calls(&mut self, commits: bool)
        requires room { HasRoom (calls_waiting self.old.session.running) self.old.dispatcher }
        requires puts { ∥ AreOfPuts self.old.seen self.old.name.tenant
            (waiting_of self.old.session.running) ∥₁ }
        ensures room { (calls : ℕ)
            → HasRoom (calls_waiting self.old.session.running + calls) self.old.dispatcher
            → HasRoom calls self.new.dispatcher }
        ensures all { self.new.dispatcher.sent
            ≡ self.old.dispatcher.sent + calls_waiting self.old.session.running }
        ensures staged { (setup : Setup) (asked : Asked) (taken : List Sent) (running : Running)
            → self.old.session.running ≡ Some running → RunningStands setup asked taken running
            → AreStagedBehind self.old.name self.old.dispatcher.parts
            (self.old.first + 1 + self.old.dispatcher.sent)
            (map (call_message self.old.name.client self.old.session.ticket)
            (waiting_calls setup asked taken))
            self.old.dispatcher.calls.items self.new.dispatcher.calls.items }
        ensures rest { OnlySends self.old self.new }
    {
        let count = self.session.pending_calls().unwrap();
        for nth in 0..count {
            self.stage_call(nth, commits);
        }
    }

    /// Stages the call at this place, from 0, among those that the session waits for. It is made in the box in which it waits, one for
    /// a COMMIT or for another call.
    fn stage_call(&mut self, nth: u32, commits: bool)
        requires there { nth < calls_waiting self.old.session.running }
        requires room { HasRoom 1 self.old.dispatcher }
        requires puts { ∥ AreOfPuts self.old.seen self.old.name.tenant
            (waiting_of self.old.session.running) ∥₁ }
        ensures room { (calls : ℕ) → HasRoom (1 + calls) self.old.dispatcher
            → HasRoom calls self.new.dispatcher }
        ensures one { StagesOne self.old self.new }
        ensures staged { (setup : Setup) (asked : Asked) (taken : List Sent) (running : Running)
            → self.old.session.running ≡ Some running → RunningStands setup asked taken running
            → IsStagedNext self.old.name self.old.dispatcher.parts
            (self.old.first + 1 + self.old.dispatcher.sent)
            (slice_get
            (map (call_message self.old.name.client self.old.session.ticket)
            (waiting_calls setup asked taken)) nth)
            self.old.dispatcher.calls.items self.new.dispatcher.calls.items }
    {
        let dispatcher = &mut self.dispatcher;
        let mut message = dispatcher.pool.take(commits);
        let is_made = self.session.call_over(self.name.client, nth, &mut message);
        prove!(is_made);
        self.stage(message);
    }

    /// Stages the calls that a move sends at its operation's end, if there are any, and says whether it did. They are DISCARDs of a put
    /// that was refused, which is entered first.
    fn stage_discards(&mut self, taken: &MoveKind, ticket: u64) -> bool
        requires { HasRoom
            (length (ending (moved taken.now self.old.readings.value))) self.old.dispatcher }
        ensures room { (calls : ℕ)
            → HasRoom (length (ending (moved taken.now self.old.readings.value))
            + calls) self.old.dispatcher → HasRoom calls self.new.dispatcher }
        ensures sent { IsTrue result → (told : List Shown)
            → self.new.dispatcher.sent
            ≡ self.old.dispatcher.sent + length (ending (moved taken.now told)) }
        ensures rest { SendsOn self.old self.new }
    {
        if !taken.has_ending(0) {
            return true;
        }
        let name = &self.name;
        if !enter_given_up(&mut self.client, &mut self.seen, name, taken.discarded()) {
            return false;
        }
        self.stage_ending(taken, ticket);
        true
    }

    /// Stages the calls that a move sends at its operation's end.
    fn stage_ending(&mut self, taken: &MoveKind, ticket: u64)
        requires room { HasRoom
            (length (ending (moved taken.now self.old.readings.value))) self.old.dispatcher }
        requires puts { AreOfPuts self.old.seen self.old.name.tenant
            (ending (moved taken.now self.old.readings.value)) }
        ensures room { (calls : ℕ)
            → HasRoom (length (ending (moved taken.now self.old.readings.value))
            + calls) self.old.dispatcher → HasRoom calls self.new.dispatcher }
        ensures all { (told : List Shown)
            → self.new.dispatcher.sent
            ≡ self.old.dispatcher.sent + length (ending (moved taken.now told)) }
        ensures staged { (told : List Shown)
            → AreStagedBehind self.old.name self.old.dispatcher.parts
            (self.old.first + 1 + self.old.dispatcher.sent)
            (map (call_message self.old.name.client ticket)
            (ending
            (moved taken.now told)))
            self.old.dispatcher.calls.items self.new.dispatcher.calls.items }
        ensures rest { OnlySends self.old self.new }
    {
        for nth in 0..MOST_CALLS as u32 {
            if !taken.has_ending(nth) {
                return;
            }
            self.stage_ending_call(taken, ticket, nth);
        }
    }

    /// Stages the call at this place, from 0, among those that a move sends at its operation's end. It is made in the box in which
    /// it waits.
    fn stage_ending_call(&mut self, taken: &MoveKind, ticket: u64, nth: u32)
        requires there { nth < length (ending (moved taken.now self.old.readings.value)) }
        requires room { HasRoom 1 self.old.dispatcher }
        requires puts { AreOfPuts self.old.seen self.old.name.tenant
            (ending (moved taken.now self.old.readings.value)) }
        ensures room { (calls : ℕ) → HasRoom (1 + calls) self.old.dispatcher
            → HasRoom calls self.new.dispatcher }
        ensures one { StagesOne self.old self.new }
        ensures staged { (told : List Shown)
            → IsStagedNext self.old.name self.old.dispatcher.parts
            (self.old.first + 1 + self.old.dispatcher.sent)
            (slice_get
            (map (call_message self.old.name.client ticket)
            (ending
            (moved taken.now told))) nth)
            self.old.dispatcher.calls.items self.new.dispatcher.calls.items }
    {
        let dispatcher = &mut self.dispatcher;
        let mut message = dispatcher.pool.take(false);
        let is_made = taken.ending_into(self.name.client, ticket, nth, &mut message);
        prove!(is_made);
        self.stage(message);
    }

    /// Stages what was made in a box as the next call of the operation's.
    fn stage(&mut self, message: Box<Message>)
        requires places { HasPlaces 1 self.old.dispatcher }
        requires put { ∥ IsOfPut self.old.seen self.old.name.tenant message.value.call ∥₁ }
        ensures room { (calls : ℕ) → HasPlaces (1 + calls) self.old.dispatcher
            → HasPlaces calls self.new.dispatcher }
        ensures pool { self.new.dispatcher.pool ≡ self.old.dispatcher.pool }
        ensures one { StagesOne self.old self.new }
        ensures staged { IsStagedNext self.old.name self.old.dispatcher.parts
            (self.old.first + 1 + self.old.dispatcher.sent)
            (Some
            (without_reply message.value))
            self.old.dispatcher.calls.items self.new.dispatcher.calls.items }
    {
        let number = self.first + 1 + self.dispatcher.sent() as u64;
        self.dispatcher
            .stage(&self.name, number, message, self.mark, &self.seen);
    }
}
