//! A session: the lines of one connection, answered by a running store.
ghost use Rattle.std.specs.Prelude.{◌≡◌, ◌+◌, ◌<◌, ◌≤◌, ◌++◌, false, length, take, ℕ, List, [], ◌↔◌, Option, Some, None, IfSome, IfNone, IsSome, IsTrue, IfOk, IfErr, OnOk};
ghost use Rattle.std.specs.Option.{option_map};
ghost use Rattle.std.specs.Io.KnownBytes.{Appends, Keeps};
ghost use Rattle.plain_store.specs.declared.answer.Answer.TheVariants.{Refused};
ghost use Rattle.plain_store.specs.declared.refusal.Refusal.TheVariants.{BadLine, NoTenant, OutOfMemory};
ghost use Rattle.line_protocol.specs.AnswerSpelling.{answer_line};
ghost use Rattle.server_sessions.specs.Said.{Answers, said_line};
ghost use Rattle.line_protocol.specs.StepSpelling.{IsNumberOf};
ghost use Rattle.line_protocol.specs.Stream.{HasNoLineFeed, IsLine, terminated};
ghost use Rattle.line_runs.specs.RunAnswers.{Gathers};
ghost use Rattle.line_runs.specs.declared.fault.RunFault.TheVariants.{Write as IsWrite};
ghost use Rattle.server_sessions.specs.Answered.{BreaksOffIn, IsEndOf, TakesBytes, TakesInput};
ghost use Rattle.server_sessions.specs.declared.line_session.SessionEnd.TheVariants.{Unread};
ghost use Rattle.server_sessions.specs.Answering.{Greets, IsEndOfInput, IsGreeted, last_line, no_options, refused_as};
ghost use Rattle.server_sessions.specs.Departed.{GivesBack, IsEndCounted};
ghost use Rattle.server_sessions.specs.Counting.{IsCounted, counted_last, counted_said};
ghost use Rattle.server_sessions.specs.Promised.{AnswersLine, EndsAtLine, HasRun, KeepsTelling, MayAnswer};
ghost use Rattle.server_sessions.specs.Receipts.{IsRunBy, kept_of};
ghost use Rattle.server_sessions.specs.SeatAnswers.{IsDrained};
ghost use Rattle.server_sessions.specs.Telling.{IsLastLine, IsSeated, SessionLeft as LeftBehind, Tells};
ghost use Rattle.server_sessions.specs.TenantCounting.{counted_for, last_of_tenant, said_of_tenant, whose};

use crate::answer_counts::{AnswerCounts, Counted};
use crate::given::{Given, ask_seat, put_answer};
use crate::open_seat::open_seat;
use crate::session_options::SessionOptions;
use crate::tenant_counts::TenantCounted;
use bytes::BytesMut;
use hub::{Departure, Front, Gate, Hub, Naming, Seat, Transcript};
use line_protocol::{
    LINE_LIMIT, Lines, Name, Request, read_serve_line, tenant_number, write_bye, write_refusal,
};
use line_runs::{GATHERED, READ_LIMIT, RunFault, flush, read_buffer};
use plain_store::{Answer, Refusal};
use stamps::{Client, Counter, Item, Keep};
use std::alloc::Global;
use std::io::{Read, Write};
use std::sync::Wait;

/// What a session left that opened a seat: its transcript, and what the seat has seen of the store's history at last.
pub type SessionLeft<G> = (Transcript, Front<G>);

/// By which names the tenants go, how lines are answered, and where the answers are counted.
#[derive(Clone, Copy)]
struct Terms<'s> {
    names: &'s [Name],
    options: SessionOptions,
    counts: Option<&'s AnswerCounts>,
}

/// The receipt of a session that was run, and what it left: by which store its lines were answered, and on which terms. If it opened a seat, that
/// has left the hub, where its client's number is free again, and was counted as closed. `run_session_as` alone makes one.
#[derive(Drop)]
pub struct SessionRun<'s, G: Naming> {
    hub: &'s Hub<G>,
    terms: Terms<'s>,
    left: Option<SessionLeft<G>>,
    departure: Option<Departure>,
    closed: Option<TenantCounted>,
}

impl<G: Naming> SessionRun<'_, G> {
    /// What it left, if it opened a seat.
    pub fn into_left(self) -> Option<SessionLeft<G>>
        ensures { result ≡ self.entry.left }
    {
        self.left
    }

    /// What is kept of it: nothing where journals are cut, since nothing is settled at the end.
    pub(crate) fn into_kept(self) -> Option<SessionLeft<G>>
        ensures { result ≡ kept_of self.entry.hub.now.epoch self.entry.left }
    {
        if self.hub.epoch() == 0 {
            self.left
        } else {
            None
        }
    }
}

/// What answers the lines of one connection.
#[derive(Drop)]
struct Connection<'s, G: Naming> {
    alloc: Global,
    terms: Terms<'s>,
    seat: Option<Seat<'s, G>>,
    // The tenant that the last `hello` named while there was no seat, if one goes by that name.
    named: Option<u32>,
    // What the line before was answered, and the place for the next answer.
    answer: Given,
}

/// Why no more lines are answered.
#[derive(Clone, Copy)]
enum SessionEnd {
    /// The input ended after a whole line or before any byte, or an allocation failure was answered.
    Silent,
    /// `bye` was read, and is still to be answered.
    Bye,
    /// A line could not be read before a seat was there, in a strict session, as is still to be answered.
    Unread,
    /// A line was too long or cut, as is still to be answered.
    Refused(Refusal),
}

/// Answers the lines of one connection as [`run_session_as`] does, of a session without options: a line that can't be read
/// is refused 40, and the session goes on, and a put takes its counter from its client's session, not from a clock.
pub fn run_session<'s, G: Gate + Naming, H: Wait, R: Read, W: Write>(
    rt: &H,
    alloc: Global,
    hub: &'s Hub<G>,
    names: &'s [Name],
    reader: &mut R,
    writer: &mut W,
) -> (Option<Transcript>, Result<(), RunFault>)
    ensures { (left : Option LeftBehind) × (result.0 ≡ option_map (λ its. its.0) left)
        × HasRun no_options hub.now names.now (R.remaining reader.old)
        (W.contents writer.old) (W.contents writer.new) left result.1 }
{
    let options = SessionOptions {
        strict: false,
        newest: false,
        store: 0,
    };
    let (run, ended) = run_session_as(rt, alloc, hub, names, options, None, reader, writer);
    (transcript_of(run.into_left()), ended)
}

// The transcript of a session's seat, if it opened one.
fn transcript_of<G: Naming>(left: Option<SessionLeft<G>>) -> Option<Transcript>
    ensures { result ≡ option_map (λ its. its.0) left }
{
    match left {
        Some((transcript, _)) => Some(transcript),
        None => None,
    }
}

/// Answers the lines of one connection by the tenants of a running store, which go by these names, until the session
/// ends. The answers of all whole lines that were read are written before more is read. While answers wait to be written,
/// the writer is flushed before a line is answered: one that fails there has nobody who would take the answer, and no more
/// lines are answered.
///
/// `hello` opens a seat of the hub, of the client that it names, or of one whose number is free, which `ready` then names. `info` is
/// answered by the number of the store and by whether puts are to be newest, with a seat or without. `put`, `get` and `find` are answered by
/// the seat. With `newest` each put takes its stamp from the clock of its tenant (`Seat::put_by_clock`).
/// `keep` sets how many versions a collection of its tenant keeps. Before the seat is there these four are refused 11. A `hello` where the connection has a seat is refused 12, and changes nothing. A line that is none of a session's is
/// refused 40, and the session goes on; but where it is strict and has no seat, that ends it. `bye` ends it too, and so do a line that is
/// too long (41), an input that ends within a line (42) and an allocation failure (30), but as the answer to `hello`. However it ends, its
/// seat is ended, and that before the last of these answers is written.
///
/// Where counts are given, each answer is counted there before it is written.
///
/// Beside what the session came to stands its receipt: the store, the names, the options and the counts that were given; with the transcript
/// of its seat and what that has seen of the store's history, or nothing where none was opened. What was written is what the seat
/// answered: each reply that it took has its place in that history, whether journals are cut or not. The fault is
/// `Read` where a read failed, `ReadsUsed` after 2^62 reads, and `Write` where a write or a flush failed or a write took no
/// byte: nothing is read or written then, and no line is answered. `OutOfMemory` comes before anything is read.
pub fn run_session_as<'s, G: Gate + Naming, H: Wait, R: Read, W: Write>(
    rt: &H,
    alloc: Global,
    hub: &'s Hub<G>,
    names: &'s [Name],
    options: SessionOptions,
    counts: Option<&'s AnswerCounts>,
    reader: &mut R,
    writer: &mut W,
) -> (SessionRun<'s, G>, Result<(), RunFault>)
    ensures run { HasRun options hub.now names.now (R.remaining reader.old)
        (W.contents writer.old) (W.contents writer.new) result.0.left result.1 }
    ensures receipt { IsRunBy hub.now names.now options counts.entry result.0 }
{
    let terms = Terms {
        names,
        options,
        counts,
    };
    let Ok(mut out) = BytesMut::with_capacity(alloc, GATHERED) else {
        let run = SessionRun {
            hub,
            terms,
            left: None,
            departure: None,
            closed: None,
        };
        return (run, Err(RunFault::OutOfMemory));
    };
    let mut connection = Connection {
        alloc,
        terms,
        seat: None,
        named: None,
        answer: Given::new(),
    };
    let ended = answer_lines(rt, hub, &mut connection, &mut out, reader, writer);
    let tenant = connection.tenant();
    let terms = connection.terms;
    let (left, departure, closed) = end_seat(rt, connection.seat, terms.counts);
    let run = SessionRun {
        hub,
        terms,
        left,
        departure,
        closed,
    };
    match ended {
        Ok(ending) => {
            let counted = count_last(ending, tenant, terms.counts);
            let ended = finish(ending, tenant, terms.counts, counted, &mut out, writer);
            (run, ended)
        }
        Err(fault) => (run, Err(fault)),
    }
}

// Ends the seat, if one was opened, which gives its client's number back, and counts that where answers are counted, with the receipts.
fn end_seat<G: Gate + Naming, H: Wait>(
    rt: &H,
    seat: Option<Seat<'_, G>>,
    counts: Option<&AnswerCounts>,
) -> (
    Option<SessionLeft<G>>,
    Option<Departure>,
    Option<TenantCounted>,
)
    ensures { IsEndOf seat.entry result.0 × GivesBack result.0 result.1
        × IsEndCounted counts.entry result.0 result.2 }
{
    let Some(seat) = seat else {
        return (None, None, None);
    };
    let closed = match counts {
        Some(counts) => Some(counts.count_end(seat.tenant())),
        None => None,
    };
    let seen = seat.seen();
    let (transcript, departure) = seat.end_with_departure(rt);
    (Some((transcript, seen)), Some(departure), closed)
}

// Counts the last answer, where answers are counted, also of this tenant, if there is one, and answers the receipt.
fn count_last(
    ending: SessionEnd,
    tenant: Option<u32>,
    counts: Option<&AnswerCounts>,
) -> Option<Counted>
    ensures { IsCounted counts.entry (counted_last ending)
        (counted_for tenant (last_of_tenant ending)) result }
{
    let counts = counts?;
    Some(match ending {
        SessionEnd::Silent | SessionEnd::Bye => Counted::nothing(),
        SessionEnd::Unread => counts.count_refusal(Refusal::BadLine, tenant),
        SessionEnd::Refused(refusal) => counts.count_refusal(refusal, tenant),
    })
}

// Writes what is gathered, and the last answer, which was counted where answers are.
fn finish<W: Write>(
    ending: SessionEnd,
    _tenant: Option<u32>,
    _counts: Option<&AnswerCounts>,
    _counted: Option<Counted>,
    out: &mut BytesMut,
    writer: &mut W,
) -> Result<(), RunFault>
    requires room { LINE_LIMIT ≤ out.old.spare }
    requires counted { IsCounted _counts (counted_last ending)
        (counted_for _tenant (last_of_tenant ending)) _counted }
    ensures written { OnOk result ((last : List ℕ) × IsLastLine last
        × Appends (W.contents writer.old) (W.contents writer.new) (out.old.items ++ last)) }
    ensures begun { IfErr result (λ _. (last : List ℕ) × (n : ℕ) × IsLastLine last
        × Appends (W.contents writer.old) (W.contents writer.new)
        (take n (out.old.items ++ last))) }
    ensures last { OnOk result
        (Appends (W.contents writer.old) (W.contents writer.new) (out.old.items
        ++ last_line ending)) }
{
    put_last(ending, out);
    flush(out, writer)
}

// Gathers the last answer, for which there is room.
fn put_last(ending: SessionEnd, out: &mut BytesMut)
    requires { LINE_LIMIT ≤ out.old.spare }
    ensures told { (last : List ℕ) × IsLastLine last × (out.new.items ≡ out.old.items ++ last) }
    ensures last { out.new.items ≡ out.old.items ++ last_line ending }
{
    match ending {
        SessionEnd::Silent => {}
        SessionEnd::Bye => {
            if write_bye(out).is_err() {
                unreachable!();
            }
        }
        SessionEnd::Unread => put_refusal(Refusal::BadLine, out),
        SessionEnd::Refused(refusal) => put_refusal(refusal, out),
    }
}

// Gathers a refusal, for which there is room.
fn put_refusal(refusal: Refusal, out: &mut BytesMut)
    requires { LINE_LIMIT ≤ out.old.spare }
    ensures { out.new.items ≡ out.old.items ++ answer_line (Refused refusal) }
{
    if write_refusal(refusal, out).is_err() {
        unreachable!();
    }
}

// Answers lines until the session ends.
fn answer_lines<'s, G: Gate + Naming, H: Wait, R: Read, W: Write>(
    rt: &H,
    hub: &'s Hub<G>,
    connection: &mut Connection<'s, G>,
    out: &mut BytesMut,
    reader: &mut R,
    writer: &mut W,
) -> Result<SessionEnd, RunFault>
    requires { MayAnswer LINE_LIMIT out.old.spare connection.old.seat
        connection.old.terms.names.now }
    ensures keeps { let terms = connection.old.terms in
        KeepsTelling terms.options.newest hub.now.epoch connection.new.terms.names.now
        connection.old.seat connection.new.seat (W.contents writer.old) (W.contents writer.new)
        out.old.items out.new.items LINE_LIMIT out.new.spare result }
    ensures terms { connection.new.terms ≡ connection.old.terms }
    ensures answered { let terms = connection.old.terms in
        IfOk result (λ ending. IfSome (R.remaining reader.old) (λ input.
        TakesInput terms.options hub.now terms.names.now ending
        connection.old.seat connection.new.seat input
        (W.contents writer.old) (W.contents writer.new) out.old.items out.new.items)) }
    ensures broke { let terms = connection.old.terms in
        IfErr result (λ _. IfSome (R.remaining reader.old) (λ input.
        BreaksOffIn terms.options hub.now terms.names.now
        connection.old.seat connection.new.seat input
        (W.contents writer.old) (W.contents writer.new) out.old.items)) }
{
    let mut lines = Lines::open(connection.alloc)?;
    let mut buffer = read_buffer(connection.alloc)?;
    let piece = buffer.as_mut_slice();
    for _ in 0..READ_LIMIT {
        let Ok(taken) = reader.read(piece) else {
            return Err(RunFault::Read);
        };
        if taken == 0 {
            return Ok(ending_of(&lines));
        }
        let ending = answer_piece(
            rt,
            hub,
            connection,
            &mut lines,
            out,
            &piece[..taken],
            writer,
        )?;
        if let Some(ending) = ending {
            return Ok(ending);
        }
        flush(out, writer)?;
    }
    Err(RunFault::ReadsUsed)
}

// How the input ended.
fn ending_of(lines: &Lines) -> SessionEnd
    ensures { IsEndOfInput lines.now result }
{
    match lines.end() {
        Ok(()) => SessionEnd::Silent,
        Err(refusal) => SessionEnd::Refused(refusal),
    }
}

// Answers the lines of a piece, until the session ends, each if its peer is still there. There is room for the next answer then.
fn answer_piece<'s, G: Gate + Naming, H: Wait, W: Write>(
    rt: &H,
    hub: &'s Hub<G>,
    connection: &mut Connection<'s, G>,
    lines: &mut Lines,
    out: &mut BytesMut,
    piece: &[u8],
    writer: &mut W,
) -> Result<Option<SessionEnd>, RunFault>
    requires waits { HasNoLineFeed lines.old }
    requires may { MayAnswer LINE_LIMIT out.old.spare connection.old.seat
        connection.old.terms.names.now }
    ensures keeps { let terms = connection.old.terms in
        KeepsTelling terms.options.newest hub.now.epoch connection.new.terms.names.now
        connection.old.seat connection.new.seat (W.contents writer.old) (W.contents writer.new)
        out.old.items out.new.items LINE_LIMIT out.new.spare result }
    ensures waits { OnOk result (HasNoLineFeed lines.new) }
    ensures terms { connection.new.terms ≡ connection.old.terms }
    ensures answered { let terms = connection.old.terms in
        IfOk result (λ ending. TakesBytes terms.options hub.now terms.names.now ending
        connection.old.seat connection.new.seat (lines.old ++ piece.now) lines.new
        (W.contents writer.old) (W.contents writer.new) out.old.items out.new.items) }
    ensures broke { let terms = connection.old.terms in
        IfErr result (λ _. BreaksOffIn terms.options hub.now terms.names.now
        connection.old.seat connection.new.seat (lines.old ++ piece.now)
        (W.contents writer.old) (W.contents writer.new) out.old.items) }
{
    let mut rest = piece;
    while !rest.is_empty() {
        match lines.feed(rest) {
            Ok(taken) => rest = &rest[taken..],
            Err(refusal) => return Ok(Some(SessionEnd::Refused(refusal))),
        }
        let Some(line) = lines.next_line() else {
            continue;
        };
        find_peer(out, writer)?;
        if let Some(ending) = connection.answer(rt, hub, line) {
            return Ok(Some(ending));
        }
        let ends = connection.ends();
        let counted = connection.count();
        connection.put_answer(counted, out);
        make_room(out, writer)?;
        if ends {
            return Ok(Some(SessionEnd::Silent));
        }
    }
    Ok(None)
}

// A fault where answers wait to be written and it is known that nobody takes them.
fn find_peer<W: Write>(out: &BytesMut, writer: &mut W) -> Result<(), RunFault>
    ensures kept { Keeps (W.contents writer.old) (W.contents writer.new) }
    ensures error { IfErr result (λ fault. fault ≡ IsWrite) }
{
    if out.is_empty() {
        return Ok(());
    }
    match writer.flush() {
        Ok(()) => Ok(()),
        Err(_) => Err(RunFault::Write),
    }
}

// Writes what is gathered where there is no room for the next answer.
fn make_room<W: Write>(out: &mut BytesMut, writer: &mut W) -> Result<(), RunFault>
    requires { LINE_LIMIT ≤ length out.old.items + out.old.spare }
    ensures ready { OnOk result (LINE_LIMIT ≤ out.new.spare) }
    ensures gathered { OnOk result
        (Gathers (W.contents writer.old) (W.contents writer.new) out.old.items out.new.items []) }
    ensures begun { IfErr result (λ fault. (fault ≡ IsWrite) × (n : ℕ)
        × Appends (W.contents writer.old) (W.contents writer.new) (take n out.old.items)) }
{
    if out.capacity() - out.len() < LINE_LIMIT {
        return flush(out, writer);
    }
    Ok(())
}

impl<'s, G: Gate + Naming> Connection<'s, G> {
    // Answers a line in the connection's place. Where it ends the session instead, it is still to be answered.
    fn answer<H: Wait>(&mut self, rt: &H, hub: &'s Hub<G>, line: &[u8]) -> Option<SessionEnd>
        requires tenant { IsSeated self.old.seat self.old.terms.names.now }
        ensures terms { self.new.terms ≡ self.old.terms }
        ensures tenant { IsSeated self.new.seat self.new.terms.names.now }
        ensures answered { let terms = self.old.terms in
            IfNone result (AnswersLine terms.options hub.now terms.names.now line.now
            self.old.seat self.new.answer self.new.seat) }
        ensures ended { IfSome result (λ ending. EndsAtLine self.old.terms.options hub.now line.now
            self.old.seat self.new.seat ending) }
    {
        let request = match read_serve_line(self.alloc, line) {
            Ok(request) => request,
            Err(refusal) => return self.answer_unread(refusal),
        };
        let SessionOptions { newest, store, .. } = self.terms.options;
        if matches!(request, Request::Info) {
            self.answer.inform(store, newest);
            return None;
        }
        if let Some(seat) = &mut self.seat {
            let is_answered = ask_seat(rt, hub, newest, seat, &request, &mut self.answer);
            drain_seat(hub, seat);
            return if is_answered {
                None
            } else {
                Some(SessionEnd::Bye)
            };
        }
        match &request {
            Request::Hello(name, client, base) => {
                self.hello(rt, hub, name, *client, *base);
                None
            }
            Request::Put(_) | Request::Get(_) | Request::Find(_) | Request::Keep(_) => {
                self.answer.refuse(Refusal::NoSession);
                None
            }
            Request::Info | Request::Bye => Some(SessionEnd::Bye),
        }
    }

    // Answers a line that could not be read. Where it ends the session, it is still to be answered.
    fn answer_unread(&mut self, refusal: Refusal) -> Option<SessionEnd>
        ensures kept { (self.new.terms ≡ self.old.terms) × (self.new.seat ≡ self.old.seat) }
        ensures answered { IfNone result (self.new.answer
            ≡ Answers (Refused (refused_as self.old.seat refusal))) }
        ensures goes_on { IfNone result (IsTrue self.old.terms.options.strict → self.old.seat ≡ None
            → refusal ≡ BadLine → ⊥) }
        ensures ends { IfSome result (λ ending. (ending ≡ Unread)
            × IsTrue self.old.terms.options.strict × (self.old.seat ≡ None) × (refusal ≡ BadLine)) }
    {
        if self.terms.options.strict && self.seat.is_none() && refusal == Refusal::BadLine {
            return Some(SessionEnd::Unread);
        }
        let cause = self.refuse(refusal);
        self.answer.refuse(cause);
        None
    }

    // Why a line is refused that could not be read. Only a `put` or a `get` asks for memory, and neither is answered
    // before a seat is there.
    fn refuse(&self, refusal: Refusal) -> Refusal
        ensures { result ≡ refused_as self.now.seat refusal }
    {
        match (refusal, &self.seat) {
            (Refusal::OutOfMemory, None) => Refusal::NoSession,
            _ => refusal,
        }
    }

    // Whose lines these are: the seat's tenant's; without a seat, those of the tenant that the last `hello` named.
    fn tenant(&self) -> Option<u32>
        ensures { result ≡ whose self.now.seat self.now.named }
    {
        match &self.seat {
            Some(seat) => Some(seat.tenant()),
            None => self.named,
        }
    }

    // Counts the answer, where answers are counted, and answers the receipt.
    fn count(&self) -> Option<Counted>
        ensures { IsCounted self.now.terms.counts (counted_said self.now.answer)
            (counted_for (whose self.now.seat self.now.named) (said_of_tenant self.now.answer))
            result }
    {
        match self.terms.counts {
            Some(counts) => Some(self.answer.count(counts, self.tenant())),
            None => None,
        }
    }

    // Appends the line of the answer, which was counted where answers are, and for which there is room.
    fn put_answer(&self, _counted: Option<Counted>, out: &mut BytesMut)
        requires space { LINE_LIMIT ≤ out.old.spare }
        requires counted { IsCounted self.now.terms.counts (counted_said self.now.answer)
            (counted_for (whose self.now.seat self.now.named) (said_of_tenant self.now.answer))
            _counted }
        ensures text { out.new.items ≡ out.old.items ++ said_line self.now.answer }
        ensures room { length out.old.items + out.old.spare
            ≤ length out.new.items + out.new.spare }
    {
        put_answer(&self.answer, out);
    }

    // An allocation failure ends the session, but as the answer to the `hello` that would have opened its seat.
    fn ends(&self) -> bool
        ensures { IsTrue result ↔ (IsSome self.now.seat
            × (self.now.answer ≡ Answers (Refused OutOfMemory))) }
    {
        self.seat.is_some() && self.answer.is_want_of_memory()
    }

    // Opens the connection's seat, and answers that.
    #[cold]
    #[inline(never)]
    fn hello<H: Wait>(
        &mut self,
        rt: &H,
        hub: &'s Hub<G>,
        name: &Name,
        client: Option<Client>,
        base: Counter,
    )
        requires { self.old.seat ≡ None }
        ensures terms { self.new.terms ≡ self.old.terms }
        ensures tenant { IsSeated self.new.seat self.new.terms.names.now }
        ensures told { Tells self.old.terms.options.newest hub.now.epoch None self.new.seat
            (said_line self.new.answer) }
        ensures greeted { IsGreeted hub.now.limits self.old.terms.names.now
            name.now client base self.new.answer self.new.seat }
        ensures named { IfSome self.new.named (IsNumberOf self.old.terms.names.now name.now) }
    {
        let Some(tenant) = tenant_number(self.terms.names, name) else {
            self.named = None;
            self.answer.refuse(Refusal::NoTenant);
            return;
        };
        self.named = Some(tenant);
        let (opened, told) = open_seat(rt, hub, tenant, client, base);
        self.greet(opened, told);
    }

    // Answers `ready` and the counter of a seat that was opened, which is the connection's from then on, and this client, if one is to be
    // told; or why none was opened.
    fn greet(&mut self, opened: Result<Seat<'s, G>, Refusal>, told: Option<Client>)
        ensures { (self.new.terms ≡ self.old.terms)
            × Greets opened.entry told self.new.answer self.old.seat self.new.seat
            × (self.new.named ≡ self.old.named) }
    {
        match opened {
            Ok(seat) => {
                let counter = seat.counter();
                self.seat = Some(seat);
                self.answer.ready(counter, told);
            }
            Err(refusal) => self.answer.refuse(refusal),
        }
    }
}

// Forgets what a seat noted, where journals are cut.
fn drain_seat<G: Gate + Naming>(hub: &Hub<G>, seat: &mut Seat<'_, G>)
    ensures { IsDrained hub.now.epoch seat.old seat.new }
{
    if hub.epoch() > 0 {
        seat.forget();
    }
}
