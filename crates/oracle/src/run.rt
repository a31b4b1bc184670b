//! What the plain store answers to a step, and which messages it sends, after a history.
ghost use Rattle.std.specs.Prelude.{◌≡◌, ◌<◌, ◌^◌, ◌&&◌, ◌==◌, ◌∷◌, ◌++◌, [], IfOk, Some, false, true, filter, is_some, length, map, not};
ghost use Rattle.stamps.specs.Key.{IsTransactionKeys};
ghost use Rattle.plain_store.specs.History.{begun_by, counter, log_at, moment, running, taken_in};
ghost use Rattle.plain_store.specs.Replies.{reply_after};
ghost use Rattle.plain_store.specs.Moves.{is_answered};
ghost use Rattle.oracle.specs.Words.{LogsAreSound, MayGoOn, ReadersAreFew, ReadsFew, TakesFew, first_refusal, plain_outcome};
ghost use Rattle.plain_store.specs.Run.{are_bad, begin_tests, call_message, count_freed, counter_limit, delivers, effect, is_decided, is_wanted, moment_of, moves, next_rows, one_twice, resends, retries, rows_are_used, serves, takes, unanswered};
ghost use Rattle.plain_store.specs.Whole.{BeginsWhole};
ghost use Rattle.plain_store.specs.declared.step.Act.{Act as Asked};
ghost use Rattle.plain_store.specs.Writing.{Outgoing as Leaving, keys_written};

use super::history::{self, Intent, Moment, SessionState, Setup, Transaction};
use super::moves::{self, Move};
use super::writing::{self, Outgoing};
use super::{lists, replies, rounds};
use plain_store::{Act, Answer, Call, Message, OutOfMemory, Refusal, Reply, Rows};
use stamps::{Client, Counter, Item, Keep, Key, Stamp, Tag, limits};
use std::alloc::{AllocError, Global};

/// A step is refused where more messages than this were sent.
const MAX_SENT: u64 = limits::MAX_ROWS - limits::MAX_PARTS as u64;

// ---- the tests

/// Whether too many messages were sent for one more step that sends some.
fn rows_are_used(history: &[Moment<'_>]) -> bool
    ensures { result ≡ rows_are_used history.now }
{
    history::count_messages(history) > MAX_SENT
}

/// Whether a key stands twice among these.
fn one_twice(keys: &[Key]) -> bool
    ensures { result ≡ one_twice keys.now }
{
    match keys {
        [] => false,
        [key, rest @ ..] => rest.contains(key) || one_twice(rest),
    }
}

/// Whether these are no keys of a transaction: none, too many, or one twice.
fn are_bad(keys: &[Key]) -> bool
    ensures { result ≡ are_bad keys.now }
{
    keys.is_empty() || keys.len() > limits::MAX_KEYS || one_twice(keys)
}

/// Why the client cannot begin a transaction.
fn begin_refusal(history: &[Moment<'_>], client: Client) -> Option<Refusal>
    ensures { result ≡ first_refusal (begin_tests history.now client) }
{
    if rows_are_used(history) {
        return Some(Refusal::RowsUsed);
    }
    match history::session(history, client) {
        SessionState::NeverOpened => Some(Refusal::NoSession),
        SessionState::Closed => Some(Refusal::Stopped),
        SessionState::Open => match history::running(history, client) {
            Some(_) => Some(Refusal::Busy),
            None => None,
        },
    }
}

// ---- moments

/// A step that is answered and sends nothing.
fn quiet<'a>(alloc: Global, act: &'a Act, answer: Answer) -> Moment<'a>
    requires { BeginsWhole (begun_by act.now answer) }
    ensures { result ≡ moment act.now answer [] }
{
    Moment {
        act,
        answer,
        sent: Vec::new(alloc),
    }
}

/// A step that is refused.
fn refused<'a>(alloc: Global, act: &'a Act, refusal: Refusal) -> Moment<'a>
    ensures { result ≡ moment act.now (Answer.Refused refusal) [] }
{
    quiet(alloc, act, Answer::Refused(refusal))
}

/// The rows of the next messages, so many.
fn next_rows(history: &[Moment<'_>], count: usize) -> Rows
    requires free { rows_are_used history.now ≡ false }
    requires few { count < 2 ^ 63 }
    ensures { result ≡ next_rows history.now count }
{
    let sent = history::count_messages(history);
    Rows {
        first: sent + 1,
        last: sent + count as u64,
    }
}

/// The messages of these calls.
fn call_messages(
    alloc: Global,
    client: Client,
    ticket: u64,
    calls: &[Outgoing],
) -> Result<Vec<Message>, AllocError>
    ensures { IfOk result (λ list. list.items ≡ map (call_message client ticket) calls.now) }
{
    calls
        .iter()
        .map(|out| Message {
            client,
            ticket,
            partition: out.partition,
            call: out.call,
            reply: None,
        })
        .collect(alloc)
}

/// A step that sends the calls of a client's transaction.
fn sends<'a>(
    alloc: Global,
    act: &'a Act,
    answer: Answer,
    client: Client,
    ticket: u64,
    calls: &[Outgoing],
) -> Result<Moment<'a>, OutOfMemory>
    requires { BeginsWhole (begun_by act.now answer) }
    ensures { IfOk result (λ m. m
        ≡ moment act.now answer (map (call_message client ticket) calls.now)) }
{
    let sent = call_messages(alloc, client, ticket, calls)?;
    Ok(Moment { act, answer, sent })
}

// ---- the steps of a session

/// A session is opened.
#[tactic(auto, unfolding(plain_store::specs::Run::moment_of, plain_store::specs::Run::effect))]
fn hello<'a>(
    alloc: Global,
    setup: &Setup,
    history: &[Moment<'a>],
    act: &'a Act,
    client: Client,
    base: Counter,
) -> Moment<'a>
    requires { act.now ≡ Asked.Hello client base }
    ensures { result ≡ moment_of setup.now history.now act.now }
{
    match history::session(history, client) {
        SessionState::Open => return refused(alloc, act, Refusal::Busy),
        SessionState::NeverOpened
            if history::clients_known(history) >= setup.room.clients as usize => {
            return refused(alloc, act, Refusal::ClientsFull);
        }
        _ => {}
    }
    let greatest = history::counter(history, client).max(base.get());
    quiet(alloc, act, Answer::Ready(Counter::new(greatest).unwrap()))
}

/// A session is closed.
#[tactic(auto, unfolding(plain_store::specs::Run::moment_of, plain_store::specs::Run::effect))]
fn stop<'a>(
    alloc: Global,
    setup: &Setup,
    history: &[Moment<'a>],
    act: &'a Act,
    client: Client,
) -> Moment<'a>
    requires { act.now ≡ Asked.Stop client }
    ensures { result ≡ moment_of setup.now history.now act.now }
{
    match history::session(history, client) {
        SessionState::NeverOpened => refused(alloc, act, Refusal::NoSession),
        SessionState::Closed => refused(alloc, act, Refusal::Stopped),
        SessionState::Open => quiet(alloc, act, Answer::Stopped),
    }
}

/// A message is lost.
#[tactic(auto, unfolding(plain_store::specs::Run::moment_of, plain_store::specs::Run::effect))]
fn lose<'a>(
    alloc: Global,
    setup: &Setup,
    history: &[Moment<'a>],
    act: &'a Act,
    row: u64,
) -> Moment<'a>
    requires { act.now ≡ Asked.Lose row }
    ensures { result ≡ moment_of setup.now history.now act.now }
{
    match history::message_at(history, row) {
        None => refused(alloc, act, Refusal::NoMessage),
        Some(_) => quiet(alloc, act, Answer::Lost),
    }
}

// ---- the beginnings

/// A write begins.
#[tactic(auto, unfolding(plain_store::specs::Run::effect))]
fn begin_put<'a>(
    alloc: Global,
    setup: &Setup,
    history: &[Moment<'a>],
    act: &'a Act,
    client: Client,
    items: &'a [Item],
) -> Result<Moment<'a>, OutOfMemory>
    requires asked { MayGoOn act.now (Asked.Put client items.now) history.now }
    requires keys { IsTransactionKeys (keys_written items.now) }
    requires counter { counter history.now client < counter_limit }
    ensures { IfOk result (λ m. m ≡ effect setup.now history.now act.now) }
{
    let counter = history::counter(history, client) + 1;
    let stamp = Stamp::new(counter, client.get()).unwrap();
    let calls = writing::prepare_calls(alloc, setup, stamp, items)?;
    let answer = Answer::PutBegun(stamp, next_rows(history, calls.len()));
    let ticket = history::tickets(history, client) + 1;
    sends(alloc, act, answer, client, ticket, &calls)
}

/// A write is asked for.
fn put<'a>(
    alloc: Global,
    setup: &Setup,
    history: &[Moment<'a>],
    act: &'a Act,
    client: Client,
    items: &'a [Item],
) -> Result<Moment<'a>, OutOfMemory>
    requires { act.now ≡ Asked.Put client items.now }
    ensures { IfOk result (λ m. m ≡ moment_of setup.now history.now act.now) }
{
    if let Some(refusal) = begin_refusal(history, client) {
        return Ok(refused(alloc, act, refusal));
    }
    let keys = writing::keys_written(alloc, items)?;
    if are_bad(&keys) {
        return Ok(refused(alloc, act, Refusal::BadItems));
    }
    if history::counter(history, client) >= Stamp::MAX_COUNTER {
        return Ok(refused(alloc, act, Refusal::StampsUsed));
    }
    begin_put(alloc, setup, history, act, client, items)
}

/// A read begins.
#[tactic(auto, unfolding(plain_store::specs::Run::effect))]
fn begin_get<'a>(
    alloc: Global,
    setup: &Setup,
    history: &[Moment<'a>],
    act: &'a Act,
    client: Client,
    keys: &[Key],
) -> Result<Moment<'a>, OutOfMemory>
    requires { MayGoOn act.now (Asked.Get client keys.now) history.now }
    ensures { IfOk result (λ m. m ≡ effect setup.now history.now act.now) }
{
    let calls = rounds::reading_calls(alloc, setup, keys, &[])?;
    let answer = Answer::GetBegun(next_rows(history, calls.len()));
    let ticket = history::tickets(history, client) + 1;
    sends(alloc, act, answer, client, ticket, &calls)
}

/// A read is asked for.
fn get<'a>(
    alloc: Global,
    setup: &Setup,
    history: &[Moment<'a>],
    act: &'a Act,
    client: Client,
    keys: &[Key],
) -> Result<Moment<'a>, OutOfMemory>
    requires { act.now ≡ Asked.Get client keys.now }
    ensures { IfOk result (λ m. m ≡ moment_of setup.now history.now act.now) }
{
    if let Some(refusal) = begin_refusal(history, client) {
        return Ok(refused(alloc, act, refusal));
    }
    if are_bad(keys) {
        return Ok(refused(alloc, act, Refusal::BadItems));
    }
    begin_get(alloc, setup, history, act, client, keys)
}

/// A search begins.
#[tactic(auto, unfolding(plain_store::specs::Run::effect))]
fn begin_find<'a>(
    alloc: Global,
    setup: &Setup,
    history: &[Moment<'a>],
    act: &'a Act,
    client: Client,
    tag: &Tag,
) -> Result<Moment<'a>, OutOfMemory>
    requires { MayGoOn act.now (Asked.Find client tag.now) history.now }
    ensures { IfOk result (λ m. m ≡ effect setup.now history.now act.now) }
{
    let calls = moves::search_calls(alloc, setup, tag, &[])?;
    let answer = Answer::FindBegun(next_rows(history, calls.len()));
    let ticket = history::tickets(history, client) + 1;
    sends(alloc, act, answer, client, ticket, &calls)
}

/// A search is asked for.
fn find<'a>(
    alloc: Global,
    setup: &Setup,
    history: &[Moment<'a>],
    act: &'a Act,
    client: Client,
    tag: &Tag,
) -> Result<Moment<'a>, OutOfMemory>
    requires { act.now ≡ Asked.Find client tag.now }
    ensures { IfOk result (λ m. m ≡ moment_of setup.now history.now act.now) }
{
    if let Some(refusal) = begin_refusal(history, client) {
        return Ok(refused(alloc, act, refusal));
    }
    begin_find(alloc, setup, history, act, client, tag)
}

// ---- the deliveries

/// A transaction does what a reply makes it do.
fn moves<'a>(
    alloc: Global,
    history: &[Moment<'a>],
    act: &'a Act,
    transaction: &Transaction<'a>,
    outcome: Move,
    row: u64,
) -> Result<Moment<'a>, OutOfMemory>
    requires { MayGoOn act.now (Asked.Deliver row) history.now }
    ensures { IfOk result (λ m. m
        ≡ moves history.now act.now transaction.now (plain_outcome outcome)) }
{
    let client = transaction.client;
    let ticket = transaction.ticket;
    match outcome {
        Move::Waits => Ok(quiet(alloc, act, Answer::Wait)),
        Move::Decides(stamp, calls) => {
            let answer = Answer::Decided(stamp, next_rows(history, calls.len()));
            sends(alloc, act, answer, client, ticket, &calls)
        }
        Move::Finishes(stamp) => Ok(quiet(alloc, act, Answer::Done(stamp))),
        Move::Asks(calls) => {
            let answer = Answer::Ask(next_rows(history, calls.len()));
            sends(alloc, act, answer, client, ticket, &calls)
        }
        Move::Begins(calls) => {
            let answer = Answer::BeginsRead(next_rows(history, calls.len()));
            sends(alloc, act, answer, client, ticket, &calls)
        }
        Move::Reads(readings) => Ok(quiet(alloc, act, Answer::Read(readings))),
        Move::Lists(readings) => Ok(quiet(alloc, act, Answer::Listed(readings))),
        Move::Restarts(key, floor) => Ok(quiet(alloc, act, Answer::Restart(key, floor))),
        Move::Fails(refusal, calls) => {
            if calls.is_empty() {
                return Ok(quiet(alloc, act, Answer::Ended(refusal, None)));
            }
            let answer = Answer::Ended(refusal, Some(next_rows(history, calls.len())));
            sends(alloc, act, answer, client, ticket, &calls)
        }
    }
}

/// Whether the client still waits for the reply.
fn is_wanted(transaction: &Transaction<'_>, replies: &[Message], message: &Message) -> bool
    ensures { result
        ≡ (message.now.ticket == transaction.now.ticket
        && not (is_answered replies.now message.now.partition message.now.call)) }
{
    message.ticket == transaction.ticket
        && !moves::is_answered(replies, message.partition, &message.call)
}

/// The reply is handed to a transaction.
fn hands<'a>(
    alloc: Global,
    setup: &Setup,
    history: &[Moment<'a>],
    act: &'a Act,
    message: &Message,
    transaction: &Transaction<'a>,
    row: u64,
) -> Result<Moment<'a>, OutOfMemory>
    requires asked { MayGoOn act.now (Asked.Deliver row) history.now }
    requires few { is_wanted history.now transaction.now message.now ≡ true
        → ReadsFew transaction.now.request (taken_in history.now transaction.now
        ++ message.now ∷ []) message.now.call }
    ensures { IfOk result (λ m. m
        ≡ takes setup.now history.now act.now message.now (Some transaction.now)) }
{
    let replies = history::taken_in(alloc, history, transaction)?;
    if !is_wanted(transaction, &replies, message) {
        return Ok(quiet(alloc, act, Answer::Ignored));
    }
    let replies = lists::append(replies, *message)?;
    let outcome = moves::move_of(alloc, setup, transaction, &replies, message)?;
    moves(alloc, history, act, transaction, outcome, row)
}

/// A reply is handed to its client.
fn takes<'a>(
    alloc: Global,
    setup: &Setup,
    history: &[Moment<'a>],
    act: &'a Act,
    message: &Message,
    row: u64,
) -> Result<Moment<'a>, OutOfMemory>
    requires asked { MayGoOn act.now (Asked.Deliver row) history.now }
    requires few { TakesFew history.now message.now }
    ensures { IfOk result (λ m. m
        ≡ takes setup.now history.now act.now message.now
        (running history.now message.now.client)) }
{
    match history::running(history, message.client) {
        Some(transaction) => hands(alloc, setup, history, act, message, &transaction, row),
        None => Ok(quiet(alloc, act, Answer::Ignored)),
    }
}

/// A call gets its reply.
fn serves<'a>(
    alloc: Global,
    history: &[Moment<'a>],
    act: &'a Act,
    message: &Message,
    reply: Reply,
    row: u64,
) -> Result<Moment<'a>, OutOfMemory>
    requires { MayGoOn act.now (Asked.Deliver row) history.now }
    ensures { IfOk result (λ m. m ≡ serves history.now act.now message.now reply) }
{
    let replied = Message {
        client: message.client,
        ticket: message.ticket,
        partition: message.partition,
        call: message.call,
        reply: Some(reply),
    };
    Ok(Moment {
        act,
        answer: Answer::Replied(history::count_messages(history) + 1, reply),
        sent: lists::prepend(replied, Vec::new(alloc))?,
    })
}

/// The reply of a partition to a call, after what came to it before.
fn reply_at(
    alloc: Global,
    setup: &Setup,
    history: &[Moment<'_>],
    partition: u32,
    call: &Call,
) -> Result<Reply, OutOfMemory>
    requires { LogsAreSound setup.now history.now }
    ensures { IfOk result (λ reply. reply
        ≡ reply_after setup.now.room (log_at setup.now history.now partition) call.now) }
{
    let log = history::log_at(alloc, setup, history, partition)?;
    Ok(replies::reply_after(alloc, &setup.room, &log, call)?)
}

/// A call is applied at its partition, a reply is handed to its client.
fn delivers<'a>(
    alloc: Global,
    setup: &Setup,
    history: &[Moment<'a>],
    act: &'a Act,
    message: &Message,
    row: u64,
) -> Result<Moment<'a>, OutOfMemory>
    requires asked { MayGoOn act.now (Asked.Deliver row) history.now }
    requires sound { LogsAreSound setup.now history.now }
    requires few { is_some message.now.reply ≡ true → TakesFew history.now message.now }
    ensures { IfOk result (λ m. m
        ≡ delivers setup.now history.now act.now message.now message.now.reply) }
{
    match message.reply {
        Some(_) => takes(alloc, setup, history, act, message, row),
        None => {
            let reply = reply_at(alloc, setup, history, message.partition, &message.call)?;
            serves(alloc, history, act, message, reply, row)
        }
    }
}

/// The message of a row is delivered.
#[tactic(auto, unfolding(plain_store::specs::Run::moment_of, plain_store::specs::Run::effect))]
fn deliver<'a>(
    alloc: Global,
    setup: &Setup,
    history: &[Moment<'a>],
    act: &'a Act,
    row: u64,
) -> Result<Moment<'a>, OutOfMemory>
    requires asked { act.now ≡ Asked.Deliver row }
    requires sound { LogsAreSound setup.now history.now }
    requires few { ReadersAreFew history.now }
    ensures { IfOk result (λ m. m ≡ moment_of setup.now history.now act.now) }
{
    if rows_are_used(history) {
        return Ok(refused(alloc, act, Refusal::RowsUsed));
    }
    match history::message_at(history, row) {
        None => Ok(refused(alloc, act, Refusal::NoMessage)),
        Some(message) => delivers(alloc, setup, history, act, message, row),
    }
}

// ---- the others

/// Whether the transaction was decided.
fn is_decided(history: &[Moment<'_>], transaction: &Transaction<'_>) -> bool
    ensures { result ≡ is_decided history.now transaction.now.request }
{
    match transaction.request {
        Intent::Writes(stamp, _) => history::was_decided(history, stamp),
        Intent::Gets(_) | Intent::Finds(_) => false,
    }
}

/// Of these calls, those that have no reply.
fn without_reply(
    alloc: Global,
    replies: &[Message],
    calls: &[Outgoing],
) -> Result<Vec<Outgoing>, AllocError>
    ensures { IfOk result (λ list. list.items
        ≡ filter
        (λ (out : Leaving). not (is_answered replies.now out.partition out.call)) calls.now) }
{
    match calls {
        [] => Ok(Vec::new(alloc)),
        [out, others @ ..] => {
            let rest = without_reply(alloc, replies, others)?;
            if moves::is_answered(replies, out.partition, &out.call) {
                return Ok(rest);
            }
            lists::prepend(*out, rest)
        }
    }
}

/// The calls of the running transaction that have no reply taken.
fn unanswered(
    alloc: Global,
    setup: &Setup,
    history: &[Moment<'_>],
    transaction: &Transaction<'_>,
) -> Result<Vec<Outgoing>, OutOfMemory>
    ensures { IfOk result (λ list. list.items ≡ unanswered setup.now history.now transaction.now) }
{
    let replies = history::taken_in(alloc, history, transaction)?;
    let decided = is_decided(history, transaction);
    let calls = moves::calls_of(alloc, setup, decided, transaction, &replies)?;
    Ok(without_reply(alloc, &replies, &calls)?)
}

/// The calls are sent again, if there are any.
fn resends<'a>(
    alloc: Global,
    history: &[Moment<'a>],
    act: &'a Act,
    transaction: &Transaction<'a>,
    calls: &[Outgoing],
    client: Client,
) -> Result<Moment<'a>, OutOfMemory>
    requires asked { MayGoOn act.now (Asked.Retry client) history.now }
    requires few { length calls.now < 2 ^ 63 }
    ensures { IfOk result (λ m. m ≡ resends history.now act.now transaction.now calls.now) }
{
    match calls {
        [] => Ok(quiet(alloc, act, Answer::Sent(None))),
        [_, ..] => {
            let rows = next_rows(history, calls.len());
            sends(
                alloc,
                act,
                Answer::Sent(Some(rows)),
                transaction.client,
                transaction.ticket,
                calls,
            )
        }
    }
}

/// What the client waits for is sent again.
fn retries<'a>(
    alloc: Global,
    setup: &Setup,
    history: &[Moment<'a>],
    act: &'a Act,
    client: Client,
) -> Result<Moment<'a>, OutOfMemory>
    requires { MayGoOn act.now (Asked.Retry client) history.now }
    ensures { IfOk result (λ m. m
        ≡ retries setup.now history.now act.now (running history.now client)) }
{
    match history::running(history, client) {
        None => Ok(quiet(alloc, act, Answer::Sent(None))),
        Some(transaction) => {
            let calls = unanswered(alloc, setup, history, &transaction)?;
            resends(alloc, history, act, &transaction, &calls, client)
        }
    }
}

/// A retry is asked for.
#[tactic(auto, unfolding(plain_store::specs::Run::moment_of, plain_store::specs::Run::effect))]
fn retry<'a>(
    alloc: Global,
    setup: &Setup,
    history: &[Moment<'a>],
    act: &'a Act,
    client: Client,
) -> Result<Moment<'a>, OutOfMemory>
    requires { act.now ≡ Asked.Retry client }
    ensures { IfOk result (λ m. m ≡ moment_of setup.now history.now act.now) }
{
    if rows_are_used(history) {
        return Ok(refused(alloc, act, Refusal::RowsUsed));
    }
    match history::session(history, client) {
        SessionState::NeverOpened => Ok(refused(alloc, act, Refusal::NoSession)),
        SessionState::Closed => Ok(refused(alloc, act, Refusal::Stopped)),
        SessionState::Open => retries(alloc, setup, history, act, client),
    }
}

/// How many versions a reply says were dropped.
fn count_freed(reply: &Reply) -> u32
    ensures { result ≡ count_freed reply.now }
{
    match reply {
        Reply::Freed(count) => *count,
        _ => 0,
    }
}

/// A partition is collected.
#[tactic(auto, unfolding(plain_store::specs::Run::moment_of, plain_store::specs::Run::effect))]
fn collect<'a>(
    alloc: Global,
    setup: &Setup,
    history: &[Moment<'a>],
    act: &'a Act,
    partition: u32,
) -> Result<Moment<'a>, OutOfMemory>
    requires asked { act.now ≡ Asked.Collect partition }
    requires sound { LogsAreSound setup.now history.now }
    ensures { IfOk result (λ m. m ≡ moment_of setup.now history.now act.now) }
{
    if partition >= setup.partitions {
        return Ok(refused(alloc, act, Refusal::NoPartition));
    }
    let reply = reply_at(
        alloc,
        setup,
        history,
        partition,
        &Call::Collect(history::keep_in(setup, history)),
    )?;
    Ok(quiet(alloc, act, Answer::Freed(count_freed(&reply))))
}

/// From now on each collection keeps so many.
#[tactic(auto, unfolding(plain_store::specs::Run::moment_of, plain_store::specs::Run::effect))]
fn set_keep<'a>(
    alloc: Global,
    _setup: &Setup,
    _history: &[Moment<'a>],
    act: &'a Act,
    keep: Keep,
) -> Moment<'a>
    requires { act.now ≡ Asked.Keep keep }
    ensures { result ≡ moment_of _setup.now _history.now act.now }
{
    quiet(alloc, act, Answer::Keeps(keep))
}

/// What happens at a step: the first test that fails is answered and nothing happens, else it has its effect.
pub(super) fn moment_of<'a>(
    alloc: Global,
    setup: &Setup,
    history: &[Moment<'a>],
    act: &'a Act,
) -> Result<Moment<'a>, OutOfMemory>
    requires sound { LogsAreSound setup.now history.now }
    requires few { ReadersAreFew history.now }
    ensures { IfOk result (λ m. m ≡ moment_of setup.now history.now act.now) }
{
    match act {
        Act::Hello(client, base) => Ok(hello(alloc, setup, history, act, *client, *base)),
        Act::Put(client, items) => put(alloc, setup, history, act, *client, items.as_slice()),
        Act::Get(client, keys) => get(alloc, setup, history, act, *client, keys.as_slice()),
        Act::Find(client, tag) => find(alloc, setup, history, act, *client, tag),
        Act::Deliver(row) => deliver(alloc, setup, history, act, *row),
        Act::Lose(row) => Ok(lose(alloc, setup, history, act, *row)),
        Act::Retry(client) => retry(alloc, setup, history, act, *client),
        Act::Stop(client) => Ok(stop(alloc, setup, history, act, *client)),
        Act::Collect(partition) => collect(alloc, setup, history, act, *partition),
        Act::Keep(keep) => Ok(set_keep(alloc, setup, history, act, *keep)),
    }
}
