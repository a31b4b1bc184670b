//! What a tenant's history contains. A history lists its moments newest first.
ghost use Rattle.std.specs.Prelude.{◌≡◌, ◌++◌, ◌≤◌, ◌+◌, ◌==◌, IfOk, IfErr, IfSome, Some, length, filter, min, option_copied, slice_get, nat_eq};
ghost use Rattle.std.specs.List.{filter_map, list_any};
ghost use Rattle.std.specs.Option.{option_map};
ghost use Rattle.stamps.specs.Limits.{max_counter};
ghost use Rattle.plain_store.specs.History.{begun_by, client_gained, clients_known, collection, counter, counter_gained, counter_in, counter_taken, decided, ends, exchange_of, is_by, is_last, is_move, is_of, keep_in, log_at, lost_rows, message_at, messages, one_if_by, row_lost, running, session, session_after, stamp_decided, taken, taken_in, tickets, took, transaction_of};
ghost use Rattle.plain_store.specs.declared.message.Message.{Message as Sent};
ghost use Rattle.oracle.specs.Words.{Counts, plain_request, session_of};
ghost use Rattle.plain_store.specs.Whole.{IsWhole};

use super::lists;
use super::log::Exchange;
use super::replies::Room;
use plain_store::{Act, Answer, Call, Message, ReadReply, Reply};
use stamps::{Client, Item, Keep, Key, Stamp, Tag};
use std::alloc::{AllocError, Global};
use std::marker::Model;

/// What one tenant's store is opened with.
#[derive(Clone, Copy)]
pub(super) struct Setup {
    pub(super) partitions: u32,
    pub(super) room: Room,
    pub(super) keep: Keep,
}

impl Model for Setup {
    ghost use Rattle.stamps.specs.Bounds.{IsParts};
    ghost use Rattle.plain_store.specs.Words.{Setup as Opening};

    ghost Value = { Opening };

    ghost view = { λ s. record { partitions = s.partitions; room = s.room; keep = s.keep } };

    ghost invariant = { λ s. IsParts s.partitions };

    ghost inverse = { λ s. record { partitions = s.partitions; room = s.room; keep = s.keep } };
}

/// One step: what was asked, what was answered and which messages were sent.
#[derive(Drop)]
pub(super) struct Moment<'a> {
    pub(super) act: &'a Act,
    pub(super) answer: Answer,
    pub(super) sent: Vec<Message>,
}

impl<'a> Model for Moment<'a> {
    ghost use Rattle.plain_store.specs.History.{Moment as Recorded, begun_by};
    ghost use Rattle.plain_store.specs.Whole.{BeginsWhole};

    ghost Value = { Recorded };

    ghost view = { λ m. record { act = m.act.now; answer = m.answer; sent = m.sent.items } };

    ghost invariant = { λ m. BeginsWhole (begun_by m.act.now m.answer) };
}

/// Whether a client ever said hello, and whether it stopped since.
#[derive(Clone, Copy)]
pub(super) enum SessionState {
    NeverOpened,
    Open,
    Closed,
}

/// A transaction that a client began.
#[derive(Drop)]
pub(super) struct Transaction<'a> {
    pub(super) client: Client,
    pub(super) ticket: u64,
    /// How many steps were before its own.
    pub(super) begun: u64,
    pub(super) request: Intent<'a>,
}

impl<'a> Model for Transaction<'a> {
    ghost use Rattle.plain_store.specs.History.{Transaction as Begun};
    ghost use Rattle.oracle.specs.Words.{plain_request};
    ghost use Rattle.plain_store.specs.Whole.{IsWhole};

    ghost Value = { Begun };

    ghost view = { λ t. record { client = t.client; ticket = t.ticket; begun = t.begun; request = plain_request t.request } };

    ghost invariant = { λ t. IsWhole (plain_request t.request) };
}

/// What a transaction is to do.
#[derive(Clone, Copy)]
pub(super) enum Intent<'a> {
    Writes(Stamp, &'a [Item]),
    Gets(&'a [Key]),
    Finds(Tag),
}

/// The message at a place among all that were sent, or how many these are.
fn message_in<'h>(history: &'h [Moment<'_>], place: usize) -> Result<&'h Message, usize>
    ensures found { IfOk result (λ message. slice_get (messages history.now) place
        ≡ Some message.now) }
    ensures missing { IfErr result (λ count. (count ≡ length (messages history.now))
        × (count ≤ place)) }
{
    match history {
        [] => Err(0),
        [moment, older @ ..] => match message_in(older, place) {
            Ok(message) => Ok(message),
            Err(count) => match moment.sent.get(place - count) {
                Some(message) => Ok(message),
                None => Err(count + moment.sent.len()),
            },
        },
    }
}

/// Whether the step lost the message of a row.
fn loses(moment: &Moment<'_>, row: u64) -> bool
    ensures { result ≡ list_any (λ lost. lost == row) (row_lost moment.now.act moment.now.answer) }
{
    match (moment.act, &moment.answer) {
        (Act::Lose(lost), Answer::Lost) => *lost == row,
        _ => false,
    }
}

/// Whether the message of a row was lost.
fn is_lost(history: &[Moment<'_>], row: u64) -> bool
    ensures { result ≡ list_any (λ lost. lost == row) (lost_rows history.now) }
{
    match history {
        [] => false,
        [moment, older @ ..] => loses(moment, row) || is_lost(older, row),
    }
}

/// The message of a row that was sent and not lost.
#[tactic(auto, unfolding(plain_store::specs::History::message_at))]
pub(super) fn message_at<'h>(history: &'h [Moment<'_>], row: u64) -> Option<&'h Message>
    ensures { option_copied result ≡ message_at history.now row }
{
    if row == 0 || is_lost(history, row) {
        return None;
    }
    message_in(history, (row - 1) as usize).ok()
}

/// The exchange of a reply that was sent at this partition.
fn exchange_of(partition: u32, message: &Message) -> Option<Exchange>
    ensures { result ≡ exchange_of partition message.now message.now.reply }
{
    match message.reply {
        Some(reply) if message.partition == partition => Some(Exchange {
            call: message.call,
            reply,
        }),
        _ => None,
    }
}

/// The exchanges of the replies that were sent at this partition.
fn exchanges_of(
    alloc: Global,
    partition: u32,
    sent: &[Message],
) -> Result<Vec<Exchange>, AllocError>
    ensures { IfOk result (λ list. list.items
        ≡ filter_map (λ (message : Sent). exchange_of partition message message.reply) sent.now) }
{
    match sent {
        [] => Ok(Vec::new(alloc)),
        [message, others @ ..] => {
            let rest = exchanges_of(alloc, partition, others)?;
            match exchange_of(partition, message) {
                Some(exchange) => lists::prepend(exchange, rest),
                None => Ok(rest),
            }
        }
    }
}

/// How many committed versions of an item a collection keeps after the history.
pub(super) fn keep_in(setup: &Setup, history: &[Moment<'_>]) -> Keep
    ensures { result ≡ keep_in setup.now history.now }
{
    match history {
        [] => setup.keep,
        [moment, older @ ..] => match moment.act {
            Act::Keep(keep) => *keep,
            _ => keep_in(setup, older),
        },
    }
}

/// The exchanges of the replies that a step sent at this partition.
fn exchanges_in(
    alloc: Global,
    partition: u32,
    moment: &Moment<'_>,
) -> Result<Vec<Exchange>, AllocError>
    ensures { IfOk result (λ list. list.items
        ≡ filter_map
        (λ (message : Sent). exchange_of partition message message.reply) moment.now.sent) }
{
    exchanges_of(alloc, partition, &moment.sent)
}

/// The log with the collection that a step made at this partition, if it made one. It kept so many.
fn with_collection(
    keep: Keep,
    partition: u32,
    moment: &Moment<'_>,
    log: Vec<Exchange>,
) -> Result<Vec<Exchange>, AllocError>
    ensures { IfOk result (λ list. list.items
        ≡ collection keep partition moment.now.act moment.now.answer ++ log.items) }
{
    match (moment.act, moment.answer) {
        (Act::Collect(place), Answer::Freed(count)) if *place == partition => {
            let collection = Exchange {
                call: Call::Collect(keep),
                reply: Reply::Freed(count),
            };
            lists::prepend(collection, log)
        }
        _ => Ok(log),
    }
}

/// The log after a step, before which collections kept so many.
fn log_after(
    alloc: Global,
    keep: Keep,
    partition: u32,
    moment: &Moment<'_>,
    before: Vec<Exchange>,
) -> Result<Vec<Exchange>, AllocError>
    ensures { IfOk result (λ list. list.items
        ≡ collection keep partition moment.now.act moment.now.answer
        ++ (filter_map
        (λ (message : Sent). exchange_of partition message message.reply) moment.now.sent
        ++ before.items)) }
{
    let log = lists::join(exchanges_in(alloc, partition, moment)?, &before)?;
    with_collection(keep, partition, moment, log)
}

/// The calls that came to a partition with their replies, and its collections.
pub(super) fn log_at(
    alloc: Global,
    setup: &Setup,
    history: &[Moment<'_>],
    partition: u32,
) -> Result<Vec<Exchange>, AllocError>
    ensures { IfOk result (λ list. list.items ≡ log_at setup.now history.now partition) }
{
    match history {
        [] => Ok(Vec::new(alloc)),
        [moment, older @ ..] => {
            log_after(
                alloc,
                keep_in(setup, older),
                partition,
                moment,
                log_at(alloc, setup, older, partition)?,
            )
        }
    }
}

/// The client's session after a step.
fn session_after(moment: &Moment<'_>, client: Client, before: SessionState) -> SessionState
    ensures { session_of result
        ≡ session_after moment.now.act moment.now.answer client (session_of before) }
{
    match (moment.act, moment.answer) {
        (Act::Hello(opened, _), Answer::Ready(_)) if *opened == client => SessionState::Open,
        (Act::Stop(stopped), Answer::Stopped) if *stopped == client => SessionState::Closed,
        _ => before,
    }
}

/// The client's session, by its last hello or stop that was not refused.
pub(super) fn session(history: &[Moment<'_>], client: Client) -> SessionState
    ensures { session_of result ≡ session history.now client }
{
    match history {
        [] => SessionState::NeverOpened,
        [moment, older @ ..] => session_after(moment, client, session(older, client)),
    }
}

/// How many clients a step brought: one, or none.
fn client_gained(moment: &Moment<'_>, older: &[Moment<'_>]) -> usize
    ensures { Counts result (client_gained moment.now.act moment.now.answer older.now) 1 }
{
    match (moment.act, moment.answer) {
        (Act::Hello(client, _), Answer::Ready(_)) => match session(older, *client) {
            SessionState::NeverOpened => 1,
            SessionState::Open | SessionState::Closed => 0,
        },
        _ => 0,
    }
}

/// How many clients have said hello.
pub(super) fn clients_known(history: &[Moment<'_>]) -> usize
    ensures { Counts result (clients_known history.now) (length history.now) }
{
    match history {
        [] => 0,
        [moment, older @ ..] => client_gained(moment, older) + clients_known(older),
    }
}

/// The client and the request of a transaction that a step began.
fn begun_by<'a>(moment: &Moment<'a>) -> Option<(Client, Intent<'a>)>
    ensures value { option_map (λ b. (b.0, plain_request b.1)) result
        ≡ begun_by moment.now.act moment.now.answer }
    ensures whole { IfSome result (λ b. IsWhole (plain_request b.1)) }
{
    match (moment.act, moment.answer) {
        (Act::Put(client, items), Answer::PutBegun(stamp, _)) => Some((
            *client,
            Intent::Writes(stamp, items.as_slice()),
        )),
        (Act::Get(client, keys), Answer::GetBegun(_)) => Some((
            *client,
            Intent::Gets(keys.as_slice()),
        )),
        (Act::Find(client, tag), Answer::FindBegun(_)) => Some((*client, Intent::Finds(*tag))),
        _ => None,
    }
}

/// How many transactions of a client a step began: one, or none.
fn one_if_by(client: Client, moment: &Moment<'_>) -> u64
    ensures { Counts result (one_if_by client (begun_by moment.now.act moment.now.answer)) 1 }
{
    match begun_by(moment) {
        Some((by, _)) if by == client => 1,
        _ => 0,
    }
}

/// How many transactions the client began. The last one has this ticket.
pub(super) fn tickets(history: &[Moment<'_>], client: Client) -> u64
    ensures { Counts result (tickets history.now client) (length history.now) }
{
    match history {
        [] => 0,
        [moment, older @ ..] => one_if_by(client, moment) + tickets(older, client),
    }
}

/// The transaction that a step began.
fn transaction_of<'a>(older: &[Moment<'_>], moment: &Moment<'a>) -> Option<Transaction<'a>>
    ensures { result ≡ transaction_of older.now (begun_by moment.now.act moment.now.answer) }
{
    match begun_by(moment) {
        Some((client, request)) => Some(Transaction {
            client,
            ticket: tickets(older, client) + 1,
            begun: older.len() as u64,
            request,
        }),
        None => None,
    }
}

/// Whether the answer is that of a reply which its client took.
fn is_move(answer: &Answer) -> bool
    ensures { result ≡ is_move answer.now }
{
    matches!(
        answer,
        Answer::Wait
            | Answer::Decided(_, _)
            | Answer::Done(_)
            | Answer::Ask(_)
            | Answer::BeginsRead(_)
            | Answer::Read(_)
            | Answer::Listed(_)
            | Answer::Restart(_, _)
            | Answer::Ended(_, _)
    )
}

/// Whether the answer ends a transaction.
fn is_last(answer: &Answer) -> bool
    ensures { result ≡ is_last answer.now }
{
    matches!(
        answer,
        Answer::Done(_)
            | Answer::Read(_)
            | Answer::Listed(_)
            | Answer::Restart(_, _)
            | Answer::Ended(_, _)
    )
}

/// The reply that a step's client took.
fn took<'h>(moment: &Moment<'_>, older: &'h [Moment<'_>]) -> Option<&'h Message>
    ensures { option_copied result ≡ took moment.now.act moment.now.answer older.now }
{
    match moment.act {
        Act::Deliver(row) if is_move(&moment.answer) => message_at(older, *row),
        _ => None,
    }
}

/// Every reply that a client took, in order.
fn taken(alloc: Global, history: &[Moment<'_>]) -> Result<Vec<Message>, AllocError>
    ensures { IfOk result (λ list. list.items ≡ taken history.now) }
{
    match history {
        [] => Ok(Vec::new(alloc)),
        [moment, older @ ..] => {
            let before = taken(alloc, older)?;
            match took(moment, older) {
                Some(message) => lists::append(before, *message),
                None => Ok(before),
            }
        }
    }
}

/// Whether a message is of a transaction.
fn is_of(transaction: &Transaction<'_>, message: &Message) -> bool
    ensures { result ≡ is_of transaction.now message.now }
{
    message.client == transaction.client && message.ticket == transaction.ticket
}

/// The messages that are of a transaction.
fn only_of(
    alloc: Global,
    transaction: &Transaction<'_>,
    messages: &[Message],
) -> Result<Vec<Message>, AllocError>
    ensures { IfOk result (λ list. list.items ≡ filter (is_of transaction.now) messages.now) }
{
    match messages {
        [] => Ok(Vec::new(alloc)),
        [message, others @ ..] => {
            let rest = only_of(alloc, transaction, others)?;
            if !is_of(transaction, message) {
                return Ok(rest);
            }
            lists::prepend(*message, rest)
        }
    }
}

/// Every reply that was taken for a transaction, in order.
#[tactic(auto, unfolding(plain_store::specs::History::taken_in))]
pub(super) fn taken_in(
    alloc: Global,
    history: &[Moment<'_>],
    transaction: &Transaction<'_>,
) -> Result<Vec<Message>, AllocError>
    ensures { IfOk result (λ list. list.items ≡ taken_in history.now transaction.now) }
{
    only_of(alloc, transaction, &taken(alloc, history)?)
}

/// Whether there is a message, and it is the client's.
fn is_by(client: Client, message: Option<&Message>) -> bool
    ensures { result ≡ is_by client (option_copied message.entry) }
{
    match message {
        Some(message) => message.client == client,
        None => false,
    }
}

/// Whether the step ended the client's transaction.
fn ends(moment: &Moment<'_>, older: &[Moment<'_>], client: Client) -> bool
    ensures { result ≡ ends moment.now.act moment.now.answer older.now client }
{
    match (moment.act, &moment.answer) {
        (Act::Stop(stopped), Answer::Stopped) => *stopped == client,
        (Act::Deliver(row), answer) => is_last(answer) && is_by(client, message_at(older, *row)),
        _ => false,
    }
}

/// The client's transaction that was begun and has not ended.
pub(super) fn running<'a>(history: &[Moment<'a>], client: Client) -> Option<Transaction<'a>>
    ensures { result ≡ running history.now client }
{
    match history {
        [] => None,
        [moment, older @ ..] => match transaction_of(older, moment) {
            Some(transaction) if transaction.client == client => Some(transaction),
            Some(_) => running(older, client),
            None if ends(moment, older, client) => None,
            None => running(older, client),
        },
    }
}

/// The counter of the stamp that a reply shows.
fn counter_in(reply: &Option<Reply>) -> u64
    ensures { Counts result (counter_in reply.now) max_counter }
{
    match reply {
        Some(Reply::Get(ReadReply::Version(version))) => version.stamp.counter(),
        Some(Reply::Get(ReadReply::Collected(floor))) => floor.counter(),
        _ => 0,
    }
}

/// The counter that a message shows its client.
fn counter_taken(client: Client, message: Option<&Message>) -> u64
    ensures { Counts result (counter_taken client (option_copied message.entry)) max_counter }
{
    match message {
        Some(message) if message.client == client => counter_in(&message.reply),
        _ => 0,
    }
}

/// The counter that a step showed or gave the client.
fn counter_gained(moment: &Moment<'_>, older: &[Moment<'_>], client: Client) -> u64
    ensures { Counts result
        (counter_gained moment.now.act moment.now.answer older.now client) max_counter }
{
    match (moment.act, &moment.answer) {
        (Act::Hello(opened, base), Answer::Ready(_)) if *opened == client => base.get(),
        (Act::Put(writer, _), Answer::PutBegun(stamp, _)) if *writer == client => stamp.counter(),
        (Act::Deliver(row), answer) if is_move(answer) => counter_taken(
            client,
            message_at(older, *row),
        ),
        _ => 0,
    }
}

/// The greatest of the client's bases, of the counters of its stamps and of those in the replies that it took.
pub(super) fn counter(history: &[Moment<'_>], client: Client) -> u64
    ensures { Counts result (counter history.now client) max_counter }
{
    match history {
        [] => 0,
        [moment, older @ ..] => counter_gained(moment, older, client).max(counter(older, client)),
    }
}

/// Whether a step decided the transaction of a stamp.
fn decides(moment: &Moment<'_>, stamp: Stamp) -> bool
    ensures { result ≡ list_any (nat_eq stamp) (stamp_decided moment.now.answer) }
{
    match &moment.answer {
        Answer::Decided(decided, _) => stamp == *decided,
        _ => false,
    }
}

/// Whether the transaction of a stamp was decided.
pub(super) fn was_decided(history: &[Moment<'_>], stamp: Stamp) -> bool
    ensures { result ≡ list_any (nat_eq stamp) (decided history.now) }
{
    match history {
        [] => false,
        [moment, older @ ..] => decides(moment, stamp) || was_decided(older, stamp),
    }
}

/// How many messages were sent, or the greatest number where they are more.
pub(super) fn count_messages(history: &[Moment<'_>]) -> u64
    ensures { result ≡ min (length (messages history.now)) u64.MAX }
{
    match history {
        [] => 0,
        [moment, older @ ..] => count_messages(older).saturating_add(moment.sent.len() as u64),
    }
}
