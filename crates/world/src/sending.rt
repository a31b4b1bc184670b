//! What a step sends.
ghost use Rattle.std.specs.Prelude.{◌≡◌, ◌+◌, ◌-◌, ◌<◌, ◌≤◌, ◌++◌, ◌∷◌, [], ℕ, List, map, take, false};
ghost use Rattle.stamps.specs.Limits.{max_parts, max_rows};
ghost use Rattle.plain_store.specs.Words.{Setup};
ghost use Rattle.plain_store.specs.declared.message.Message.{Message as Sent};
ghost use Rattle.plain_store.specs.History.{History, messages, lost_rows};
ghost use Rattle.plain_store.specs.Run.{rows_are_used, next_rows, call_message};
ghost use Rattle.message_table.specs.Content.{StandsFor as TableStandsFor};
ghost use Rattle.tenant_sessions.specs.Sessions.{IsRun, waiting, ending, StandsFor as SessionsStandFor};
ghost use Rattle.tenant_sessions.specs.Moves.{moved};
ghost use Rattle.plain_store.specs.declared.reading.Reading.{Reading as Told};

use message_table::Table;
use plain_store::{Message, Rows};
use stamps::{Client, limits};
use tenant_sessions::{MoveKind, Sessions};

/// The most messages that one step sends: a search sends one to each partition.
const MOST_SENT: u64 = limits::MAX_PARTS as u64;

/// Whether there may be too few rows left for what one step sends.
pub fn rows_are_used(table: &Table) -> bool
    ensures told { (history : History)
        → TableStandsFor table.now (messages history) (lost_rows history)
        → result ≡ rows_are_used history }
    ensures room { result ≡ false → table.now.sent + max_parts ≤ max_rows }
{
    table.sent() > Table::MAX_ROWS - MOST_SENT
}

/// The rows of the next `count` messages.
pub fn next_rows(table: &Table, count: u32) -> Rows
    ensures { (history : History) → TableStandsFor table.now (messages history) (lost_rows history)
        → result ≡ next_rows history count }
{
    let sent = table.sent();
    Rows {
        first: sent + 1,
        last: sent + u64::from(count),
    }
}

/// Sends a message for which room was made, and answers its row.
pub fn send_reserved(table: &mut Table, message: Message) -> u64
    requires rows { table.old.sent < max_rows }
    requires room { 0 < table.old.reserved }
    ensures row { result ≡ table.old.sent + 1 }
    ensures sent { table.new.sent ≡ table.old.sent + 1 }
    ensures reserved { table.new.reserved ≡ table.old.reserved - 1 }
    ensures stands { (messages : List Sent) (lost : List ℕ) → TableStandsFor table.old messages lost
        → TableStandsFor table.new (messages ++ message ∷ []) lost }
{
    let row = table.sent() + 1;
    let _ = table.send(message);
    row
}

/// Sends the first `limit` of the calls that the client's transaction has no reply to.
pub fn send_waiting(sessions: &Sessions, table: &mut Table, client: Client, limit: u32)
    requires rows { table.old.sent + limit ≤ max_rows }
    requires room { limit ≤ table.old.reserved }
    ensures { (setup : Setup) (history : History) (messages : List Sent) (lost : List ℕ)
        → IsRun setup history
        → SessionsStandFor setup history sessions.now → TableStandsFor table.old messages lost
        → TableStandsFor table.new (messages ++ take limit (waiting setup history client)) lost }
{
    for nth in 0..limit {
        let Some(message) = sessions.call(client, nth) else {
            return;
        };
        send_reserved(table, message);
    }
}

/// Sends the first `limit` of the calls that a move sends at its transaction's end.
pub fn send_ending(taken: &MoveKind, table: &mut Table, client: Client, ticket: u64, limit: u32)
    requires rows { table.old.sent + limit ≤ max_rows }
    requires room { limit ≤ table.old.reserved }
    ensures { (messages : List Sent) (lost : List ℕ) (readings : List Told)
        → TableStandsFor table.old messages lost
        → TableStandsFor table.new (messages
        ++ take limit
        (map (call_message client ticket) (ending (moved taken.now readings)))) lost }
{
    for nth in 0..limit {
        let Some(message) = taken.ending(client, ticket, nth) else {
            return;
        };
        send_reserved(table, message);
    }
}
