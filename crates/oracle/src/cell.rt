//! The replies of one cell: `cell_replies(alloc, slots, items, clients, &calls)` gives those to a list of calls, by the definitions.
ghost use Rattle.std.specs.Prelude.{◌≡◌, IfOk, map};
ghost use Rattle.plain_store.specs.CellReplies.{cell_replies};
ghost use Rattle.plain_store.specs.Log.{Exchange as Logged};

use super::lists;
use super::log::Exchange;
use super::replies::{self, Room};
use plain_store::{Call, Reply};
use std::alloc::{AllocError, Global};

/// The replies of a cell with so many slots and items to these calls, in their order, each by the definitions: what a
/// cell of another crate replies is compared with it in tests. It goes over all earlier calls again at each call.
pub fn cell_replies(
    alloc: Global,
    slots: u32,
    items: u32,
    clients: u32,
    calls: &[Call],
) -> Result<Vec<Reply>, AllocError>
    ensures { IfOk result (λ replies. replies.items
        ≡ cell_replies (record { slots = slots; items = items; clients = clients }) calls.now) }
{
    let room = Room {
        slots,
        items,
        clients,
    };
    let mut log = Vec::new(alloc);
    for call in calls {
        let reply = replies::reply_after(alloc, &room, &log, call)?;
        log = replies::with_exchange(alloc, Exchange { call: *call, reply }, &log)?;
    }
    let mut replies = replies_of(alloc, &log)?;
    replies.reverse();
    Ok(replies)
}

/// The replies in a log, newest first.
fn replies_of(alloc: Global, log: &[Exchange]) -> Result<Vec<Reply>, AllocError>
    ensures { IfOk result (λ list. list.items ≡ map (λ (e : Logged). e.reply) log.now) }
{
    match log {
        [] => Ok(Vec::new(alloc)),
        [exchange, before @ ..] => lists::prepend(exchange.reply, replies_of(alloc, before)?),
    }
}
