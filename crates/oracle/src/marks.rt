//! The marks that DISCARDs leave, one for each client.
ghost use Rattle.std.specs.Prelude.{◌≡◌, IfOk, nat_eq};
ghost use Rattle.std.specs.List.{list_any};
ghost use Rattle.plain_store.specs.Marks.{discarded, mark, marked, once_each};

use super::lists;
use super::log::{self, Exchange};
use stamps::Stamp;
use std::alloc::{AllocError, Global};

/// The stamps of the DISCARDs that count.
fn discarded(alloc: Global, log: &[Exchange]) -> Result<Vec<Stamp>, AllocError>
    ensures { IfOk result (λ list. list.items ≡ discarded log.now) }
{
    match log {
        [] => Ok(Vec::new(alloc)),
        [exchange, before @ ..] => {
            let rest = discarded(alloc, before)?;
            match log::discarded_by(&exchange.call, &exchange.reply) {
                Some(stamp) => lists::prepend(stamp, rest),
                None => Ok(rest),
            }
        }
    }
}

/// The greatest stamp of the client that was discarded, `0.0` where there is none.
pub(super) fn mark(alloc: Global, log: &[Exchange], client: u16) -> Result<Stamp, AllocError>
    ensures { IfOk result (λ stamp. stamp ≡ mark log.now client) }
{
    let discarded = discarded(alloc, log)?;
    let mut own = Vec::new(alloc);
    for stamp in &discarded {
        if stamp.client() == client {
            own.push(*stamp)?;
        }
    }
    Ok(lists::greatest(&own))
}

/// Whether a number is among these.
fn has_number(numbers: &[u16], number: u16) -> bool
    ensures { result ≡ list_any (nat_eq number) numbers.now }
{
    match numbers {
        [] => false,
        [other, rest @ ..] => number == *other || has_number(rest, number),
    }
}

/// The numbers, each but once.
fn once_each(alloc: Global, numbers: &[u16]) -> Result<Vec<u16>, AllocError>
    ensures { IfOk result (λ list. list.items ≡ once_each numbers.now) }
{
    match numbers {
        [] => Ok(Vec::new(alloc)),
        [number, others @ ..] => {
            let rest = once_each(alloc, others)?;
            if has_number(others, *number) {
                return Ok(rest);
            }
            lists::prepend(*number, rest)
        }
    }
}

/// The clients that have a mark. The stamp `0.0` leaves none.
pub(super) fn marked(alloc: Global, log: &[Exchange]) -> Result<Vec<u16>, AllocError>
    ensures { IfOk result (λ list. list.items ≡ marked log.now) }
{
    let discarded = discarded(alloc, log)?;
    let mut clients = Vec::new(alloc);
    for stamp in &discarded {
        if *stamp != Stamp::ZERO {
            clients.push(stamp.client())?;
        }
    }
    once_each(alloc, &clients)
}
