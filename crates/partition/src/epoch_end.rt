//! The end of one epoch of a tenant, and the beginning of the next.
ghost use Rattle.std.specs.Prelude.{◌≡◌, ◌^◌, ◌↔◌, ◌⊎◌, ◌<◌, length, IfOk, IfErr, OnErr, IsErrOf};
ghost use Rattle.partition.specs.Accounts.{account_of, EndsEpoch, IsPast};
ghost use Rattle.partition.specs.Books.{IsKeptCounted};
ghost use Rattle.partition.specs.Shelf.{contents};

use crate::enter::LastNumbers;
use crate::{Epoch, Journal, Shelf};
use indexmap::IndexMap;
use plain_store::Refusal;
use std::mem;

/// The most places, and the most epochs, after which a journal is cut once more.
const MOST: u64 = 1 << 62;

/// Hands out the events of a journal, and begins its next epoch at what the tenant's cell holds. Memory is asked for before
/// anything changes.
pub(crate) fn end_epoch(
    shelf: &mut Shelf,
    journal: &mut Journal,
    lasts: &mut LastNumbers,
    tenant: u32,
) -> Result<Epoch, Refusal>
    requires { IsKeptCounted shelf.old tenant (account_of journal.old) lasts.old }

    ensures whole { IsKeptCounted shelf.new tenant (account_of journal.new) lasts.new }
    ensures same { contents shelf.new ≡ contents shelf.old }
    ensures limits { journal.new.limits ≡ journal.old.limits }
    ensures short { length journal.new.events.items < 2 ^ 63 }
    ensures ended { IfOk result
        (λ epoch. EndsEpoch (account_of journal.old) (account_of journal.new) epoch) }

    ensures past { IsErrOf result Refusal.RowsUsed ↔ IsPast (account_of journal.old) }
    ensures refusals { IfErr result (λ e. (e ≡ Refusal.RowsUsed) ⊎ (e ≡ Refusal.OutOfMemory)) }
    ensures unchanged { OnErr result (account_of journal.new ≡ account_of journal.old) }
{
    let places = journal.before + journal.events.len() as u64;
    if places > MOST || journal.number > MOST {
        return Err(Refusal::RowsUsed);
    }
    let Ok(base) = shelf.base(tenant) else {
        return Err(Refusal::OutOfMemory);
    };
    let alloc = journal.events.alloc();
    let events = journal.events.take_on();
    let begun = mem::replace(&mut journal.base, base);
    let number = journal.number;
    journal.number += 1;
    journal.before = places;
    *lasts = IndexMap::new(alloc);
    Ok(Epoch {
        number,
        base: begun,
        events,
    })
}
