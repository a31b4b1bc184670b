//! The calls with which a write ends that found no room.
ghost use Rattle.std.specs.Prelude.{◌≡◌, ◌==◌, nat_lt, length, map, slice_get};
ghost use Rattle.plain_store.specs.Run.{call_message};

use plain_store::{Call, Message};
use put_all::Partitions;
use stamps::{Client, Stamp};
use std::marker::Model;

/// The DISCARDs of a write's stamp, one to each of its partitions, ascending, or none. Contracts see these calls.
#[derive(Drop)]
pub struct Discards {
    stamp: Stamp,
    partitions: Partitions,
}

impl Model for Discards {
    ghost use Rattle.std.specs.Prelude.{ℕ, List, map};
    ghost use Rattle.plain_store.specs.declared.calls.Call.TheVariants.{Discard};
    ghost use Rattle.plain_store.specs.Writing.{Outgoing as Sent};

    ghost Value = { List Sent };

    ghost view = { λ d. map (λ (partition : ℕ). record { partition = partition; call = Discard d.stamp }) d.partitions };
}

impl Discards {
    ghost use Rattle.std.specs.Prelude.{◌≡◌, ℕ, [], true, false, Some, None, if◌then◌else◌, All};
    ghost use Rattle.plain_store.specs.declared.calls.Call.TheVariants.{Discard};
    ghost use Rattle.plain_store.specs.Writing.{Outgoing as Sent};
    ghost use Rattle.tenant_sessions.specs.Sending.{IsDiscard};

    /// No DISCARD.
    pub(crate) fn none() -> Discards
        ensures { result ≡ [] }
    {
        Discards {
            stamp: Stamp::ZERO,
            partitions: Partitions::none(),
        }
    }

    /// One of this stamp to each of these partitions.
    pub(crate) fn of(stamp: Stamp, partitions: Partitions) -> Discards
        ensures { result ≡ map (λ (partition : ℕ).
            let out : Sent = record { partition = partition; call = Discard stamp } in out)
            partitions }
    {
        Discards { stamp, partitions }
    }

    /// The stamp of each.
    pub(crate) fn stamp(&self) -> Stamp
        ensures { All (λ (out : Sent). out.call ≡ Discard result) self.now }
    {
        self.stamp
    }

    /// Whether there are none.
    pub(crate) fn are_none(&self) -> bool
        ensures { result ≡ (length self.now == 0) }
    {
        self.partitions.as_slice().is_empty()
    }

    /// Whether there is one at this place, from 0.
    pub(crate) fn has(&self, nth: u32) -> bool
        ensures { result ≡ nat_lt nth (length self.now) }
    {
        (nth as usize) < self.partitions.as_slice().len()
    }

    /// Writes the `nth` of them, from 0, into the caller's buffer, as the client's transaction of this ticket sends it. Says
    /// whether there is one; where there is none, the place is as it was.
    pub fn message_into(&self, client: Client, ticket: u64, nth: u32, place: &mut Message) -> bool
        ensures told { (if result then Some place.new else None)
            ≡ slice_get (map (call_message client ticket) self.now) nth }
        ensures discard { result ≡ true → IsDiscard place.new.call }
        ensures reply { result ≡ true → place.new.reply ≡ None }
        ensures unchanged { result ≡ false → place.new ≡ place.old }
    {
        let Some(partition) = self.partitions.as_slice().get(nth as usize) else {
            return false;
        };
        place.client = client;
        place.ticket = ticket;
        place.partition = u32::from(*partition);
        place.call = Call::Discard(self.stamp);
        place.reply = None;
        true
    }
}
