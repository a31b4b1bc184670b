//! Where epochs go.
ghost use Rattle.std.specs.Prelude.{ℕ, ◌<◌, length};
ghost use Rattle.partition.specs.declared.journal.Epoch.{Epoch as Cut};
ghost use Rattle.traced_book.specs.Traced.{IsLatestEpoch};
ghost use Rattle.shard.specs.Journals.{WasCut};

use history::{Front, Naming};
use partition::Epoch;

/// A worker hands over each epoch that it cut, with no lock held. The epochs of one journal come one after the other, in the
/// order of their numbers.
///
/// `has_taken` stands for what a call of the sink leaves. An implementation need not say what it is. Code for any sink learns it
/// from this call alone, so a contract that names it says that the epoch was handed over.
///
/// `J` names the history of the store whose epochs come: a hub under this name takes no sink of another history.
pub trait Sink<J: Naming> {
    ghost has_taken: { Self → ℕ → ℕ → Cut → Type 0 } = { λ _ _ _ _. Unit {0} };

    /// Takes an epoch of a tenant's journal at this partition: what a cut of that journal gave. It has an event, and its events are
    /// the last of the tenant's calls there that were seen of the store's history: it is of no other store.
    fn epoch(&self, partition: u32, tenant: u32, epoch: Epoch, seen: &Front<J>)
        requires cut { WasCut partition tenant epoch }
        requires some { 0 < length epoch.events.items }
        requires latest { ∥ IsLatestEpoch seen.now partition tenant epoch ∥₁ }
        ensures { has_taken self.now partition tenant epoch };
}

/// Keeps nothing.
impl<J: Naming> Sink<J> for () {
    fn epoch(&self, _partition: u32, _tenant: u32, _epoch: Epoch, _seen: &Front<J>) {}
}
