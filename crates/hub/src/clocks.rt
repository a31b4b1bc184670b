//! The clocks of a store's tenants.
ghost use Rattle.std.specs.Prelude.{◌≡◌, IfSome};
ghost use Rattle.history.specs.Rules.{IsClockOf};

use crossbeam_utils::CachePadded;
use history::{Naming, PartitionWords, Tally};
use std::alloc::{AllocError, Global};

/// A clock for each tenant, in their order. All seats of a tenant draw from one, which has cache lines of its own.
#[derive(Drop)]
pub(crate) struct Clocks<G: Naming> {
    tallies: Vec<CachePadded<Tally<G>>>,
}

impl<G: Naming> Clocks<G> {
    /// None yet, with room for so many. The one error is that an allocation failed.
    pub(crate) fn with_room(alloc: Global, tenants: usize) -> Result<Clocks<G>, AllocError> {
        let tallies = Vec::with_capacity(alloc, tenants)?;
        Ok(Clocks { tallies })
    }

    /// Those of so many tenants, for which there is room.
    pub(crate) fn fill(&mut self, words: PartitionWords<G>, tenants: usize) {
        let mut words = words.clocks();
        for _tenant in 0..tenants {
            let Some(tally) = words.take() else {
                return;
            };
            if self.tallies.push(CachePadded::new(tally)).is_err() {
                return;
            }
        }
    }

    /// That of a tenant. None past the last tenant.
    pub(crate) fn of(&self, tenant: u32) -> Option<&Tally<G>>
        ensures { IfSome result (λ clock. IsClockOf clock.now.key tenant) }
    {
        let clock: &Tally<G> = &**self.tallies.get(tenant as usize)?;
        if clock.is_clock_of(tenant) {
            Some(clock)
        } else {
            None
        }
    }
}
