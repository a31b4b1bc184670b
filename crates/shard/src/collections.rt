//! How many collections each tenant had at a partition.
ghost use Rattle.std.specs.Prelude.{◌≡◌, ◌<◌, ◌≤◌, replicate, slice_get, IfNone, IfSome};
ghost use Rattle.stamps.specs.Limits.{max_tenants};
ghost use Rattle.shard.specs.Collected.{one_more};

use stamps::limits::MAX_TENANTS;
use std::marker::Model;

/// How many tenants a store can have.
const TENANTS: usize = MAX_TENANTS as usize;

/// How many collections each tenant had at a partition. A contract sees the list of these numbers, the n-th for tenant n, with one
/// for each tenant that a store can have. A number that has come to 2^64 - 1 stays there.
#[derive(Drop)]
pub struct CollectionCounts {
    tenants: [u64; TENANTS],
}

impl Model for CollectionCounts {
    ghost use Rattle.std.specs.Prelude.{ℕ, List};

    ghost Value = { List ℕ };

    ghost view = { λ c. c.tenants };
}

impl CollectionCounts {
    /// Those of a partition where nothing was collected.
    pub fn new() -> CollectionCounts
        ensures { result ≡ replicate max_tenants 0 }
    {
        CollectionCounts {
            tenants: [0; TENANTS],
        }
    }

    /// How many this tenant had; none of a number that no tenant can have.
    pub fn of_tenant(&self, tenant: u32) -> Option<u64>
        ensures count { result ≡ slice_get self.now tenant }
        ensures there { IfSome result (λ _. tenant < max_tenants) }
        ensures past { IfNone result (max_tenants ≤ tenant) }
    {
        self.tenants.get(tenant as usize).copied()
    }

    /// This tenant had one more.
    pub fn count(&mut self, tenant: u32)
        requires { tenant < max_tenants }
        ensures { self.new ≡ one_more self.old tenant }
    {
        let before = self.tenants[tenant as usize];
        self.tenants[tenant as usize] = before.saturating_add(1);
    }
}
