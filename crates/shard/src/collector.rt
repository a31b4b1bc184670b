//! What collections share.
ghost use Rattle.std.specs.Prelude.{◌≡◌, ◌<◌, ◌≤◌, ◌^◌, IfSome};
ghost use Rattle.stamps.specs.Limits.{max_tenants};

use crate::counting::next_number;
use crate::keep_settings::{KeepSettings, TenantKeep};
use stamps::Keep;
use std::sync::atomic::AtomicU64;
use std::sync::{Mutex, Wait};

/// What all collections of a hub share: how many versions they keep, and their numbers.
#[derive(Drop)]
pub struct Collector {
    keeps: Mutex<KeepSettings>,
    numbers: AtomicU64,
}

impl Collector {
    /// One that has collected nothing.
    pub fn new(keeps: KeepSettings) -> Collector {
        Collector {
            keeps: Mutex::new(keeps),
            numbers: AtomicU64::new(0),
        }
    }

    /// How many versions a collection of this tenant keeps now.
    pub fn keep_of<R: Wait>(&self, rt: &R, tenant: u32) -> TenantKeep
        requires { tenant < max_tenants }
        ensures { result.tenant ≡ tenant }
    {
        self.keeps.lock(rt).of_tenant(tenant)
    }

    /// From now on a collection of this tenant keeps so many, which it answers.
    pub fn set_keep<R: Wait>(&self, rt: &R, tenant: u32, keep: Keep) -> TenantKeep
        requires { tenant < max_tenants }
        ensures { (result.tenant ≡ tenant) × (result.keep ≡ keep) }
    {
        self.keeps.lock(rt).set(tenant, keep)
    }

    /// The number of the next collection of the hub, from 1. None after 2^62. Where it is drawn under a partition's lock, the
    /// numbers rise at that partition.
    pub fn next_number(&self) -> Option<u64>
        ensures { IfSome result (λ number. (0 < number) × (number ≤ 2 ^ 62)) }
    {
        next_number(&self.numbers)
    }
}
