//! How many versions a collection keeps, tenant by tenant.
ghost use Rattle.std.specs.Prelude.{◌≡◌, ◌<◌, ◌≤◌, IfOk, Some, length, map, set, slice_get, take, vec_capacity, vec_len};
ghost use Rattle.stamps.specs.Limits.{max_tenants};

use stamps::limits::MAX_TENANTS;
use stamps::{Keep, Limits};
use std::alloc::{AllocError, Global};
use std::marker::Model;

/// How many committed versions of an item a collection of each tenant keeps. A contract sees the list of these numbers, the
/// n-th for tenant n, with one for each tenant that a store can have. Stands behind one lock.
#[derive(Drop)]
pub struct KeepSettings {
    tenants: Vec<Keep>,
}

impl Model for KeepSettings {
    ghost use Rattle.std.specs.Prelude.{◌≡◌, ℕ, List, vec_len};
    ghost use Rattle.stamps.specs.Limits.{max_tenants};

    ghost Value = { List ℕ };

    ghost view = { λ k. k.tenants.items };

    ghost invariant = { λ k. vec_len k.tenants ≡ max_tenants };
}

/// How many versions a collection of a tenant keeps, as it stands in the list or was set there. It cannot be made elsewhere, so a
/// collection keeps what is set for its own tenant.
#[derive(Clone, Copy)]
pub struct TenantKeep {
    tenant: u32,
    keep: Keep,
    ghost in_range: { tenant < max_tenants },
}

impl TenantKeep {
    /// The tenant's number.
    pub fn tenant(&self) -> u32
        ensures tenant { result ≡ self.now.tenant }
        ensures in_range { result < max_tenants }
    {
        self.tenant
    }

    /// How many versions.
    pub fn keep(&self) -> Keep
        ensures { result ≡ self.now.keep }
    {
        self.keep
    }
}

impl KeepSettings {
    /// Those that the limits begin with.
    pub fn of(alloc: Global, limits: &[Limits]) -> Result<KeepSettings, AllocError>
        requires { length limits.now ≤ max_tenants }
        ensures { IfOk result (λ keeps. take (length limits.now) keeps
            ≡ map (λ its. its.keep) limits.now) }
    {
        let mut tenants = Vec::with_capacity(alloc, MAX_TENANTS as usize)?;
        for its in limits {
            tenants.push_reserved(its.keep);
        }
        fill(&mut tenants, Keep::new(1).unwrap());
        Ok(KeepSettings { tenants })
    }

    /// How many a collection of this tenant keeps now.
    pub fn of_tenant(&self, tenant: u32) -> TenantKeep
        requires { tenant < max_tenants }
        ensures tenant { result.tenant ≡ tenant }
        ensures keep { slice_get self.now tenant ≡ Some result.keep }
    {
        TenantKeep {
            tenant,
            keep: self.tenants[tenant as usize],
        }
    }

    /// From now on a collection of this tenant keeps so many.
    pub fn set(&mut self, tenant: u32, keep: Keep) -> TenantKeep
        requires { tenant < max_tenants }
        ensures set { self.new ≡ set self.old tenant keep }
        ensures result { (result.tenant ≡ tenant) × (result.keep ≡ keep) }
    {
        self.tenants[tenant as usize] = keep;
        self.of_tenant(tenant)
    }
}

/// Gives each tenant that a store can have beside these a number too.
fn fill(tenants: &mut Vec<Keep>, keep: Keep)
    requires few { vec_len tenants.old ≤ max_tenants }
    requires room { max_tenants ≤ vec_capacity tenants.old }
    ensures many { vec_len tenants.new ≡ max_tenants }
    ensures kept { take (vec_len tenants.old) tenants.new.items ≡ tenants.old.items }
{
    for place in tenants.len()..MAX_TENANTS as usize {
        tenants.push_reserved(keep);
    }
}
