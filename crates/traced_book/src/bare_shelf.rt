//! The cells of a partition that keeps no journal.
ghost use Rattle.std.specs.Prelude.{◌≡◌, ◌<◌, ◌^◌, ◌↔◌, false, Some, slice_get, map, length, IfOk, IfErr, OnOk, OnErr, IsErrOf};
ghost use Rattle.partition.specs.Accounts.{Account, events_at, new_account, places};
ghost use Rattle.partition.specs.Journals.{IsLate};
ghost use Rattle.partition.specs.Used.{IsUsageOf};
ghost use Rattle.traced_book.specs.Bare.{new_tenant};
ghost use Rattle.traced_book.specs.Forgetting.{AreBegunAnew, TakesCall};

use partition::{CallAdmission, Caller, Shelf, Usage};
use plain_store::{Call, Refusal, Reply};
use stamps::Limits;
use std::alloc::{AllocError, Global};
use std::marker::Model;

/// What is known of a tenant beside its cell.
#[derive(Clone, Copy)]
pub(crate) struct BareTenant {
    pub limits: Limits,
    /// How many calls were served.
    pub served: u64,
}

/// The cells of a partition's tenants, and how many calls each was served. Contracts see an account of each tenant, without an event:
/// with each call that is served, it begins anew at what the cell holds then.
pub struct BareShelf {
    shelf: Shelf,
    tenants: Vec<BareTenant>,
}

// What lies in it is released here, so that no crate above proves it anew.
impl Drop for BareShelf {
    fn drop(self) {
        let BareShelf {
            shelf: _,
            tenants: _,
        } = self;
    }
}

impl Model for BareShelf {
    ghost use Rattle.std.specs.Prelude.{List};
    ghost use Rattle.partition.specs.Accounts.{Account};
    ghost use Rattle.traced_book.specs.Bare.{bare_accounts, IsBare};

    ghost Value = { List Account };

    ghost view = { λ b. bare_accounts b.shelf b.tenants.items b.shelf.cells };

    ghost invariant = { λ b. IsBare b.shelf b.tenants.items };
}

impl BareShelf {
    /// Empty cells, of a tenant for each of the limits. All memory that its calls will want is taken here. The one error is that it was
    /// refused, as `Shelf::open` reports.
    pub fn open(alloc: Global, limits: &[Limits]) -> Result<BareShelf, AllocError>
        ensures { IfOk result (λ shelf. AreBegunAnew (map new_account limits.now) shelf) }
    {
        let tenants = new_tenants(alloc, limits)?;
        let shelf = Shelf::open(alloc, limits)?;
        Ok(BareShelf { shelf, tenants })
    }

    /// The number of tenants.
    pub fn tenants(&self) -> u32
        ensures { result ≡ length self.now }
    {
        self.shelf.tenants()
    }

    /// How many events a tenant's account has: none.
    pub fn events(&self, _tenant: u32) -> u64
        ensures { result ≡ length (events_at self.now _tenant) }
    {
        let _none = &self.shelf;
        0
    }

    /// How much a tenant uses now, as `Book::usage` reports it. It has one epoch.
    pub fn usage(&self, tenant: u32) -> Usage
        requires { tenant < length self.now }
        ensures { (account : Account) → slice_get self.now tenant ≡ Some account
            → IsUsageOf account result }
    {
        Usage {
            holdings: self.shelf.holdings(tenant),
            served: self.tenants[tenant as usize].served,
            epoch: 1,
        }
    }

    /// Has a tenant's cell serve a call, where the admission agrees, and answers which one of the tenant's it is, from 1. Puts the reply
    /// into the caller's buffer, over a reply of the same kind where it lies. No number of a seat is late.
    ///
    /// It fails where the admission refuses (10). Then nothing has changed.
    pub fn serve_admitted<A: CallAdmission>(
        &mut self,
        _caller: Caller,
        tenant: u32,
        call: &Call,
        reply: &mut Option<Reply>,
        admission: &mut A,
    ) -> Result<u64, Refusal>
        requires tenant { tenant < length self.old }
        requires few { (account : Account) → slice_get self.old tenant ≡ Some account
            → places account < 2 ^ 63 }
        ensures takes { TakesCall false self.old self.new tenant _caller.seat
            _caller.number call.now (λ place. place) (λ _. reply.new) result }
        ensures admitted { OnOk result (A.admits admission.old admission.new) }
        ensures refused { IfErr result (λ e. (e ≡ Refusal.NoTenant)
            × A.refuses admission.old admission.new) }
        ensures late { IsErrOf result Refusal.Late
            ↔ IsLate (events_at self.old tenant) _caller.seat _caller.number }
        ensures unwritten { OnErr result (reply.new ≡ reply.old) }
    {
        let _cells = &self.shelf;
        if !admission.admit() {
            return Err(Refusal::NoTenant);
        }
        self.shelf.apply_into(tenant, call, reply);
        let its = &mut self.tenants[tenant as usize];
        its.served += 1;
        Ok(its.served)
    }
}

/// Of each tenant its limits, and that no call was served.
fn new_tenants(alloc: Global, limits: &[Limits]) -> Result<Vec<BareTenant>, AllocError>
    ensures { IfOk result (λ tenants. tenants.items ≡ map new_tenant limits.now) }
{
    let mut tenants = Vec::with_capacity(alloc, limits.len())?;
    for its in limits {
        tenants.push_reserved(BareTenant {
            limits: *its,
            served: 0,
        });
    }
    Ok(tenants)
}
