//! How many sessions, operations and refusals each tenant had.
ghost use Rattle.std.specs.Prelude.{◌≡◌, IfSome, IsSomeAnd, None, Some, slice_get};
ghost use Rattle.server_sessions.specs.TenantCounting.{counted_of_tenant, place_of, receipt_of};

use crate::answer_counts::AnswerCounts;
use plain_store::Answer;
use std::alloc::{AllocError, Global};
use std::sync::atomic::{AtomicU64, Ordering};

/// Tenants that are counted, as many as a store may have.
const MOST_TENANTS: usize = 64;

/// What is counted of a tenant.
#[derive(Clone, Copy)]
pub enum TenantCount {
    /// Sessions that were opened.
    Opened,
    /// Sessions that have ended.
    Closed,
    /// Lines `put` that were answered `done`.
    Puts,
    /// Lines `get` that were answered `read`.
    Gets,
    /// Lines `find` that were answered `list`.
    Finds,
    /// Lines that were answered `restart`.
    Restarts,
    /// Lines that were answered `refused` or `ended` with this number.
    Refusals(u8),
}

/// The receipt of what was counted of a tenant. The counts alone make one.
#[derive(Clone, Copy)]
pub(crate) struct TenantCounted {
    tenant: u32,
    what: TenantCount,
}

/// How many lines of a tenant's clients were answered by what. The refusals are those but 12.
#[derive(Clone, Copy)]
pub struct ServedCounts {
    pub tenant: u32,
    pub puts: u64,
    pub gets: u64,
    pub finds: u64,
    pub refusals: u64,
    pub restarts: u64,
}

/// What was counted of each tenant of a server. Any thread may count and read.
#[derive(Drop)]
pub(crate) struct TenantCounts {
    counts: Vec<AtomicU64>,
}

impl TenantCounts {
    /// The kinds of counts: six, and one of each number of a refusal.
    const KINDS: usize = 49;

    /// Nothing was counted yet. The one error is that an allocation failed.
    pub(crate) fn new(alloc: Global) -> Result<TenantCounts, AllocError> {
        let most = MOST_TENANTS * TenantCounts::KINDS;
        let mut counts = Vec::with_capacity(alloc, most)?;
        for _place in 0..most {
            counts.push(AtomicU64::new(0))?;
        }
        Ok(TenantCounts { counts })
    }

    /// How often this was counted of a tenant.
    pub(crate) fn of(&self, tenant: u32, what: TenantCount) -> u64
        ensures { place_of tenant what ≡ None → result ≡ 0 }
    {
        match self.at(tenant, what) {
            Some(count) => count.load(Ordering::SeqCst),
            None => 0,
        }
    }

    /// Adds one to a tenant's count of this kind, and answers the receipt. Any thread may.
    pub(crate) fn count(&self, tenant: u32, what: TenantCount) -> TenantCounted
        ensures { result ≡ receipt_of what tenant }
    {
        if let Some(count) = self.at(tenant, what) {
            count.fetch_add(1, Ordering::SeqCst);
        }
        TenantCounted { tenant, what }
    }

    // A tenant's count of this kind, if there is one.
    fn at(&self, tenant: u32, what: TenantCount) -> Option<&AtomicU64>
        ensures { IfSome result (λ count. IsSomeAnd (place_of tenant what)
            (λ place. slice_get self.now.counts.items place ≡ Some count.now)) }
    {
        self.counts.get(place_of(tenant, what)?)
    }
}

// Where this is counted of a tenant; nowhere where no refusal has this number. No two have one place.
fn place_of(tenant: u32, what: TenantCount) -> Option<usize>
    ensures { result ≡ place_of tenant what }
{
    let nth = match what {
        TenantCount::Opened => 0,
        TenantCount::Closed => 1,
        TenantCount::Puts => 2,
        TenantCount::Gets => 3,
        TenantCount::Finds => 4,
        TenantCount::Restarts => 5,
        TenantCount::Refusals(number) => {
            if number >= AnswerCounts::NUMBERS {
                return None;
            }
            6 + usize::from(number)
        }
    };
    Some(tenant as usize * TenantCounts::KINDS + nth)
}

/// What an answer counts as for its tenant, if it does.
pub(crate) fn counted_of_tenant(answer: &Answer) -> Option<TenantCount>
    ensures { result ≡ counted_of_tenant answer.now }
{
    match answer {
        Answer::Ready(_) => Some(TenantCount::Opened),
        Answer::Done(_) => Some(TenantCount::Puts),
        Answer::Read(_) => Some(TenantCount::Gets),
        Answer::Listed(_) => Some(TenantCount::Finds),
        Answer::Refused(refusal) | Answer::Ended(refusal, _) => {
            Some(TenantCount::Refusals(refusal.number()))
        }
        Answer::Restart(..) => Some(TenantCount::Restarts),
        _ => None,
    }
}
