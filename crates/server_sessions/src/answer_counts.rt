//! How many lines were answered by refusals and by restarts, and what was counted of each tenant.
ghost use Rattle.std.specs.Prelude.{◌≡◌, ◌<◌, ◌≤◌, IfOk, None, Some, vec_len};
ghost use Rattle.plain_store.specs.Numbers.{number_of};
ghost use Rattle.server_sessions.specs.Counting.{IsReceipt, counted_as, numbers};
ghost use Rattle.server_sessions.specs.TenantCounting.{counted_for, counted_of_tenant, place_of, receipt_of};

use crate::tenant_counts::{
    ServedCounts, TenantCount, TenantCounted, TenantCounts, counted_of_tenant,
};
use plain_store::{Answer, Refusal};
use std::alloc::{AllocError, Global};
use std::sync::atomic::{AtomicU64, Ordering};

/// How many lines of a server's sessions were answered by each refusal, and by a restart, and what was counted of each tenant. Any thread
/// may count and read.
#[derive(Drop)]
pub struct AnswerCounts {
    refusals: Vec<AtomicU64>,
    restarts: AtomicU64,
    tenants: TenantCounts,
    ghost each: { vec_len refusals ≡ numbers },
}

/// As what an answer is counted by its cause.
#[derive(Clone, Copy)]
pub(crate) enum CountedAs {
    /// The refusal of this number.
    Refusal(u8),
    Restart,
}

/// The receipt of an answer that was counted: by its cause where it is a refusal or a restart, and of its tenant. The counts alone make one.
#[derive(Clone, Copy)]
pub(crate) struct Counted {
    kind: Option<CountedAs>,
    of_tenant: Option<TenantCounted>,
}

impl Counted {
    /// The receipt of an answer that counts as nothing.
    pub(crate) fn nothing() -> Counted
        ensures { IsReceipt None None result }
    {
        Counted {
            kind: None,
            of_tenant: None,
        }
    }
}

impl AnswerCounts {
    /// The numbers of refusals are below this.
    pub const NUMBERS: u8 = 43;

    /// None was answered yet. The one error is that an allocation failed.
    pub(crate) fn new(alloc: Global) -> Result<AnswerCounts, AllocError>
        ensures { IfOk result (λ counts. vec_len counts.refusals ≡ numbers) }
    {
        let mut refusals = Vec::with_capacity(alloc, usize::from(AnswerCounts::NUMBERS))?;
        for _number in 0..AnswerCounts::NUMBERS {
            refusals.push(AtomicU64::new(0))?;
        }
        Ok(AnswerCounts {
            refusals,
            restarts: AtomicU64::new(0),
            tenants: TenantCounts::new(alloc)?,
        })
    }

    /// How many lines were answered `refused` or `ended` with this number.
    pub fn refusals(&self, number: u8) -> u64
        ensures { numbers ≤ number → result ≡ 0 }
    {
        match self.refusals.get(usize::from(number)) {
            Some(count) => count.load(Ordering::SeqCst),
            None => 0,
        }
    }

    /// How many lines were answered `restart`.
    pub fn restarts(&self) -> u64 {
        self.restarts.load(Ordering::SeqCst)
    }

    /// How often this was counted of the tenant of this number.
    pub fn of_tenant(&self, tenant: u32, what: TenantCount) -> u64
        ensures { place_of tenant what ≡ None → result ≡ 0 }
    {
        self.tenants.of(tenant, what)
    }

    /// How many lines of the clients of the tenant of this number were answered, each count at a moment of its own.
    pub fn served(&self, tenant: u32) -> ServedCounts
        ensures { result.tenant ≡ tenant }
    {
        ServedCounts {
            tenant,
            puts: self.of_tenant(tenant, TenantCount::Puts),
            gets: self.of_tenant(tenant, TenantCount::Gets),
            finds: self.of_tenant(tenant, TenantCount::Finds),
            refusals: self.refusals_of(tenant),
            restarts: self.of_tenant(tenant, TenantCount::Restarts),
        }
    }

    // How many lines of a tenant's clients were refused, by whatever number but 12.
    fn refusals_of(&self, tenant: u32) -> u64 {
        let busy = Refusal::Busy.number();
        let mut lines = 0u64;
        for number in 0..AnswerCounts::NUMBERS {
            if number != busy {
                lines = lines.saturating_add(self.of_tenant(tenant, TenantCount::Refusals(number)));
            }
        }
        lines
    }

    /// Counts the end of a tenant's session, and answers the receipt.
    pub(crate) fn count_end(&self, tenant: u32) -> TenantCounted
        ensures { result ≡ receipt_of TenantCount.Closed tenant }
    {
        self.tenants.count(tenant, TenantCount::Closed)
    }

    /// Counts a line's answer, and answers the receipt. Of this tenant it is counted first: so whoever reads the counts of causes before
    /// those of tenants misses none of a tenant's.
    pub(crate) fn count(&self, answer: &Answer, tenant: Option<u32>) -> Counted
        ensures { IsReceipt (counted_as answer.now)
            (counted_for tenant (counted_of_tenant answer.now)) result }
    {
        let of_tenant = self.count_of(tenant, counted_of_tenant(answer));
        Counted {
            kind: self.count_cause(answer),
            of_tenant,
        }
    }

    /// Counts a session that was opened, which is neither a refusal nor a restart.
    pub(crate) fn count_opened(&self, tenant: Option<u32>) -> Counted
        ensures { IsReceipt None (counted_for tenant (Some TenantCount.Opened)) result }
    {
        Counted {
            kind: None,
            of_tenant: self.count_of(tenant, Some(TenantCount::Opened)),
        }
    }

    /// Counts a line that is refused.
    pub(crate) fn count_refusal(&self, refusal: Refusal, tenant: Option<u32>) -> Counted
        ensures { let number = number_of refusal in
            IsReceipt (Some (CountedAs.Refusal number))
            (counted_for tenant (Some (TenantCount.Refusals number))) result }
    {
        let number = refusal.number();
        let of_tenant = self.count_of(tenant, Some(TenantCount::Refusals(number)));
        Counted {
            kind: Some(self.count_number(number)),
            of_tenant,
        }
    }

    // Counts this of this tenant, where there is both.
    fn count_of(&self, tenant: Option<u32>, what: Option<TenantCount>) -> Option<TenantCounted>
        ensures { result ≡ counted_for tenant what }
    {
        let what = what?;
        let tenant = tenant?;
        Some(self.tenants.count(tenant, what))
    }

    // Counts an answer by its cause; not where it is neither a refusal nor a restart.
    fn count_cause(&self, answer: &Answer) -> Option<CountedAs>
        ensures { result ≡ counted_as answer.now }
    {
        match answer {
            Answer::Refused(refusal) | Answer::Ended(refusal, _) => {
                Some(self.count_number(refusal.number()))
            }
            Answer::Restart(..) => {
                self.restarts.fetch_add(1, Ordering::SeqCst);
                Some(CountedAs::Restart)
            }
            _ => None,
        }
    }

    // Counts a refusal of this number.
    fn count_number(&self, number: u8) -> CountedAs
        requires { number < numbers }
        ensures { result ≡ CountedAs.Refusal number }
    {
        self.refusals[usize::from(number)].fetch_add(1, Ordering::SeqCst);
        CountedAs::Refusal(number)
    }
}
