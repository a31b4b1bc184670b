//! How much the tenants use of a partition.
ghost use Rattle.std.specs.Prelude.{◌≤◌, ◌↔◌, length, IfOk, IsTrue, IsFalse};
ghost use mathlib.Core.List.{IsPrefix};
ghost use Rattle.traced_book.specs.Traced.{WereMoreServed};
ghost use Rattle.shard.specs.UsedAt.{AreUsagesAt, AreUsagesOf, IsAt};
ghost use Rattle.stamps.specs.Limits.{max_tenants};

use crate::shard::{Shard, ShardState};
use history::{Front, Naming};
use partition::Usage;
use std::alloc::AllocError;
use std::sync::Wait;

/// How much one tenant uses of one partition, at one moment.
#[derive(Clone, Copy, Debug, PartialEq, Eq)]
pub struct TenantUsage {
    /// How much its cell holds, and what was served.
    pub usage: Usage,
    /// How many collections it had there. It stays at 2^64 - 1.
    pub collections: u64,
}

impl<J: Naming> ShardState<J> {
    /// Puts how much each tenant uses, in their order, in place of what the list has. Answers true unless there are more tenants
    /// than a store can have. The one error is that an allocation failed.
    fn put_usages(&self, usages: &mut Vec<TenantUsage>) -> Result<bool, AllocError>
        ensures used { IfOk result (λ is_there. IsTrue is_there
            → AreUsagesOf self.now.book.accounts self.now.collections usages.new.items) }
        ensures there { IfOk result (λ is_there. IsTrue is_there
            ↔ (length self.now.book.accounts ≤ max_tenants)) }
    {
        usages.clear();
        for tenant in 0..self.book.tenants() {
            let Some(collections) = self.collections.of_tenant(tenant) else {
                return Ok(false);
            };
            let usage = self.book.usage(tenant);
            usages.push(TenantUsage { usage, collections })?;
        }
        Ok(true)
    }

    /// Does so where this is that partition, one of so many, and served each call that the history, as it is seen then, has of it. Answers
    /// whether it is.
    fn put_usages_at(
        &self,
        parts: u32,
        partition: u32,
        usages: &mut Vec<TenantUsage>,
        seen: &mut Front<J>,
    ) -> Result<bool, AllocError>
        ensures used { IfOk result (λ is_there. IsTrue is_there
            → AreUsagesAt seen.new parts partition usages.new.items) }
        ensures there { IfOk result (λ is_there. IsTrue is_there
            → IsAt parts partition self.now.parts self.now.partition self.now.book.accounts) }
        ensures others { IfOk result (λ is_there. IsFalse is_there
            → IsAt parts partition self.now.parts self.now.partition self.now.book.accounts
            → WereMoreServed self.now.book.seen seen.new partition) }
        ensures later { IsPrefix seen.old seen.new }
    {
        if self.parts != parts || self.partition != partition {
            return Ok(false);
        }
        if !self.book.has_all(seen) {
            return Ok(false);
        }
        self.put_usages(usages)
    }
}

impl<J: Naming> Shard<J> {
    /// Puts how much each tenant uses of this partition, one of so many, in their order and at one moment, in place of what the
    /// list has, and sees the history as it is then: what each tenant uses is what all calls left that it has of this partition. It takes the
    /// lock, and time for each tenant, and visits none of what they hold. Answers false only where the state behind the lock is not that
    /// partition's, or served fewer calls. The one error is that an allocation failed.
    pub fn put_usages<R: Wait>(
        &self,
        rt: &R,
        parts: u32,
        partition: u32,
        usages: &mut Vec<TenantUsage>,
        seen: &mut Front<J>,
    ) -> Result<bool, AllocError>
        ensures used { IfOk result (λ is_there. IsTrue is_there
            → AreUsagesAt seen.new parts partition usages.new.items) }
        ensures later { IsPrefix seen.old seen.new }
    {
        // Memory is asked for before the lock.
        usages.clear();
        usages.reserve(self.config.tenants as usize)?;
        self.lock_soon(rt)
            .put_usages_at(parts, partition, usages, seen)
    }
}
