//! settle: the verdict over what a hub left, and the check of an epoch.
use crate::values::limits;
use hub::{Closed, Config};
use partition::{Counts, Epoch, EventList, Journal};
use plain_store::{OutOfMemory, Step};
use prepare_commit::Base;
use settle::{SettleFault, check_epoch, settle};
use std::alloc::Global;

fn number_of_fault(fault: SettleFault) -> u8 {
    match fault {
        SettleFault::NoTenant => 0,
        SettleFault::Missing => 1,
        SettleFault::Mismatch => 2,
        SettleFault::Stuck => 3,
        SettleFault::OutOfMemory => 4,
    }
}

/// What a hub of one partition left that served nobody.
fn left(alloc: Global) -> Option<Closed> {
    let limits = limits(4)?;
    let journal = Journal::of(alloc, limits, EventList::new(alloc));
    let journals: Vec<Vec<Journal>> = vec![in alloc; vec![in alloc; journal].ok()?].ok()?;
    let counts: Vec<Counts> = Vec::new(alloc);
    let config = Config {
        parts: 1,
        limits: Vec::from_slice(alloc, &[limits]).ok()?,
        queue: 64,
        every: 64,
        epoch: 0,
    };
    Some(Closed::of(config, journals, counts, Vec::new(alloc)))
}

/// Whether what was left is settled, and a tenant that is not there is none.
fn is_settled(alloc: Global) -> Option<bool> {
    let closed: Closed = left(alloc)?;
    let steps: Result<Vec<Step>, SettleFault> = settle(alloc, &closed, 0);
    let nobody: Result<Vec<Step>, SettleFault> = settle(alloc, &closed, 5);
    let is_none = number_of_fault(nobody.err()?) == 0;
    Some(steps.ok()?.is_empty() && is_none)
}

/// Whether an epoch without events leads to its base.
fn is_checked(alloc: Global) -> Option<bool> {
    let epoch = Epoch {
        number: 1u64,
        base: Base::empty(alloc, 4, 4, 4),
        events: EventList::new(alloc),
    };
    let checked: Result<Option<Base>, OutOfMemory> = check_epoch(alloc, &epoch);
    let end: Base = checked.ok()??;
    Some(end.is(&epoch.base))
}

#[test]
fn settle_has_its_calls(rt: HostRuntime) {
    assert!(rt; is_settled(rt.alloc()) == Some(true) && is_checked(rt.alloc()) == Some(true));
}
