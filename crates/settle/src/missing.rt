//! What must be there before a step is taken, and what is left when none can be.
ghost use Rattle.std.specs.Prelude.{ℕ, false, ◌≡◌, ◌<◌, IsTrue, length, IfErr, MatchResult};
ghost use Rattle.stamps.specs.declared.bounds.Limits.{Limits as Limited};
ghost use Rattle.settle.specs.Input.{input_of, events_of_partition};
ghost use Rattle.settle.specs.Fronts.{TakesAll, IsEventOf, NoneIsFree, IsSeatOverAt, IsUnsentAt};
ghost use Rattle.settle.specs.Standing.{AfterItsSteps, TellsWhether, IsSized, IsOverOf, IsDone};
ghost use Rattle.settle.specs.Sessions.{IsSessionOrder, BelongTo};
ghost use Rattle.settle.specs.Verdict.{IsFaulty, AreSameLimits, LimitsDiffer, HasJournal, HasJournals};

use crate::SettleFault;
use crate::lookups::{caller_after, count_of_events, is_event_of, journal_at};
use crate::next_step::is_over;
use crate::progress::Progress;
use crate::session_order::SessionOrder;
use closed_store::Closed;
use stamps::Limits;

/// All that must be there is there.
pub fn check_all(
    closed: &Closed,
    tenant: u32,
    places: &SessionOrder,
    limits: &Limits,
) -> Result<(), SettleFault>
    requires places { IsSessionOrder closed.now.transcripts.items tenant places.now }
    ensures { MatchResult result (λ _. HasJournals closed.now tenant limits.now)
        (IsFaulty closed.now tenant limits.now) }
{
    if let Err(fault) = check_journals(closed, tenant, limits) {
        return Err(fault);
    }
    if let Err(fault) = check_events(closed, tenant, places) {
        return Err(fault);
    }
    check_transcripts(closed, tenant)
}

/// Each journal is there from its first event on, under the limits of the config.
fn check_journals(closed: &Closed, tenant: u32, limits: &Limits) -> Result<(), SettleFault>
    ensures { MatchResult result (λ _. HasJournals closed.now tenant limits.now)
        (IsFaulty closed.now tenant limits.now) }
{
    for partition in 0..closed.config.parts {
        if let Err(fault) = check_journal(closed, tenant, limits, partition) {
            return Err(fault);
        }
    }
    Ok(())
}

/// The journal of a partition is there from its first event on, under the limits of the config.
fn check_journal(
    closed: &Closed,
    tenant: u32,
    limits: &Limits,
    partition: u32,
) -> Result<(), SettleFault>
    requires { partition < closed.now.config.parts }
    ensures { MatchResult result (λ _. HasJournal closed.now tenant limits.now partition)
        (IsFaulty closed.now tenant limits.now) }
{
    let Some(journal) = journal_at(closed, tenant, partition as usize) else {
        return Err(SettleFault::Missing);
    };
    if !journal.is_first() {
        return Err(SettleFault::Missing);
    }
    if are_other(&journal.limits, limits) {
        return Err(SettleFault::Mismatch);
    }
    Ok(())
}

/// Whether limits are others, keep aside.
fn are_other(its: &Limits, own: &Limits) -> bool
    ensures differ { IsTrue result → LimitsDiffer its.now own.now }
    ensures same { result ≡ false → AreSameLimits its.now own.now }
{
    its.slots != own.slots || its.items != own.items || its.clients != own.clients
}

/// Fails where the transcript of a seat is missing of which a journal has an event.
fn check_events(closed: &Closed, tenant: u32, places: &SessionOrder) -> Result<(), SettleFault>
    requires places { IsSessionOrder closed.now.transcripts.items tenant places.now }
    ensures { (limits : Limited) → IfErr result (IsFaulty closed.now tenant limits) }
{
    for partition in 0..closed.config.parts {
        for place in 0..count_of_events(closed, tenant, partition as usize) {
            if let Err(fault) = check_event(closed, tenant, places, partition as usize, place) {
                return Err(fault);
            }
        }
    }
    Ok(())
}

/// The transcript of an event is there, if a seat called.
fn check_event(
    closed: &Closed,
    tenant: u32,
    places: &SessionOrder,
    partition: usize,
    place: usize,
) -> Result<(), SettleFault>
    requires places { IsSessionOrder closed.now.transcripts.items tenant places.now }
    requires partition { partition < closed.now.config.parts }
    ensures { (limits : Limited) → IfErr result (IsFaulty closed.now tenant limits) }
{
    let Some((seat, _number)) = caller_after(closed, tenant, partition, place) else {
        return Ok(());
    };
    if seat == 0 {
        return Ok(());
    }
    match places.slot_of(seat) {
        Some(_slot) => Ok(()),
        None => Err(SettleFault::Missing),
    }
}

/// The event of each reply that was taken is there.
fn check_transcripts(closed: &Closed, tenant: u32) -> Result<(), SettleFault>
    ensures { (limits : Limited) → IfErr result (IsFaulty closed.now tenant limits) }
{
    for place in 0..closed.transcripts.len() {
        for read in 0..closed.transcripts[place].entries.len() {
            if let Err(fault) = check_entry(closed, tenant, place, read) {
                return Err(fault);
            }
        }
    }
    Ok(())
}

/// The event of a reply is there, if the entry is the tenant's and took one.
fn check_entry(closed: &Closed, tenant: u32, place: usize, read: usize) -> Result<(), SettleFault>
    requires { place < length closed.now.transcripts.items }
    ensures { (limits : Limited) → IfErr result (IsFaulty closed.now tenant limits) }
{
    let transcript = &closed.transcripts[place];
    if transcript.tenant != tenant {
        return Ok(());
    }
    let Some(taken) = transcript.entries.taken(read) else {
        return Ok(());
    };
    if has_event(
        closed,
        tenant,
        transcript.seat,
        taken.number,
        taken.partition,
        taken.place,
    ) {
        return Ok(());
    }
    Err(SettleFault::Missing)
}

/// Whether the event of a seat's call of a number stands at a place of a partition's journal.
fn has_event(
    closed: &Closed,
    tenant: u32,
    seat: u64,
    number: u64,
    partition: u32,
    place: u64,
) -> bool
    ensures { (limits : Limited)
        → (let events = events_of_partition (input_of closed.now tenant limits) partition in
        IsEventOf events seat number place → IsTrue result) }
{
    if partition >= closed.config.parts {
        return false;
    }
    is_event_of(closed, tenant, partition as usize, seat, number, place)
}

impl Progress {
    /// Whether all steps were taken.
    pub fn is_whole(&self, closed: &Closed, tenant: u32) -> bool
        requires sized { IsSized closed.now self.now }
        ensures { TellsWhether closed.now tenant self.now result
            (λ input trace. TakesAll input trace) }
    {
        self.are_over(closed, tenant) && self.are_done(closed, tenant)
    }

    /// Whether all steps of the tenant's transcripts were taken.
    fn are_over(&self, closed: &Closed, tenant: u32) -> bool
        requires sized { IsSized closed.now self.now }
        ensures over { AfterItsSteps closed.now tenant self.now (λ input trace. IsTrue result
            → (place : ℕ) → IsOverOf input trace place) }
        ensures left { AfterItsSteps closed.now tenant self.now (λ input trace. result ≡ false
            → TakesAll input trace → ⊥) }
    {
        for place in 0..closed.transcripts.len() {
            if !self.is_over_at(closed, tenant, place) {
                return false;
            }
        }
        true
    }

    /// Whether all steps of a transcript were taken, if it is the tenant's.
    fn is_over_at(&self, closed: &Closed, tenant: u32, place: usize) -> bool
        requires sized { IsSized closed.now self.now }
        requires place { place < length closed.now.transcripts.items }
        ensures { TellsWhether closed.now tenant self.now result
            (λ input trace. IsOverOf input trace place) }
    {
        if closed.transcripts[place].tenant != tenant {
            return true;
        }
        is_over(self.stages[place])
    }

    /// Whether all events were taken.
    fn are_done(&self, closed: &Closed, tenant: u32) -> bool
        requires sized { IsSized closed.now self.now }
        ensures done { AfterItsSteps closed.now tenant self.now (λ input trace. IsTrue result
            → (partition : ℕ) → IsDone input trace partition) }
        ensures left { AfterItsSteps closed.now tenant self.now (λ input trace. result ≡ false
            → TakesAll input trace → ⊥) }
    {
        for partition in 0..closed.config.parts {
            if let Some(_event) = self.next_event(closed, tenant, partition as usize) {
                return false;
            }
        }
        true
    }

    /// Why no step can come next, though some are left: an event is missing the call of its seat, or steps wait for each other.
    pub fn why_stuck(&self, closed: &Closed, tenant: u32, places: &SessionOrder) -> SettleFault
        requires { BelongTo closed.now tenant self.now places.now }
        ensures { AfterItsSteps closed.now tenant self.now (λ input trace. NoneIsFree input trace
            → (TakesAll input trace → ⊥)
            → IsFaulty closed.now tenant self.now.replay.limits result) }
    {
        for partition in 0..closed.config.parts {
            if self.is_unsent(closed, tenant, places, partition as usize) {
                return SettleFault::Missing;
            }
        }
        SettleFault::Stuck
    }

    /// Whether the seat of a journal's next event took all its steps without sending a call of the event's number.
    fn is_unsent(
        &self,
        closed: &Closed,
        tenant: u32,
        places: &SessionOrder,
        partition: usize,
    ) -> bool
        requires given { BelongTo closed.now tenant self.now places.now }
        requires partition { partition < closed.now.config.parts }
        ensures { TellsWhether closed.now tenant self.now result
            (λ input trace. IsUnsentAt input trace partition) }
    {
        let Some(event) = self.next_event(closed, tenant, partition) else {
            return false;
        };
        if !self.is_seat_over(closed, tenant, event.seat()) {
            return false;
        }
        match self.row_sent(places, event.seat(), event.number()) {
            Some(_row) => false,
            None => true,
        }
    }

    /// Whether all steps of a seat were taken.
    fn is_seat_over(&self, closed: &Closed, tenant: u32, seat: u64) -> bool
        requires sized { IsSized closed.now self.now }
        ensures { TellsWhether closed.now tenant self.now result
            (λ input trace. (place : ℕ) → IsSeatOverAt input trace seat place) }
    {
        for place in 0..closed.transcripts.len() {
            if !self.is_seat_over_at(closed, tenant, seat, place) {
                return false;
            }
        }
        true
    }

    /// Whether all steps of a transcript were taken, if it is the tenant's of the seat.
    fn is_seat_over_at(&self, closed: &Closed, tenant: u32, seat: u64, place: usize) -> bool
        requires sized { IsSized closed.now self.now }
        requires place { place < length closed.now.transcripts.items }
        ensures { TellsWhether closed.now tenant self.now result
            (λ input trace. IsSeatOverAt input trace seat place) }
    {
        if closed.transcripts[place].seat != seat {
            return true;
        }
        self.is_over_at(closed, tenant, place)
    }
}
