//! How far the steps of journals and transcripts were taken.
ghost use Rattle.std.specs.Prelude.{ℕ, [], All, length, slice_get, IfOk, ◌≡◌, ◌<◌, MatchOption};
ghost use Rattle.std.specs.Global.{Vec as Rows};
ghost use Rattle.settle.specs.declared.progress.TranscriptState.TheVariants.{Waiting as IsWaiting};
ghost use Rattle.partition.specs.Events.{Event as Happened};
ghost use Rattle.settle.specs.Input.{input_of, events_of_partition};
ghost use Rattle.settle.specs.Trace.{OfJournal, Trace, times};
ghost use Rattle.partition.specs.PackedEvents.{caller_of};
ghost use Rattle.std.specs.Option.{option_map};
ghost use Rattle.settle.specs.Fronts.{IsNextEvent};
ghost use Rattle.settle.specs.Replaying.{HasSettings};
ghost use Rattle.settle.specs.Standing.{IsSized, AreReplies, HasTakenSteps};

use crate::lookups::{caller_after, event_after};
use crate::replay::Replay;
use closed_store::Closed;
use partition::Event;
use plain_store::{OutOfMemory, Step};
use stamps::Limits;
use std::alloc::Global;

/// How far a transcript was taken.
#[derive(Clone, Copy, PartialEq, Eq)]
pub enum TranscriptState {
    /// Nothing of it.
    Waiting,
    /// Its hello, and so many of its entries.
    Open(usize),
    /// All of it.
    Over,
}

/// The steps taken so far, and what was noted of them.
#[derive(Drop)]
pub struct Progress {
    /// The store that took the steps.
    pub replay: Replay,
    /// How far each transcript was taken.
    pub stages: Vec<TranscriptState>,
    /// The rows of the calls that each seat sent, at the place of the seat's first transcript.
    pub sent: Vec<Vec<u64>>,
    /// For each partition the rows of the replies to its events.
    pub replies: Vec<Vec<u64>>,
    /// The steps that were taken so far, in their order.
    pub steps: Vec<Step>,
}

impl Progress {
    /// No step was taken. The store loses messages once they were delivered, or keeps all.
    pub fn open(
        alloc: Global,
        closed: &Closed,
        limits: &Limits,
        loses: bool,
    ) -> Result<Progress, OutOfMemory>
        ensures settings { IfOk result
            (λ progress. HasSettings limits.now loses progress.replay) }
        ensures sized { IfOk result (λ progress. IsSized closed.now progress) }
        ensures stands { IfOk result (λ progress. (tenant : ℕ)
            → HasTakenSteps (input_of closed.now tenant limits.now) [] progress) }
    {
        let parts = closed.config.parts;
        let _in_range = &closed.config;
        let stages = waiting(alloc, closed.transcripts.len())?;
        let sent = no_rows(alloc, closed.transcripts.len())?;
        let replies = no_rows(alloc, parts as usize)?;
        Ok(Progress {
            replay: Replay::open(alloc, parts, limits, loses)?,
            stages,
            sent,
            replies,
            steps: Vec::new(alloc),
        })
    }
}

impl Progress {
    /// The event of a journal that is taken next.
    pub fn next_event(&self, closed: &Closed, tenant: u32, partition: usize) -> Option<Event>
        requires sized { IsSized closed.now self.now }
        requires partition { partition < closed.now.config.parts }
        ensures { (trace : Trace)
            → AreReplies (input_of closed.now tenant self.now.replay.limits) trace self.now
            → MatchOption result ((event : Happened)
            → IsNextEvent
            (input_of closed.now tenant self.now.replay.limits) trace partition event → ⊥)
            (λ event.
            IsNextEvent
            (input_of closed.now tenant self.now.replay.limits) trace partition event) }
    {
        event_after(closed, tenant, partition, self.replies[partition].len())
    }

    /// The seat and the number of the event of a journal that is taken next.
    pub fn next_caller(&self, closed: &Closed, tenant: u32, partition: usize) -> Option<(u64, u64)>
        requires sized { IsSized closed.now self.now }
        requires partition { partition < closed.now.config.parts }
        ensures { (trace : Trace)
            → AreReplies (input_of closed.now tenant self.now.replay.limits) trace self.now
            → result
            ≡ option_map caller_of
            (slice_get
            (events_of_partition (input_of closed.now tenant self.now.replay.limits) partition)
            (times (OfJournal partition) trace)) }
    {
        caller_after(closed, tenant, partition, self.replies[partition].len())
    }
}

/// So many transcripts of which nothing was taken.
fn waiting(alloc: Global, count: usize) -> Result<Vec<TranscriptState>, OutOfMemory>
    ensures len { IfOk result (λ stages. length stages.items ≡ count) }
    ensures waiting { IfOk result (λ stages. All (λ stage. stage ≡ IsWaiting) stages.items) }
{
    let mut stages = Vec::with_capacity(alloc, count)?;
    for place in 0..count {
        let _place = place;
        stages.push_reserved(TranscriptState::Waiting);
    }
    Ok(stages)
}

/// So many lists of no row.
fn no_rows(alloc: Global, count: usize) -> Result<Vec<Vec<u64>>, OutOfMemory>
    ensures len { IfOk result (λ lists. length lists.items ≡ count) }
    ensures empty { IfOk result (λ lists. All (λ (rows : Rows ℕ). rows.items ≡ []) lists.items) }
{
    let mut lists = Vec::with_capacity(alloc, count)?;
    for place in 0..count {
        let _place = place;
        lists.push_reserved(Vec::new(alloc));
    }
    Ok(lists)
}
