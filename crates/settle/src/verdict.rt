//! The verdict.
ghost use Rattle.std.specs.Prelude.{◌≡◌, MatchResult, IfOk, IfSome, IsSome};
ghost use Rattle.settle.specs.Input.{input_of};
ghost use Rattle.settle.specs.Trace.{Trace};
ghost use Rattle.settle.specs.Fronts.{NoneIsFree};
ghost use Rattle.settle.specs.Standing.{HasTakenSteps};
ghost use Rattle.settle.specs.Sessions.{IsSessionOrder, BelongTo};
ghost use Rattle.settle.specs.Verdict.{IsVerdictFor, Settles, IsFaulty, HasJournals, ended_by, ComesTo, limits_at};

use crate::progress::Progress;
use crate::search_order::SearchOrder;
use crate::session_order::SessionOrder;
use crate::step_fault::StepFault;
use crate::{SettleFault, missing};
use closed_store::Closed;
use plain_store::Step;
use stamps::Limits;
use std::alloc::Global;

/// The verdict over what a hub left of one tenant: a list of the tenant's steps, those of its transcripts and of its journals,
/// each once and in their order, to which a store of this tenant alone answers what they say. Right before a collection that kept
/// another number of versions than was in force stands a step that sets it. `closed` is only read.
///
/// NoTenant comes exactly where the config has no such tenant. Missing: a journal, the epochs before what a journal has, the transcript of
/// a seat's event, or the event of a reply that was taken is not there, or an event's seat never sent that call. Mismatch: a journal's
/// limits are not the config's, keep aside, or the run differs from what was noted. Stuck: steps are left, and none can come next.
/// OutOfMemory: an allocation failed. Which of several faults is answered is open.
///
/// Memory goes by the steps of the list, and by the messages in flight.
pub fn settle(alloc: Global, closed: &Closed, tenant: u32) -> Result<Vec<Step>, SettleFault>
    ensures { IsVerdictFor closed.now tenant (limits_at closed.now tenant) result }
{
    let Some(limits) = closed.config.limits.get(tenant as usize) else {
        return Err(SettleFault::NoTenant);
    };
    let places = SessionOrder::of(alloc, closed.transcripts.as_slice(), tenant)?;
    if let Err(fault) = missing::check_all(closed, tenant, &places, limits) {
        return Err(fault);
    }
    find(alloc, closed, tenant, &places, limits)
}

/// The steps, taken by a store that loses each message once it was delivered: so memory goes by the messages in flight. Where
/// a step delivers a message again, which none of a hub does, they are taken anew by one that keeps all.
fn find(
    alloc: Global,
    closed: &Closed,
    tenant: u32,
    places: &SessionOrder,
    limits: &Limits,
) -> Result<Vec<Step>, SettleFault>
    requires places { IsSessionOrder closed.now.transcripts.items tenant places.now }
    requires journals { HasJournals closed.now tenant limits.now }
    ensures { MatchResult result
        (λ steps. Settles (input_of closed.now tenant limits.now) steps.items)
        (IsFaulty closed.now tenant limits.now) }
{
    match play(alloc, closed, tenant, places, limits, true) {
        Ok(Some(steps)) => return Ok(steps),
        Ok(None) => {}
        Err(fault) => return Err(fault),
    }
    match play(alloc, closed, tenant, places, limits, false) {
        Ok(Some(steps)) => Ok(steps),
        // A store that keeps all has lost none.
        Ok(None) => Err(SettleFault::Stuck),
        Err(fault) => Err(fault),
    }
}

/// Takes steps while one can come next. None: the store loses messages, and a step delivers one that it may have lost.
fn play(
    alloc: Global,
    closed: &Closed,
    tenant: u32,
    places: &SessionOrder,
    limits: &Limits,
    loses: bool,
) -> Result<Option<Vec<Step>>, SettleFault>
    requires places { IsSessionOrder closed.now.transcripts.items tenant places.now }
    requires journals { HasJournals closed.now tenant limits.now }
    ensures { ComesTo closed.now tenant limits.now loses result }
{
    let mut progress = Progress::open(alloc, closed, limits, loses)?;
    let mut search = SearchOrder::new();
    for step in 0..u64::MAX {
        let _step = step;
        let before = search;
        match progress.next(alloc, closed, tenant, places, before)? {
            Some(next) => {
                let source = next.source;
                if let Err(fault) = progress.take(closed, tenant, places, next) {
                    return ended_by(fault);
                }
                search = before.after(&progress, places, &source);
            }
            None => return verdict(progress, closed, tenant, places),
        }
    }
    // There is no room for so many steps.
    Err(SettleFault::OutOfMemory)
}

/// What is come to where a step was not taken.
fn ended_by(fault: StepFault) -> Result<Option<Vec<Step>>, SettleFault>
    ensures { result ≡ ended_by fault }
{
    match fault {
        StepFault::Mismatch => Err(SettleFault::Mismatch),
        StepFault::Lost => Ok(None),
        StepFault::OutOfMemory => Err(SettleFault::OutOfMemory),
    }
}

/// The steps, where all were taken and none can come next.
fn verdict(
    progress: Progress,
    closed: &Closed,
    tenant: u32,
    places: &SessionOrder,
) -> Result<Option<Vec<Step>>, SettleFault>
    requires given { BelongTo closed.now tenant progress places.now }
    requires journals { HasJournals closed.now tenant progress.replay.limits }
    ensures found { (trace : Trace)
        → HasTakenSteps (input_of closed.now tenant progress.replay.limits) trace progress
        → NoneIsFree (input_of closed.now tenant progress.replay.limits) trace
        → MatchResult result
        (λ found. IfSome found
        (λ steps. Settles (input_of closed.now tenant progress.replay.limits) steps.items))
        (IsFaulty closed.now tenant progress.replay.limits) }
    ensures some { IfOk result IsSome }
{
    if progress.is_whole(closed, tenant) {
        return Ok(Some(progress.steps));
    }
    Err(progress.why_stuck(closed, tenant, places))
}
