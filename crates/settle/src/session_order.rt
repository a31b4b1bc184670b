//! What is looked up of a tenant's transcripts, found once.
ghost use Rattle.std.specs.Prelude.{ℕ, List, ◌↔◌, ◌+◌, ◌<◌, IsTrue, length, IfOk, OnOk, IfSome, MatchOption};
ghost use Rattle.closed_store.specs.declared.transcript.Transcript.{Transcript as Noted};
ghost use Rattle.settle.specs.Standing.{NoneOfSeat, IsSlot};
ghost use Rattle.settle.specs.Sessions.{IsOfTenant, IsLater, IsLastBefore, AreBefore, AreLast, AreSlots, IsSessionOrder};

use crate::next_step::comes_before;
use closed_store::Transcript;
use indexmap::IndexMap;
use plain_store::OutOfMemory;
use std::alloc::Global;

/// The place of the first transcript of each seat.
type FirstTranscripts = IndexMap<u64, usize>;

/// The place of the last session of each client.
type LastSessions = IndexMap<u16, usize>;

/// Where a tenant's transcripts stand.
#[derive(Drop)]
pub struct SessionOrder {
    slots: FirstTranscripts,
    /// For each transcript the place of the session of its client right before it.
    before: Vec<Option<usize>>,
    /// For each transcript the place of a session of its client right after it.
    after: Vec<Option<usize>>,
}

impl SessionOrder {
    /// Where the tenant's transcripts stand.
    pub fn of(
        alloc: Global,
        transcripts: &[Transcript],
        tenant: u32,
    ) -> Result<SessionOrder, OutOfMemory>
        ensures { IfOk result (λ places. IsSessionOrder transcripts.now tenant places) }
    {
        let slots = slots_of(alloc, transcripts, tenant)?;
        let before = before_all(alloc, transcripts, tenant)?;
        let after = after_all(alloc, before.as_slice())?;
        Ok(SessionOrder {
            slots,
            before,
            after,
        })
    }

    /// The place of the tenant's first transcript of a seat.
    pub fn slot_of(&self, seat: u64) -> Option<usize>
        ensures { (transcripts : List Noted) (tenant : ℕ)
            → IsSessionOrder transcripts tenant self.now
            → MatchOption result (NoneOfSeat transcripts tenant seat (length transcripts))
            (IsSlot transcripts tenant seat) }
    {
        self.slots.get(&seat).copied()
    }

    /// The place of the session of a tenant's client right before the one at a place.
    pub fn before(&self, place: usize) -> Option<usize>
        ensures { (transcripts : List Noted) (tenant : ℕ) (transcript : Noted)
            → IsSessionOrder transcripts tenant self.now
            → IsOfTenant transcripts tenant place transcript
            → IsLastBefore transcripts tenant (length transcripts) place transcript result }
    {
        *self.before.get(place)?
    }

    /// The place of a session of the same client right after the one at a place.
    pub fn after(&self, place: usize) -> Option<usize> {
        *self.after.get(place)?
    }
}

// ---- the first of each seat

/// The place of the tenant's first transcript of each seat.
fn slots_of(
    alloc: Global,
    transcripts: &[Transcript],
    tenant: u32,
) -> Result<FirstTranscripts, OutOfMemory>
    ensures { IfOk result
        (λ slots. AreSlots transcripts.now tenant (length transcripts.now) slots) }
{
    let mut slots = IndexMap::new(alloc);
    for place in 0..transcripts.len() {
        note_seat(&mut slots, transcripts, tenant, place)?;
    }
    Ok(slots)
}

/// Notes the seat of a transcript, if it is the tenant's and the first of the seat.
fn note_seat(
    slots: &mut FirstTranscripts,
    transcripts: &[Transcript],
    tenant: u32,
    place: usize,
) -> Result<(), OutOfMemory>
    requires place { place < length transcripts.now }
    requires slots { AreSlots transcripts.now tenant place slots.old }
    ensures { OnOk result (AreSlots transcripts.now tenant (place + 1) slots.new) }
{
    let transcript = &transcripts[place];
    if transcript.tenant != tenant {
        return Ok(());
    }
    if slots.contains_key(&transcript.seat) {
        return Ok(());
    }
    if slots.insert(transcript.seat, place).is_err() {
        return Err(OutOfMemory);
    }
    Ok(())
}

// ---- the session before each

/// For each transcript of the tenant the session of its client right before it.
fn before_all(
    alloc: Global,
    transcripts: &[Transcript],
    tenant: u32,
) -> Result<Vec<Option<usize>>, OutOfMemory>
    ensures { IfOk result
        (λ before. AreBefore transcripts.now tenant (length transcripts.now) before.items) }
{
    match before_in_turn(alloc, transcripts, tenant)? {
        Some(before) => Ok(before),
        None => before_by_pairs(alloc, transcripts, tenant),
    }
}

/// The same in one pass, where each client's sessions stand in their order, as a hub's do; else none.
fn before_in_turn(
    alloc: Global,
    transcripts: &[Transcript],
    tenant: u32,
) -> Result<Option<Vec<Option<usize>>>, OutOfMemory>
    ensures { IfOk result
        (λ found.
        IfSome found
        (λ before. AreBefore transcripts.now tenant (length transcripts.now) before.items)) }
{
    let mut lasts = IndexMap::new(alloc);
    let mut before = Vec::with_capacity(alloc, transcripts.len())?;
    for place in 0..transcripts.len() {
        if !pass(&mut lasts, &mut before, transcripts, tenant, place)? {
            return Ok(None);
        }
    }
    Ok(Some(before))
}

/// Passes over a transcript, and notes the last session of its client so far. Whether that one comes before it.
fn pass(
    lasts: &mut LastSessions,
    before: &mut Vec<Option<usize>>,
    transcripts: &[Transcript],
    tenant: u32,
    place: usize,
) -> Result<bool, OutOfMemory>
    requires place { place < length transcripts.now }
    requires lasts { AreLast transcripts.now tenant place lasts.old }
    requires before { AreBefore transcripts.now tenant place before.old.items }
    ensures lasts { IfOk result (λ is_later. IsTrue is_later
        → AreLast transcripts.now tenant (place + 1) lasts.new) }
    ensures before { IfOk result (λ is_later. IsTrue is_later
        → AreBefore transcripts.now tenant (place + 1) before.new.items) }
{
    let transcript = &transcripts[place];
    before.reserve(1)?;
    if transcript.tenant != tenant {
        before.push_reserved(None);
        return Ok(true);
    }
    let last = lasts.get(&transcript.client.get()).copied();
    if !is_later(transcripts, last, place) {
        return Ok(false);
    }
    before.push_reserved(last);
    if lasts.insert(transcript.client.get(), place).is_err() {
        return Err(OutOfMemory);
    }
    Ok(true)
}

/// Whether the session at a place comes after the last one, if there is one.
fn is_later(transcripts: &[Transcript], last: Option<usize>, place: usize) -> bool
    requires { place < length transcripts.now }
    ensures { IsTrue result ↔ IsLater transcripts.now last place }
{
    let Some(earlier) = last else {
        return true;
    };
    match transcripts.get(earlier) {
        Some(session) => comes_before(earlier, session, place, &transcripts[place]),
        None => false,
    }
}

/// For each transcript of the tenant the session of its client right before it: each two are compared.
fn before_by_pairs(
    alloc: Global,
    transcripts: &[Transcript],
    tenant: u32,
) -> Result<Vec<Option<usize>>, OutOfMemory>
    ensures { IfOk result
        (λ before. AreBefore transcripts.now tenant (length transcripts.now) before.items) }
{
    let mut before = Vec::with_capacity(alloc, transcripts.len())?;
    for place in 0..transcripts.len() {
        before.reserve(1)?;
        before.push_reserved(last_before(transcripts, tenant, place));
    }
    Ok(before)
}

/// The last session of a tenant's client that comes before the one at a place.
fn last_before(transcripts: &[Transcript], tenant: u32, place: usize) -> Option<usize>
    requires { place < length transcripts.now }
    ensures { (transcript : Noted) → IsOfTenant transcripts.now tenant place transcript
        → IsLastBefore transcripts.now tenant (length transcripts.now) place transcript result }
{
    let mut last = None;
    for other in 0..transcripts.len() {
        let before = last;
        last = last_of(transcripts, tenant, place, before, other);
    }
    last
}

/// The last session that comes before the one at a place, of one more than were looked at.
fn last_of(
    transcripts: &[Transcript],
    tenant: u32,
    place: usize,
    last: Option<usize>,
    other: usize,
) -> Option<usize>
    requires place { place < length transcripts.now }
    requires other { other < length transcripts.now }
    ensures { (transcript : Noted) → IsOfTenant transcripts.now tenant place transcript
        → IsLastBefore transcripts.now tenant other place transcript last
        → IsLastBefore transcripts.now tenant (other + 1) place transcript result }
{
    let session = &transcripts[other];
    if session.tenant != tenant {
        return last;
    }
    if !comes_before(other, session, place, &transcripts[place]) {
        return last;
    }
    if !is_later(transcripts, last, other) {
        return last;
    }
    Some(other)
}

/// For each transcript one whose client's session right before it is that transcript, if there is one.
fn after_all(alloc: Global, before: &[Option<usize>]) -> Result<Vec<Option<usize>>, OutOfMemory> {
    let mut after = vec![in alloc; None; before.len()]?;
    for place in 0..before.len() {
        if let Some(earlier) = before[place]
            && let Some(later) = after.get_mut(earlier)
        {
            *later = Some(place);
        }
    }
    Ok(after)
}
