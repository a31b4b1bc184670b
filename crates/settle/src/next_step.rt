//! Which step may come next.
ghost use Rattle.std.specs.Prelude.{false, ◌≡◌, ◌↔◌, ◌<◌, ◌≤◌, ℕ, IsTrue, length, slice_get, Option, Some, None, IfOk};
ghost use Rattle.settle.specs.Input.{Input, input_of, transcripts_in};
ghost use Rattle.settle.specs.Program.{Doing, TranscriptItem, Greets, Begins, Takes, at_place, doing_of};
ghost use Rattle.settle.specs.Trace.{OfTranscript, OfJournal, Trace, call_rows};
ghost use Rattle.settle.specs.Fronts.{ComesBefore, IsTranscriptAt};
ghost use Rattle.settle.specs.Words.{Reply as Replied};
ghost use Rattle.settle.specs.Sessions.{IsSessionOrder, IsSessionOver, BelongTo};
ghost use Rattle.settle.specs.Standing.{AfterNoted, IsSized, IsNotedOf, HasTakenSteps, Chooses, GivesNow, RepliesNow, IsChosen, IsChoice, IsChoiceOf, IsChoiceBetween, MayBeNext, IsWithinNext, IsCompared, rest_of};
ghost use Rattle.settle.specs.declared.progress.TranscriptState.TheVariants.{Open, Over as IsOverStage};
ghost use Rattle.closed_store.specs.declared.closed.Closed.{Closed as Left};
ghost use Rattle.closed_store.specs.declared.transcript.Transcript.{Transcript as Noted};

use crate::lookups::{at_place, is_event_of, is_request};
use crate::progress::{Progress, TranscriptState};
use crate::search_order::SearchOrder;
use crate::session_order::SessionOrder;
use closed_store::{Closed, Entry, Transcript};
use plain_store::{Act, OutOfMemory};
use std::alloc::Global;

/// Where a step was found.
#[derive(Clone, Copy)]
pub enum Source {
    /// The transcript at this place.
    Transcript(usize),
    /// The journal of this partition, and the seat of its event.
    Journal(usize, u64),
}

/// A step that may come next.
#[derive(Drop)]
pub struct Next {
    pub source: Source,
    pub act: Act,
}

impl Progress {
    /// A step that may come next, if there is one, by a search that knows where to look first: of one transcript, of a journal, or
    /// of another transcript. Those that gave no step yet are asked before the others.
    pub fn next(
        &self,
        alloc: Global,
        closed: &Closed,
        tenant: u32,
        places: &SessionOrder,
        search: SearchOrder,
    ) -> Result<Option<Next>, OutOfMemory>
        requires { BelongTo closed.now tenant self.now places.now }
        ensures { IfOk result (λ next. IsChosen closed.now tenant self.now
            (λ input trace next. IsChoice input trace next) next) }
    {
        if let Some(next) = self.next_at(alloc, closed, tenant, places, search.first)? {
            return Ok(Some(next));
        }
        match self.next_of_journals(closed, tenant, places) {
            Some(next) => Ok(Some(next)),
            None => self.next_of_transcripts(alloc, closed, tenant, places, search.fresh),
        }
    }

    /// The step that the transcript at a place gives, if it may come next; none where there is no such transcript.
    fn next_at(
        &self,
        alloc: Global,
        closed: &Closed,
        tenant: u32,
        places: &SessionOrder,
        place: usize,
    ) -> Result<Option<Next>, OutOfMemory>
        requires { BelongTo closed.now tenant self.now places.now }
        ensures { IfOk result (λ next. IsChosen closed.now tenant self.now
            (λ input trace next. MayBeNext input trace next) next) }
    {
        if place >= closed.transcripts.len() {
            return Ok(None);
        }
        self.next_of_transcript(alloc, closed, tenant, places, place)
    }

    /// A step that a transcript gives and that may come next, if there is one.
    fn next_of_transcripts(
        &self,
        alloc: Global,
        closed: &Closed,
        tenant: u32,
        places: &SessionOrder,
        from: usize,
    ) -> Result<Option<Next>, OutOfMemory>
        requires { BelongTo closed.now tenant self.now places.now }
        ensures { IfOk result (λ next. IsChosen closed.now tenant self.now
            (λ input trace next. IsChoiceOf input trace OfTranscript
            (length closed.now.transcripts.items) next) next) }
    {
        let count = closed.transcripts.len();
        let middle = from.min(count);
        match self.next_between(alloc, closed, tenant, places, middle, count)? {
            Some(next) => Ok(Some(next)),
            None => self.next_between(alloc, closed, tenant, places, 0, middle),
        }
    }

    /// A step that a transcript of these places gives and that may come next, if there is one.
    fn next_between(
        &self,
        alloc: Global,
        closed: &Closed,
        tenant: u32,
        places: &SessionOrder,
        first: usize,
        end: usize,
    ) -> Result<Option<Next>, OutOfMemory>
        requires given { BelongTo closed.now tenant self.now places.now }
        requires end { end ≤ length closed.now.transcripts.items }
        ensures { IfOk result (λ next. IsChosen closed.now tenant self.now
            (λ input trace next. IsChoiceBetween input trace first end next) next) }
    {
        for place in first..end {
            if let Some(next) = self.next_of_transcript(alloc, closed, tenant, places, place)? {
                return Ok(Some(next));
            }
        }
        Ok(None)
    }

    /// A step that a journal gives and that may come next, if there is one.
    fn next_of_journals(&self, closed: &Closed, tenant: u32, places: &SessionOrder) -> Option<Next>
        requires { BelongTo closed.now tenant self.now places.now }
        ensures { IsChosen closed.now tenant self.now
            (λ input trace next.
            IsChoiceOf input trace OfJournal closed.now.config.parts next) result }
    {
        for partition in 0..closed.config.parts {
            if let Some(next) = self.next_of_journal(closed, tenant, places, partition) {
                return Some(next);
            }
        }
        None
    }

    /// The step that a transcript gives next, if it may come now.
    fn next_of_transcript(
        &self,
        alloc: Global,
        closed: &Closed,
        tenant: u32,
        places: &SessionOrder,
        place: usize,
    ) -> Result<Option<Next>, OutOfMemory>
        requires given { BelongTo closed.now tenant self.now places.now }
        requires place { place < length closed.now.transcripts.items }
        ensures { IfOk result (λ next. IsChosen closed.now tenant self.now
            (λ input trace next. Chooses input trace (OfTranscript place) next) next) }
    {
        let transcript = &closed.transcripts[place];
        if transcript.tenant != tenant {
            return Ok(None);
        }
        match self.stages[place] {
            TranscriptState::Waiting => Ok(self.greeting(closed, tenant, places, place)),
            TranscriptState::Open(read) => self.entry(
                alloc, closed, tenant, place, transcript, read,
            ),
            TranscriptState::Over => Ok(None),
        }
    }

    /// The hello of a transcript, if the client's earlier sessions are over: the one right before it came after all others.
    fn greeting(
        &self,
        closed: &Closed,
        tenant: u32,
        places: &SessionOrder,
        place: usize,
    ) -> Option<Next>
        requires given { BelongTo closed.now tenant self.now places.now }
        requires place { place < length closed.now.transcripts.items }
        ensures gives { let input = input_of closed.now tenant self.now.replay.limits in
            (trace : Trace) (transcript : Noted) → HasTakenSteps input trace self.now
            → IsTranscriptAt input place transcript
            → GivesNow input trace place transcript Greets result }
        ensures within { IsWithinNext closed.now result }
    {
        let transcript = &closed.transcripts[place];
        if !self.is_past(places.before(place)) {
            return None;
        }
        Some(Next {
            source: Source::Transcript(place),
            act: Act::Hello(transcript.client, transcript.base),
        })
    }

    /// Whether all of the transcript at a place was taken, if there is one.
    fn is_past(&self, place: Option<usize>) -> bool
        ensures { IsTrue result ↔ IsSessionOver self.now.stages.items place }
    {
        let Some(earlier) = place else {
            return true;
        };
        match self.stages.get(earlier) {
            Some(stage) => is_over(*stage),
            None => false,
        }
    }

    /// What the transcript at a place did after so many of its entries, if it may come now.
    fn entry(
        &self,
        alloc: Global,
        closed: &Closed,
        tenant: u32,
        place: usize,
        transcript: &Transcript,
        read: usize,
    ) -> Result<Option<Next>, OutOfMemory>
        requires sized { IsSized closed.now self.now }
        requires place { place < length closed.now.transcripts.items }
        ensures gives { let input = input_of closed.now tenant self.now.replay.limits in
            IfOk result (λ next. (trace : Trace) (item : TranscriptItem)
            → IsNotedOf input trace self.now → IsCompared transcript.now (Open read)
            → slice_get (rest_of transcript.now (Open read)) 0 ≡ Some item
            → GivesNow input trace place transcript.now item.doing next) }
        ensures within { IfOk result (λ next. IsWithinNext closed.now next) }
    {
        if read >= transcript.entries.len() {
            return Ok(Some(Next {
                source: Source::Transcript(place),
                act: Act::Stop(transcript.client),
            }));
        }
        let entry = transcript.entries.entry(alloc, read)?;
        Ok(self.next_of_entry(closed, tenant, place, transcript, entry))
    }

    /// The step that an entry of the transcript at a place gives, if it may come now.
    fn next_of_entry(
        &self,
        closed: &Closed,
        tenant: u32,
        place: usize,
        transcript: &Transcript,
        entry: Entry,
    ) -> Option<Next>
        requires sized { IsSized closed.now self.now }
        requires place { place < length closed.now.transcripts.items }
        ensures gives { let input = input_of closed.now tenant self.now.replay.limits in
            (trace : Trace) (doing : Doing) → IsNotedOf input trace self.now
            → doing_of entry ≡ Some doing
            → GivesNow input trace place transcript.now doing result }
        ensures within { IsWithinNext closed.now result }
    {
        match entry {
            Entry::Began(act) => request(place, transcript, act),
            Entry::Took {
                number,
                partition,
                place: event_place,
                reply: _,
            } => {
                let row = self.reply_row(
                    closed,
                    tenant,
                    transcript.seat,
                    number,
                    partition,
                    event_place,
                );
                delivery(place, row)
            }
            Entry::Answered(_) => None,
        }
    }

    /// The row of the reply to a seat's call of a number, whose event stands at a place of a partition's journal, if it has come.
    fn reply_row(
        &self,
        closed: &Closed,
        tenant: u32,
        seat: u64,
        number: u64,
        partition: u32,
        place: u64,
    ) -> Option<u64>
        requires sized { IsSized closed.now self.now }
        ensures { AfterNoted closed.now tenant self.now
            (λ input trace. RepliesNow input trace seat number partition place result) }
    {
        if partition >= closed.config.parts {
            return None;
        }
        if !is_event_of(closed, tenant, partition as usize, seat, number, place) {
            return None;
        }
        at_place(self.replies[partition as usize].as_slice(), place)
    }

    /// The step that a journal gives next, if it may come now, as the event's seat and number tell alone.
    fn next_of_journal(
        &self,
        closed: &Closed,
        tenant: u32,
        places: &SessionOrder,
        partition: u32,
    ) -> Option<Next>
        requires given { BelongTo closed.now tenant self.now places.now }
        requires partition { partition < closed.now.config.parts }
        ensures { IsChosen closed.now tenant self.now
            (λ input trace next. Chooses input trace (OfJournal partition) next) result }
    {
        let Some((seat, number)) = self.next_caller(closed, tenant, partition as usize) else {
            return None;
        };
        let source = Source::Journal(partition as usize, seat);
        if seat == 0 {
            let act = Act::Collect(partition);
            return Some(Next { source, act });
        }
        let Some(row) = self.row_sent(places, seat, number) else {
            return None;
        };
        let act = Act::Deliver(row);
        Some(Next { source, act })
    }

    /// The row of the call that a seat sent under a number.
    pub fn row_sent(&self, places: &SessionOrder, seat: u64, number: u64) -> Option<u64>
        ensures { (input : Input) (trace : Trace) → IsSized input.closed self.now
            → IsSessionOrder (transcripts_in input) input.tenant places.now
            → HasTakenSteps input trace self.now
            → result ≡ at_place (call_rows input seat trace) number }
    {
        let Some(slot) = places.slot_of(seat) else {
            return None;
        };
        let Some(rows) = self.sent.get(slot) else {
            return None;
        };
        at_place(rows.as_slice(), number)
    }
}

/// The step of a request that the transcript at a place began, or of a raise; none where it is not of its client.
fn request(place: usize, transcript: &Transcript, act: Act) -> Option<Next>
    ensures gives { (input : Input) (trace : Trace)
        → GivesNow input trace place transcript.now (Begins act) result }
    ensures within { (closed : Left) → place < length closed.transcripts.items
        → IsWithinNext closed result }
{
    if !is_request(transcript.client, &act) {
        return None;
    }
    let source = Source::Transcript(place);
    Some(Next { source, act })
}

/// The delivery of the row of a reply that the transcript at a place took; none where it has not come.
fn delivery(place: usize, row: Option<u64>) -> Option<Next>
    ensures gives { (input : Input) (trace : Trace) (transcript : Noted) (number : ℕ)
        (partition : ℕ) (event_place : ℕ) (reply : Replied)
        → RepliesNow input trace transcript.seat number partition event_place row
        → GivesNow input trace place transcript (Takes number partition event_place reply) result }
    ensures within { (closed : Left) → place < length closed.transcripts.items
        → IsWithinNext closed result }
{
    let row = row?;
    Some(Next {
        source: Source::Transcript(place),
        act: Act::Deliver(row),
    })
}

/// Whether the one session is of the same client and comes before the other: by turn, and by their places where the turns are the same.
pub fn comes_before(i: usize, earlier: &Transcript, j: usize, later: &Transcript) -> bool
    ensures { IsTrue result ↔ ComesBefore i earlier.now j later.now }
{
    earlier.client == later.client
        && (earlier.turn < later.turn || (earlier.turn == later.turn && i < j))
}

/// Whether all of a transcript was taken.
pub fn is_over(stage: TranscriptState) -> bool
    ensures { IsTrue result ↔ (stage ≡ IsOverStage) }
{
    matches!(stage, TranscriptState::Over)
}
