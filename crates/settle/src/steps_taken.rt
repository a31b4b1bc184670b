//! Taking a step.
ghost use Rattle.std.specs.Prelude.{IsTrue, ◌≡◌, ◌≢◌, ◌↔◌, ◌<◌, ◌++◌, ◌∷◌, [], List, drop, ℕ, length, slice_get, Option, Some, None, OnOk, MatchOption};
ghost use Rattle.plain_store.specs.History.{History};
ghost use Rattle.settle.specs.Input.{Input, setup_for, input_of};
ghost use Rattle.settle.specs.Words.{Act as Acted, SetKeep};
ghost use Rattle.settle.specs.Program.{TranscriptItem, noted, items_of, reply_taken};
ghost use Rattle.settle.specs.Trace.{at_seat, Trace, after, with_act, keep_before, keep_told, rows_sent, row_replied, numbers};
ghost use Rattle.settle.specs.Fronts.{IsNextEvent, Delivers};
ghost use Rattle.settle.specs.Standing.{rest_of, IsCompared, AreAll, IsNoted, Advances, reply_told, origin_of, IsNotedOf, IsReady, HasTakenSteps, IsNextReply, IsSized, NotesOne, TakesOneAfter, TakesStep, KeepsSize, KeepsSteps, DoneOrNoMemory, IsWithin, PushesAt};
ghost use Rattle.settle.specs.Sessions.{BelongTo};
ghost use Rattle.settle.specs.Losing.{StillHas};
ghost use Rattle.settle.specs.Replaying.{KeepsSettings, Plays, Replays, step_of};
ghost use Rattle.settle.specs.Trace.{OfTranscript, OfJournal};

use crate::next_step::{Next, Source};
use crate::progress::{Progress, TranscriptState};
use crate::same::{is_reply, no_reply};
use crate::session_order::SessionOrder;
use crate::step_fault::StepFault;
use closed_store::{Closed, EntryList, Transcript};
use partition::Event;
use plain_store::{Act, Answer, Call, Reply, Rows, Step};
use stamps::Keep;

impl Progress {
    /// Takes a step that may come next.
    pub fn take(
        &mut self,
        closed: &Closed,
        tenant: u32,
        places: &SessionOrder,
        next: Next,
    ) -> Result<(), StepFault>
        requires given { BelongTo closed.now tenant self.old places.now }
        requires within { IsWithin closed.now (origin_of next.source) }
        ensures { TakesStep closed.now tenant (origin_of next.source) next.act
            self.old self.new result }
    {
        let Next { source, act } = next;
        match source {
            Source::Transcript(place) => self.take_of_transcript(
                closed, tenant, places, place, act,
            ),
            Source::Journal(partition, _seat) => self.take_of_journal(
                closed, tenant, partition, act,
            ),
        }
    }

    /// Takes a step that the transcript at a place gives.
    fn take_of_transcript(
        &mut self,
        closed: &Closed,
        tenant: u32,
        places: &SessionOrder,
        place: usize,
        act: Act,
    ) -> Result<(), StepFault>
        requires given { BelongTo closed.now tenant self.old places.now }
        requires place { place < length closed.now.transcripts.items }
        ensures { TakesStep closed.now tenant (OfTranscript place) act
            self.old self.new result }
    {
        let reply = reply_next(&closed.transcripts[place], self.stages[place]);
        let step = Step { tenant: 0, act };
        match self.note_item(closed, tenant, places, place, &reply, &step) {
            Ok(()) => push_step(&mut self.steps, tenant, step.act),
            Err(fault) => Err(fault),
        }
    }

    /// Takes a step that the next event of a partition's journal gives, right after the Keep step that stands before it, if there
    /// is one.
    fn take_of_journal(
        &mut self,
        closed: &Closed,
        tenant: u32,
        partition: usize,
        act: Act,
    ) -> Result<(), StepFault>
        requires sized { IsSized closed.now self.old }
        requires partition { partition < closed.now.config.parts }
        ensures { TakesStep closed.now tenant (OfJournal partition) act
            self.old self.new result }
    {
        let Some(event) = self.next_event(closed, tenant, partition) else {
            // A step that may come next has an event.
            return Err(StepFault::Mismatch);
        };
        self.take_of_event(tenant, partition, &event, act)
    }

    /// Takes a step that an event of a partition's journal gives, right after the Keep step that stands before it, if there is one.
    fn take_of_event(
        &mut self,
        tenant: u32,
        partition: usize,
        event: &Event,
        act: Act,
    ) -> Result<(), StepFault>
        requires { partition < length self.old.replies.items }
        ensures takes { (input : Input) (trace : Trace) → input.tenant ≡ tenant
            → IsNextEvent input trace partition event.now
            → TakesOneAfter input trace (OfJournal partition) act self.old self.new result }
        ensures keeps { KeepsSize self.old self.new }
    {
        if let Err(fault) = self.make_ready(tenant, event) {
            return Err(fault);
        }
        let step = Step { tenant: 0, act };
        match self.note_event(partition, event, &step) {
            Ok(()) => push_step(&mut self.steps, tenant, step.act),
            Err(fault) => Err(fault),
        }
    }

    /// Takes the Keep step that stands right before the step of a journal's next event, if there is one.
    fn make_ready(&mut self, tenant: u32, event: &Event) -> Result<(), StepFault>
        ensures ready { DoneOrNoMemory result ((input : Input) (trace : Trace) (partition : ℕ)
            → input.tenant ≡ tenant → HasTakenSteps input trace self.old
            → IsNextEvent input trace partition event.now
            → IsReady input trace (OfJournal partition) self.new) }
        ensures replies { self.new.replies ≡ self.old.replies }
        ensures keeps { KeepsSize self.old self.new }
    {
        match self.keep_before(event) {
            Some(keep) => self.set_keep(tenant, keep),
            None => Ok(()),
        }
    }

    /// What is set right before the step of a journal's next event: as many versions as a collector's event kept, where another
    /// number is in force.
    fn keep_before(&self, event: &Event) -> Option<Keep>
        ensures { (input : Input) (trace : Trace) (partition : ℕ) → IsNotedOf input trace self.now
            → IsNextEvent input trace partition event.now
            → result ≡ keep_before input trace (OfJournal partition) }
    {
        let keep = keep_told(event)?;
        let in_force = self.replay.keep();
        if in_force == keep {
            return None;
        }
        Some(keep)
    }

    /// Takes a Keep step.
    fn set_keep(&mut self, tenant: u32, keep: Keep) -> Result<(), StepFault>
        ensures played { DoneOrNoMemory result ((input : Input) (acts : List Acted)
            (history : History) → Plays input acts history self.old.replay
            → Plays input (acts ++ SetKeep keep ∷ [])
            (with_act (setup_for input) (SetKeep keep) history) self.new.replay) }
        ensures steps { OnOk result (self.new.steps.items
            ≡ self.old.steps.items ++ step_of tenant (SetKeep keep) ∷ []) }
        ensures rest { self.new
            ≡ record self.old { replay = self.new.replay; steps = self.new.steps } }
        ensures settings { KeepsSettings self.old.replay self.new.replay }
    {
        let _named = no_reply();
        let mut answer = Answer::Ignored;
        let step = Step {
            tenant: 0,
            act: Act::Keep(keep),
        };
        self.replay.step_into(&step, &mut answer)?;
        push_step(&mut self.steps, tenant, Act::Keep(keep))
    }

    /// Has the store take a step that the transcript at a place gives, with the reply that it takes there, and notes what it
    /// answered.
    fn note_item(
        &mut self,
        closed: &Closed,
        tenant: u32,
        places: &SessionOrder,
        place: usize,
        reply: &Option<Reply>,
        step: &Step,
    ) -> Result<(), StepFault>
        requires given { BelongTo closed.now tenant self.old places.now }
        requires place { place < length closed.now.transcripts.items }
        requires step { step.now.tenant ≡ 0 }
        ensures notes { let input = input_of closed.now tenant self.old.replay.limits in
            NotesOne input (OfTranscript place) step.now.act
            (λ trace. IsNextReply input trace place reply.now) self.old self.new result }
        ensures keeps { KeepsSteps self.old self.new }
    {
        let _named = no_reply();
        let transcript = &closed.transcripts[place];
        let stage = self.stages[place];
        if self.replay.may_have_lost(&step.act) {
            return Err(StepFault::Lost);
        }
        if !self.delivers(&step.act, reply) {
            return Err(StepFault::Mismatch);
        }
        let Some(slot) = places.slot_of(transcript.seat) else {
            // A seat whose transcript is here has a place.
            return Err(StepFault::Mismatch);
        };
        let mut answer = Answer::Ignored;
        self.replay.step_into(step, &mut answer)?;
        let Some(next) = next_stage(transcript, stage, &answer) else {
            return Err(StepFault::Mismatch);
        };
        self.stages[place] = next;
        push_rows_at(&mut self.sent, slot, &answer)
    }

    /// Whether a step delivers this reply, if there is one.
    fn delivers(&self, act: &Act, reply: &Option<Reply>) -> bool
        ensures { (input : Input) (trace : Trace) (plays : Replays input trace self.now.replay)
            → StillHas plays.own (after input trace) act.now
            → IsTrue result ↔ Delivers (after input trace) act.now reply.now }
    {
        let Some(taken) = reply else {
            return true;
        };
        match self.replay.reply_delivered(act) {
            Some(delivered) => is_reply(&delivered, taken),
            None => false,
        }
    }

    /// Has the store take a step that the event of a partition's journal gives, and notes what it answered.
    fn note_event(&mut self, partition: usize, event: &Event, step: &Step) -> Result<(), StepFault>
        requires partition { partition < length self.old.replies.items }
        requires step { step.now.tenant ≡ 0 }
        ensures notes { (input : Input) → NotesOne input (OfJournal partition) step.now.act
            (λ trace. IsNextEvent input trace partition event.now) self.old self.new result }
        ensures keeps { KeepsSteps self.old self.new }
    {
        let _named = no_reply();
        if self.replay.may_have_lost(&step.act) {
            return Err(StepFault::Lost);
        }
        if !self.replay.brings(partition, event, &step.act) {
            return Err(StepFault::Mismatch);
        }
        let mut answer = Answer::Ignored;
        self.replay.step_into(step, &mut answer)?;
        let Some(row) = row_replied(&answer, event) else {
            return Err(StepFault::Mismatch);
        };
        push_at(&mut self.replies, partition, row)
    }
}

/// The reply that a transcript takes next, if it takes one.
fn reply_next(transcript: &Transcript, stage: TranscriptState) -> Option<Reply>
    ensures { (item : TranscriptItem) → IsCompared transcript.now stage
        → slice_get (rest_of transcript.now stage) 0 ≡ Some item
        → result ≡ reply_taken item.doing }
{
    match stage {
        TranscriptState::Open(read) => reply_at(&transcript.entries, read),
        TranscriptState::Waiting | TranscriptState::Over => None,
    }
}

/// The reply that was taken at a place of the entries, if one was.
fn reply_at(entries: &EntryList, read: usize) -> Option<Reply>
    ensures { (item : TranscriptItem) → noted (drop read entries.now.items) ≡ []
        → slice_get (items_of (drop read entries.now.items)) 0 ≡ Some item
        → result ≡ reply_taken item.doing }
{
    match entries.taken(read) {
        Some(taken) => Some(taken.reply),
        None => None,
    }
}

/// How far a transcript was taken with one step more, which was answered so.
fn next_stage(
    transcript: &Transcript,
    stage: TranscriptState,
    answer: &Answer,
) -> Option<TranscriptState>
    ensures { (item : TranscriptItem) → IsCompared transcript.now stage
        → slice_get (rest_of transcript.now stage) 0 ≡ Some item
        → MatchOption result (AreAll answer.now item.noted → ⊥)
        (Advances transcript.now stage item answer.now) }
{
    let entries = &transcript.entries;
    match stage {
        TranscriptState::Waiting => {
            if !is_same(answer, &Answer::Ready(transcript.counter)) {
                return None;
            }
            match after_noted(entries, 0, answer) {
                Some(read) => Some(TranscriptState::Open(read)),
                None => None,
            }
        }
        TranscriptState::Open(read) => {
            if read >= entries.len() {
                return Some(TranscriptState::Over);
            }
            match after_noted(entries, read + 1, answer) {
                Some(next) => Some(TranscriptState::Open(next)),
                None => None,
            }
        }
        TranscriptState::Over => None,
    }
}

/// The place at which something else was done than to note an answer, from an entry on; none where another answer than this
/// was noted before.
fn after_noted(entries: &EntryList, from: usize, answer: &Answer) -> Option<usize>
    ensures { MatchOption result (AreAll answer.now (noted (drop from entries.now.items)) → ⊥)
        (IsNoted entries.now.items from answer.now) }
{
    for place in from..entries.len() {
        let Some(noted) = entries.answer(place) else {
            return Some(place);
        };
        if !is_told(&noted, answer) {
            return None;
        }
    }
    Some(entries.len())
}

/// Whether two answers are the same.
fn is_same(one: &Answer, other: &Answer) -> bool
    ensures { IsTrue result ↔ (one.now ≡ other.now) }
{
    one == other
}

/// Whether a seat reports this of the answer.
fn is_told(noted: &Answer, answer: &Answer) -> bool
    ensures { IsTrue result ↔ (noted.now ≡ at_seat answer.now) }
{
    match answer {
        Answer::Ended(refusal, _) => is_same(noted, &Answer::Ended(*refusal, None)),
        _ => is_same(noted, answer),
    }
}

/// As many versions as the collection of a collector's event kept.
fn keep_told(event: &Event) -> Option<Keep>
    ensures { result ≡ keep_told (Some event.now) }
{
    if event.seat() != 0 {
        return None;
    }
    match event.call() {
        Call::Collect(keep) => Some(keep),
        _ => None,
    }
}

/// The row of a reply, 0 for that of a collection, where the answer reports the event's reply.
fn row_replied(answer: &Answer, event: &Event) -> Option<u64>
    ensures { MatchOption result (reply_told answer.now ≢ Some event.now.reply)
        (λ row. (reply_told answer.now ≡ Some event.now.reply)
        × (row ≡ row_replied answer.now)) }
{
    match answer {
        Answer::Replied(row, told) => {
            if event.has_reply(told) {
                Some(*row)
            } else {
                None
            }
        }
        Answer::Freed(count) => {
            if event.has_reply(&Reply::Freed(*count)) {
                Some(0)
            } else {
                None
            }
        }
        _ => None,
    }
}

/// Adds a step of the tenant.
fn push_step(steps: &mut Vec<Step>, tenant: u32, act: Act) -> Result<(), StepFault>
    ensures { DoneOrNoMemory result
        (steps.new.items ≡ steps.old.items ++ step_of tenant act ∷ []) }
{
    steps.reserve(1)?;
    steps.push_reserved(Step { tenant, act });
    Ok(())
}

/// Adds a row to the list at a place.
fn push_at(lists: &mut Vec<Vec<u64>>, place: usize, row: u64) -> Result<(), StepFault>
    requires { place < length lists.old.items }
    ensures { PushesAt place (row ∷ []) lists.old.items lists.new.items result }
{
    let list = &mut lists[place];
    list.reserve(1)?;
    list.push_reserved(row);
    Ok(())
}

/// Adds the rows of the calls that a step sent to the list at a place.
fn push_rows_at(lists: &mut Vec<Vec<u64>>, place: usize, answer: &Answer) -> Result<(), StepFault>
    requires { place < length lists.old.items }
    ensures { PushesAt place (rows_sent answer.now) lists.old.items lists.new.items result }
{
    push_rows(&mut lists[place], answer)
}

/// Adds the rows of the calls that a step sent.
fn push_rows(list: &mut Vec<u64>, answer: &Answer) -> Result<(), StepFault>
    ensures { DoneOrNoMemory result (list.new.items ≡ list.old.items ++ rows_sent answer.now) }
{
    if let Some(rows) = rows_sent(answer) {
        for row in rows.first..=rows.last {
            list.reserve(1)?;
            list.push_reserved(row);
        }
    }
    Ok(())
}

/// The rows of the calls that a step sent.
fn rows_sent(answer: &Answer) -> Option<Rows>
    ensures { MatchOption result (rows_sent answer.now ≡ [])
        (λ rows. rows_sent answer.now ≡ numbers rows) }
{
    match answer {
        Answer::PutBegun(_, rows)
        | Answer::GetBegun(rows)
        | Answer::FindBegun(rows)
        | Answer::Decided(_, rows)
        | Answer::Ask(rows)
        | Answer::BeginsRead(rows)
        | Answer::Ended(_, Some(rows)) => Some(*rows),
        _ => None,
    }
}
