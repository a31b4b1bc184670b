//! What holds of each read and of each put of a seat. Each law is the contract of a function that does nothing.
ghost use Rattle.std.specs.Prelude.{◌≡◌, ◌<◌, ◌≤◌, ℕ, List, None};
ghost use mathlib.Core.List.{IsPrefix};
ghost use Rattle.entry_list.specs.declared.kinds.Entry.{Entry};
ghost use Rattle.plain_store.specs.declared.answer.Answer.TheVariants.{Ended, Restart};
ghost use Rattle.plain_store.specs.declared.reading.Reading.{Reading};
ghost use Rattle.plain_store.specs.declared.refusal.Refusal.{Refusal};
ghost use Rattle.plain_store.specs.History.{Finds, Gets, Writes};
ghost use Rattle.plain_store.specs.Words.{Item, Key, Stamp, Tag, Setup};
ghost use Rattle.history.specs.Legal.{HasParts, IsLegal};
ghost use Rattle.history.specs.declared.entry.HistoryEntry.{HistoryEntry};
ghost use Rattle.traced_client.specs.Clients.{HasWith};
ghost use Rattle.hub.specs.Atomic.{IsReadAtomic};
ghost use Rattle.shard.specs.declared.seat_name.SeatName.{SeatName};
ghost use Rattle.hub.specs.Clocks.{IsStampedBehind, WasReported};
ghost use Rattle.hub.specs.Fresh.{AreCommittedIn, IsFreshAt, IsNotMissed, IsReadFresh};
ghost use Rattle.hub.specs.Ended.{WasCollected, WasRefused};
ghost use Rattle.hub.specs.Replies.{IsFromReplies, IsListOf, IsMoveOf, IsReadOf, IsWriteOf};
ghost use Rattle.hub.specs.Sights.{OperationSight};

/// What a seat reads is read atomic: it was written by decided puts of the store's history, and of none of these a part is read beside
/// an older version of what else it wrote.
pub fn seat_reads_are_atomic()
    ensures { (sight : OperationSight) (keys : List Key) (start entries : List Entry)
        (told : List Reading)
        → IsLegal sight.seen → IsReadOf sight keys start entries told
        → IsReadAtomic sight.seen sight.tenant told }
{}

/// So is what a seat lists.
pub fn seat_lists_are_atomic()
    ensures { (sight : OperationSight) (setup : Setup) (tag : Tag) (start entries : List Entry)
        (told : List Reading)
        → IsLegal sight.seen → IsListOf sight setup tag start entries told
        → IsReadAtomic sight.seen sight.tenant told }
{}

/// What a seat reads is fresh: where what has the mark of the read has what was seen before, no key is read below a version that was
/// committed by then.
pub fn seat_reads_are_fresh()
    ensures { (sight : OperationSight) (before : List HistoryEntry) (keys : List Key)
        (start entries : List Entry) (told : List Reading)
        → IsLegal sight.seen → HasWith sight.mark sight.seen before
        → IsReadOf sight keys start entries told → IsReadFresh before sight.tenant told }
{}

/// So is what a seat lists.
pub fn seat_lists_are_fresh()
    ensures { (sight : OperationSight) (before : List HistoryEntry) (setup : Setup) (tag : Tag)
        (start entries : List Entry) (told : List Reading)
        → IsLegal sight.seen → HasWith sight.mark sight.seen before
        → IsListOf sight setup tag start entries told → IsReadFresh before sight.tenant told }
{}

/// A put that is answered as done has committed each key that it wrote.
pub fn seat_puts_are_committed()
    ensures { (sight : OperationSight) (setup : Setup) (items : List Item) (own : Stamp)
        (start entries : List Entry)
        → IsLegal sight.seen → HasParts sight.seen setup.partitions
        → IsWriteOf sight setup own items start entries
        → AreCommittedIn sight.seen sight.tenant items own }
{}

/// A read that is answered as restarting took a last reply by which the version that it had asked for lies below this floor of the key.
pub fn seat_reads_restart_below_a_floor()
    ensures { (sight : OperationSight) (setup : Setup) (keys : List Key)
        (start entries : List Entry) (key : Key) (floor : Stamp)
        → IsMoveOf sight setup (Gets keys) start entries (Restart key floor)
        → IsFromReplies sight (Gets keys) start entries
        (λ taken last. WasCollected key floor last) }
{}

/// So did a search.
pub fn seat_lists_restart_below_a_floor()
    ensures { (sight : OperationSight) (setup : Setup) (tag : Tag)
        (start entries : List Entry) (key : Key) (floor : Stamp)
        → IsMoveOf sight setup (Finds tag) start entries (Restart key floor)
        → IsFromReplies sight (Finds tag) start entries
        (λ taken last. WasCollected key floor last) }
{}

/// A put that is answered as ended took a last reply by which a PREPARE of it was refused so.
pub fn seat_puts_end_by_a_refusal()
    ensures { (sight : OperationSight) (setup : Setup) (own : Stamp) (items : List Item)
        (start entries : List Entry) (refusal : Refusal)
        → IsMoveOf sight setup (Writes own items) start entries (Ended refusal None)
        → IsFromReplies sight (Writes own items) start entries
        (λ taken last. WasRefused refusal last) }
{}

/// The stamp of a put by the clock is above that of each such put of the tenant whose end its seat had seen as it began, whatever keys
/// both write. Here `between` is what the one's seat had seen at its end, and `seen` what the other's had seen as it began.
pub fn puts_by_clock_rise()
    ensures { (first between seen now : List HistoryEntry) (name other : SeatName)
        (own later : Stamp)
        → name.client < 65536 → name.tenant ≡ other.tenant
        → IsStampedBehind first between name own → IsPrefix between seen
        → IsStampedBehind seen now other later → own < later }
{}

/// A read that began when its seat had seen the end of such a put does not miss it. Here `seen` is what the put's seat had seen at its
/// end, and `before` what the reader's seat had seen as the read began.
pub fn seat_reads_miss_no_put_that_was_done()
    ensures { (seen before : List HistoryEntry) (tenant : ℕ) (items : List Item) (own : Stamp)
        (told : List Reading)
        → IsLegal seen → IsPrefix seen before → AreCommittedIn seen tenant items own
        → IsReadFresh before tenant told → IsNotMissed items own told }
{}

/// A read misses no put that was reported to its tenant's clock under the number that the read found there, or under a lower one,
/// whichever session wrote it. Here `log` is the history of both: the put's seat had seen `put` of it at its end, and the reader's `seen`.
pub fn seat_reads_miss_no_put_that_was_reported()
    ensures { (log put old seen : List HistoryEntry) (name : SeatName) (items : List Item)
        (own : Stamp) (place number : ℕ) (told : List Reading)
        → IsLegal log → IsPrefix put log → IsPrefix seen log
        → WasReported items put name.tenant place own → IsFreshAt number old seen name told
        → place ≤ number → IsNotMissed items own told }
{}
