//! What holds of every run of the plain store. Each law is the contract of a function that does nothing.
ghost use Rattle.std.specs.Prelude.{List};
ghost use Rattle.plain_store.specs.Counts.{SendsFew};
ghost use Rattle.plain_store.specs.Laws.{EachStep, IsAtomicAnswer, IsFalse, IsFreshAnswer, DiscardsNoDecided, DropsNoMore, IsRightRestart, IsTakenBack, ListsCommittedOnce, SendsHome};
ghost use Rattle.plain_store.specs.Log.{Log};
ghost use Rattle.plain_store.specs.Newest.{IsNewestAnswer};
ghost use Rattle.plain_store.specs.Partitions.{IsFullAnswer, IsPartitionsAnswer, LogsAreOfCalls};
ghost use Rattle.plain_store.specs.Told.{IsIgnoredAnswer, IsToldAnswer};
ghost use Rattle.plain_store.specs.Words.{Act, DiscardReply, Setup, Stamp};

/// Whatever the steps are, each read and each list is read atomic.
pub fn reads_are_atomic()
    ensures { (setup : Setup) (steps : List Act) → EachStep IsAtomicAnswer setup steps }
{}

/// Whatever the steps are, no version that was asked for is unknown, no write clashes, no DISCARD finds all
/// marks used, no reply is inconsistent, and no writer is answered that its stamp was discarded.
pub fn no_answer_is_false()
    ensures { (setup : Setup) (steps : List Act)
        → EachStep (λ history act answer. IsFalse answer → ⊥) setup steps }
{}

/// Whatever the steps are, who begins to read after a transaction was done reads nothing older at the keys
/// that it wrote.
pub fn reads_are_fresh()
    ensures { (setup : Setup) (steps : List Act) → EachStep IsFreshAnswer setup steps }
{}

/// Whatever the steps are, the stamp of a put is above each that was done for a write of a key that its client read,
/// before it began to read. A read counts that ended by a Restart, or of which the first round's replies were taken.
pub fn puts_are_newest()
    ensures { (setup : Setup) (steps : List Act) → EachStep IsNewestAnswer setup steps }
{}

/// Whatever the steps are, a reader restarts only where its partition's floor is above the stamp that it
/// asked for, as many different later stamps having been committed before a collection as the collection keeps.
pub fn restarts_are_right()
    ensures { (setup : Setup) (steps : List Act) → EachStep (IsRightRestart setup) setup steps }
{}

/// Whatever the log is, each committed stamp of an item is listed once, so a floor counts different stamps.
pub fn committed_stamps_are_different()
    ensures { (log : Log) → ListsCommittedOnce log }
{}

/// Whatever the steps are, each call is one of its own transaction's, and goes to the home of its key: of a key that the
/// put writes, or that the get or the search reads. A search asks each partition for its tag.
pub fn calls_go_home()
    ensures { (setup : Setup) (steps : List Act) → SendsHome setup steps }
{}

/// Whatever the steps are, a put that was not retried sends one PREPARE for each item and at most one COMMIT
/// and one DISCARD to each partition, and a get or a search that was not retried sends at most two GETs of each key,
/// a search at most one FOUND to each partition.
pub fn calls_are_few()
    ensures { (setup : Setup) (steps : List Act) → SendsFew setup steps }
{}

/// Whatever the steps are, what a reader reads, lists or restarts at is what the replies that it took give, in the
/// order in which they were delivered; and each of these is its partition's reply to a call of its own.
pub fn reads_rest_on_replies()
    ensures { (setup : Setup) (steps : List Act) → EachStep (IsToldAnswer setup) setup steps }
{}

/// Whatever the steps are, a reply is ignored only where its transaction does not run or took a reply in its
/// place before.
pub fn only_repeats_are_ignored()
    ensures { (setup : Setup) (steps : List Act) → EachStep IsIgnoredAnswer setup steps }
{}

/// Whatever the steps are, a partition's log is the one that the calls delivered to it and the collections
/// made there give.
pub fn logs_are_of_calls()
    ensures { (setup : Setup) (steps : List Act) → LogsAreOfCalls setup steps }
{}

/// Whatever the steps are, what a partition answers is the reply after its own log.
pub fn partitions_answer_by_logs()
    ensures { (setup : Setup) (steps : List Act) → EachStep (IsPartitionsAnswer setup) setup steps }
{}

/// Whatever the steps are, want of slots or of items is answered only where the partition's own versions or
/// items have reached the limit.
pub fn only_full_cells_refuse()
    ensures { (setup : Setup) (steps : List Act) → EachStep (IsFullAnswer setup) setup steps }
{}

/// Whatever the log is, a DISCARD drops no version that is committed, and none of another stamp.
pub fn discards_drop_no_more()
    ensures { (log : Log) (stamp : Stamp) (reply : DiscardReply) → DropsNoMore log stamp reply }
{}

/// Whatever the steps are, no DISCARD is sent for a stamp that is decided.
pub fn decided_is_not_discarded()
    ensures { (setup : Setup) (steps : List Act) → DiscardsNoDecided setup steps }
{}

/// Whatever the steps are, a put that ends for want of slots or of items sends one DISCARD to each home of its keys in
/// the step that ends it, and nothing else.
pub fn full_puts_are_taken_back()
    ensures { (setup : Setup) (steps : List Act) → EachStep (IsTakenBack setup) setup steps }
{}
