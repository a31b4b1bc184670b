//! What is known of a journal by its epochs so far.
ghost use Rattle.std.specs.Prelude.{◌≡◌, ◌≢◌, ◌↔◌, false, IfOk, IfSome, IsSome, IsSomeAnd, IsTrue, Some};
ghost use Rattle.prepare_commit.specs.Bases.{empty_base};
ghost use Rattle.partition.specs.Journals.{IsEnd, room_for};
ghost use Rattle.server_verdicts.specs.Taken.{IsNextEpoch, SomeLead};
ghost use Rattle.server_verdicts.specs.declared.epochs.checked.Standing.{Standing};

use crate::epochs::reached::Reached;
use partition::Epoch;
use plain_store::OutOfMemory;
use prepare_commit::Base;
use settle::check_epoch;
use stamps::Limits;
use std::alloc::Global;

/// How the epochs of a journal were so far.
#[derive(Clone, Copy, Debug, PartialEq, Eq)]
pub enum Standing {
    /// Each followed the one before.
    Right,
    /// One did not follow the one before.
    Wrong,
    /// Memory was refused when one was checked, or one did not come here.
    Unknown,
}

/// How far the checks of a journal have come.
#[derive(Clone, Copy)]
pub struct CheckProgress {
    /// How its epochs were so far.
    pub standing: Standing,
    /// How many epochs were checked and right.
    pub checked: u64,
}

/// The receipt of an epoch: what is known of a journal took the one of this number.
#[derive(Drop)]
pub struct TakenEpoch {
    number: u64,
}

/// What is known of a journal by its epochs so far. Its number and its end are those of epochs that were taken, each of which
/// was right; where it is wrong, the one that was taken after them is not.
#[derive(Drop)]
pub struct Checked {
    limits: Limits,
    standing: Standing,
    number: u64,
    end: Reached,
    wrong: Option<Epoch>,
    pub ghost led: { SomeLead limits number end },
    pub ghost fell: { ∥ (standing ≡ Standing.Wrong → IsSomeAnd wrong (λ epoch. IsNextEpoch number end epoch → ⊥)) ∥₁ },
}

impl Checked {
    ghost use Rattle.server_verdicts.specs.Checks.{FollowsEpoch};

    /// What is known of a journal under these limits before its first epoch. It takes no memory.
    pub fn new(alloc: Global, limits: &Limits) -> Checked
        ensures limits { result.limits ≡ limits.now }
        ensures standing { result.standing ≡ Standing.Right }
        ensures number { result.number ≡ 0 }
        ensures end { result.end ≡ empty_base (room_for limits.now) }
    {
        Checked {
            limits: *limits,
            standing: Standing::Right,
            number: 0,
            end: nothing_yet(alloc, limits),
            wrong: None,
        }
    }

    /// What is known of a journal under these limits whose epochs did not come here. It takes no memory.
    pub(crate) fn unknown(alloc: Global, limits: &Limits) -> Checked
        ensures standing { result.standing ≡ Standing.Unknown }
        ensures limits { result.limits ≡ limits.now }
    {
        let mut checked = Checked::new(alloc, limits);
        checked.standing = Standing::Unknown;
        checked
    }

    /// Whether the journal is under these limits.
    pub fn is_under(&self, limits: &Limits) -> bool
        ensures { IsTrue result ↔ (self.now.limits ≡ limits.now) }
    {
        self.limits == *limits
    }

    /// How its epochs were.
    pub fn standing(&self) -> Standing
        ensures { result ≡ self.now.standing }
    {
        self.standing
    }

    /// How far its checks have come.
    pub(crate) fn progress(&self) -> CheckProgress
        ensures { (result.standing ≡ self.now.standing) × (result.checked ≡ self.now.number) }
    {
        CheckProgress {
            standing: self.standing,
            checked: self.number,
        }
    }

    /// The base at the end of an epoch that follows the last one: it has the next number, begins at the base at the end of
    /// the last one, and is sound. None exactly where it does not follow.
    pub fn follow(&self, alloc: Global, epoch: &Epoch) -> Result<Option<Base>, OutOfMemory>
        ensures exact { IfOk result (λ end. IsSome end
            ↔ IsNextEpoch self.now.number self.now.end epoch.now) }
        ensures end { IfOk result
            (λ end. IfSome end (IsEnd epoch.now.base epoch.now.events.items)) }
    {
        if epoch.number == 0 || epoch.number - 1 != self.number {
            return Ok(None);
        }
        if !self.end.is(&epoch.base)? {
            return Ok(None);
        }
        check_epoch(alloc, epoch)
    }

    /// Loses the journal: an epoch of it did not come here.
    pub(crate) fn lose(&mut self)
        ensures not_right { self.new.standing ≢ Standing.Right }
        ensures unknown { self.old.standing ≡ Standing.Right
            → self.new.standing ≡ Standing.Unknown }
        ensures stays { self.old.standing ≢ Standing.Right → self.new ≡ self.old }
        ensures limits { self.new.limits ≡ self.old.limits }
    {
        if self.standing == Standing::Right {
            self.standing = Standing::Unknown;
        }
    }

    /// Takes the epoch that comes next. Where it follows the last one, its number and what it leads to are kept in place
    /// of those before; else the journal is wrong from then on, and this epoch is kept. Where an allocation failed, nothing is
    /// known of it any more.
    ///
    /// Its calls are played on what the epochs before led to, so it takes time for each of them, and to compare its base.
    pub fn take(&mut self, alloc: Global, epoch: Epoch) -> TakenEpoch
        ensures receipt { result.number ≡ epoch.number }
        ensures right { self.new.standing ≡ Standing.Right → FollowsEpoch self.old epoch self.new }
        ensures wrong { self.old.standing ≡ Standing.Right
            → IsNextEpoch self.old.number self.old.end epoch
            → self.new.standing ≢ Standing.Wrong }
        ensures kept { self.old.standing ≡ Standing.Right → self.new.standing ≡ Standing.Wrong
            → self.new.wrong ≡ Some epoch }
        ensures before { self.new.standing ≡ Standing.Wrong
            → (self.new.number ≡ self.old.number) × (self.new.end ≡ self.old.end) }
        ensures stays { self.old.standing ≢ Standing.Right → self.new ≡ self.old }
        ensures limits { self.new.limits ≡ self.old.limits }
    {
        let taken = TakenEpoch {
            number: epoch.number,
        };
        if self.standing != Standing::Right {
            return taken;
        }
        match go_on(alloc, self.number, &mut self.end, &epoch) {
            Ok(true) => self.number = epoch.number,
            Ok(false) => {
                self.wrong = Some(epoch);
                self.standing = Standing::Wrong;
            }
            Err(OutOfMemory) => {
                self.end = nothing_yet(alloc, &self.limits);
                self.number = 0;
                self.standing = Standing::Unknown;
            }
        }
        taken
    }
}

/// What no epoch of a journal under these limits led to. It takes no memory.
fn nothing_yet(alloc: Global, limits: &Limits) -> Reached
    ensures { result ≡ empty_base (room_for limits.now) }
{
    Reached::at(Base::empty(alloc, limits.slots, limits.items, limits.clients))
}

/// Whether an epoch follows the one of this number that led to this end, which is then what the epoch leads to; where it does
/// not follow, the end stays. The one fault is that an allocation failed.
fn go_on(alloc: Global, number: u64, end: &mut Reached, epoch: &Epoch) -> Result<bool, OutOfMemory>
    ensures exact { IfOk result (λ yes. IsTrue yes ↔ IsNextEpoch number end.old epoch.now) }
    ensures led { IfOk result (λ yes. IsTrue yes
        → IsEnd epoch.now.base epoch.now.events.items end.new) }
    ensures stays { IfOk result (λ yes. yes ≡ false → end.new ≡ end.old) }
{
    if epoch.number == 0 || epoch.number - 1 != number {
        return Ok(false);
    }
    if !end.begins_at(&epoch.base)? {
        return Ok(false);
    }
    end.play(alloc, epoch)
}
