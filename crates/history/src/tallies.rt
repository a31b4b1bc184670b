//! A history that was opened, and its words.
ghost use Rattle.std.specs.Prelude.{◌≡◌, ◌+◌, ◌<◌, ◌≤◌, ◌↔◌, [], ◌∷◌, IsSome, IfSome, IsTrue, true};
ghost use Rattle.stamps.specs.Limits.{max_parts, max_tenants};
ghost use Rattle.history.specs.Entries.{clock_of};
ghost use Rattle.history.specs.declared.entry.HistoryEntry.TheVariants.{Opened as WasOpened};
ghost use Rattle.history.specs.Rules.{IsClockOf, is_opening, word_of};

use crate::entry::{HistoryEntry, StoreToOpen};
use crate::front::Front;
use crate::rule::{Law, Naming};
use logbook::{Pens, Seen, Start, Word};
use stamps::Limits;
use stamps::limits::{MAX_PARTS, MAX_TENANTS};
use std::marker::PhantomData;

/// The words of the register, of the partitions and of the clocks.
const WORDS: usize = MAX_PARTS as usize + MAX_TENANTS as usize + 1;

/// The history of a store that was just opened, which has no name yet.
#[derive(Drop)]
pub struct NewHistory {
    register: Word<HistoryEntry, u64, Law>,
    partitions: Pens,
    seen: Seen<HistoryEntry, u64, Law>,
    pub ghost opening: { is_opening seen.log ≡ true },
    pub ghost register_is: { register ≡ word_of 0 seen.book },
    pub ghost book_is: { partitions.book ≡ seen.book },
    pub ghost next_is: { partitions.next ≡ 1 },
    pub ghost left_is: { partitions.left ≡ max_parts + max_tenants },
}

impl NewHistory {
    ghost use Rattle.std.specs.Prelude.{◌≡◌, [], ◌∷◌};
    ghost use Rattle.history.specs.declared.entry.HistoryEntry.TheVariants.{Opened as WasOpened};

    /// The history of a store of so many partitions, in which each tenant has these limits. The n-th are those of tenant n.
    pub fn new(parts: u32, limits: &[Limits]) -> NewHistory
        ensures { result.seen.log ≡ WasOpened (record { parts = parts; limits = limits.now }) ∷ [] }
    {
        let given = StoreToOpen { parts, limits };
        let (seen, mut pens) = Seen::open_row::<StoreToOpen<'_>, Law>(
            &given,
            Start::alone(),
            WORDS,
        );
        let mut pen = pens.take();
        NewHistory {
            register: Word::tracked(0, &mut pen),
            partitions: pens,
            seen,
        }
    }

    /// The words under a name, and what was seen of the history: its opening.
    pub fn named<J: Naming>(self) -> (Tally<J>, PartitionWords<J>, Front<J>)
        requires { self.seen.book ≡ J.book }
        ensures register { result.0.key ≡ 0 }
        ensures partitions { result.1.next ≡ 0 }
        ensures front { result.2 ≡ self.seen.log }
    {
        let NewHistory {
            register,
            partitions,
            seen,
        } = self;
        (
            Tally {
                key: 0,
                word: register,
                of: PhantomData,
            },
            PartitionWords {
                next: 0,
                pens: partitions,
                of: PhantomData,
            },
            Front::of(seen),
        )
    }
}

/// A word of the history: how many entries it has. Who holds it adds them; nobody else has the same.
#[derive(Drop)]
pub struct Tally<J: Naming> {
    /// 0 of the register, p + 1 of partition p, one past those of the partitions of a tenant's clock, and past those of a client.
    pub key: u64,
    pub(crate) word: Word<HistoryEntry, u64, Law>,
    pub(crate) of: PhantomData<J>,
    ghost word_is: { word ≡ word_of key J.book },
}

impl<J: Naming> Tally<J> {
    /// Whether it is the clock of this tenant.
    pub fn is_clock_of(&self, tenant: u32) -> bool
        ensures { IsTrue result ↔ IsClockOf self.now.key tenant }
    {
        tenant < MAX_TENANTS && self.key == u64::from(MAX_PARTS) + 1 + u64::from(tenant)
    }
}

/// The words of the partitions that nobody took yet.
#[derive(Drop)]
pub struct PartitionWords<J: Naming> {
    /// The partition whose word comes next.
    pub next: u32,
    pens: Pens,
    of: PhantomData<J>,
    ghost book_is: { pens.book ≡ J.book },
    ghost next_is: { pens.next ≡ next + 1 },
    ghost left_is: { pens.left + next ≡ max_parts + max_tenants },
    ghost most: { next ≤ max_parts },
}

impl<J: Naming> PartitionWords<J> {
    /// The clocks, once the partitions have theirs.
    pub fn clocks(self) -> ClockWords<J>
        ensures { result.next ≡ 0 }
    {
        let mut partitions = self;
        while partitions.next < MAX_PARTS {
            let _ = partitions.take();
        }
        let PartitionWords { next: _, pens, of } = partitions;
        ClockWords { next: 0, pens, of }
    }

    /// The next partition's word. None after the last partition that a store can have.
    pub fn take(&mut self) -> Option<Tally<J>>
        ensures exact { IsSome result ↔ (self.old.next < max_parts) }
        ensures key { IfSome result (λ tally. tally.key ≡ self.old.next + 1) }
        ensures next { IfSome result (λ _. self.new.next ≡ self.old.next + 1) }
    {
        if self.next >= MAX_PARTS {
            return None;
        }
        let mut pen = self.pens.take();
        let key = u64::from(self.next) + 1;
        self.next += 1;
        Some(Tally {
            key,
            word: Word::tracked(0, &mut pen),
            of: PhantomData,
        })
    }
}

/// The words of the tenants' clocks that nobody took yet.
#[derive(Drop)]
pub struct ClockWords<J: Naming> {
    /// The tenant whose clock comes next.
    pub next: u32,
    pens: Pens,
    of: PhantomData<J>,
    ghost book_is: { pens.book ≡ J.book },
    ghost next_is: { pens.next ≡ clock_of next },
    ghost left_is: { pens.left + next ≡ max_tenants },
}

impl<J: Naming> ClockWords<J> {
    /// The next tenant's clock. None after the last tenant that a store can have.
    pub fn take(&mut self) -> Option<Tally<J>>
        ensures exact { IsSome result ↔ (self.old.next < max_tenants) }
        ensures key { IfSome result (λ tally. tally.key ≡ clock_of self.old.next) }
        ensures next { IfSome result (λ _. self.new.next ≡ self.old.next + 1) }
    {
        if self.next >= MAX_TENANTS {
            return None;
        }
        let mut pen = self.pens.take();
        let key = u64::from(MAX_PARTS) + 1 + u64::from(self.next);
        self.next += 1;
        Some(Tally {
            key,
            word: Word::tracked(0, &mut pen),
            of: PhantomData,
        })
    }
}
