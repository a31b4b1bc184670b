//! A partition's cells, with journals or without, beside what was seen of the history.
ghost use Rattle.std.specs.Prelude.{◌≡◌, ◌≢◌, ◌⊎◌, ◌+◌, ◌<◌, ◌≤◌, ◌↔◌, map, length, slice_get, false, true, Some, IfOk, IfErr, OnErr, IsErrOf, IsSomeAnd, IsTrue, IsFalse};
ghost use mathlib.Core.List.{IsPrefix};
ghost use Rattle.stamps.specs.Limits.{max_parts};
ghost use Rattle.partition.specs.Accounts.{Account, events_at, new_account, IsCut, IsPastAt};
ghost use Rattle.partition.specs.Journals.{IsLate};
ghost use Rattle.partition.specs.Used.{IsUsageOf};
ghost use Rattle.history.specs.Entries.{count, limits_of, StandsBehind};
ghost use Rattle.history.specs.Legal.{MayServe};
ghost use Rattle.history.specs.Rules.{is_opening};
ghost use Rattle.traced_book.specs.Forgetting.{AreBegunAnew, TakesCall};
ghost use Rattle.traced_book.specs.Traced.{AreTraced, IsLatestEpoch, WereMoreServed};

use crate::bare_shelf::BareShelf;
use crate::entering::Entering;
use crate::keeping::Keeping;
use history::{CallToServe, Front, Naming, Tally};
use partition::{Book, Caller, Epoch, Usage};
use plain_store::{Call, Refusal, Reply};
use stamps::Limits;
use std::alloc::{AllocError, Global};
use std::marker::Model;

/// A partition's cells, with journals or without, and the word that counts what the partition served. Contracts see which partition
/// it is, whether it keeps journals, the tenants' accounts, and what was seen of the history: of each tenant it has the account's
/// calls, behind those of earlier epochs. Without journals an account has no event: each call that is served is one before it.
#[derive(Drop)]
pub struct TracedBook<J: Naming> {
    partition: u32,
    kept: Keeping,
    tally: Tally<J>,
    entries: u64,
    front: Front<J>,
}

impl<J: Naming> Model for TracedBook<J> {
    ghost use Rattle.std.specs.Prelude.{◌≡◌, ◌+◌, ◌<◌, ◌≤◌, ◌^◌};
    ghost use Rattle.stamps.specs.Limits.{max_parts};
    ghost use Rattle.history.specs.Entries.{count};
    ghost use Rattle.traced_book.specs.Kept.{accounts_in, has_journals};
    ghost use Rattle.traced_book.specs.Traced.{AreTraced, Tracing};

    ghost Value = { Tracing };

    ghost view = { λ b. record { partition = b.partition; journals = has_journals b.kept; accounts = accounts_in b.kept; seen = b.front } };

    ghost invariant = { λ b. AreTraced b.front b.partition (accounts_in b.kept) × (count b.tally.key b.front ≡ b.entries) × (b.tally.key ≡ b.partition + 1) × (b.partition < max_parts) × (b.entries ≤ 2 ^ 62) };
}

impl<J: Naming> TracedBook<J> {
    /// A book without events, of a store that was just opened: its word, and what was seen of the history.
    pub fn new(book: Book, partition: u32, tally: Tally<J>, front: Front<J>) -> TracedBook<J>
        requires few { partition < max_parts }
        requires tally { tally.key ≡ partition + 1 }
        requires opened { is_opening front ≡ true }
        requires book { book ≡ map new_account (limits_of front) }
        ensures { result
            ≡ record { partition = partition; journals = true; accounts = book; seen = front } }
    {
        TracedBook {
            partition,
            kept: Keeping::Journals(book),
            tally,
            entries: 0,
            front,
        }
    }

    /// Empty cells without journals, of a store that was just opened and has tenants of these limits: its word, and what was seen of
    /// the history. All memory that its calls will want is taken here. The one error is that it was refused, as `Shelf::open` reports.
    pub fn without_journals(
        alloc: Global,
        limits: &[Limits],
        partition: u32,
        tally: Tally<J>,
        front: Front<J>,
    ) -> Result<TracedBook<J>, AllocError>
        requires few { partition < max_parts }
        requires tally { tally.key ≡ partition + 1 }
        requires opened { is_opening front ≡ true }
        requires limits { limits.now ≡ limits_of front }
        ensures its { IfOk result (λ book. (book.partition ≡ partition) × (book.journals ≡ false)
            × (book.seen ≡ front)) }
        ensures accounts { IfOk result
            (λ book. AreBegunAnew (map new_account limits.now) book.accounts) }
    {
        let shelf = BareShelf::open(alloc, limits)?;
        Ok(TracedBook {
            partition,
            kept: Keeping::CellsAlone(shelf),
            tally,
            entries: 0,
            front,
        })
    }

    /// Whether it keeps journals.
    pub fn has_journals(&self) -> bool
        ensures { result ≡ self.now.journals }
    {
        self.kept.has_journals()
    }

    /// The number of tenants.
    pub fn tenants(&self) -> u32
        ensures { result ≡ length self.now.accounts }
    {
        self.kept.tenants()
    }

    /// How many events a tenant's epoch has: none where no journal is kept.
    pub fn events(&self, tenant: u32) -> u64
        requires { tenant < length self.now.accounts }
        ensures { result ≡ length (events_at self.now.accounts tenant) }
    {
        self.kept.events(tenant)
    }

    /// How much a tenant uses now. It visits none of what the tenant's cell holds.
    pub fn usage(&self, tenant: u32) -> Usage
        requires { tenant < length self.now.accounts }
        ensures { (account : Account) → slice_get self.now.accounts tenant ≡ Some account
            → IsUsageOf account result }
    {
        self.kept.usage(tenant)
    }

    /// What was seen of the history: it has each call that was served.
    pub fn seen(&self) -> Front<J>
        ensures { result ≡ self.now.seen }
    {
        self.front.again()
    }

    /// Sees the history as it is now, and answers how many calls it has of this partition.
    pub fn look(&self, seen: &mut Front<J>) -> u64
        ensures seen { IsPrefix seen.old seen.new }
        ensures calls { result ≡ count (self.now.partition + 1) seen.new }
    {
        seen.look(&self.tally)
    }

    /// Sees the history as it is now, and answers whether each call that it has of this partition was served here: what stands here is then what
    /// all these calls left. Else it has more of them than were served here.
    pub fn has_all(&self, seen: &mut Front<J>) -> bool
        ensures later { IsPrefix seen.old seen.new }
        ensures all { IsTrue result → AreTraced seen.new self.now.partition self.now.accounts }
        ensures others { IsFalse result
            → WereMoreServed self.now.seen seen.new self.now.partition }
    {
        let mine = self.front.again();
        seen.learn(&mine);
        let found = seen.look(&self.tally);
        found == self.entries
    }

    /// The book, where journals are kept, it entered just so many calls and the history, as it is now, has no more of its partition. What
    /// was seen has as many of it, so all that it has of the partition are in the book, or in epochs that were cut off it. Else it
    /// returns what was found of the history: it has more of the partition, where the book entered just so many and journals are kept.
    pub fn into_book(self, seen: &Front<J>, calls: u64) -> Result<Book, Front<J>>
        requires calls { calls ≤ count (self.partition + 1) seen.now }
        ensures whole { IfOk result
            (λ book. (book ≡ self.accounts) × AreTraced seen.now self.partition book) }
        ensures others { IfErr result (λ found. (calls ≢ count (self.partition + 1) self.seen)
            ⊎ (WereMoreServed self.seen found self.partition ⊎ (self.journals ≡ false))) }
    {
        let TracedBook {
            partition: _,
            kept,
            tally,
            entries,
            front,
        } = self;
        let mut now = front.again();
        if entries != calls {
            return Err(now);
        }
        now.learn(&seen.again());
        let found = now.look(&tally);
        if found != calls {
            return Err(now);
        }
        match kept.into_book() {
            Some(book) => Ok(book),
            None => Err(now),
        }
    }

    /// Has a tenant's cell serve a call, enters its event, if journals are kept, and enters the call into the history. Writes the reply
    /// into the caller's buffer, and answers which one of the tenant's calls it is, from 1: its event's place in the tenant's journal.
    /// The evidence shows that the call may be served, and has seen then that it was.
    ///
    /// It fails where the number is not above the seat's last one in this epoch (25), where an allocation failed (30), and where the
    /// history has other calls of the partition than were seen here, or 2^62 (10). Then nothing has changed. Without journals no number
    /// is late, and nothing is allocated.
    pub fn serve_into(
        &mut self,
        caller: Caller,
        tenant: u32,
        call: &Call,
        reply: &mut Option<Reply>,
        evidence: &mut Front<J>,
    ) -> Result<u64, Refusal>
        requires tenant { tenant < length self.old.accounts }
        requires may { ∥ MayServe evidence.old self.old.partition tenant call.now ∥₁ }

        ensures takes { TakesCall self.old.journals self.old.accounts self.new.accounts tenant
            caller.seat caller.number call.now (λ place. place) (λ _. reply.new) result }
        // The history that was seen has the call at that place, with this reply, behind all that the evidence had seen.
        ensures served { IfOk result
            (λ place.
            IsSomeAnd reply.new
            (λ told.
            StandsBehind evidence.old evidence.new
            (record {
              partition = self.old.partition;
              tenant = tenant;
              seat = caller.seat;
              number = caller.number;
              call = call.now;
            }) place told)) }
        ensures partition { (self.new.partition ≡ self.old.partition)
            × (self.new.journals ≡ self.old.journals) }
        ensures later { IsPrefix self.old.seen self.new.seen }
        ensures evidence { IsPrefix evidence.old evidence.new }

        ensures late { IsErrOf result Refusal.Late
            ↔ IsLate (events_at self.old.accounts tenant) caller.seat caller.number }
        ensures refusals { IfErr result (λ e. (e ≡ Refusal.Late)
            ⊎ ((e ≡ Refusal.OutOfMemory) ⊎ (e ≡ Refusal.NoTenant))) }
        ensures unchanged { OnErr result ((self.new ≡ self.old) × (reply.new ≡ reply.old)
            × (evidence.new ≡ evidence.old)) }
    {
        let asked = CallToServe {
            partition: self.partition,
            tenant,
            seat: caller.seat,
            number: caller.number,
            call,
        };
        let mut entering = Entering {
            tally: &self.tally,
            entries: self.entries,
            mine: &self.front,
            evidence,
            asked,
            now: self.front.again(),
        };
        let place = match &mut self.kept {
            Keeping::Journals(book) => {
                book.serve_admitted(caller, tenant, call, reply, &mut entering)?
            }
            Keeping::CellsAlone(shelf) => {
                shelf.serve_admitted(caller, tenant, call, reply, &mut entering)?
            }
        };
        let Entering { now, .. } = entering;
        *evidence = now.again();
        self.front = now;
        self.entries += 1;
        Ok(place)
    }

    /// Hands out what a tenant's journal has, as an epoch, and begins the next one at what the tenant's cell holds, as `Book::cut`
    /// reports; 10 where no journals are kept. The epoch has the last of the calls that were seen of the tenant there.
    pub fn cut(&mut self, tenant: u32) -> Result<Epoch, Refusal>
        requires { tenant < length self.old.accounts }

        ensures cut { IfOk result
            (λ epoch. IsCut self.old.accounts self.new.accounts tenant epoch) }
        ensures latest { IfOk result
            (λ epoch. IsLatestEpoch self.old.seen self.old.partition tenant epoch) }
        ensures seen { (self.new.partition ≡ self.old.partition) × (self.new.seen ≡ self.old.seen)
            × (self.new.journals ≡ self.old.journals) }

        ensures past { self.old.journals ≡ true
            → (IsErrOf result Refusal.RowsUsed ↔ IsPastAt self.old.accounts tenant) }
        ensures none { self.old.journals ≡ false → IsErrOf result Refusal.NoTenant }
        ensures refusals { IfErr result (λ e. (e ≡ Refusal.RowsUsed)
            ⊎ ((e ≡ Refusal.OutOfMemory)
            ⊎ ((e ≡ Refusal.NoTenant) × (self.old.journals ≡ false)))) }
        ensures unchanged { OnErr result (self.new ≡ self.old) }
    {
        self.kept.cut(tenant)
    }
}
