//! Beginnings of the history that were seen.
ghost use Rattle.std.specs.Prelude.{◌≡◌, ◌≢◌, ◌+◌, ◌<◌, ◌≤◌, MatchBool, IfNone, IfSome, IsTrue, None, true, false};
ghost use mathlib.Core.List.{IsPrefix};
ghost use Rattle.stamps.specs.Limits.{max_parts};
ghost use Rattle.plain_store.specs.Words.{◌∈◌};
ghost use Rattle.history.specs.declared.entry.HistoryEntry.TheVariants.{Joined, Decided, GivenUp, ReadBegan, Drew, Passed};
ghost use Rattle.history.specs.declared.entry.JoinedClient.{JoinedClient as WhoJoined};
ghost use Rattle.history.specs.Asking.{began_by, served_by};
ghost use Rattle.history.specs.Clock.{IsDrawnBehind, IsOverrun, IsToldAt};
ghost use Rattle.history.specs.Entries.{is_of, own, count};
ghost use Rattle.history.specs.Legal.{IsLegal, MayFollow, MayBegin, MayDecide, MayEnd, MayServe};
ghost use Rattle.history.specs.Rules.{AddsEntry, HasEvidence, HasNewClient, IsClientWord, IsClockOf, IsHome, IsOvertaken, TakesEntry, is_opening};

use crate::entry::{CallToServe, Decision, Draw, HistoryEntry, JoinedClient, WriteToBegin};
use crate::rule::{Add, Arrive, GiveUp, Join, Law, Look, Naming, Nothing, Raise};
use crate::tallies::Tally;
use logbook::{Offer, Plain, Seen, Word};
use stamps::limits::{MAX_PARTS, MAX_TENANTS};
use std::marker::{Model, PhantomData};

/// A step's report, which trades nothing.
type Report = Offer<HistoryEntry, u64, Law, Nothing>;

/// The most entries of a word.
const MOST: u64 = 1 << 62;

/// How often a draw is tried.
const MOST_TRIES: u64 = 0x1_0000_0000;

/// How far a draw raises a clock: a client that names a far greater counter does not use up those of its tenant.
const MOST_JUMP: u64 = 0x1_0000_0000;

/// How many words stand before those of the clients.
const FIRST_CLIENT: u64 = MAX_PARTS as u64 + MAX_TENANTS as u64 + 1;

/// A beginning of the history that was seen, which contracts see as its entries. It takes no bytes, and can be copied, sent and
/// kept: it is evidence of what was entered.
#[derive(Drop)]
pub struct Front<J: Naming> {
    seen: Seen<HistoryEntry, u64, Law>,
    of: PhantomData<J>,
}

impl<J: Naming> Model for Front<J> {
    ghost use Rattle.std.specs.Prelude.{◌≡◌, List};
    ghost use Rattle.history.specs.declared.entry.HistoryEntry.{HistoryEntry};
    ghost use Rattle.history.specs.Legal.{IsLegal};

    ghost Value = { List HistoryEntry };

    ghost view = { λ f. f.seen.log };

    ghost invariant = { λ f. (f.seen.book ≡ J.book) × IsLegal f.seen.log };
}

impl<J: Naming> Front<J> {
    // What was seen of a history that was just opened.
    pub(crate) fn of(seen: Seen<HistoryEntry, u64, Law>) -> Front<J>
        requires book { seen.book ≡ J.book }
        requires opening { is_opening seen.log ≡ true }
        ensures { result ≡ seen.log }
    {
        Front {
            seen,
            of: PhantomData,
        }
    }

    /// A copy.
    pub fn again(&self) -> Front<J>
        ensures same { result ≡ self.now }
        ensures legal { IsLegal result }
    {
        Front {
            seen: self.seen.again(),
            of: PhantomData,
        }
    }

    /// From now on it has seen what both have.
    pub fn learn(&mut self, other: &Front<J>)
        ensures this { IsPrefix self.old self.new }
        ensures that { IsPrefix other.now self.new }
        ensures legal { IsLegal self.new }
    {
        self.seen.learn(&other.seen);
    }

    /// Sees the history as it is now, and answers how many entries of a word it has.
    pub fn look(&mut self, tally: &Tally<J>) -> u64
        requires home { IsHome tally.now.key self.old }
        ensures later { IsPrefix self.old self.new }
        ensures counted { result ≡ count tally.now.key self.new }
        ensures legal { IsLegal self.new }
    {
        let mut offer: Report = self.seen.plain::<Nothing, u64, Arrive>(&0);
        tally.word.load::<Look, Nothing>(&mut self.seen, &mut offer)
    }

    /// Adds the entry that is reported of, where the word has as many entries as were seen here, and sees what the evidence has. Says
    /// whether it did; it did not where there are other entries of the word.
    fn add<X, M: Plain<X, HistoryEntry, u64>>(
        &mut self,
        tally: &Tally<J>,
        entries: u64,
        evidence: &Front<J>,
        about: &X,
    ) -> bool
        requires takes { TakesEntry tally.now.key entries self.old }
        requires home { IsHome tally.now.key self.old }
        requires apart { tally.now.key ≢ 0 }
        requires its { is_of tally.now.key (M.ask about.now) ≡ true }
        requires plain { M.state about.now ≡ None }
        requires may { ∥ MayFollow self.old evidence.now (M.ask about.now) ∥₁ }
        ensures adds { AddsEntry result tally.now.key entries (M.ask about.now) self.old self.new }
        ensures sees { HasEvidence result evidence.now self.new }
    {
        self.seen.learn(&evidence.seen);
        let mut offer: Report = self.seen.plain::<Nothing, X, M>(about);
        let mut pen = self.seen.no_pen();
        let found = tally
            .word
            .compare_exchange::<Add, Nothing>(
                entries,
                entries + 1,
                &mut self.seen,
                &mut offer,
                &mut pen,
            );
        found == entries
    }

    /// Enters that a partition serves a call, and says whether it did. It did not where the partition has served other calls than
    /// were seen here. The evidence shows that the call may be served.
    pub fn serve(
        &mut self,
        tally: &Tally<J>,
        entries: u64,
        evidence: &Front<J>,
        asked: &CallToServe<'_>,
    ) -> bool
        requires takes { TakesEntry tally.now.key entries self.old }
        requires partition { (tally.now.key ≡ asked.now.partition + 1)
            × (asked.now.partition < max_parts) }
        requires may { ∥ MayServe evidence.now asked.now.partition asked.now.tenant
            asked.now.call.now ∥₁ }
        ensures adds { AddsEntry result tally.now.key entries (served_by asked.now)
            self.old self.new }
        ensures sees { HasEvidence result evidence.now self.new }
    {
        self.add::<CallToServe<'_>, Add>(tally, entries, evidence, asked)
    }

    /// Enters that a put of a client began, and says whether it did. It did not where the client has other entries than were seen
    /// here.
    pub fn begin(&mut self, tally: &Tally<J>, entries: u64, begun: &WriteToBegin<'_>) -> bool
        requires takes { TakesEntry tally.now.key entries self.old }
        requires client { IsClientWord tally.now.key begun.now.word entries }
        requires may { ∥ MayFollow self.old self.old (began_by begun.now) ∥₁ }
        ensures { AddsEntry result tally.now.key entries (began_by begun.now)
            self.old self.new }
    {
        let evidence = self.again();
        self.add::<WriteToBegin<'_>, Add>(tally, entries, &evidence, begun)
    }

    /// Enters that a put of a client is decided, and says whether it did. It did not where the client has other entries than were
    /// seen here. The evidence shows that all its items are prepared.
    pub fn decide(
        &mut self,
        tally: &Tally<J>,
        entries: u64,
        evidence: &Front<J>,
        decision: &Decision,
    ) -> bool
        requires takes { TakesEntry tally.now.key entries self.old }
        requires client { IsClientWord tally.now.key decision.now.word entries }
        requires unended { MayEnd (own decision.now.word self.old) decision.now }
        requires may { ∥ MayDecide evidence.now decision.now ∥₁ }
        ensures adds { AddsEntry result tally.now.key entries (Decided decision.now)
            self.old self.new }
        ensures evidence { IsPrefix evidence.now self.new }
    {
        self.add::<Decision, Add>(tally, entries, evidence, decision)
    }

    /// Enters that a put of a client was refused, and says whether it did. It did not where the client has other entries than were
    /// seen here.
    pub fn give_up(&mut self, tally: &Tally<J>, entries: u64, decision: &Decision) -> bool
        requires takes { TakesEntry tally.now.key entries self.old }
        requires client { IsClientWord tally.now.key decision.now.word entries }
        requires unended { MayEnd (own decision.now.word self.old) decision.now }
        ensures { AddsEntry result tally.now.key entries (GivenUp decision.now)
            self.old self.new }
    {
        let evidence = self.again();
        self.add::<Decision, GiveUp>(tally, entries, &evidence, decision)
    }

    /// Enters that a read or a search of a client begins, behind all that the evidence has seen, and says whether it did. It did not
    /// where the client has other entries than were seen here.
    pub fn begin_read(
        &mut self,
        tally: &Tally<J>,
        entries: u64,
        evidence: &Front<J>,
        word: &u64,
    ) -> bool
        requires takes { TakesEntry tally.now.key entries self.old }
        requires client { IsClientWord tally.now.key word.now entries }
        ensures adds { AddsEntry result tally.now.key entries (ReadBegan word.now)
            self.old self.new }
        ensures sees { HasEvidence result evidence.now self.new }
    {
        self.add::<u64, Add>(tally, entries, evidence, word)
    }

    /// Draws the next counter of a tenant's clock, behind all that the evidence has seen, and says whether it did. It did not where the
    /// clock has other entries than were seen here.
    fn draw(&mut self, clock: &Tally<J>, entries: u64, evidence: &Front<J>, drawn: &Draw) -> bool
        requires takes { TakesEntry clock.now.key entries self.old }
        requires clock { IsClockOf clock.now.key drawn.now.tenant }
        requires counter { drawn.now.counter ≡ entries + 1 }
        ensures adds { AddsEntry result clock.now.key entries (Drew drawn.now) self.old self.new }
        ensures evidence { IsPrefix evidence.now self.new }
        ensures drawn { IsTrue result → IsDrawnBehind evidence.now self.new drawn.now }
    {
        self.add::<Draw, Add>(clock, entries, evidence, drawn)
    }

    /// Draws a counter above the floor, behind all that the evidence has seen, whoever else draws meanwhile. Where the clock is below the
    /// floor, it is raised first, by 2^32 at most. None where the floor is further above it, where others drew each time, and where the
    /// clock has 2^62 entries.
    pub fn draw_next(
        &mut self,
        clock: &Tally<J>,
        evidence: &Front<J>,
        tenant: u32,
        floor: u64,
    ) -> Option<u64>
        requires clock { IsClockOf clock.now.key tenant }
        ensures later { IsPrefix self.old self.new }
        ensures drawn { IfSome result
            (λ counter.
            IsDrawnBehind evidence.now self.new (record { tenant = tenant; counter = counter })) }
        ensures floor { IfSome result (λ counter. floor < counter) }
    {
        for _ in 0..MOST_TRIES {
            let mut entries = self.look(clock);
            if entries < floor {
                if floor - entries > MOST_JUMP {
                    return None;
                }
                if !self.raise(clock, entries, floor, &tenant) {
                    continue;
                }
                entries = floor;
            }
            if entries >= MOST {
                return None;
            }
            let drawn = Draw {
                tenant,
                counter: entries + 1,
            };
            if self.draw(clock, entries, evidence, &drawn) {
                return Some(drawn.counter);
            }
        }
        None
    }

    /// Raises a tenant's clock to a greater number, and says whether it did. It did not where the clock has other entries than were
    /// seen here.
    fn raise(&mut self, clock: &Tally<J>, entries: u64, to: u64, tenant: &u32) -> bool
        requires clock { IsClockOf clock.now.key tenant.now }
        requires counted { count clock.now.key self.old ≡ entries }
        requires more { entries ≤ to }
        ensures later { IsPrefix self.old self.new }
        ensures raised { MatchBool result
            (count clock.now.key self.new ≡ to)
            (IsOvertaken clock.now.key entries self.new) }
    {
        let mut offer: Report = self.seen.plain::<Nothing, u32, Raise>(tenant);
        let mut pen = self.seen.no_pen();
        let found = clock
            .word
            .compare_exchange::<Raise, Nothing>(entries, to, &mut self.seen, &mut offer, &mut pen);
        found == entries
    }

    /// Lets a tenant's clock go on by one, behind all that the evidence has seen, whoever else does meanwhile, and answers how many
    /// entries it has then: who looks at the clock and finds as many has seen what the evidence has. None where others were faster
    /// each time, or the clock has 2^62 entries.
    pub fn tell(&mut self, clock: &Tally<J>, evidence: &Front<J>, tenant: u32) -> Option<u64>
        requires clock { IsClockOf clock.now.key tenant }
        ensures later { IsPrefix self.old self.new }
        ensures told { IfSome result (IsToldAt evidence.now self.new tenant) }
        ensures overrun { IfNone result (IsOverrun clock.now.key self.old self.new) }
    {
        for _tried in 0..MOST_TRIES {
            let entries = self.look(clock);
            if entries >= MOST {
                return None;
            }
            if self.pass(clock, entries, evidence, &tenant) {
                return Some(entries + 1);
            }
        }
        None
    }

    /// Lets a tenant's clock go on by one, behind all that the evidence has seen, and says whether it did. It did not where the clock
    /// has other entries than were seen here.
    fn pass(&mut self, clock: &Tally<J>, entries: u64, evidence: &Front<J>, tenant: &u32) -> bool
        requires takes { TakesEntry clock.now.key entries self.old }
        requires clock { IsClockOf clock.now.key tenant.now }
        ensures later { IsPrefix self.old self.new }
        ensures told { IsTrue result
            → IsToldAt evidence.now self.new tenant.now (entries + 1) }
        ensures overtaken { result ≡ false
            → count clock.now.key self.old < count clock.now.key self.new }
    {
        self.add::<u32, Raise>(clock, entries, evidence, tenant)
    }

    /// Enters that a client comes for the first time, as the so many-th (from 0) of all clients, and answers its word. None where
    /// others came than were seen here.
    pub fn join(
        &mut self,
        register: &Tally<J>,
        joined: u64,
        tenant: u32,
        client: stamps::Client,
    ) -> Option<Tally<J>>
        requires takes { TakesEntry 0 joined self.old }
        requires register { register.now.key ≡ 0 }
        requires new { (other : WhoJoined) → Joined other ∈ self.old → other.tenant ≡ tenant
            → other.client ≡ client → ⊥ }
        ensures later { IsPrefix self.old self.new }
        ensures legal { IsLegal self.new }
        ensures came { IfSome result
            (λ tally. HasNewClient tally.key joined tenant client self.new) }
    {
        let key = joined + FIRST_CLIENT;
        let member = JoinedClient {
            word: key,
            tenant,
            client,
        };
        let mut offer: Report = self.seen.plain::<Nothing, JoinedClient, Join>(&member);
        let mut pen = self.seen.no_pen();
        let found = register
            .word
            .compare_exchange::<Join, Nothing>(
                joined,
                joined + 1,
                &mut self.seen,
                &mut offer,
                &mut pen,
            );
        if found != joined {
            return None;
        }
        let word = Word::tracked(1, &mut pen);
        let mut offer: Report = self.seen.plain::<Nothing, u64, Arrive>(&key);
        let found = register.word.compare_exchange::<Arrive, Nothing>(
            joined + 1,
            joined + 1,
            &mut self.seen,
            &mut offer,
            &mut pen,
        );
        if found != joined + 1 {
            return None;
        }
        Some(Tally {
            key,
            word,
            of: PhantomData,
        })
    }
}
