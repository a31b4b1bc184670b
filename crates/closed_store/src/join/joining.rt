//! The parts of a closed hub that were returned before, put before the rest.
ghost use Rattle.std.specs.Prelude.{◌≡◌, ◌↔◌, ◌≤◌, length, map, IfOk, IsErrOf, IsSome, IsTrue, OnOk, IsPermutation};
ghost use Rattle.std.specs.List.Sorted.{IsNonDecreasingBy};
ghost use Rattle.stamps.specs.Limits.{max_tenants};
ghost use Rattle.partition.specs.Journals.{room_for};
ghost use Rattle.closed_store.specs.Counting.{AreCounted};
ghost use Rattle.closed_store.specs.Filling.{AreFilled};
ghost use Rattle.closed_store.specs.Joins.{AllFit, AllRise, AllSound, AreJoined, AreKnown, JoinsIfFit, NoneRise};
ghost use Rattle.closed_store.specs.Joins.{Fit, IsJoined, IsRowJoined, RowFits, events_of, given_for, journal_at, left_in};

use crate::closed::Closed;
use crate::join::adding::add_counts;
use crate::join::filling::put_before;
use crate::join::replaying::replay;
use crate::join::rising::all_rise;
use entry_list::EntryList;
use partition::{Epoch, EventList, Journal};
use plain_store::OutOfMemory;
use stamps::Limits;
use std::alloc::{AllocError, Global};

/// Why parts are not put together.
#[derive(Clone, Copy, Debug, PartialEq, Eq)]
pub enum JoinFault {
    /// An epoch is given for a journal that is not there, the epochs of one are not just those numbered below the one left
    /// in it, each once, a reply is not that of a replay, or a base is not the content to which a replay leads.
    Base,
    /// The numbers of a seat do not rise.
    Numbers,
    /// Memory was refused.
    OutOfMemory,
}

impl From<AllocError> for JoinFault {
    ghost use Rattle.std.specs.Prelude.{◌≡◌};
    ghost use Rattle.closed_store.specs.declared.join.joining.JoinFault.TheVariants as faults;

    ghost from_gives = { λ _ fault. fault ≡ faults.OutOfMemory };

    fn from(_: AllocError) -> JoinFault {
        JoinFault::OutOfMemory
    }
}

impl From<OutOfMemory> for JoinFault {
    ghost use Rattle.std.specs.Prelude.{◌≡◌};
    ghost use Rattle.closed_store.specs.declared.join.joining.JoinFault.TheVariants as faults;

    ghost from_gives = { λ _ fault. fault ≡ faults.OutOfMemory };

    fn from(_: OutOfMemory) -> JoinFault {
        JoinFault::OutOfMemory
    }
}

/// The epochs that were given for a journal.
fn epochs_for<'a>(
    alloc: Global,
    given: &'a [(u32, u32, Epoch)],
    partition: u32,
    tenant: u32,
) -> Result<Vec<&'a Epoch>, AllocError>
    ensures { IfOk result (λ own. map (λ e. e.now) own.items
        ≡ given_for given.now partition tenant) }
{
    let mut own = Vec::new(alloc);
    for part in given {
        if part.0 == partition && part.1 == tenant {
            own.push(&part.2)?;
        }
    }
    Ok(own)
}

/// Puts epochs in the order of their numbers.
fn put_in_order(epochs: &mut Vec<&Epoch>) -> Result<(), AllocError>
    ensures same { IsPermutation epochs.old.items epochs.new.items }
    ensures ordered { OnOk result (IsNonDecreasingBy (λ e. e.now.number) epochs.new.items) }
{
    epochs.sort_by_key(|epoch| epoch.number)?;
    Ok(())
}

/// The events of epochs, one epoch after the other.
fn all_events(alloc: Global, epochs: &[&Epoch]) -> Result<EventList, AllocError>
    ensures { IfOk result (λ all. all.items ≡ events_of (map (λ e. e.now) epochs.now)) }
{
    let mut all = EventList::new(alloc);
    for epoch in epochs {
        all.append(&epoch.events)?;
    }
    Ok(all)
}

/// The journal of a tenant at a partition, with the epochs that were given for it before the one that is left in it, where
/// a replay under these limits gives their replies and bases. It takes no heed of numbers of seats.
fn join_journal(
    alloc: Global,
    limits: &Limits,
    given: &[(u32, u32, Epoch)],
    partition: u32,
    tenant: u32,
    journal: Journal,
) -> Result<Journal, JoinFault>
    ensures { let epochs = given_for given.now partition tenant in
        JoinsIfFit (λ j. IsJoined limits.now epochs (left_in journal) j)
        (Fit (room_for limits.now) epochs (left_in journal)) result }
{
    let left = Epoch {
        number: journal.number,
        base: journal.base,
        events: journal.events,
    };
    join_epochs(alloc, limits, given, partition, tenant, &left)
}

/// The same, of the epoch that is left in the journal.
fn join_epochs(
    alloc: Global,
    limits: &Limits,
    given: &[(u32, u32, Epoch)],
    partition: u32,
    tenant: u32,
    left: &Epoch,
) -> Result<Journal, JoinFault>
    ensures { let epochs = given_for given.now partition tenant in
        JoinsIfFit (λ j. IsJoined limits.now epochs left.now j)
        (Fit (room_for limits.now) epochs left.now) result }
{
    let mut epochs = epochs_for(alloc, given, partition, tenant)?;
    put_in_order(&mut epochs)?;
    if epochs.push(left).is_err() {
        return Err(JoinFault::OutOfMemory);
    }
    if !replay(alloc, limits, &epochs)? {
        return Err(JoinFault::Base);
    }
    let events = all_events(alloc, &epochs)?;
    Ok(Journal::of(alloc, *limits, events))
}

/// The journals of a partition, each with the epochs that were given for it before its own. The n-th limits are those of
/// tenant n; where a tenant has none, no epochs fit its journal.
fn join_row(
    alloc: Global,
    limits: &[Limits],
    given: &[(u32, u32, Epoch)],
    partition: u32,
    row: Vec<Journal>,
) -> Result<Vec<Journal>, JoinFault>
    requires { length limits.now ≤ max_tenants }
    ensures { JoinsIfFit
        (λ joined. IsRowJoined limits.now given.now partition row.items joined.items)
        (RowFits limits.now given.now partition row.items) result }
{
    let mut joined = Vec::new(alloc);
    for journal in row {
        let tenant = joined.len();
        let Some(its) = limits.get(tenant) else {
            return Err(JoinFault::Base);
        };
        let whole = join_journal(alloc, its, given, partition, tenant as u32, journal)?;
        if joined.push(whole).is_err() {
            return Err(JoinFault::OutOfMemory);
        }
    }
    Ok(joined)
}

/// The journals of all partitions, each with the epochs that were given for it before its own. More partitions than have
/// numbers count as an allocation failure.
fn join_rows(
    alloc: Global,
    limits: &[Limits],
    given: &[(u32, u32, Epoch)],
    rows: Vec<Vec<Journal>>,
) -> Result<Vec<Vec<Journal>>, JoinFault>
    requires few { length limits.now ≤ max_tenants }
    requires known { AreKnown given.now rows.items }
    ensures { JoinsIfFit (λ joined. AreJoined limits.now given.now rows.items joined.items)
        (AllFit limits.now given.now rows.items) result }
{
    let mut joined = Vec::new(alloc);
    for row in rows {
        let Ok(partition) = u32::try_from(joined.len()) else {
            return Err(JoinFault::OutOfMemory);
        };
        let whole = join_row(alloc, limits, given, partition, row)?;
        if joined.push(whole).is_err() {
            return Err(JoinFault::OutOfMemory);
        }
    }
    Ok(joined)
}

/// Whether there is a journal of this tenant at this partition.
fn has_journal(rows: &[Vec<Journal>], partition: u32, tenant: u32) -> bool
    ensures { IsTrue result ↔ IsSome (journal_at rows.now partition tenant) }
{
    match rows.get(partition as usize) {
        Some(row) => (tenant as usize) < row.len(),
        None => false,
    }
}

/// Whether each epoch is given for a journal that is there.
fn are_known(given: &[(u32, u32, Epoch)], rows: &[Vec<Journal>]) -> bool
    ensures { IsTrue result ↔ AreKnown given.now rows.now }
{
    for part in given {
        if !has_journal(rows, part.0, part.1) {
            return false;
        }
    }
    true
}

impl Closed {
    /// Puts the parts that were returned before in front of what is left: epochs, each with its partition and its tenant, as
    /// a sink was given them, before the events of their journals, and entries, each list with its seat, as a seat drained
    /// them, before those of their transcripts. Both may come in any order, but for the lists of one seat, which stay as they
    /// are given. Every journal is then one from the start, and sound.
    ///
    /// `Base` where an epoch is given for a journal that is not there; where the epochs given for one are not just those
    /// numbered below the epoch that is left in it, each once; where a reply is not that of a replay of the journal's calls
    /// under the config's limits; or where the base of an epoch, also of one that is left, is not the content to which the
    /// replay leads there. Then `Numbers` where the numbers of a seat do not rise in some journal. `OutOfMemory` may come
    /// before either. An error hands nothing back.
    ///
    /// Counts gain the events of the epochs; a sum past 2^128 - 1 stays there. Lists of a seat that has no transcript are
    /// dropped. Where a seat has two transcripts, the first takes them.
    pub fn join(
        self,
        epochs: Vec<(u32, u32, Epoch)>,
        entries: Vec<(u64, EntryList)>,
    ) -> Result<Closed, JoinFault>
        ensures config { IfOk result (λ c. c.config ≡ self.config) }
        ensures journals { IfOk result
            (λ c.
            AreJoined self.config.limits.items epochs.items self.journals.items c.journals.items) }
        ensures rise { IfOk result (λ c. AllRise c.journals.items) }
        ensures sound { IfOk result (λ c. AllSound self.config.limits.items c.journals.items) }
        ensures counts { IfOk result
            (λ c. AreCounted epochs.items self.counts.items c.counts.items) }
        ensures transcripts { IfOk result
            (λ c. AreFilled entries.items self.transcripts.items c.transcripts.items) }
        ensures base { IsErrOf result JoinFault.Base
            → AllFit self.config.limits.items epochs.items self.journals.items → ⊥ }
        ensures numbers { IsErrOf result JoinFault.Numbers
            → AllFit self.config.limits.items epochs.items self.journals.items
            × NoneRise self.config.limits.items epochs.items self.journals.items }
    {
        let Closed {
            config,
            journals,
            mut counts,
            transcripts,
        } = self;
        let alloc = *journals.allocator();
        if !are_known(&epochs, &journals) {
            return Err(JoinFault::Base);
        }
        let journals = join_rows(alloc, &config.limits, &epochs, journals)?;
        if !all_rise(alloc, &journals)? {
            return Err(JoinFault::Numbers);
        }
        add_counts(&mut counts, &epochs);
        let transcripts = put_before(alloc, transcripts, entries)?;
        Ok(Closed {
            config,
            journals,
            counts,
            transcripts,
        })
    }
}
