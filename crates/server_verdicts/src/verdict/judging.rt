//! Whether the journals that were left of a store are right.
ghost use Rattle.std.specs.Prelude.{◌≡◌, ◌≤◌, IfErr, IfOk, MatchBool, Some, length, slice_get};
ghost use Rattle.stamps.specs.Limits.{max_tenants};
ghost use Rattle.server_verdicts.specs.Judged.{AreEnded, AreEndedIn, AreLeft, AreLeftIn, IsCheckedAs, IsCheckedIn, IsEndedAs, IsRight, IsRightIn, IsUncheckedIn, IsUntold, IsUntoldIn, IsWrong, IsWrongIn, TellsChecks, known_there};
ghost use Rattle.closed_store.specs.Joins.{left_in};

use crate::epochs::{Checked, Ending, JournalChecks, LastEpochs, Standing};
use crate::verdict::{Judge, tell_all};
use line_protocol::Name;
use line_runs::ProgramFault;
use partition::{Epoch, Journal};
use plain_store::OutOfMemory;
use stamps::Limits;
use std::alloc::{AllocError, Global};
use std::io::Write;

impl Judge for LastEpochs {
    ghost is_verdict = { IsCheckedAs };

    fn judge(&self, alloc: Global, tenant: u32) -> Result<bool, OutOfMemory> {
        let Some(limits) = self.limits.get(tenant as usize) else {
            return Err(OutOfMemory);
        };
        is_checked(alloc, &self.rows, limits, tenant)
    }
}

/// Checks what was left of the journals of a store, and writes a line for each tenant that has a name, in the order of the
/// names: `checked`, its name, and `yes` where at each partition its journal is there, its epochs were right and the last
/// one follows them, else `no`.
///
/// It fails with `Settle` where all lines were written and one says `no`; with `OutOfMemory` where an allocation failed, now or
/// when an epoch of the tenant was checked before, or where its epochs did not come to be checked, and with `Device` where a
/// write failed: no more is written then.
pub fn tell_checks<W: Write>(
    alloc: Global,
    endings: &LastEpochs,
    names: &[Name],
    writer: &mut W,
) -> Result<(), ProgramFault>
    ensures { TellsChecks endings.now names.now (W.contents writer.old)
        (W.contents writer.new) result }
{
    let tenants = endings.limits.len();
    tell_all(alloc, endings, b"checked ", tenants, names, writer)
}

/// Whether the journal of a tenant of these limits is there at each partition, and right.
fn is_checked(
    alloc: Global,
    rows: &Vec<Vec<Ending>>,
    limits: &Limits,
    tenant: u32,
) -> Result<bool, OutOfMemory>
    ensures told { IfOk result (IsCheckedIn rows.now.items limits.now tenant) }
    ensures untold { IfErr result (λ _. IsUncheckedIn rows.now.items limits.now tenant) }
{
    for row in rows {
        if !is_right_in(alloc, row, limits, tenant)? {
            return Ok(false);
        }
    }
    Ok(true)
}

/// Whether a tenant's journal is there among these, and right.
fn is_right_in(
    alloc: Global,
    row: &Vec<Ending>,
    limits: &Limits,
    tenant: u32,
) -> Result<bool, OutOfMemory>
    ensures told { IfOk result
        (λ yes.
        MatchBool yes (IsRightIn limits.now tenant row.now) (IsWrongIn limits.now tenant row.now)) }
    ensures untold { IfErr result (λ _. IsUntoldIn limits.now tenant row.now) }
{
    match row.get(tenant as usize) {
        Some(ending) => is_right(alloc, ending, limits),
        None => Ok(false),
    }
}

/// Whether the journal is under these limits, its epochs were right, and the one that was left in it follows them. Where it
/// is under others, or an epoch of it was not checked, that counts as an allocation failure.
fn is_right(alloc: Global, ending: &Ending, limits: &Limits) -> Result<bool, OutOfMemory>
    ensures told { IfOk result
        (λ yes. MatchBool yes (IsRight limits.now ending.now) (IsWrong limits.now ending.now)) }
    ensures untold { IfErr result (λ _. IsUntold limits.now ending.now) }
{
    if !ending.checked.is_under(limits) {
        return Err(OutOfMemory);
    }
    match ending.checked.standing() {
        Standing::Right => Ok(ending.checked.follow(alloc, &ending.epoch)?.is_some()),
        Standing::Wrong => Ok(false),
        Standing::Unknown => Err(OutOfMemory),
    }
}

/// What was left of the journals of a store with tenants of these limits, row by row with what is known of each.
pub fn endings_of<C: JournalChecks + Drop>(
    alloc: Global,
    limits: Vec<Limits>,
    journals: Vec<Vec<Journal>>,
    known: Vec<Vec<C>>,
) -> Result<LastEpochs, AllocError>
    requires few { length limits.items ≤ max_tenants }
    ensures limits { IfOk result (λ endings. endings.limits.items ≡ limits.items) }
    ensures left { IfOk result (λ endings. AreLeft journals.items endings.rows.items) }
    ensures known { IfOk result
        (λ endings. AreEnded C.has_ended known.items endings.rows.items) }
{
    let mut rows = Vec::with_capacity(alloc, journals.len())?;
    let mut known = known.into_iter();
    for row in journals {
        let next = known.next();
        let its = known_or_none(alloc, next);
        rows.push(row_of(alloc, row, its)?)?;
    }
    Ok(LastEpochs { limits, rows })
}

/// What was left of the journals of a partition, with what is known of each.
fn row_of<C: JournalChecks + Drop>(
    alloc: Global,
    journals: Vec<Journal>,
    known: Vec<C>,
) -> Result<Vec<Ending>, AllocError>
    ensures left { IfOk result (λ row. AreLeftIn journals.items row.items) }
    ensures known { IfOk result (λ row. AreEndedIn C.has_ended known.items row.items) }
{
    let mut row = Vec::with_capacity(alloc, journals.len())?;
    let mut known = known.into_iter();
    for journal in journals {
        let its = known.next();
        let checked = checked_of(alloc, its, &journal.limits);
        row.push(ending_of(journal, checked))?;
    }
    Ok(row)
}

/// What is known of the journals of a partition, of which it may be that nothing was kept.
fn known_or_none<C>(alloc: Global, known: Option<Vec<C>>) -> Vec<C>
    ensures { result.items ≡ known_there known }
{
    match known {
        Some(known) => known,
        None => Vec::new(alloc),
    }
}

/// What is known at last of a journal under these limits. It is unknown how its epochs were where nothing was kept of it.
fn checked_of<C: JournalChecks>(alloc: Global, known: Option<C>, limits: &Limits) -> Checked
    ensures { IsEndedAs C.has_ended known result }
{
    match known {
        Some(its) => its.into_checked(),
        None => Checked::unknown(alloc, limits),
    }
}

/// What was left of a journal of which this is known.
fn ending_of(journal: Journal, checked: Checked) -> Ending
    ensures checked { result.checked ≡ checked }
    ensures epoch { result.epoch ≡ left_in journal }
{
    let Journal {
        number,
        base,
        events,
        limits: _,
        before: _,
    } = journal;
    Ending {
        checked,
        epoch: Epoch {
            number,
            base,
            events,
        },
    }
}
