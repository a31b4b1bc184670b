//! Whether the epochs that were kept of a store are all that its journals were cut into.
ghost use Rattle.std.specs.Prelude.{◌≡◌, ◌-◌, map, IfOk, IsTrue, IsSome, ℕ, Some, slice_get};
ghost use Rattle.std.specs.List.{range_with_len};
ghost use Rattle.closed_store.specs.Joins.{AreKnown, given_for, journal_at};
ghost use Rattle.partition.specs.declared.journal.Journal.{Journal as Left};
ghost use Rattle.load.specs.Loading.{AreAllBelow, AreAllThere};

use hub::Closed;
use partition::{Epoch, Journal};
use std::alloc::{AllocError, Global};

/// The numbers of the epochs that were given for a journal.
fn numbers_for(
    alloc: Global,
    given: &[(u32, u32, Epoch)],
    partition: u32,
    tenant: u32,
) -> Result<Vec<u64>, AllocError>
    ensures { IfOk result (λ numbers. numbers.items
        ≡ map (λ e. e.number) (given_for given.now partition tenant)) }
{
    let mut numbers = Vec::new(alloc);
    for part in given {
        if part.0 == partition && part.1 == tenant {
            numbers.push(part.2.number)?;
        }
    }
    Ok(numbers)
}

/// Whether these are 1, 2 and so on, up to the one before a number.
fn count_up_to(numbers: &[u64], number: u64) -> bool
    ensures { IsTrue result → numbers.now ≡ range_with_len 1 (number - 1) }
{
    for place in 0..numbers.len() {
        if numbers[place] != place as u64 + 1 {
            return false;
        }
    }
    number > 0 && numbers.len() as u64 == number - 1
}

/// Whether the epochs that were given for a journal are just those numbered below the one that is left in it, each once.
fn are_all_below(
    alloc: Global,
    given: &[(u32, u32, Epoch)],
    partition: u32,
    tenant: u32,
    journal: &Journal,
) -> Result<bool, AllocError>
    ensures { IfOk result (λ b. IsTrue b
        → AreAllBelow journal.now.number (given_for given.now partition tenant)) }
{
    let mut numbers = numbers_for(alloc, given, partition, tenant)?;
    numbers.sort()?;
    Ok(count_up_to(&numbers, journal.number))
}

/// The same of each journal of a partition.
fn are_all_in_row(
    alloc: Global,
    given: &[(u32, u32, Epoch)],
    partition: u32,
    row: &[Journal],
) -> Result<bool, AllocError>
    ensures { IfOk result (λ b. IsTrue b → (tenant : ℕ) (journal : Left)
        → slice_get row.now tenant ≡ Some journal
        → AreAllBelow journal.number (given_for given.now partition tenant)) }
{
    let Ok(tenants) = u32::try_from(row.len()) else {
        return Err(AllocError);
    };
    for tenant in 0..tenants {
        if !are_all_below(alloc, given, partition, tenant, &row[tenant as usize])? {
            return Ok(false);
        }
    }
    Ok(true)
}

/// The same of each journal of all partitions.
fn are_all_in_rows(
    alloc: Global,
    given: &[(u32, u32, Epoch)],
    rows: &[Vec<Journal>],
) -> Result<bool, AllocError>
    ensures { IfOk result (λ b. IsTrue b → (partition tenant : ℕ) (journal : Left)
        → journal_at rows.now partition tenant ≡ Some journal
        → AreAllBelow journal.number (given_for given.now partition tenant)) }
{
    let Ok(partitions) = u32::try_from(rows.len()) else {
        return Err(AllocError);
    };
    for partition in 0..partitions {
        if !are_all_in_row(alloc, given, partition, &rows[partition as usize])? {
            return Ok(false);
        }
    }
    Ok(true)
}

/// Whether there is a journal of this tenant at this partition.
fn has_journal(rows: &[Vec<Journal>], partition: u32, tenant: u32) -> bool
    ensures { IsTrue result → IsSome (journal_at rows.now partition tenant) }
{
    match rows.get(partition as usize) {
        Some(row) => (tenant as usize) < row.len(),
        None => false,
    }
}

/// Whether each epoch is given for a journal that is there.
fn are_known(given: &[(u32, u32, Epoch)], rows: &[Vec<Journal>]) -> bool
    ensures { IsTrue result → AreKnown given.now rows.now }
{
    for part in given {
        if !has_journal(rows, part.0, part.1) {
            return false;
        }
    }
    true
}

/// Whether of each journal of a store that was closed just the epochs numbered below the one that is left in it are given,
/// each once, and none of a journal that is not there. 2^32 partitions or tenants, or more, count as an allocation failure.
pub(crate) fn are_all_there(
    alloc: Global,
    closed: &Closed,
    given: &[(u32, u32, Epoch)],
) -> Result<bool, AllocError>
    ensures { IfOk result (λ b. IsTrue b → AreAllThere closed.now given.now) }
{
    Ok(are_known(given, &closed.journals) && are_all_in_rows(alloc, given, &closed.journals)?)
}
