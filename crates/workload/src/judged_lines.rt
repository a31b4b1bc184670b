//! What is reported of how much was judged: how many calls and operations the record of each tenant has.
ghost use Rattle.std.specs.Prelude.{◌≡◌, ◌<◌, ◌+◌, IfErr, IfOk, IsTrue, OnOk, Some, length, slice_get, sum_by};
ghost use Rattle.std.specs.Io.KnownBytes.{Appends};
ghost use Rattle.server_verdicts.specs.Begun.{counts_begun, counts_of_entry, counts_of_operation, told_count};
ghost use Rattle.server_verdicts.specs.Verdicts.{BreaksOff};
ghost use Rattle.workload.specs.Amounts.{AreAmounts, IsAmountOf, calls_at, judged_line, of_all_kinds};
ghost use Rattle.workload.specs.TenantLines.{TellsLines};

use hub::{Closed, EntryList, Operation, Transcript};
use line_protocol::Name;
use line_runs::{ProgramFault, write_text};
use load::push_count;
use partition::Journal;
use server_verdicts::name_at;
use std::alloc::{AllocError, Global};
use std::io::Write;

/// Of how much the verdict over a tenant is. Both numbers stop at the greatest one.
#[derive(Clone, Copy)]
pub struct Amount {
    /// How many calls its cells served, at all partitions, those of earlier epochs and of collections with them.
    pub calls: u64,
    /// How many puts, gets and finds its sessions began that kept a transcript.
    pub operations: u64,
}

/// What `amounts_of` returns, where it is asked for; else nothing.
pub(crate) fn amounts_asked(
    alloc: Global,
    closed: &Closed,
    asked: bool,
) -> Result<Vec<Amount>, AllocError>
    ensures { IfOk result (λ amounts. IsTrue asked → AreAmounts closed.now amounts.items) }
{
    if asked {
        amounts_of(alloc, closed)
    } else {
        Ok(Vec::new(alloc))
    }
}

/// Of how much the verdict over each tenant of a store is that was closed, read off its journals and transcripts.
fn amounts_of(alloc: Global, closed: &Closed) -> Result<Vec<Amount>, AllocError>
    ensures { IfOk result (λ amounts. AreAmounts closed.now amounts.items) }
{
    let tenants = closed.config.limits.len();
    let mut amounts = Vec::with_capacity(alloc, tenants)?;
    for tenant in 0..tenants {
        amounts.push(amount_of(closed, tenant as u32))?;
    }
    Ok(amounts)
}

/// Of how much the verdict over a tenant is.
fn amount_of(closed: &Closed, tenant: u32) -> Amount
    ensures { IsAmountOf closed.now tenant result }
{
    Amount {
        calls: calls_in(closed.journals.as_slice(), tenant),
        operations: operations_in(closed.transcripts.as_slice(), tenant),
    }
}

/// Of how many calls the journals of a tenant are, in the rows of all partitions.
fn calls_in(rows: &[Vec<Journal>], tenant: u32) -> u64
    ensures { result ≡ told_count (sum_by (calls_at tenant) rows.now) }
{
    let mut calls = 0;
    for row in rows {
        calls = with_calls(calls, row, tenant);
    }
    calls
}

/// So many, and the calls of the journal of a tenant in a row.
fn with_calls(calls: u64, row: &Vec<Journal>, tenant: u32) -> u64
    ensures { result ≡ told_count (calls + calls_at tenant row.now) }
{
    match row.get(tenant as usize) {
        Some(journal) => calls
            .saturating_add(journal.before)
            .saturating_add(journal.events.len() as u64),
        None => calls,
    }
}

/// How many operations those of these sessions began that are of a tenant.
fn operations_in(transcripts: &[Transcript], tenant: u32) -> u64
    ensures { result ≡ told_count (sum_by (counts_begun of_all_kinds tenant) transcripts.now) }
{
    let mut operations = 0;
    for transcript in transcripts {
        operations = with_session(operations, transcript, tenant);
    }
    operations
}

/// So many, and the operations that a session began, where it is of this tenant.
fn with_session(operations: u64, transcript: &Transcript, tenant: u32) -> u64
    ensures { result ≡ told_count (operations + counts_begun of_all_kinds tenant transcript.now) }
{
    if transcript.tenant == tenant {
        with_begun(operations, &transcript.entries)
    } else {
        operations
    }
}

/// So many, and the operations that these entries say were begun.
fn with_begun(operations: u64, entries: &EntryList) -> u64
    ensures { result
        ≡ told_count (operations
        + sum_by (λ e. of_all_kinds (counts_of_entry e)) entries.now.items) }
{
    let mut begun = operations;
    for at in 0..entries.len() {
        begun = with_operation(begun, entries.operation(at));
    }
    begun
}

/// So many, and one, if an operation was begun.
fn with_operation(begun: u64, operation: Option<Operation>) -> u64
    ensures { result ≡ told_count (begun + of_all_kinds (counts_of_operation operation)) }
{
    match operation {
        Some(Operation::Put | Operation::Get | Operation::Find) => begun.saturating_add(1),
        None => begun,
    }
}

/// Writes a line for each of these tenants that has a name, in the order of the names: `judged`, its name, how many calls were judged,
/// and how many operations, where transcripts were.
///
/// It fails with `OutOfMemory` where an allocation failed, and with `Device` where a write failed: no more is written then.
pub(crate) fn tell_judged<W: Write>(
    alloc: Global,
    amounts: &[Amount],
    with_operations: bool,
    names: &[Name],
    writer: &mut W,
) -> Result<(), ProgramFault>
    ensures { TellsLines (judged_line with_operations)
        (λ tenant amount. slice_get amounts.now tenant ≡ Some amount) (length amounts.now) names.now
        (W.contents writer.old) (W.contents writer.new) result }
{
    for tenant in 0..amounts.len().min(names.len()) {
        let amount = amount_at(amounts, tenant);
        write_judged(
            alloc,
            name_at(names, tenant),
            amount,
            with_operations,
            writer,
        )?;
    }
    Ok(())
}

/// The amount of the tenant of this number, from 0.
fn amount_at(amounts: &[Amount], place: usize) -> Amount
    requires { place < length amounts.now }
    ensures { slice_get amounts.now place ≡ Some result }
{
    amounts[place]
}

/// Writes the line of the tenant of a name.
fn write_judged<W: Write>(
    alloc: Global,
    name: Name,
    amount: Amount,
    with_operations: bool,
    writer: &mut W,
) -> Result<(), ProgramFault>
    ensures ok { OnOk result
        (Appends (W.contents writer.old) (W.contents writer.new)
        (judged_line with_operations name amount)) }
    ensures err { IfErr result
        (BreaksOff (λ line. line ≡ judged_line with_operations name amount)
        (W.contents writer.old) (W.contents writer.new)) }
{
    let line = line_of(alloc, name, amount, with_operations)?;
    Ok(write_text(writer, line.as_slice())?)
}

/// The line of a tenant, with its LF.
fn line_of(
    alloc: Global,
    name: Name,
    amount: Amount,
    with_operations: bool,
) -> Result<Vec<u8>, AllocError>
    ensures { IfOk result (λ line. line.items ≡ judged_line with_operations name amount) }
{
    let mut line = Vec::from_slice(alloc, b"judged ")?;
    line.extend_from_slice(name.as_bytes())?;
    push_count(&mut line, " calls ", amount.calls)?;
    if with_operations {
        push_count(&mut line, " operations ", amount.operations)?;
    }
    line.extend_from_slice(b"\n")?;
    Ok(line)
}
