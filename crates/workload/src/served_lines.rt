//! What is reported of a server that records nothing: how many lines of each tenant it answered, and how.
ghost use Rattle.std.specs.Prelude.{◌≡◌, ◌≤◌, IfErr, IfOk, OnOk};
ghost use Rattle.std.specs.Io.KnownBytes.{Appends};
ghost use Rattle.stamps.specs.Limits.{max_tenants};
ghost use Rattle.server_verdicts.specs.Verdicts.{BreaksOff};
ghost use Rattle.workload.specs.Unrecorded.{TellsServed, served_line};

use line_protocol::Name;
use line_runs::{ProgramFault, write_text};
use load::push_count;
use server_sessions::{AnswerCounts, ServedCounts};
use server_verdicts::name_at;
use std::alloc::{AllocError, Global};
use std::io::Write;

/// Writes a line for each of so many tenants that has a name, in the order of the names: `served`, its name, and how many lines of
/// its seats were answered `done`, `read` and `list`, how many were refused, and how many were answered `restart`.
///
/// It fails with `OutOfMemory` where an allocation failed, and with `Device` where a write failed: no more is written then.
pub(crate) fn tell_served<W: Write>(
    alloc: Global,
    answers: &AnswerCounts,
    tenants: usize,
    names: &[Name],
    writer: &mut W,
) -> Result<(), ProgramFault>
    requires { tenants ≤ max_tenants }
    ensures { TellsServed tenants names.now (W.contents writer.old)
        (W.contents writer.new) result }
{
    for tenant in 0..tenants.min(names.len()) {
        let counts = answers.served(tenant as u32);
        write_served(alloc, name_at(names, tenant), counts, writer)?;
    }
    Ok(())
}

/// Writes the line that reports how many lines of the tenant of a name were answered.
fn write_served<W: Write>(
    alloc: Global,
    name: Name,
    counts: ServedCounts,
    writer: &mut W,
) -> Result<(), ProgramFault>
    ensures ok { OnOk result
        (Appends (W.contents writer.old) (W.contents writer.new) (served_line name counts)) }
    ensures err { IfErr result
        (BreaksOff (λ line. line ≡ served_line name counts)
        (W.contents writer.old) (W.contents writer.new)) }
{
    let line = line_of(alloc, name, counts)?;
    Ok(write_text(writer, line.as_slice())?)
}

/// The line of a tenant, with its LF.
fn line_of(alloc: Global, name: Name, counts: ServedCounts) -> Result<Vec<u8>, AllocError>
    ensures { IfOk result (λ line. line.items ≡ served_line name counts) }
{
    let mut line = Vec::from_slice(alloc, b"served ")?;
    line.extend_from_slice(name.as_bytes())?;
    push_count(&mut line, " puts ", counts.puts)?;
    push_count(&mut line, " gets ", counts.gets)?;
    push_count(&mut line, " finds ", counts.finds)?;
    push_count(&mut line, " refusals ", counts.refusals)?;
    push_count(&mut line, " restarts ", counts.restarts)?;
    line.extend_from_slice(b"\n")?;
    Ok(line)
}
