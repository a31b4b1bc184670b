//! What is reported of a load whose epochs were kept: they are joined, and what they join to is settled.
ghost use Rattle.std.specs.Prelude.{◌≡◌, ◌≤◌, false};
ghost use Rattle.stamps.specs.Limits.{max_tenants};
ghost use Rattle.load.specs.Loading.{IsToldOfKept, TellsAnswer, TellsJoined, TellsNone};

use crate::tally::tell_begun;
use hub::{Closed, JoinFault};
use line_protocol::Name;
use line_runs::ProgramFault;
use partition::Epoch;
use plain_store::OutOfMemory;
use server_verdicts::{Judge, tell_all, tell_verdicts};
use std::alloc::Global;
use std::io::Write;

/// What epochs do not join to: none of its tenants is settled.
#[derive(Drop)]
struct Unjoined;

impl Judge for Unjoined {
    ghost is_verdict = { λ _ _ verdict. verdict ≡ false };

    fn judge(&self, _alloc: Global, _tenant: u32) -> Result<bool, OutOfMemory> {
        Ok(false)
    }
}

/// Writes the lines of a load whose store was closed and whose epochs these are: first how many operations its seats began,
/// and then, once the epochs were joined with what is left, the verdicts.
pub(crate) fn tell_kept<W: Write>(
    alloc: Global,
    closed: Closed,
    epochs: Vec<(u32, u32, Epoch)>,
    names: &[Name],
    writer: &mut W,
) -> Result<(), ProgramFault>
    ensures { IsToldOfKept closed epochs.items names.now (W.contents writer.old)
        (W.contents writer.new) result }
{
    tell_begun(alloc, &closed, names, writer)?;
    tell_joined(alloc, closed, epochs, names, writer)
}

/// Joins a store that was closed with its epochs, and writes the verdicts over what they join to. Where they do not join,
/// each line says `no`; where an allocation failed, nothing is written.
fn tell_joined<W: Write>(
    alloc: Global,
    closed: Closed,
    epochs: Vec<(u32, u32, Epoch)>,
    names: &[Name],
    writer: &mut W,
) -> Result<(), ProgramFault>
    ensures { TellsJoined closed epochs.items names.now (W.contents writer.old)
        (W.contents writer.new) result }
{
    let tenants = closed.config.limits.len();
    let answer = closed.join(epochs, Vec::new(alloc));
    tell_answer(alloc, tenants, answer, names, writer)
}

/// Writes the verdicts over what the epochs of a store of so many tenants join to, or a `no` of each where they do not join.
/// Nothing is written where the join found no memory.
fn tell_answer<W: Write>(
    alloc: Global,
    tenants: usize,
    answer: Result<Closed, JoinFault>,
    names: &[Name],
    writer: &mut W,
) -> Result<(), ProgramFault>
    requires { tenants ≤ max_tenants }
    ensures { TellsAnswer tenants answer names.now (W.contents writer.old)
        (W.contents writer.new) result }
{
    match answer {
        Ok(joined) => tell_verdicts(alloc, &joined, names, writer),
        Err(JoinFault::Base) => tell_none(alloc, tenants, names, writer),
        Err(JoinFault::Numbers) => tell_none(alloc, tenants, names, writer),
        Err(JoinFault::OutOfMemory) => Err(ProgramFault::OutOfMemory),
    }
}

/// Writes `settled`, its name, and `no` for each of so many tenants that has a name. The faults are those of `tell_verdicts`.
fn tell_none<W: Write>(
    alloc: Global,
    tenants: usize,
    names: &[Name],
    writer: &mut W,
) -> Result<(), ProgramFault>
    requires { tenants ≤ max_tenants }
    ensures { TellsNone tenants names.now (W.contents writer.old) (W.contents writer.new) result }
{
    tell_all(alloc, &Unjoined, b"settled ", tenants, names, writer)
}
