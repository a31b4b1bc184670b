//! What is reported of the tenants of a store: the verdict over each.
ghost use Rattle.std.specs.Prelude.{◌≡◌, ◌≢◌, ◌<◌, ◌≤◌, true, false, codes, length, slice_get, is_ok, Err, IfOk, IfErr, OnOk};
ghost use Rattle.std.specs.Io.KnownBytes.{Appends};
ghost use Rattle.stamps.specs.Limits.{max_tenants};
ghost use Rattle.settle.specs.declared.settle_fault.SettleFault.TheVariants.{OutOfMemory as NoMemory};
ghost use Rattle.server_verdicts.specs.Verdicts.{BreaksOff, IsVerdictOf, TellsEach, TellsTenant, TellsVerdicts, verdict_line, verdict_word};

mod judging;

use hub::Closed;
pub use judging::{endings_of, tell_checks};
use line_protocol::Name;
use line_runs::{ProgramFault, write_text};
use plain_store::{OutOfMemory, Step};
use settle::{SettleFault, settle};
use std::alloc::Global;
use std::io::Write;

/// What judges the tenants of a store.
pub trait Judge {
    ghost use Rattle.std.specs.Prelude.{ℕ, Bool};

    /// This is a verdict over the tenant of a number.
    ghost is_verdict: { Self → ℕ → Bool → Type 0 };

    /// Whether a tenant is right.
    fn judge(&self, alloc: Global, tenant: u32) -> Result<bool, OutOfMemory>
        ensures { IfOk result (is_verdict self.now tenant) };
}

impl Judge for Closed {
    ghost is_verdict = { IsVerdictOf };

    fn judge(&self, alloc: Global, tenant: u32) -> Result<bool, OutOfMemory> {
        is_settled(alloc, self, tenant)
    }
}

/// Settles the tenants of a store that was closed, and writes a line for each, in the order of the names: `settled`, its
/// name, and `yes` where `settle` answered a list, else `no`.
///
/// It fails with `Settle` where all lines were written and one says `no`; with `OutOfMemory` where an allocation failed, and
/// with `Device` where a write failed: no more is written then.
pub fn tell_verdicts<W: Write>(
    alloc: Global,
    closed: &Closed,
    names: &[Name],
    writer: &mut W,
) -> Result<(), ProgramFault>
    ensures { TellsVerdicts closed.now names.now (W.contents writer.old)
        (W.contents writer.new) result }
{
    let tenants = closed.config.limits.len();
    tell_all(alloc, closed, b"settled ", tenants, names, writer)
}

/// Judges so many tenants, and writes a line for each that has a name, in the order of the names: the word, its name, and
/// `yes` or `no`. The faults are those of `tell_verdicts`.
pub fn tell_all<J: Judge, W: Write>(
    alloc: Global,
    judge: &J,
    word: &[u8],
    tenants: usize,
    names: &[Name],
    writer: &mut W,
) -> Result<(), ProgramFault>
    requires { tenants ≤ max_tenants }
    ensures { TellsEach (J.is_verdict judge.now) word.now tenants names.now (W.contents writer.old)
        (W.contents writer.new) result }
{
    let mut all_yes = true;
    for tenant in 0..tenants.min(names.len()) {
        let name = name_at(names, tenant);
        let yes = tell_verdict(alloc, judge, word, tenant as u32, name, writer)?;
        all_yes = all_yes && yes;
    }
    if all_yes {
        Ok(())
    } else {
        Err(ProgramFault::Settle)
    }
}

/// The name of the tenant of this number, from 0.
pub fn name_at(names: &[Name], place: usize) -> Name
    requires { place < length names.now }
    ensures { slice_get names.now place ≡ Some result }
{
    names[place]
}

/// Judges a tenant and writes its line, and says how it was judged.
fn tell_verdict<J: Judge, W: Write>(
    alloc: Global,
    judge: &J,
    word: &[u8],
    tenant: u32,
    name: Name,
    writer: &mut W,
) -> Result<bool, ProgramFault>
    ensures verdict { IfOk result (J.is_verdict judge.now tenant) }
    ensures line { IfOk result
        (λ verdict.
        Appends (W.contents writer.old) (W.contents writer.new)
        (verdict_line word.now name verdict)) }
    ensures fault { IfErr result
        (BreaksOff (TellsTenant (J.is_verdict judge.now) word.now tenant name)
        (W.contents writer.old) (W.contents writer.new)) }
{
    let yes = judge.judge(alloc, tenant)?;
    write_verdict(alloc, word, name, yes, writer)?;
    Ok(yes)
}

/// Whether a tenant is settled.
fn is_settled(alloc: Global, closed: &Closed, tenant: u32) -> Result<bool, OutOfMemory>
    ensures { IfOk result (IsVerdictOf closed.now tenant) }
{
    let answer = settle(alloc, closed, tenant);
    verdict_of(&answer)
}

/// Whether what `settle` answered is a list. An allocation failure says nothing of what was settled.
fn verdict_of(answer: &Result<Vec<Step>, SettleFault>) -> Result<bool, OutOfMemory>
    ensures list { IfOk result (λ yes. yes ≡ is_ok answer.now) }
    ensures fault { IfOk result (λ yes. answer.now ≢ Err NoMemory) }
    ensures memory { IfErr result (λ _. answer.now ≡ Err NoMemory) }
{
    match answer {
        Ok(_) => Ok(true),
        Err(SettleFault::OutOfMemory) => Err(OutOfMemory),
        Err(_) => Ok(false),
    }
}

/// Writes the line that reports the verdict over the tenant of a name.
fn write_verdict<W: Write>(
    alloc: Global,
    word: &[u8],
    name: Name,
    yes: bool,
    writer: &mut W,
) -> Result<(), ProgramFault>
    ensures ok { OnOk result
        (Appends (W.contents writer.old) (W.contents writer.new) (verdict_line word.now name yes)) }
    ensures err { IfErr result
        (BreaksOff (λ line. line
        ≡ verdict_line word.now name yes) (W.contents writer.old) (W.contents writer.new)) }
{
    let mut line = Vec::from_slice(alloc, word)?;
    line.extend_from_slice(name.as_bytes())?;
    line.extend_from_slice(verdict_word(yes))?;
    Ok(write_text(writer, line.as_slice())?)
}

/// How a line ends that reports a verdict.
fn verdict_word(yes: bool) -> &'static [u8]
    ensures { result.now ≡ verdict_word yes }
{
    if yes { b" yes\n" } else { b" no\n" }
}
