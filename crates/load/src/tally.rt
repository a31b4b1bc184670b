//! What is reported of a load: how many operations the seats of each tenant began.
ghost use Rattle.std.specs.Prelude.{◌≡◌, ◌+◌, IfErr, OnOk, sum_by};
ghost use Rattle.std.specs.Io.KnownBytes.{Appends};
ghost use Rattle.server_verdicts.specs.Begun.{counts_begun, counts_in, counts_of, counts_of_entry, counts_of_operation};
ghost use Rattle.load.specs.Loading.{CountsMore};
ghost use Rattle.server_verdicts.specs.Verdicts.{BreaksOff, TellsBegun, load_line};

use crate::count_lines::push_count;
use hub::{Closed, EntryList, Operation, Transcript};
use line_protocol::Name;
use line_runs::{ProgramFault, write_text};
use server_verdicts::name_at;
use std::alloc::Global;
use std::io::Write;

/// How many operations of each kind were begun.
#[derive(Clone, Copy)]
pub(crate) struct Begun {
    puts: u64,
    gets: u64,
    finds: u64,
}

/// Writes a line for each tenant of a store that was closed, in the order of the names: `load`, its name, and how many puts,
/// gets and finds stand in the tenant's transcripts as begun.
pub(crate) fn tell_begun<W: Write>(
    alloc: Global,
    closed: &Closed,
    names: &[Name],
    writer: &mut W,
) -> Result<(), ProgramFault>
    ensures { TellsBegun closed.now names.now (W.contents writer.old)
        (W.contents writer.new) result }
{
    for tenant in 0..closed.config.limits.len().min(names.len()) {
        let begun = count_begun(closed, tenant as u32);
        write_begun(alloc, name_at(names, tenant), begun, writer)?;
    }
    Ok(())
}

/// How many operations the sessions of a tenant began. Counts stop at the greatest number.
fn count_begun(closed: &Closed, tenant: u32) -> Begun
    ensures { record { puts = result.puts; gets = result.gets; finds = result.finds }
        ≡ counts_of closed.now tenant }
{
    count_in(closed.transcripts.as_slice(), tenant)
}

/// How many operations these sessions began that are of a tenant.
fn count_in(transcripts: &[Transcript], tenant: u32) -> Begun
    ensures { record { puts = result.puts; gets = result.gets; finds = result.finds }
        ≡ counts_in transcripts.now tenant }
{
    let mut begun = Begun {
        puts: 0,
        gets: 0,
        finds: 0,
    };
    for transcript in transcripts {
        begun = begun.with_session(tenant, transcript);
    }
    begun
}

impl Begun {
    /// With the operations that a session began, where it is of this tenant.
    fn with_session(self, tenant: u32, transcript: &Transcript) -> Begun
        ensures { CountsMore self (counts_begun (λ c. c.puts) tenant transcript.now)
            (counts_begun (λ c. c.gets) tenant transcript.now)
            (counts_begun (λ c. c.finds) tenant transcript.now) result }
    {
        if transcript.tenant == tenant {
            self.with_all(&transcript.entries)
        } else {
            self
        }
    }

    /// With the operations that these entries say were begun.
    fn with_all(self, entries: &EntryList) -> Begun
        ensures { CountsMore self (sum_by (λ e. (counts_of_entry e).puts) entries.now.items)
            (sum_by (λ e. (counts_of_entry e).gets) entries.now.items)
            (sum_by (λ e. (counts_of_entry e).finds) entries.now.items) result }
    {
        let mut begun = self;
        for at in 0..entries.len() {
            begun = begun.with_operation(entries.operation(at));
        }
        begun
    }

    /// With an operation, if one was begun.
    fn with_operation(self, operation: Option<Operation>) -> Begun
        ensures { let one = counts_of_operation operation in
            CountsMore self one.puts one.gets one.finds result }
    {
        let Begun { puts, gets, finds } = self;
        match operation {
            Some(Operation::Put) => Begun {
                puts: puts.saturating_add(1),
                gets,
                finds,
            },
            Some(Operation::Get) => Begun {
                puts,
                gets: gets.saturating_add(1),
                finds,
            },
            Some(Operation::Find) => Begun {
                puts,
                gets,
                finds: finds.saturating_add(1),
            },
            None => self,
        }
    }
}

/// Writes the line that reports how many operations the tenant of a name began.
fn write_begun<W: Write>(
    alloc: Global,
    name: Name,
    begun: Begun,
    writer: &mut W,
) -> Result<(), ProgramFault>
    ensures ok { OnOk result
        (Appends (W.contents writer.old) (W.contents writer.new)
        (load_line name (record { puts = begun.puts; gets = begun.gets; finds = begun.finds }))) }
    ensures err { IfErr result
        (BreaksOff (λ line. line
        ≡ load_line name (record { puts = begun.puts; gets = begun.gets; finds = begun.finds }))
        (W.contents writer.old) (W.contents writer.new)) }
{
    let mut line = Vec::from_slice(alloc, b"load ")?;
    line.extend_from_slice(name.as_bytes())?;
    push_count(&mut line, " puts ", begun.puts)?;
    push_count(&mut line, " gets ", begun.gets)?;
    push_count(&mut line, " finds ", begun.finds)?;
    line.extend_from_slice(b"\n")?;
    Ok(write_text(writer, line.as_slice())?)
}
