//! A run of one cell.
ghost use Rattle.std.specs.Prelude.{IfOk, IfErr};
ghost use Rattle.line_runs.specs.Served.{ServesCell, answers_of_cell};
ghost use Rattle.line_runs.specs.RunAnswers.{FailsSo};

use crate::fault::{End, RunFault};
use crate::run::run_lines;
use crate::service::LineService;
use bytes::BytesMut;
use line_protocol::{NoRoom, read_cell_line, write_refusal, write_reply};
use plain_store::OutOfMemory;
use prepare_commit::LoneCell;
use std::alloc::Global;
use std::io::{Read, Write};

/// Answers the lines that ask one cell.
#[derive(Drop)]
struct CellService {
    cell: LoneCell,
}

impl LineService for CellService {
    ghost use Rattle.line_runs.specs.CellAnswers.{told_by_cell};
    ghost use Rattle.std.specs.Prelude.{refl};

    ghost replies = { λ service lines text. told_by_cell service.cell lines text };

    ghost replies_none = { λ service log stands. refl };

    fn answer(&mut self, line: &[u8], out: &mut BytesMut) -> Result<(), OutOfMemory> {
        let written = match read_cell_line(line) {
            Ok(call) => write_reply(&self.cell.apply(&call), out),
            Err(refusal) => write_refusal(refusal, out),
        };
        match written {
            Ok(()) => Ok(()),
            Err(NoRoom) => unreachable!(),
        }
    }
}

/// Answers the lines of the reader by one new cell, until the input ends. `slots` and `items`, how many
/// versions and items the cell has room for, are 1 to 65536; `clients`, of how many a write may be discarded,
/// is 1 to 1024.
///
/// What is written is the line of the cell's reply to each call, `refused 40` for each line that is no
/// call, and at the end `refused 41` or `refused 42` where the input ended by a line that is too long or
/// within a line. The answers of all whole lines that were read are written before more is read.
///
/// `Read` and `ReadsUsed` come where a read failed, or 2^62 reads did not come to the end of the input: the lines of
/// all that was read are answered then. `Write` comes where a write failed: a beginning of the answers was written.
/// `OutOfMemory` comes before anything is read.
pub fn run_cell<R: Read, W: Write>(
    alloc: Global,
    slots: u32,
    items: u32,
    clients: u32,
    reader: &mut R,
    writer: &mut W,
) -> Result<End, RunFault>
    ensures served { IfOk result
        (ServesCell slots items clients (R.remaining reader.old) (W.contents writer.old)
        (W.contents writer.new)) }
    ensures failed { IfErr result
        (FailsSo (answers_of_cell slots items clients) (R.remaining reader.old)
        (R.remaining reader.new)
        (W.contents writer.old) (W.contents writer.new)) }
{
    let cell = LoneCell::open(alloc, slots, items, clients)?;
    let mut service = CellService { cell };
    run_lines(alloc, &mut service, reader, writer)
}
