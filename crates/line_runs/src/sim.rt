//! A run of a whole store.
ghost use Rattle.std.specs.Prelude.{◌≡◌, ◌≢◌, ◌+◌, ◌<◌, ◌≤◌, ◌++◌, length, IfOk, IfErr, OnOk, OnErr};
ghost use Rattle.stamps.specs.Bounds.{IsParts};
ghost use Rattle.plain_store.specs.declared.refusal.Refusal.TheVariants.{OutOfMemory as NoMemory};
ghost use Rattle.plain_store.specs.Numbers.{number_of};
ghost use Rattle.line_protocol.specs.Stream.{terminated};
ghost use Rattle.line_protocol.specs.Spelling.{refused_text};
ghost use Rattle.line_protocol.specs.AnswerSpelling.{answer_line};
ghost use Rattle.line_runs.specs.Served.{ServesSim, answers_of_store};
ghost use Rattle.line_runs.specs.RunAnswers.{FailsSo};
ghost use Rattle.line_runs.specs.SimAnswers.{AnswersStep, HasHistoryOf};

use crate::fault::{End, RunFault};
use crate::run::run_lines;
use crate::service::LineService;
use bytes::BytesMut;
use line_protocol::{LINE_LIMIT, Name, read_step_line, write_answer, write_refusal};
use plain_store::{Answer, OutOfMemory, Refusal, Step};
use stamps::Limits;
use std::alloc::Global;
use std::io::{Read, Write};
use world::World;

/// Answers the lines that ask the tenants of a store for steps.
#[derive(Drop)]
struct SimService<'n> {
    alloc: Global,
    world: World,
    names: &'n [Name],
    /// Where the store writes its answers.
    answer: Answer,
}

impl LineService for SimService<'_> {
    ghost use Rattle.std.specs.Prelude.{refl};
    ghost use Rattle.line_runs.specs.SimAnswers.{sim_replies};

    ghost replies = { λ service lines text. sim_replies service.world service.names.now lines text };

    ghost replies_none = { λ service before stands. refl };

    fn answer(&mut self, line: &[u8], out: &mut BytesMut) -> Result<(), OutOfMemory> {
        match read_step_line(self.alloc, self.names, line) {
            Ok(step) => answer_step(&mut self.world, &step, &mut self.answer, out),
            Err(refusal) => answer_refusal(refusal, out),
        }
    }
}

// Appends the store's answer to a step, for which there is room. The answer is put into the caller's buffer.
fn answer_step(
    world: &mut World,
    step: &Step,
    answer: &mut Answer,
    out: &mut BytesMut,
) -> Result<(), OutOfMemory>
    requires { LINE_LIMIT ≤ out.old.spare }
    ensures ok { OnOk result
        (AnswersStep world.old world.new step.now out.old.items out.new.items) }
    ensures err { OnErr result (out.new.items ≡ out.old.items) }
    ensures stays { OnErr result (HasHistoryOf world.old world.new) }
    ensures room { length out.old.items + out.old.spare ≤ length out.new.items + out.new.spare }
{
    match world.step_into(step, answer) {
        Ok(()) => {
            put_answer(answer, out);
            Ok(())
        }
        Err(OutOfMemory) => Err(OutOfMemory),
    }
}

/// Appends the line of an answer, for which there is room.
pub fn put_answer(answer: &Answer, out: &mut BytesMut)
    requires { LINE_LIMIT ≤ out.old.spare }
    ensures text { out.new.items ≡ out.old.items ++ answer_line answer.now }
    ensures room { length out.old.items + out.old.spare ≤ length out.new.items + out.new.spare }
{
    if write_answer(answer, out).is_err() {
        unreachable!();
    }
}

// Appends the line of a refusal, for which there is room. An allocation failure has none.
fn answer_refusal(refusal: Refusal, out: &mut BytesMut) -> Result<(), OutOfMemory>
    requires { LINE_LIMIT ≤ out.old.spare }
    ensures ok { OnOk result (out.new.items
        ≡ out.old.items ++ terminated (refused_text (number_of refusal))) }
    ensures memory { OnOk result (refusal ≢ NoMemory) }
    ensures err { OnErr result (out.new.items ≡ out.old.items) }
    ensures room { length out.old.items + out.old.spare ≤ length out.new.items + out.new.spare }
{
    match refusal {
        Refusal::OutOfMemory => Err(OutOfMemory),
        _ => {
            if write_refusal(refusal, out).is_err() {
                unreachable!();
            }
            Ok(())
        }
    }
}

/// Answers the lines of the reader by one new store of `parts` partitions, 1 to `MAX_PARTS`, until the input ends. It has a
/// tenant for each of the `limits`, which goes by the name at the same place of `names`.
///
/// What is written is the line of the plain store's answer to each step, after the steps of its own tenant before it;
/// `refused 10` for each step of a tenant that has no name here, and `refused 40` for each line that is no step, which
/// both leave the store as it is; and at the end `refused 41` or `refused 42` where the input ended by a line that is
/// too long or within a line. The answers of all whole lines that were read are written before more is read.
///
/// `Read` and `ReadsUsed` come where a read failed, or 2^62 reads did not come to the end of the input: the lines of
/// all that was read are answered then. `Write` comes where a write failed: a beginning of the answers was written.
/// `OutOfMemory` comes before anything is read, or where a step had it: the answers to the lines before are written
/// then, and none to that line.
pub fn run_sim<R: Read, W: Write>(
    alloc: Global,
    parts: u32,
    limits: &[Limits],
    names: &[Name],
    reader: &mut R,
    writer: &mut W,
) -> Result<End, RunFault>
    requires { IsParts parts }
    ensures served { IfOk result
        (ServesSim parts limits.now names.now (R.remaining reader.old) (W.contents writer.old)
        (W.contents writer.new)) }
    ensures failed { IfErr result
        (FailsSo (answers_of_store parts limits.now names.now) (R.remaining reader.old)
        (R.remaining reader.new)
        (W.contents writer.old) (W.contents writer.new)) }
{
    let world = World::open(alloc, parts, limits)?;
    let mut service = SimService {
        alloc,
        world,
        names,
        answer: Answer::Ignored,
    };
    run_lines(alloc, &mut service, reader, writer)
}
