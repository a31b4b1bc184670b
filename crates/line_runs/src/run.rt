//! A run: the lines of a stream are answered one by one.
ghost use Rattle.std.specs.Prelude.{◌≡◌, ◌+◌, ◌≤◌, ◌<◌, vec_len, ℕ, List, [], ◌++◌, length, MatchBool, OnOk, IfOk, IfErr, IfSome};
ghost use Rattle.std.specs.Io.KnownBytes.{Appends};
ghost use Rattle.line_protocol.specs.Stream.{HasNoLineFeed};
ghost use Rattle.line_runs.specs.declared.fault.RunFault.TheVariants.{OutOfMemory};
ghost use Rattle.line_runs.specs.RunAnswers.{Answers, AnswersFront, Continues, FailsSo, Gathers, LeavesOff, StopsAt, WritesEnd, WritesOut, end_of, text_at_end};

use crate::device::write_text;
use crate::fault::{End, RunFault};
use crate::service::LineService;
use bytes::BytesMut;
use line_protocol::{LINE_LIMIT, Lines, write_refusal};
use plain_store::Refusal;
use std::alloc::{AllocError, Global};
use std::io::{Read, Write};

/// How many reads a run makes at most.
pub const READ_LIMIT: u64 = 1 << 62;

/// How many bytes one read takes at most.
const PIECE: usize = 65536;

/// How many bytes of answers are gathered before they are written.
pub const GATHERED: usize = 65536;

/// Answers the lines of a stream, one after the other. The answers of all whole lines that were taken
/// in are written before more is read, and together where they fit in 64 KiB.
///
/// `Read` comes where a read failed, and `ReadsUsed` after 2^62 reads: all whole lines before are answered then.
/// `Write` comes where a write failed or took no byte, and nothing is written after it: a beginning of the answers is
/// written. `OutOfMemory` comes before anything is read, or where the service had it, and then the answers to the
/// lines before are written.
pub fn run_lines<S: LineService, R: Read, W: Write>(
    alloc: Global,
    service: &mut S,
    reader: &mut R,
    writer: &mut W,
) -> Result<End, RunFault>
    ensures answered { IfOk result (λ end. IfSome (R.remaining reader.old) (λ input.
        (written : List ℕ) × Answers S.replies service.old input written end
        × Appends (W.contents writer.old) (W.contents writer.new) (written ++ text_at_end end))) }
    // At a fault a prefix of the lines is answered: all that were read, where it was no write and no allocation failure.
    ensures failed { IfErr result
        (FailsSo (S.replies service.old) (R.remaining reader.old) (R.remaining reader.new)
        (W.contents writer.old) (W.contents writer.new)) }
    // Where an allocation failed, the service stands behind the lines that are answered.
    ensures memory { IfErr result (λ fault. fault ≡ OutOfMemory
        → StopsAt S.replies service.old service.new (R.remaining reader.old) (W.contents writer.old)
        (W.contents writer.new)) }
{
    let mut lines = Lines::open(alloc)?;
    let mut out = BytesMut::with_capacity(alloc, GATHERED)?;
    let mut buffer = read_buffer(alloc)?;
    answer_all(
        service,
        &mut lines,
        &mut out,
        buffer.as_mut_slice(),
        reader,
        writer,
    )
}

// Answers the lines of a stream, of which nothing was taken in, by the pieces that reads put into the caller's buffer.
fn answer_all<S: LineService, R: Read, W: Write>(
    service: &mut S,
    lines: &mut Lines,
    out: &mut BytesMut,
    piece: &mut [u8],
    reader: &mut R,
    writer: &mut W,
) -> Result<End, RunFault>
    requires lines { lines.old ≡ [] }
    requires empty { out.old.items ≡ [] }
    requires ready { LINE_LIMIT ≤ out.old.spare }
    requires piece { 0 < length piece.old }
    ensures answered { IfOk result (λ end. IfSome (R.remaining reader.old) (λ input.
        (written : List ℕ) × Answers S.replies service.old input written end
        × Appends (W.contents writer.old) (W.contents writer.new) (written ++ text_at_end end))) }
    ensures failed { IfErr result
        (FailsSo (S.replies service.old) (R.remaining reader.old) (R.remaining reader.new)
        (W.contents writer.old) (W.contents writer.new)) }
    ensures memory { IfErr result (λ fault. fault ≡ OutOfMemory
        → StopsAt S.replies service.old service.new (R.remaining reader.old) (W.contents writer.old)
        (W.contents writer.new)) }
{
    for _reads in 0..READ_LIMIT {
        let Ok(taken) = reader.read(piece) else {
            return Err(RunFault::Read);
        };
        if taken == 0 {
            return finish(lines, out, writer);
        }
        match answer_piece(lines, service, out, &piece[..taken], writer) {
            Ok(true) => flush(out, writer)?,
            Ok(false) => return finish(lines, out, writer),
            Err(fault) => {
                flush(out, writer)?;
                return Err(fault);
            }
        }
    }
    Err(RunFault::ReadsUsed)
}

/// The bytes that reads fill.
pub fn read_buffer(alloc: Global) -> Result<Vec<u8>, AllocError>
    ensures { IfOk result (λ buffer. 0 < vec_len buffer) }
{
    vec![in alloc; 0; PIECE]
}

// Answers the lines of a piece. False says that the stream goes on with a line that is too long.
fn answer_piece<S: LineService, W: Write>(
    lines: &mut Lines,
    service: &mut S,
    out: &mut BytesMut,
    piece: &[u8],
    writer: &mut W,
) -> Result<bool, RunFault>
    requires ready { LINE_LIMIT ≤ out.old.spare }
    requires waits { HasNoLineFeed lines.old }
    ensures ready { OnOk result (LINE_LIMIT ≤ out.new.spare) }
    ensures waits { OnOk result (HasNoLineFeed lines.new) }
    ensures answered { IfOk result (λ more. (text : List ℕ)
        × Gathers (W.contents writer.old) (W.contents writer.new) out.old.items out.new.items text
        × MatchBool more
        (AnswersFront S.replies service.old service.new (lines.old ++ piece.now) lines.new text)
        ((rest : List ℕ)
        → Continues S.replies service.old service.new (lines.old ++ piece.now
        ++ rest) lines.new text)) }
    ensures fault { IfErr result
        (LeavesOff S.replies service.old service.new (lines.old ++ piece.now)
        (W.contents writer.old) (W.contents writer.new) out.old.items out.new.items) }
{
    let mut rest = piece;
    while !rest.is_empty() {
        match lines.feed(rest) {
            Ok(taken) => rest = &rest[taken..],
            Err(_) => return Ok(false),
        }
        answer_waiting(lines, service, out, writer)?;
    }
    Ok(true)
}

// Answers the line that waits, if one does. There is room for the next answer then.
fn answer_waiting<S: LineService, W: Write>(
    lines: &mut Lines,
    service: &mut S,
    out: &mut BytesMut,
    writer: &mut W,
) -> Result<(), RunFault>
    requires ready { LINE_LIMIT ≤ out.old.spare }
    ensures ready { OnOk result (LINE_LIMIT ≤ out.new.spare) }
    ensures waits { OnOk result (HasNoLineFeed lines.new) }
    ensures answered { OnOk result ((text : List ℕ)
        × Gathers (W.contents writer.old) (W.contents writer.new) out.old.items out.new.items text
        × AnswersFront S.replies service.old service.new lines.old lines.new text) }
    ensures fault { IfErr result (LeavesOff S.replies service.old service.new lines.old
        (W.contents writer.old) (W.contents writer.new) out.old.items out.new.items) }
{
    let Some(line) = lines.next_line() else {
        return Ok(());
    };
    service.answer(line, out)?;
    if out.capacity() - out.len() < LINE_LIMIT {
        flush(out, writer)?;
    }
    Ok(())
}

/// Writes what is gathered. None of it is left, also where a write failed.
pub fn flush<W: Write>(out: &mut BytesMut, writer: &mut W) -> Result<(), RunFault>
    ensures { WritesOut out.old.items out.new.items out.old.spare out.new.spare
        (W.contents writer.old) (W.contents writer.new) result }
{
    let written = write_text(writer, out.as_slice());
    out.clear();
    written
}

// Writes what is gathered, and says how the stream ended.
fn finish<W: Write>(lines: &Lines, out: &mut BytesMut, writer: &mut W) -> Result<End, RunFault>
    requires ready { LINE_LIMIT ≤ out.old.spare }
    requires waits { HasNoLineFeed lines.now }
    ensures { WritesEnd lines.now out.old.items
        (W.contents writer.old) (W.contents writer.new) result }
{
    let end = end_of(lines);
    put_ending(end, out);
    flush(out, writer)?;
    Ok(end)
}

// How the stream ends that left these bytes.
fn end_of(lines: &Lines) -> End
    requires { HasNoLineFeed lines.now }
    ensures { end_of lines.now ≡ result }
{
    let Err(refusal) = lines.end() else {
        return End::Whole;
    };
    match refusal {
        Refusal::LineTooLong => End::TooLong,
        _ => End::Cut,
    }
}

// Gathers what is said of the end.
fn put_ending(end: End, out: &mut BytesMut)
    requires { LINE_LIMIT ≤ out.old.spare }
    ensures { out.new.items ≡ out.old.items ++ text_at_end end }
{
    let refusal = match end {
        End::Whole => return,
        End::TooLong => Refusal::LineTooLong,
        End::Cut => Refusal::Cut,
    };
    if write_refusal(refusal, out).is_err() {
        unreachable!();
    }
}
