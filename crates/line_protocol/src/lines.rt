//! A stream of bytes as lines.
ghost use Rattle.std.specs.Prelude.{◌≡◌, ◌+◌, ◌<◌, ◌≤◌, ◌↔◌, ℕ, List, [], ◌++◌, length, take, IfSome, IfNone, IfOk, IfErr, OnErr, IsErr, vec_capacity};
ghost use Rattle.std.specs.Borrow.{sem};
ghost use Rattle.std.specs.Io.BufRead.{Rests};
ghost use Rattle.plain_store.specs.declared.refusal.Refusal.TheVariants.{LineTooLong};
ghost use Rattle.line_protocol.specs.declared.lines.LineState.TheVariants.{Partial};
ghost use Rattle.line_protocol.specs.Stream.{HasNoLineFeed, IsTooLong};
ghost use Rattle.line_protocol.specs.Held.{bytes_fed, JoinsHeld, Waits, HandsOut, EndsAs, AreHeld, GoesOnWith, IsLineEnd};
ghost use Rattle.line_protocol.specs.Transfers.{Transfer, AreTransfers, AreInOrder};

use memchr::memchr;
use plain_store::Refusal;
use stamps::limits;
use std::alloc::{AllocError, Global};
use std::marker::Model;

/// How many bytes a line has at most, its LF included.
pub const LINE_LIMIT: usize = limits::LINE_LIMIT;

const LINE_FEED: u8 = b'\n';

/// What the bytes of [`Lines`] are.
#[derive(Clone, Copy, PartialEq, Eq)]
enum LineState {
    /// The beginning of a line whose LF has not come.
    Partial,
    /// A line whose LF has come. The LF is not among the bytes.
    Whole,
    /// A line that was returned.
    Spent,
    /// [`LINE_LIMIT`] bytes, and no LF among them.
    TooLong,
}

/// Cuts a stream of bytes into lines, in whatever pieces it comes. An LF ends a line.
///
/// A contract sees it as the bytes that it took and has not returned: the beginning of a line, or one whole
/// line with its LF, or a beginning that is too long for a line.
#[derive(Drop)]
pub struct Lines {
    bytes: Vec<u8>,
    stage: LineState,
}

impl Model for Lines {
    ghost use Rattle.std.specs.Prelude.{List, ℕ};

    ghost Value = { List ℕ };

    ghost use Rattle.line_protocol.specs.Held.{held_of, IsHeld};

    ghost view = { held_of };

    ghost invariant = { IsHeld };
}

impl Lines {
    ghost use Rattle.line_protocol.specs.contracts.lines.Lines.{the_row};

    /// Makes the room for one line. No other call takes memory.
    pub fn open(alloc: Global) -> Result<Lines, AllocError>
        ensures { IfOk result (λ lines. lines ≡ []) }
    {
        Ok(Lines {
            bytes: Vec::with_capacity(alloc, LINE_LIMIT)?,
            stage: LineState::Partial,
        })
    }

    /// Takes bytes from the front of `piece`, and answers how many: those up to its first LF, which is counted,
    /// and none while a line waits. The caller hands the others in again, after [`Lines::next_line`].
    ///
    /// It is [`Refusal::LineTooLong`] as soon as [`LINE_LIMIT`] bytes stand without an LF. From then on each call
    /// is, also that of an empty piece.
    pub fn feed(&mut self, piece: &[u8]) -> Result<usize, Refusal>
        ensures taken { IfOk result (λ n. n ≡ length (bytes_fed self.old piece.now)) }
        ensures within { IfOk result (λ n. n ≤ length piece.now) }
        ensures moves { IfOk result (λ n. HasNoLineFeed self.old → 0 < length piece.now → 0 < n) }
        ensures ok { IfOk result (λ n. JoinsHeld self.old (take n piece.now) self.new) }

        ensures error { IfErr result (λ e. e ≡ LineTooLong) }
        ensures too_long { OnErr result (IsTooLong (self.old ++ piece.now)) }
        ensures fails { IsTooLong (self.old ++ piece.now) → IsErr result }
        // What stays held is too long by itself.
        ensures err { OnErr result (self.new ≡ take LINE_LIMIT (self.old ++ piece.now)) }
    {
        match self.stage {
            LineState::TooLong => return Err(Refusal::LineTooLong),
            LineState::Whole => return Ok(0),
            LineState::Spent => self.bytes.clear(),
            LineState::Partial => {}
        }
        let (stage, taken) = extend_line(&mut self.bytes, piece);
        self.stage = stage;
        if let LineState::TooLong = stage {
            return Err(Refusal::LineTooLong);
        }
        Ok(taken)
    }

    /// Hands out the line that waits, without its LF. There is none until its LF was taken, nor after it was
    /// returned.
    pub fn next_line(&mut self) -> Option<&[u8]>
        ensures waiting { IfSome result (λ line. Waits self.old line.now) }
        ensures none_waits { IfNone result (HasNoLineFeed self.old) }
        ensures* after_borrow { sem 𝓛 (Rests the_row self.entry (HandsOut self.old result)) }
    {
        if self.stage != LineState::Whole {
            return None;
        }
        self.stage = LineState::Spent;
        Some(self.bytes.as_slice())
    }

    /// Whether the stream may end here: before its first byte or right after an LF, also while the line before
    /// this LF waits. It is [`Refusal::Cut`] where bytes stand after the last LF, and
    /// [`Refusal::LineTooLong`] where [`LINE_LIMIT`] or more do.
    pub fn end(&self) -> Result<(), Refusal>
        ensures { EndsAs self.now result }
    {
        match self.stage {
            LineState::TooLong => Err(Refusal::LineTooLong),
            LineState::Partial if !self.bytes.is_empty() => Err(Refusal::Cut),
            _ => Ok(()),
        }
    }
}

/// However a stream is cut, and whenever its lines are asked for: the lines that [`Lines::next_line`] hands out are
/// those of the stream, in its order, and none is left out.
pub fn lines_come_in_order()
    ensures { (transfers : List Transfer) (held : List ℕ) → AreTransfers [] transfers held
        → AreInOrder transfers held }
{}

// The beginning of a line takes what of the piece belongs to that line. The result says what the bytes are then,
// without an LF, and how many of the piece were taken.
fn extend_line(bytes: &mut Vec<u8>, piece: &[u8]) -> (LineState, usize)
    requires partial { AreHeld Partial bytes.old.items }
    requires room { LINE_LIMIT ≤ vec_capacity bytes.old }
    ensures content { AreHeld result.0 bytes.new.items }
    ensures grows { GoesOnWith bytes.old.items piece.now result.0 result.1 bytes.new.items }
    ensures capacity { LINE_LIMIT ≤ vec_capacity bytes.new }
{
    let room = LINE_LIMIT - bytes.len();
    let end = line_end(piece);
    if end >= room {
        keep(bytes, &piece[..room]);
        return (LineState::TooLong, room);
    }
    keep(bytes, &piece[..end]);
    if end == piece.len() {
        (LineState::Partial, end)
    } else {
        (LineState::Whole, end + 1)
    }
}

// Where the first LF is, or the piece's length.
fn line_end(piece: &[u8]) -> usize
    ensures { IsLineEnd piece.now result }
{
    memchr(LINE_FEED, piece).unwrap_or(piece.len())
}

// Appends bytes for which there is room.
fn keep(bytes: &mut Vec<u8>, more: &[u8])
    requires { length bytes.old.items + length more.now ≤ vec_capacity bytes.old }
    ensures items { bytes.new.items ≡ bytes.old.items ++ more.now }
    ensures capacity { vec_capacity bytes.old ≤ vec_capacity bytes.new }
{
    if bytes.extend_from_slice(more).is_err() {
        unreachable!();
    }
}
