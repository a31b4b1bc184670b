//! Bytes by slot, in pieces.
ghost use Rattle.std.specs.Prelude.{◌≡◌, ◌≢◌, ℕ, ◌+◌, ◌*◌, ◌<◌, ◌≤◌, ◌++◌, length, take, drop, slice_set, IfOk};
ghost use Rattle.version_arena.specs.SlotBytes.{bytes_at};
ghost use Rattle.version_arena.specs.Stripes.{HasStripes, bytes_of};

use crate::block::RawBlock;
use crate::slot::Slot;
use std::alloc::{AllocError, Global};
use std::marker::Model;

/// How many bytes are copied at a time.
const PIECE_BYTES: usize = 64;

/// How many pieces a slot has.
const PIECES: usize = 12;

/// Bytes at each of the slots. Contracts see them by slot. The first ones are those that were put there last, and behind them lie others:
/// whoever put them knows how many they are.
///
/// A slot's bytes lie in pieces of 64: the first pieces of all slots in one row, the second ones behind them in another, and so on. So a piece
/// that no bytes were long enough for is never touched, and takes address space alone. All of it is reserved once, by
/// [`SlotBytes::with_slots`], and no other call allocates.
pub struct SlotBytes {
    // Piece `nth` of a slot lies at `nth * cap + slot`.
    pieces: RawBlock<[u8; PIECE_BYTES]>,
    cap: u32,
}

impl Model for SlotBytes {
    ghost use Rattle.std.specs.Prelude.{ℕ, List};

    ghost Value = { List (List ℕ) };

    ghost use Rattle.version_arena.specs.Stripes.{HasStripes, slots_of};

    ghost view = { λ b. slots_of b.pieces b.cap };

    ghost invariant = { λ b. HasStripes b.pieces b.cap };
}

impl Drop for SlotBytes {
    fn drop(self) {
        let SlotBytes { pieces, cap: _ } = self;
        pieces.release();
    }
}

impl SlotBytes {
    /// The most bytes of a slot.
    pub const MAX_LEN: usize = PIECES * PIECE_BYTES;

    /// So many slots, 1 to 4,194,304. It touches the bytes of none.
    ///
    /// The one error is that the allocator refused the memory. Nothing is then held.
    pub fn with_slots(alloc: Global, cap: u32) -> Result<SlotBytes, AllocError>
        requires { (1 ≤ cap) × (cap ≤ 4194304) }
        ensures { IfOk result (λ bytes. length bytes ≡ cap) }
    {
        let pieces = RawBlock::reserve(alloc, PIECES * cap as usize)?;
        Ok(SlotBytes { pieces, cap })
    }

    /// Puts the first `len` bytes of a buffer, `MAX_LEN` at most, at a slot, over those that lie there. It copies whole pieces, for which the
    /// buffer has 63 bytes more. Those of no other slot change.
    pub fn put(&mut self, slot: Slot, source: &[u8], len: usize)
        requires slot { slot < length self.old }
        requires few { len ≤ 768 }
        requires room { len + 63 ≤ length source.now }
        ensures others { self.new ≡ slice_set self.old slot (bytes_at self.new slot) }
        ensures put { take len (bytes_at self.new slot) ≡ take len source.now }
        ensures long { len ≤ length (bytes_at self.new slot) }
    {
        put_pieces(
            &mut self.pieces,
            self.cap as usize,
            slot.index(),
            source,
            len,
        );
    }

    /// Copies the first `len` bytes of a slot, which were put there, to the front of a buffer. It copies whole pieces, for which the buffer has
    /// 63 bytes more; what lies behind the `len` bytes is then any.
    pub fn read(&self, slot: Slot, len: usize, out: &mut [u8])
        requires slot { slot < length self.now }
        requires there { len ≤ length (bytes_at self.now slot) }
        requires room { len + 63 ≤ length out.old }
        ensures { take len out.new ≡ take len (bytes_at self.now slot) }
    {
        read_pieces(&self.pieces, self.cap as usize, slot.index(), len, out);
    }
}

// Puts the first bytes of a buffer into a slot's pieces, from the last one to the first.
fn put_pieces(
    pieces: &mut RawBlock<[u8; PIECE_BYTES]>,
    cap: usize,
    slot: usize,
    source: &[u8],
    len: usize,
)
    requires stripes { HasStripes pieces.old cap }
    requires slot { slot < cap }
    requires few { len ≤ 768 }
    requires room { len + 63 ≤ length source.now }
    ensures stripes { HasStripes pieces.new cap }
    ensures others { (other : ℕ) → other < cap → other ≢ slot
        → bytes_of pieces.new cap other ≡ bytes_of pieces.old cap other }
    ensures put { take len (bytes_of pieces.new cap slot) ≡ take len source.now }
    ensures long { len ≤ length (bytes_of pieces.new cap slot) }
{
    let mut left = (len + 63) / PIECE_BYTES;
    while left > 0 {
        left -= 1;
        let piece = piece_of(source, left * PIECE_BYTES);
        pieces.overwrite(left * cap + slot, piece);
    }
}

// Copies the first bytes of a slot's pieces to the front of a buffer.
fn read_pieces(
    pieces: &RawBlock<[u8; PIECE_BYTES]>,
    cap: usize,
    slot: usize,
    len: usize,
    out: &mut [u8],
)
    requires stripes { HasStripes pieces.now cap }
    requires there { len ≤ length (bytes_of pieces.now cap slot) }
    requires room { len + 63 ≤ length out.old }
    ensures { take len out.new ≡ take len (bytes_of pieces.now cap slot) }
{
    let mut done = 0;
    let mut at = slot;
    while done < len {
        lay_piece(out, done, pieces.get(at));
        done += PIECE_BYTES;
        at += cap;
    }
}

// The piece that begins at a place of a buffer.
#[inline(always)]
fn piece_of(source: &[u8], at: usize) -> [u8; PIECE_BYTES]
    requires { at + 64 ≤ length source.now }
    ensures { result ≡ take 64 (drop at source.now) }
{
    *source[at..].first_chunk().unwrap()
}

// Copies a piece to a place of a buffer.
#[inline(always)]
fn lay_piece(out: &mut [u8], at: usize, piece: &[u8; PIECE_BYTES])
    requires { at + 64 ≤ length out.old }
    ensures laid { take (at + 64) out.new ≡ take at out.old ++ piece.now }
    ensures whole { length piece.now ≡ 64 }
{
    overwrite(&mut out[at..at + PIECE_BYTES], piece);
}

// Copies a piece over bytes that are as many.
#[inline(always)]
fn overwrite(place: &mut [u8], piece: &[u8; PIECE_BYTES])
    requires { length place.old ≡ 64 }
    ensures { place.new ≡ piece.now }
{
    let Some(array) = place.as_mut_array() else {
        unreachable!()
    };
    *array = *piece;
}
