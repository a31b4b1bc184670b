//! A short byte string that lies in the value itself.
ghost use Rattle.std.specs.Prelude.{◌≡◌, ℕ, ◌-◌, ◌<◌, ◌≤◌, ◌++◌, length, take, drop, replicate, nat_eq, refl, Some};
ghost use Rattle.std.specs.List.{list_all};
ghost use Rattle.std.specs.Ordering.{nat_cmp};
ghost use Rattle.std.specs.Cmp.{partial_equiv_from_equiv};
ghost use Rattle.std.specs.Str.{IsUtf8};
ghost use Rattle.std.specs.Cmp.Lexicographic.{pointwise, slice_cmp, nat_list_eq_equiv, nat_list_cmp_total, texts_po, texts_ties};
ghost use Rattle.stamps.specs.Limits.{max_value_len};
ghost use Rattle.stamps.specs.Text.{is_name_byte, is_visible_byte};

use crate::limits;
use std::cmp::Ordering;
use std::marker::Model;
use std::{fmt, str};

/// How many bytes a mask has at most.
const MASK_LEN: usize = limits::MAX_VALUE_LEN;

/// As many bytes of 255 as a mask has at most, and as many zeros.
static ONES_AND_ZEROS: [[u8; MASK_LEN]; 2] = [[255; MASK_LEN], [0; MASK_LEN]];

/// Up to `N` bytes. The unused rest of the array is zero. A contract sees a text as its bytes.
#[derive(Clone, Copy)]
pub(crate) struct Text<const N: usize> {
    bytes: [u8; N],
    len: u8,
}

impl<const N: usize> Model for Text<N> {
    ghost use Rattle.std.specs.Prelude.{◌≡◌, ℕ, ◌-◌, ◌≤◌, ◌++◌, List, length, take, drop, replicate};
    ghost use Rattle.std.proofs.Common.{◌∙◌, ap, arith, length-take-le, sym, take-append-drop};

    ghost Value = { List ℕ };

    ghost view = { λ t. take t.len t.bytes };

    ghost invariant = { λ t. (t.len ≤ N) × (length t.bytes ≡ N) × (drop t.len t.bytes ≡ replicate (N - t.len) 0) };

    ghost inverse = { λ bytes. record { bytes = bytes ++ replicate (N - length bytes) 0; len = length bytes } };

    ghost inverse_ok = { λ t h i. record {
      bytes = (ap (λ n. take t.len t.bytes ++ replicate (N - n) 0) (length-take-le t.len t.bytes (omega (arith, h.0, h.1)))
          ∙ ap (λ rest. take t.len t.bytes ++ rest) (sym h.2) ∙ take-append-drop t.len t.bytes) i;
      len = length-take-le t.len t.bytes (omega (arith, h.0, h.1)) i;
    } };
}

impl<const N: usize> Text<N> {
    pub(crate) fn new(source: &[u8]) -> Self
        requires fits { length source.now ≤ N }
        requires small { N < 256 }
        ensures { result ≡ source.now }
    {
        let mut bytes = [0; N];
        bytes[..source.len()].copy_from_slice(source);
        Text {
            bytes,
            len: source.len() as u8,
        }
    }

    /// The first `len` bytes of an array, behind which it has zeros.
    #[inline(always)]
    pub(crate) fn of_padded(bytes: [u8; N], len: usize) -> Self
        requires fits { len ≤ N }
        requires small { N < 256 }
        requires zeros { drop len bytes ≡ replicate (N - len) 0 }
        ensures { result ≡ take len bytes.entry }
    {
        Text {
            bytes,
            len: len as u8,
        }
    }

    /// Makes of it the first `len` bytes of a shorter array, behind which this has zeros. Neither text has more bytes than that array, so
    /// no others are written.
    #[inline(always)]
    pub(crate) fn set_padded<const M: usize>(&mut self, front: &[u8; M], len: usize)
        requires shorter { M ≤ N }
        requires small { N < 256 }
        requires had { length self.old ≤ M }
        requires fits { len ≤ M }
        requires zeros { drop len front.now ≡ replicate (M - len) 0 }
        ensures { self.new ≡ take len front.now }
    {
        self.bytes[..M].copy_from_slice(front);
        self.len = len as u8;
    }

    /// The whole array: the bytes of the text, and zeros behind them.
    pub(crate) fn padded(&self) -> &[u8; N]
        ensures bytes { take (length self.now) result.now ≡ self.now }
        ensures zeros { drop (length self.now) result.now ≡ replicate (N - length self.now) 0 }
        ensures whole { length result.now ≡ N }
    {
        &self.bytes
    }

    /// The first `M` bytes of the array, where the text has no more: the bytes of the text, and zeros behind them.
    #[inline(always)]
    pub(crate) fn padded_front<const M: usize>(&self) -> &[u8; M]
        requires shorter { M ≤ N }
        requires fits { length self.now ≤ M }
        ensures bytes { take (length self.now) result.now ≡ self.now }
        ensures zeros { drop (length self.now) result.now ≡ replicate (M - length self.now) 0 }
    {
        self.bytes.first_chunk().unwrap()
    }

    /// How many bytes the text has.
    pub(crate) fn len(&self) -> usize
        ensures count { result ≡ length self.now }
        ensures fits { result ≤ N }
    {
        usize::from(self.len)
    }

    pub(crate) fn as_bytes(&self) -> &[u8]
        ensures { result.now ≡ self.now }
    {
        &self.bytes[..usize::from(self.len)]
    }

    pub(crate) fn as_str(&self) -> &str
        requires { IsUtf8 self.now }
        ensures { result.now ≡ self.now }
    {
        str::from_utf8(self.as_bytes()).unwrap()
    }
}

impl<const N: usize> PartialEq for Text<N> {
    ghost eq = { pointwise nat_eq };

    ghost laws = { partial_equiv_from_equiv nat_list_eq_equiv };

    // The whole arrays at once, since what is unused is zero.
    fn eq(&self, other: &Self) -> bool {
        self.len == other.len && cmp_by_words(&self.bytes, &other.bytes).is_eq()
    }
}

impl<const N: usize> Eq for Text<N> {
    ghost laws = { nat_list_eq_equiv };
}

impl<const N: usize> PartialOrd for Text<N> {
    ghost partial_cmp = { λ s t. Some (slice_cmp nat_cmp s t) };

    ghost laws = { texts_po };

    fn partial_cmp(&self, other: &Self) -> Option<Ordering> {
        Some(self.cmp(other))
    }
}

impl<const N: usize> Ord for Text<N> {
    ghost cmp = { slice_cmp nat_cmp };

    ghost total = { nat_list_cmp_total };

    ghost matches_partial_cmp = { λ s t. refl };

    ghost matches_eq = { texts_ties };

    // The whole arrays at once, since what is unused is zero; of two that are the same the shorter text is a prefix.
    fn cmp(&self, other: &Self) -> Ordering {
        cmp_by_words(&self.bytes, &other.bytes).then(self.len.cmp(&other.len))
    }
}

impl<const N: usize> fmt::Debug for Text<N> {
    fn fmt<W: fmt::Write>(&self, f: &mut fmt::Formatter<W>) -> fmt::Result {
        match str::from_utf8(self.as_bytes()) {
            Ok(text) => fmt::Debug::fmt(text, f),
            Err(_) => fmt::Debug::fmt(self.as_bytes(), f),
        }
    }
}

/// The mask of the first `len` bytes: these are 255, and the others 0.
#[inline(always)]
pub(crate) fn front_mask<const N: usize>(len: usize) -> &'static [u8; N]
    requires fits { len ≤ N }
    requires small { N ≤ max_value_len }
    ensures { result.now ≡ replicate len 255 ++ replicate (N - len) 0 }
{
    ONES_AND_ZEROS.as_flattened()[MASK_LEN - len..]
        .first_chunk()
        .unwrap()
}

// Byte order, eight bytes at a time. The arrays' length is known where this is compiled, so that the words are compared one after
// the other.
fn cmp_by_words<const N: usize>(first: &[u8; N], second: &[u8; N]) -> Ordering
    ensures { result ≡ slice_cmp nat_cmp first.now second.now }
{
    let mut left = first.as_slice();
    let mut right = second.as_slice();
    while let (Some((word, rest)), Some((other, other_rest))) = (
        left.split_first_chunk::<8>(),
        right.split_first_chunk::<8>(),
    ) {
        let order = word_cmp(word, other);
        if order != Ordering::Equal {
            return order;
        }
        left = rest;
        right = other_rest;
    }
    // Nothing is left of arrays whose length is a multiple of eight, which is known where this is compiled.
    match (left, right) {
        ([], []) => Ordering::Equal,
        _ => left.cmp(right),
    }
}

// Byte order of eight bytes: that of the numbers of which the first byte is the highest.
fn word_cmp(left: &[u8; 8], right: &[u8; 8]) -> Ordering
    ensures { result ≡ slice_cmp nat_cmp left.now right.now }
{
    u64::from_be_bytes(*left).cmp(&u64::from_be_bytes(*right))
}

fn is_name_byte(byte: u8) -> bool
    ensures { result ≡ is_name_byte byte }
{
    matches!(byte, b'a'..=b'z' | b'0'..=b'9' | b'_' | b'.' | b'/' | b'-')
}

/// Whether each byte may stand in a key or a tag.
pub(crate) fn all_name_bytes(bytes: &[u8]) -> bool
    ensures { result ≡ list_all is_name_byte bytes.now }
{
    bytes.iter().all(|&byte| is_name_byte(byte))
}

/// Whether each byte may stand in a value.
pub(crate) fn all_visible_bytes(bytes: &[u8]) -> bool
    ensures { result ≡ list_all is_visible_byte bytes.now }
{
    let mut are_visible = true;
    for byte in bytes {
        are_visible &= matches!(*byte, b'!'..=b'~');
    }
    are_visible
}
