//! Keys.
ghost use Rattle.std.specs.Prelude.{◌≡◌, ℕ, ◌↔◌, ◌-◌, ◌%◌, ◌^◌, bit_and, IsSome, IfSome, ◌<◌, ◌≤◌, length, take, drop, replicate};
ghost use Rattle.stamps.specs.Bounds.{IsParts};
ghost use Rattle.stamps.specs.Key.{IsKey, home_of};
ghost use Rattle.stamps.specs.Limits.{max_key_len};

use crate::limits;
use crate::text::{self, Text};
use std::fmt;
use std::marker::Model;
use std::simd::u8x32;

/// The name of an item: 1 to `MAX_KEY_LEN` bytes of `a-z 0-9 _ . / -`. Keys compare by byte order. A contract sees a key as its
/// bytes.
#[derive(Clone, Copy, Debug, PartialEq, Eq, PartialOrd, Ord)]
pub struct Key {
    text: Text<{ Key::MAX_LEN }>,
}

impl Model for Key {
    ghost use Rattle.std.specs.Prelude.{ℕ, List};

    ghost Value = { List ℕ };

    ghost use Rattle.stamps.specs.Key.{IsKey};

    ghost view = { λ k. k.text };

    ghost invariant = { λ k. IsKey k.text };

    ghost inverse = { λ bytes. record { text = bytes } };
}

impl Key {
    /// The most bytes that a key has.
    pub const MAX_LEN: usize = limits::MAX_KEY_LEN;

    /// The key of these bytes. `None` where they are none or more than `MAX_KEY_LEN`, or one is not of `a-z 0-9 _ . / -`.
    pub fn read(bytes: &[u8]) -> Option<Key>
        ensures exact { IsSome result ↔ IsKey bytes.now }
        ensures value { IfSome result (λ key. key ≡ bytes.now) }
    {
        if bytes.is_empty() || bytes.len() > Key::MAX_LEN || !text::all_name_bytes(bytes) {
            return None;
        }
        Some(Key {
            text: Text::new(bytes),
        })
    }

    /// The key of these bytes, which are known to be one's. It checks none of them.
    #[inline(always)]
    pub fn of_stored(bytes: &[u8]) -> Key
        requires { IsKey bytes.now }
        ensures { result ≡ bytes.now }
    {
        Key {
            text: Text::new(bytes),
        }
    }

    /// The key of the first `len` bytes of an array, which are known to be one's. It checks none of them. Other bytes may stand behind
    /// them.
    #[inline(always)]
    pub fn of_front(front: &[u8; Key::MAX_LEN], len: usize) -> Key
        requires valid { IsKey (take len front.now) }
        requires fits { len ≤ max_key_len }
        ensures { result ≡ take len front.now }
    {
        // Whole vectors are copied, and the bytes behind the key made zeros.
        let kept = u8x32::from_array(*front) & u8x32::from_array(*text::front_mask(len));
        Key {
            text: Text::of_padded(kept.to_array(), len),
        }
    }

    /// Its bytes, and zeros behind them: `MAX_KEY_LEN` bytes in all.
    pub fn padded(&self) -> &[u8; Key::MAX_LEN]
        ensures bytes { take (length self.now) result.now ≡ self.now }
        ensures zeros { drop (length self.now) result.now
            ≡ replicate (max_key_len - length self.now) 0 }
        ensures fits { length result.now ≤ max_key_len }
    {
        self.text.padded()
    }

    /// How many bytes it has, of the `MAX_KEY_LEN` at most.
    pub fn len(&self) -> usize
        ensures count { result ≡ length self.now }
        ensures fits { result ≤ max_key_len }
        ensures valid { IsKey self.now }
    {
        self.text.len()
    }

    /// The 1 to `MAX_KEY_LEN` bytes, as they are printed.
    pub fn as_bytes(&self) -> &[u8]
        ensures bytes { result.now ≡ self.now }
        ensures valid { IsKey result.now }
    {
        self.text.as_bytes()
    }
}

impl fmt::Display for Key {
    ghost use Rattle.std.specs.Prelude.{Some};

    ghost output = { λ key. Some key };

    fn fmt<W: fmt::Write>(&self, f: &mut fmt::Formatter<W>) -> fmt::Result {
        fmt::Display::fmt(self.text.as_str(), f)
    }
}

/// The partition at which a key is at home, from 0: the sum of its bytes, modulo `parts`, the number of partitions,
/// which is 1 to `MAX_PARTS`.
pub fn home(key: &Key, parts: u32) -> u32
    requires { IsParts parts }
    ensures partition { result ≡ home_of key.now parts }
    ensures in_range { result < parts }
{
    // All bytes of the array, whose number is known where this is compiled: those behind the key are zero. The sum is used once, so that
    // vectors are added.
    let rest = rest_mask(parts)
        & key
            .padded()
            .iter()
            .map(|&byte| u32::from(byte))
            .sum::<u32>();
    if rest < parts { rest } else { rest % parts }
}

/// The bits of a sum on which its rest by the number of partitions depends: for the usual numbers the lowest few, which are the rest, so that
/// nothing is divided. A division takes longer than the sum.
#[inline(always)]
fn rest_mask(parts: u32) -> u32
    ensures { (sum : ℕ) → sum < 2 ^ 32 → bit_and result sum % parts ≡ sum % parts }
{
    match parts {
        2 => 1,
        4 => 3,
        8 => 7,
        16 => 15,
        _ => u32::MAX,
    }
}
