//! Values.
ghost use Rattle.std.specs.Prelude.{◌≡◌, ◌↔◌, IsSome, IfSome, ◌≤◌, ◌-◌, [], length, take, drop, replicate};
ghost use Rattle.stamps.specs.Limits.{max_value_len};
ghost use Rattle.stamps.specs.Value.{IsValue, short_value_len};

use crate::limits;
use crate::text::{self, Text};
use std::fmt;
use std::marker::Model;
use std::simd::{u8x32, u8x64};

/// What an item holds: 0 to 128 visible ASCII bytes, from `!` (0x21) to `~` (0x7E). A contract sees a value as its
/// bytes.
#[derive(Clone, Copy, Debug, PartialEq, Eq, PartialOrd, Ord)]
pub struct Value {
    text: Text<{ Value::MAX_LEN }>,
}

impl Model for Value {
    ghost use Rattle.std.specs.Prelude.{ℕ, List};

    ghost Value = { List ℕ };

    ghost use Rattle.stamps.specs.Value.{IsValue};

    ghost view = { λ v. v.text };

    ghost invariant = { λ v. IsValue v.text };

    ghost inverse = { λ bytes. record { text = bytes } };
}

impl Value {
    /// The most bytes that a value has.
    pub const MAX_LEN: usize = limits::MAX_VALUE_LEN;

    /// How many bytes a short value has at most. Short ones are written over one another without what is behind so many bytes.
    pub const SHORT_LEN: usize = 32;

    /// The value of these bytes. `None` where they are more than 128, or one is not from `!` to `~`.
    pub fn read(bytes: &[u8]) -> Option<Value>
        ensures exact { IsSome result ↔ IsValue bytes.now }
        ensures value { IfSome result (λ value. value ≡ bytes.now) }
    {
        if bytes.len() > Value::MAX_LEN || !text::all_visible_bytes(bytes) {
            return None;
        }
        Some(Value {
            text: Text::new(bytes),
        })
    }

    /// The value of these bytes, which are known to be one's. It checks none of them.
    #[inline(always)]
    pub fn of_stored(bytes: &[u8]) -> Value
        requires { IsValue bytes.now }
        ensures { result ≡ bytes.now }
    {
        Value {
            text: Text::new(bytes),
        }
    }

    /// The value of the first `len` bytes of an array, which are known to be one's. It checks none of them. Other bytes may stand behind
    /// them.
    #[inline(always)]
    pub fn of_front(front: &[u8; Value::MAX_LEN], len: usize) -> Value
        requires valid { IsValue (take len front.now) }
        requires fits { len ≤ max_value_len }
        ensures { result ≡ take len front.now }
    {
        Value {
            text: Text::of_padded(kept_front(front, len), len),
        }
    }

    /// Makes of it, in place, the value of the first `len` bytes of a short array, which are known to be one's. It checks none of them.
    /// Other bytes may stand behind them. Over a short value it writes no more bytes than these.
    #[inline(always)]
    pub fn set_short(&mut self, front: &[u8; Value::SHORT_LEN], len: usize)
        requires valid { IsValue (take len front.now) }
        requires fits { len ≤ short_value_len }
        ensures { self.new ≡ take len front.now }
    {
        if self.text.len() > Value::SHORT_LEN {
            self.clear();
        }
        self.text.set_padded(&short_front(front, len), len);
    }

    /// Makes of it the value without a byte.
    #[cold]
    #[inline(never)]
    fn clear(&mut self)
        ensures { self.new ≡ [] }
    {
        let nothing = b"";
        self.text = Text::new(nothing);
    }

    /// Makes of it a copy of another one, in place. Of two short ones it writes the first bytes alone.
    #[inline(always)]
    pub fn copy_from(&mut self, other: &Value)
        ensures { self.new ≡ other.now }
    {
        let len = other.text.len();
        if len <= Value::SHORT_LEN && self.text.len() <= Value::SHORT_LEN {
            // A copy, since bytes that may be the same are copied one by one.
            let front: [u8; Value::SHORT_LEN] = *other.text.padded_front();
            self.text.set_padded(&front, len);
        } else {
            self.text = other.text;
        }
    }

    /// Its bytes, and zeros behind them: 128 bytes in all.
    pub fn padded(&self) -> &[u8; Value::MAX_LEN]
        ensures bytes { take (length self.now) result.now ≡ self.now }
    {
        self.text.padded()
    }

    /// The bytes of a short value, and zeros behind them: `SHORT_LEN` bytes in all.
    pub fn padded_short(&self) -> &[u8; Value::SHORT_LEN]
        requires { length self.now ≤ short_value_len }
        ensures { take (length self.now) result.now ≡ self.now }
    {
        self.text.padded_front()
    }

    /// How many bytes it has, of the 128 at most.
    pub fn len(&self) -> usize
        ensures count { result ≡ length self.now }
        ensures fits { result ≤ max_value_len }
        ensures valid { IsValue self.now }
    {
        self.text.len()
    }

    /// The 0 to 128 bytes, as they are printed.
    pub fn as_bytes(&self) -> &[u8]
        ensures bytes { result.now ≡ self.now }
        ensures valid { IsValue result.now }
    {
        self.text.as_bytes()
    }
}

impl fmt::Display for Value {
    ghost use Rattle.std.specs.Prelude.{Some};

    ghost output = { λ value. Some value };

    fn fmt<W: fmt::Write>(&self, f: &mut fmt::Formatter<W>) -> fmt::Result {
        fmt::Display::fmt(self.text.as_str(), f)
    }
}

/// The first `len` bytes of a short array, and zeros behind them.
#[inline(always)]
fn short_front(front: &[u8; Value::SHORT_LEN], len: usize) -> [u8; Value::SHORT_LEN]
    requires fits { len ≤ short_value_len }
    ensures bytes { take len result ≡ take len front.now }
    ensures zeros { drop len result ≡ replicate (short_value_len - len) 0 }
{
    let kept = u8x32::from_array(*front) & u8x32::from_array(*text::front_mask(len));
    kept.to_array()
}

/// The first `len` bytes of an array, and zeros behind them. Whole vectors are copied, half of the bytes in each.
#[inline(always)]
fn kept_front(front: &[u8; Value::MAX_LEN], len: usize) -> [u8; Value::MAX_LEN]
    requires fits { len ≤ max_value_len }
    ensures bytes { take len result ≡ take len front.now }
    ensures zeros { drop len result ≡ replicate (max_value_len - len) 0 }
{
    let mask: &[u8; Value::MAX_LEN] = text::front_mask(len);
    let low = u8x64::from_slice(front) & u8x64::from_slice(mask);
    let high = u8x64::from_slice(&front[u8x64::LEN..]) & u8x64::from_slice(&mask[u8x64::LEN..]);
    let halves = [low.to_array(), high.to_array()];
    *halves.as_flattened().first_chunk().unwrap()
}
