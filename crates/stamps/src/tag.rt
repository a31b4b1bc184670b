//! Tags.
ghost use Rattle.std.specs.Prelude.{◌≡◌, ◌↔◌, IsSome, IfSome, ◌≤◌, length, take};
ghost use Rattle.stamps.specs.Limits.{max_tag_len};
ghost use Rattle.stamps.specs.Tag.{IsTag};

use crate::limits;
use crate::text::{self, Text};
use std::fmt;
use std::marker::Model;
use std::simd::u8x16;

/// A mark by which items are found: 0 to `MAX_TAG_LEN` bytes of `a-z 0-9 _ . / -`. The empty tag marks nothing. A contract sees a
/// tag as its bytes.
#[derive(Clone, Copy, Debug, PartialEq, Eq, PartialOrd, Ord)]
pub struct Tag {
    text: Text<{ Tag::MAX_LEN }>,
}

impl Model for Tag {
    ghost use Rattle.std.specs.Prelude.{ℕ, List};

    ghost Value = { List ℕ };

    ghost use Rattle.stamps.specs.Tag.{IsTag};

    ghost view = { λ t. t.text };

    ghost invariant = { λ t. IsTag t.text };

    ghost inverse = { λ bytes. record { text = bytes } };
}

impl Tag {
    /// The most bytes that a tag has.
    pub const MAX_LEN: usize = limits::MAX_TAG_LEN;

    /// The tag of these bytes. `None` where they are more than `MAX_TAG_LEN`, or one is not of `a-z 0-9 _ . / -`.
    pub fn read(bytes: &[u8]) -> Option<Tag>
        ensures exact { IsSome result ↔ IsTag bytes.now }
        ensures value { IfSome result (λ tag. tag ≡ bytes.now) }
    {
        if bytes.len() > Tag::MAX_LEN || !text::all_name_bytes(bytes) {
            return None;
        }
        Some(Tag {
            text: Text::new(bytes),
        })
    }

    /// The tag of these bytes, which are known to be one's. It checks none of them.
    #[inline(always)]
    pub fn of_stored(bytes: &[u8]) -> Tag
        requires { IsTag bytes.now }
        ensures { result ≡ bytes.now }
    {
        Tag {
            text: Text::new(bytes),
        }
    }

    /// The tag of the first `len` bytes of an array, which are known to be one's. It checks none of them. Other bytes may stand behind
    /// them.
    #[inline(always)]
    pub fn of_front(front: &[u8; Tag::MAX_LEN], len: usize) -> Tag
        requires valid { IsTag (take len front.now) }
        requires fits { len ≤ max_tag_len }
        ensures { result ≡ take len front.now }
    {
        // Whole vectors are copied, and the bytes behind the tag made zeros.
        let kept = u8x16::from_array(*front) & u8x16::from_array(*text::front_mask(len));
        Tag {
            text: Text::of_padded(kept.to_array(), len),
        }
    }

    /// Its bytes, and zeros behind them: `MAX_TAG_LEN` bytes in all.
    pub fn padded(&self) -> &[u8; Tag::MAX_LEN]
        ensures bytes { take (length self.now) result.now ≡ self.now }
    {
        self.text.padded()
    }

    /// How many bytes it has, of the `MAX_TAG_LEN` at most.
    pub fn len(&self) -> usize
        ensures count { result ≡ length self.now }
        ensures fits { result ≤ max_tag_len }
        ensures valid { IsTag self.now }
    {
        self.text.len()
    }

    /// The 0 to `MAX_TAG_LEN` bytes, as they are printed.
    pub fn as_bytes(&self) -> &[u8]
        ensures bytes { result.now ≡ self.now }
        ensures valid { IsTag result.now }
    {
        self.text.as_bytes()
    }
}

impl fmt::Display for Tag {
    ghost use Rattle.std.specs.Prelude.{Some};

    ghost output = { λ tag. Some tag };

    fn fmt<W: fmt::Write>(&self, f: &mut fmt::Formatter<W>) -> fmt::Result {
        fmt::Display::fmt(self.text.as_str(), f)
    }
}
