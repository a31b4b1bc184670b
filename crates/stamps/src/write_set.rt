//! Write sets.
ghost use Rattle.std.specs.Prelude.{◌≡◌, ◌≢◌, ◌<◌, ◌≤◌, ◌-◌, ◌↔◌, ◌++◌, ◌∷◌, [], AllPairs, IsSome, IfSome, IsTrue, Contains, length, take, drop, replicate};
ghost use Rattle.stamps.specs.Key.{IsAscending, IsTransactionKeys, sorted_keys};
ghost use Rattle.stamps.specs.Limits.{max_keys};
ghost use Rattle.stamps.specs.WriteSet.{IsWriteSet, contains_key, unused_key};

use crate::{Key, KeySource, limits};
use std::fmt;
use std::marker::Model;

/// The keys that one transaction writes: 1 to `MAX_KEYS`, none of them twice. A contract sees them in byte order.
#[derive(Clone, Copy)]
pub struct WriteSet {
    keys: [Key; WriteSet::MAX_LEN],
    len: u8,
}

impl Model for WriteSet {
    ghost use Rattle.std.specs.Prelude.{◌≡◌, ℕ, ◌-◌, ◌≤◌, ◌++◌, List, length, take, drop, replicate};
    ghost use Rattle.std.proofs.Common.{◌∙◌, ap, arith, length-take-le, sym, take-append-drop};

    ghost Value = { List (List ℕ) };

    ghost use Rattle.stamps.specs.Limits.{max_keys};
    ghost use Rattle.stamps.specs.WriteSet.{IsWriteSet, unused_key};

    ghost view = { λ w. take w.len w.keys };

    // The unused rest of the array has one key at each place, so that a set of as many keys leaves it as it is.
    ghost invariant = { λ w. IsWriteSet (take w.len w.keys) × (w.len ≤ max_keys) × (length w.keys ≡ max_keys)
        × (drop w.len w.keys ≡ replicate (max_keys - w.len) unused_key) };

    ghost inverse = { λ keys. record { keys = keys ++ replicate (max_keys - length keys) unused_key; len = length keys } };

    ghost inverse_ok = { λ w h i. record {
      keys = (ap (λ n. take w.len w.keys ++ replicate (max_keys - n) unused_key) (length-take-le w.len w.keys (omega (arith, h.1, h.2)))
          ∙ ap (λ rest. take w.len w.keys ++ rest) (sym h.3) ∙ take-append-drop w.len w.keys) i;
      len = length-take-le w.len w.keys (omega (arith, h.1, h.2)) i;
    } };
}

impl WriteSet {
    /// The most keys that a transaction writes.
    pub const MAX_LEN: usize = limits::MAX_KEYS;

    /// The write set of these keys. `None` where they are none or more than `MAX_KEYS`, or one is not below the next.
    pub fn new(keys: &[Key]) -> Option<WriteSet>
        ensures exact { IsSome result ↔ IsWriteSet keys.now }
        ensures value { IfSome result (λ writes. writes ≡ keys.now) }
    {
        if keys.is_empty() || keys.len() > WriteSet::MAX_LEN || !is_ascending(keys) {
            return None;
        }
        let mut all = [unused(); WriteSet::MAX_LEN];
        all[..keys.len()].copy_from_slice(keys);
        Some(WriteSet {
            keys: all,
            len: keys.len() as u8,
        })
    }

    /// The write set of these keys, which may stand in any order. `None` where they are none or more than `MAX_KEYS`, or one
    /// stands twice.
    pub fn of(keys: &[Key]) -> Option<WriteSet>
        ensures exact { IsSome result ↔ IsTransactionKeys keys.now }
        ensures value { IfSome result (λ writes. writes ≡ sorted_keys keys.now) }
    {
        if keys.is_empty() || keys.len() > WriteSet::MAX_LEN {
            return None;
        }
        let mut all = [unused(); WriteSet::MAX_LEN];
        let sorted = &mut all[..keys.len()];
        sorted.copy_from_slice(keys);
        sorted.sort_unstable();
        if !is_ascending(sorted) {
            return None;
        }
        Some(WriteSet {
            keys: all,
            len: keys.len() as u8,
        })
    }

    /// The write set of one key.
    #[inline(always)]
    pub fn only(key: Key) -> WriteSet
        ensures { result ≡ key ∷ [] }
    {
        let mut keys = [unused(); WriteSet::MAX_LEN];
        keys[0] = key;
        WriteSet { keys, len: 1 }
    }

    /// Makes of it the write set of one key, in place. It writes those places alone that had keys.
    #[inline(always)]
    pub fn set_only(&mut self, key: Key)
        ensures { self.new ≡ key ∷ [] }
    {
        free(&mut self.keys, 1, usize::from(self.len));
        self.keys[0] = key;
        self.len = 1;
    }

    /// Makes of it a copy of another one, in place. It writes those places alone that have keys, or had.
    #[inline(always)]
    pub fn copy_from(&mut self, other: &WriteSet)
        ensures { self.new ≡ other.now }
    {
        let len = usize::from(other.len);
        free(&mut self.keys, len, usize::from(self.len));
        self.keys[..len].copy_from_slice(&other.keys[..len]);
        self.len = other.len;
    }

    /// Adds a key behind the others, with which they are known to be a write set. It checks nothing.
    #[inline(always)]
    pub fn push_stored(&mut self, key: Key)
        requires { IsWriteSet (self.old ++ key ∷ []) }
        ensures { self.new ≡ self.old ++ key ∷ [] }
    {
        self.keys[usize::from(self.len)] = key;
        self.len += 1;
    }

    /// Makes of it, in place, the write set of the stored keys that are left, so many, which are known to be one's. It checks nothing, and
    /// writes those places alone that have keys, or had.
    #[inline(always)]
    pub fn set_from<S: KeySource>(&mut self, source: &mut S, count: usize)
        requires set { IsWriteSet (S.keys_left source.old) }
        requires count { length (S.keys_left source.old) ≡ count }
        ensures { self.new ≡ S.keys_left source.old }
    {
        free(&mut self.keys, count, usize::from(self.len));
        read_each(&mut self.keys[..count], source);
        self.len = count as u8;
    }

    /// Whether there is a write set of these keys, in any order: they are 1 to `MAX_KEYS`, and none stands twice.
    pub fn are_keys(keys: &[Key]) -> bool
        ensures { IsTrue result ↔ IsTransactionKeys keys.now }
    {
        !keys.is_empty() && keys.len() <= WriteSet::MAX_LEN && are_apart(keys)
    }

    /// The 1 to `MAX_KEYS` keys, in byte order.
    pub fn as_slice(&self) -> &[Key]
        ensures keys { result.now ≡ self.now }
        ensures valid { IsWriteSet result.now }
    {
        &self.keys[..usize::from(self.len)]
    }

    /// Whether the transaction writes this key.
    pub fn contains(&self, key: &Key) -> bool
        ensures test { result ≡ contains_key self.now key.now }
        ensures member { IsTrue result ↔ Contains self.now key.now }
    {
        is_among(self.as_slice(), key)
    }
}

impl fmt::Debug for WriteSet {
    fn fmt<W: fmt::Write>(&self, f: &mut fmt::Formatter<W>) -> fmt::Result {
        f.debug_tuple("WriteSet").field(&self.as_slice()).finish()
    }
}

/// What lies in the places that have no key of the set.
#[inline(always)]
fn unused() -> Key
    ensures { result ≡ unused_key }
{
    let text = b"-";
    Key::of_stored(text)
}

/// Has no place from one on be used, where those before `used` may be, and no others.
#[inline(always)]
fn free(keys: &mut [Key], from: usize, used: usize)
    requires within { used ≤ length keys.old }
    requires others { drop used keys.old ≡ replicate (length keys.old - used) unused_key }
    ensures kept { take from keys.new ≡ take from keys.old }
    ensures rest { drop from keys.new ≡ replicate (length keys.old - from) unused_key }
    ensures len { length keys.new ≡ length keys.old }
{
    let mut left = used;
    while left > from {
        left -= 1;
        keys[left] = unused();
    }
}

/// Writes the stored keys that are left over these, which are as many.
#[inline(always)]
fn read_each<S: KeySource>(keys: &mut [Key], source: &mut S)
    requires { length (S.keys_left source.old) ≡ length keys.old }
    ensures { keys.new ≡ S.keys_left source.old }
{
    for at in 0..keys.len() {
        source.next_into(&mut keys[at]);
    }
}

/// Whether each key is below the next.
fn is_ascending(keys: &[Key]) -> bool
    ensures { IsTrue result ↔ IsAscending keys.now }
{
    for i in 1..keys.len() {
        if keys[i - 1] >= keys[i] {
            return false;
        }
    }
    true
}

/// Whether no key stands there twice.
fn are_apart(keys: &[Key]) -> bool
    ensures { IsTrue result ↔ AllPairs (λ j k. j ≢ k) keys.now }
{
    for i in 1..keys.len() {
        if is_among(&keys[..i], &keys[i]) {
            return false;
        }
    }
    true
}

/// Whether the key stands among these.
fn is_among(keys: &[Key], key: &Key) -> bool
    ensures test { result ≡ contains_key keys.now key.now }
    ensures member { IsTrue result ↔ Contains keys.now key.now }
{
    keys.iter().any(|other| *other == *key)
}

impl PartialEq for WriteSet {
    ghost use Rattle.stamps.specs.WriteSet.{keys_eq};
    ghost use Rattle.stamps.specs.WriteSetLaws.{keys_eq-Decides};
    ghost use Rattle.stamps.specs.Equality.{partial_equivalence};

    ghost eq = { keys_eq };

    ghost laws = { partial_equivalence keys_eq-Decides };

    fn eq(&self, other: &WriteSet) -> bool
        ensures test { result ≡ keys_eq self.now other.now }
        ensures same { IsTrue result ↔ (self.now ≡ other.now) }
    {
        self.as_slice() == other.as_slice()
    }
}

impl Eq for WriteSet {
    ghost use Rattle.stamps.specs.WriteSetLaws.{keys_eq-Decides};
    ghost use Rattle.stamps.specs.Equality.{equivalence};

    ghost laws = { equivalence keys_eq-Decides };
}
