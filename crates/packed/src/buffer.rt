//! Bytes that are put one behind the other.
ghost use Rattle.std.specs.Prelude.{◌≡◌, ◌+◌, ◌-◌, ◌<◌, ◌≤◌, ◌∷◌, [], length, take, OnOk, vec_len, vec_capacity};

use crate::laying::{lay, lay_text};
use std::alloc::{AllocError, Global};
use std::marker::Model;

/// How many more bytes than are asked for hold something then, where there is room for them.
const AHEAD: usize = 1024;

/// Bytes that are put one behind the other. Contracts see them, and how many there may be before memory is asked for.
///
/// What lies behind them holds bytes as well, which nobody sees. So a short text is put by a copy of its whole array: its length is known
/// where that is compiled.
#[derive(Drop)]
pub struct Buffer {
    pub(crate) bytes: Vec<u8>,
    pub(crate) len: usize,
}

impl Model for Buffer {
    ghost use Rattle.std.specs.Prelude.{◌≤◌, take, vec_len, vec_capacity};
    ghost use Rattle.packed.specs.Laying.{Laid};

    ghost Value = { Laid };

    ghost view = { λ b. record { items = take b.len b.bytes.items; capacity = vec_capacity b.bytes } };

    ghost invariant = { λ b. b.len ≤ vec_len b.bytes };
}

impl Buffer {
    ghost use Rattle.packed.specs.Laying.{Grows};

    /// No bytes. It takes no memory.
    pub fn new(alloc: Global) -> Buffer
        ensures { result.items ≡ [] }
    {
        Buffer {
            bytes: Vec::new(alloc),
            len: 0,
        }
    }

    /// The allocator with which it was made.
    pub fn alloc(&self) -> Global {
        *self.bytes.allocator()
    }

    /// The number of bytes.
    pub fn len(&self) -> usize
        ensures count { result ≡ length self.now.items }
        ensures within { length self.now.items ≤ self.now.capacity }
    {
        self.len
    }

    /// How many more bytes there may be before memory is asked for.
    pub fn room(&self) -> usize
        ensures { result ≡ self.now.capacity - length self.now.items }
    {
        self.bytes.capacity() - self.len
    }

    /// The bytes in order.
    pub fn as_slice(&self) -> &[u8]
        ensures value { result.now ≡ self.now.items }
        ensures len { length result.now ≡ length self.now.items }
    {
        &self.bytes[..self.len]
    }

    /// Forgets the bytes, and keeps their memory.
    pub fn clear(&mut self)
        ensures items { self.new.items ≡ [] }
        ensures len { length self.new.items ≡ 0 }
        ensures capacity { self.new.capacity ≡ self.old.capacity }
    {
        self.len = 0;
    }

    /// Makes room for so many more bytes. The bytes stay as they are.
    pub fn reserve(&mut self, count: usize) -> Result<(), AllocError>
        ensures items { self.new.items ≡ self.old.items }
        ensures ok { OnOk result (length self.new.items + count ≤ self.new.capacity) }
        ensures capacity { self.old.capacity ≤ self.new.capacity }
    {
        let open = self.bytes.len() - self.len;
        if open < count {
            self.bytes.reserve(count - open)?;
        }
        Ok(())
    }

    /// Puts a byte at the end, for which there is room.
    #[inline(always)]
    pub fn push_reserved(&mut self, byte: u8)
        requires { length self.old.items < self.old.capacity }
        ensures { Grows (byte ∷ []) 1 self.old self.new }
    {
        self.put_front(&[byte], 1);
    }

    /// Puts the first `len` bytes of an array at the end. There is room for all of them.
    #[inline(always)]
    pub fn put_front<const N: usize>(&mut self, all: &[u8; N], len: usize)
        requires fits { len ≤ N }
        requires room { length self.old.items + N ≤ self.old.capacity }
        ensures { Grows (take len all.now) len self.old self.new }
    {
        open(&mut self.bytes, self.len, N);
        lay(self.bytes.as_mut_slice(), self.len, all);
        self.len += len;
    }

    /// Puts the first `len` bytes of an array at the end, behind their number. There is room for all of them.
    #[inline(always)]
    pub fn put_text<const N: usize>(&mut self, all: &[u8; N], len: usize)
        requires fits { len ≤ N }
        requires short { N < 256 }
        requires room { length self.old.items + 1 + N ≤ self.old.capacity }
        ensures { Grows (len ∷ take len all.now) (1 + len) self.old self.new }
    {
        open(&mut self.bytes, self.len, N + 1);
        self.len = lay_text(self.bytes.as_mut_slice(), self.len, all, len);
    }

    /// Puts these bytes at the end, for which there is room.
    pub fn put_slice(&mut self, bytes: &[u8])
        requires { length self.old.items + length bytes.now ≤ self.old.capacity }
        ensures { Grows bytes.now (length bytes.now) self.old self.new }
    {
        open(&mut self.bytes, self.len, bytes.len());
        lay(self.bytes.as_mut_slice(), self.len, bytes);
        self.len += bytes.len();
    }
}

/// Has so many places behind the first `len` hold something, for which there is room.
#[inline(always)]
pub(crate) fn open(bytes: &mut Vec<u8>, len: usize, count: usize)
    requires within { len ≤ vec_len bytes.old }
    requires room { len + count ≤ vec_capacity bytes.old }
    ensures items { take len bytes.new.items ≡ take len bytes.old.items }
    ensures open { len + count ≤ vec_len bytes.new }
    ensures room { vec_capacity bytes.old ≤ vec_capacity bytes.new }
{
    if bytes.len() - len < count {
        lengthen(bytes, len + count);
    }
}

/// Has at least so many places hold something, for which there is room.
#[cold]
#[inline(never)]
fn lengthen(bytes: &mut Vec<u8>, least: usize)
    requires longer { vec_len bytes.old ≤ least }
    requires room { least ≤ vec_capacity bytes.old }
    ensures items { take (vec_len bytes.old) bytes.new.items ≡ bytes.old.items }
    ensures long { least ≤ vec_len bytes.new }
    ensures room { vec_capacity bytes.old ≤ vec_capacity bytes.new }
{
    let len = bytes.capacity().min(least + AHEAD);
    // It fails only where room is missing.
    let _ = bytes.resize(len, 0);
}
