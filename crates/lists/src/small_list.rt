//! The list.
ghost use Rattle.std.specs.Prelude.{◌≡◌, ◌+◌, ◌<◌, ◌≤◌, [], ◌∷◌, ◌++◌, length, slice_set, take};
ghost use Rattle.std.specs.Fn.{FnOnceReturnsAtMut};

use std::fmt;
use std::marker::Model;

/// A list of up to `N` elements, which lie in the list itself. Contracts see the list.
#[derive(Drop)]
pub struct SmallList<T, const N: usize> {
    items: [T; N],
    len: usize,
}

impl<T, const N: usize> Model for SmallList<T, N> {
    ghost use Rattle.std.specs.Prelude.{◌≡◌, ◌≤◌, List, length, take};

    ghost Value = { List T };

    ghost view = { λ l. take l.len l.items };

    ghost invariant = { λ l. (l.len ≤ N) × (length l.items ≡ N) };
}

impl<T, const N: usize> SmallList<T, N> {
    /// No elements. The filler lies in the unused places, where nobody sees it.
    pub fn empty(filler: T) -> SmallList<T, N>
    where
        T: Copy,
        ensures { result ≡ [] }
    {
        SmallList {
            items: [filler; N],
            len: 0,
        }
    }

    /// The elements in order.
    pub fn as_slice(&self) -> &[T]
        ensures value { result.now ≡ self.now }
        ensures few { length result.now ≤ N }
    {
        &self.items[..self.len]
    }

    /// Lends the elements in order to the closure, which may write over them in place, and hands on what it returns.
    pub fn change<R, F: FnOnce(&mut [T]) -> R>(&mut self, f: F) -> R
        requires { F.IsAlwaysCallable f }
        ensures changed { FnOnceReturnsAtMut F.FnOnce f self.old result self.new }
        ensures len { length self.new ≡ length self.old }
    {
        f(&mut self.items[..self.len])
    }

    /// Writes over the element at an index.
    pub fn set(&mut self, index: usize, value: T)
    where
        T: Drop,
        requires { index < length self.old }
        ensures { self.new ≡ slice_set self.old index value }
    {
        self.items[..self.len][index] = value;
    }

    /// Puts an element at the end, for which there is room.
    pub fn push(&mut self, value: T)
    where
        T: Drop,
        requires { length self.old < N }
        ensures { self.new ≡ self.old ++ value ∷ [] }
    {
        self.items[self.len] = value;
        self.len += 1;
    }

    /// Puts copies of these elements at the end, for which there is room.
    pub fn extend_from_slice(&mut self, values: &[T])
    where
        T: Copy,
        requires { length self.old + length values.now ≤ N }
        ensures { self.new ≡ self.old ++ values.now }
    {
        for value in values {
            self.push(*value);
        }
    }

    /// Keeps the first so many elements, and takes the others out.
    pub fn truncate(&mut self, count: usize)
        ensures { self.new ≡ take count self.old }
    {
        self.len = self.len.min(count);
    }

    /// Takes all elements out.
    pub fn clear(&mut self)
        ensures { self.new ≡ [] }
    {
        self.len = 0;
    }
}

impl<T: fmt::Debug, const N: usize> fmt::Debug for SmallList<T, N> {
    fn fmt<W: fmt::Write>(&self, f: &mut fmt::Formatter<W>) -> fmt::Result {
        f.debug_list().entries(self.as_slice()).finish()
    }
}
