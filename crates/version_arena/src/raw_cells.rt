// The memory of a block. The raw pointer is read, written and followed in this file alone.
ghost use Rattle.std.specs.Prelude.{◌≡◌, ◌<◌, List, Option, Some, None, length, replicate, get_or, slice_set, IfOk};
ghost use Rattle.std.specs.Borrow.{sem};
ghost use Rattle.std.specs.Coded.{coded_list, coded_option};
ghost use Rattle.std_alloc.specs.Vec.Ownership.{FitsInBlock};
ghost use Rattle.version_arena.specs.Ownership.{block_at, block_lent};
ghost use Rattle.version_arena.specs.RawCells.{IsFilled};

use std::alloc::{AllocError, Allocator};
use std::marker::{Model, PhantomData, Send};
use std::mem::{align_of, size_of};

/// A block of memory as a row of places, each empty or holding a value.
/// It takes the bytes of its pointer alone. Clauses see what the places hold, and whose block it is.
pub(crate) struct RawCells<C, A: Allocator> {
    at: *mut C,
    by: PhantomData<A>,
    pub(crate) ghost held: { List (Option C) } by { coded_list (coded_option C.code) },
    pub(crate) ghost alloc: { A },
}

impl<C, A: Allocator> Model for RawCells<C, A> {
    ghost also_owns = { λ p. block_at (A.dealloc_token p.alloc) C.row p.at p.held };

    ghost also_shares = { λ p _ κ. block_lent C.row p.at p.held κ };
}

unsafe impl<C: Send, A: Allocator + Send> Send for RawCells<C, A> {}

impl<C, A: Allocator> RawCells<C, A> {
    ghost use Rattle.version_arena.specs.RawCellsLends.{lends_value};

    /// Asks the allocator for a block of empty places.
    pub(crate) fn allocate(alloc: &A, len: usize) -> Result<RawCells<C, A>, AllocError>
        requires { FitsInBlock C.row len }
        ensures { IfOk result (λ places. (places.held ≡ replicate len None)
            × (places.alloc ≡ alloc.now)) }
    {
        match alloc.allocate(len * size_of::<C>(), align_of::<C>()) {
            Ok(block) => Ok(RawCells {
                at: block as *mut C,
                by: PhantomData,
            }),
            Err(refused) => Err(refused),
        }
    }

    /// Gives a block of `len` empty places back to its allocator.
    pub(crate) fn deallocate(self, alloc: &A, len: usize)
        requires empty { self.held ≡ replicate len None }
        requires same_allocator { self.alloc ≡ alloc.now }
    {
        let RawCells { at, by: _ } = self;
        unsafe {
            alloc.deallocate(at as *mut u8, len * size_of::<C>(), align_of::<C>());
        }
    }

    /// Takes a value out of its place.
    pub(crate) fn read(&mut self, index: usize) -> C
        requires { IsFilled self.old.held index }
        ensures value { get_or self.old.held index None ≡ Some result }
        ensures emptied { self.new.held ≡ slice_set self.old.held index None }
        ensures same_allocator { self.new.alloc ≡ self.old.alloc }
    {
        unsafe { self.at.add(index).read() }
    }

    /// Puts a value into an empty place.
    pub(crate) fn write(&mut self, index: usize, value: C)
        requires { (index < length self.old.held) × (get_or self.old.held index None ≡ None) }
        ensures filled { self.new.held ≡ slice_set self.old.held index (Some value) }
        ensures same_allocator { self.new.alloc ≡ self.old.alloc }
    {
        unsafe { self.at.add(index).write(value) }
    }

    /// Forgets what a place holds, which is not dropped. There is no code for it.
    pub(crate) fn forget(&mut self, index: usize)
        requires { index < length self.old.held }
        ensures emptied { self.new.held ≡ slice_set self.old.held index None }
        ensures same_allocator { self.new.alloc ≡ self.old.alloc }
    {}

    /// Forgets what the places hold, of which nothing is dropped. There is no code for it.
    pub(crate) fn forget_all(&mut self)
        ensures emptied { self.new.held ≡ replicate (length self.old.held) None }
        ensures same_allocator { self.new.alloc ≡ self.old.alloc }
    {}

    /// The value in a place.
    pub(crate) fn get(&self, index: usize) -> &C
        requires { IsFilled self.now.held index }
        ensures { get_or self.now.held index None ≡ Some result.now }
    {
        unsafe { &*self.at.add(index) }
    }

    /// The value in a place, for writing.
    pub(crate) fn get_mut(&mut self, index: usize) -> &mut C
        requires { IsFilled self.old.held index }
        ensures* writes_back { sem 𝓛 (lends_value C.row A.row A.Allocator self.entry index result) }
        ensures value { get_or self.old.held index None ≡ Some result.now }
    {
        unsafe { &mut *self.at.add(index) }
    }
}
