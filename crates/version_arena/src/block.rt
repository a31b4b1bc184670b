// One block of memory, with the allocator that it goes back to.
ghost use Rattle.std.specs.Prelude.{◌≡◌, ◌<◌, Some, None, length, replicate, get_or, slice_set, IfOk};
ghost use Rattle.std.specs.Borrow.{sem};
ghost use Rattle.version_arena.specs.RawCells.{IsFilled};

use crate::raw_cells::RawCells;
use std::alloc::{AllocError, Global};
use std::marker::Model;
use std_alloc::room::may_hold;

/// One block of places, each empty or holding a value.
pub(crate) struct RawBlock<C> {
    places: RawCells<C, Global>,
    len: usize,
    alloc: Global,
}

impl<C> Model for RawBlock<C> {
    ghost use Rattle.std.specs.Prelude.{List, Option};

    ghost Value = { List (Option C) };

    ghost use Rattle.version_arena.specs.Block.{IsBlock};

    ghost view = { λ b. b.places.held };

    ghost invariant = { λ b. IsBlock b.places b.len b.alloc };
}

impl<C> RawBlock<C> {
    ghost use Rattle.version_arena.specs.BlockLends.{lends_place};

    /// A block of empty places.
    pub(crate) fn reserve(alloc: Global, len: usize) -> Result<RawBlock<C>, AllocError>
        ensures { IfOk result (λ block. block ≡ replicate len None) }
    {
        if !may_hold::<C>(len) {
            return Err(AllocError);
        }
        let places = RawCells::allocate(&alloc, len)?;
        Ok(RawBlock { places, len, alloc })
    }

    /// Gives the block back to its allocator.
    pub(crate) fn free(self)
        requires { self ≡ replicate (length self) None }
    {
        let RawBlock { places, len, alloc } = self;
        places.deallocate(&alloc, len);
    }

    /// Gives the block back to its allocator. What its places hold is not dropped.
    pub(crate) fn release(self) {
        let RawBlock {
            mut places,
            len,
            alloc,
        } = self;
        places.forget_all();
        places.deallocate(&alloc, len);
    }

    pub(crate) fn len(&self) -> usize
        ensures { result ≡ length self.now }
    {
        self.len
    }

    /// Puts a value into an empty place.
    pub(crate) fn put(&mut self, index: usize, value: C)
        requires { (index < length self.old) × (get_or self.old index None ≡ None) }
        ensures { self.new ≡ slice_set self.old index (Some value) }
    {
        self.places.write(index, value);
    }

    /// Puts a value into a place. What the place held is not dropped.
    pub(crate) fn overwrite(&mut self, index: usize, value: C)
        requires { index < length self.old }
        ensures { self.new ≡ slice_set self.old index (Some value) }
    {
        self.places.forget(index);
        self.places.write(index, value);
    }

    /// Takes a value out of its place.
    pub(crate) fn take(&mut self, index: usize) -> C
        requires { IsFilled self.old index }
        ensures value { get_or self.old index None ≡ Some result }
        ensures emptied { self.new ≡ slice_set self.old index None }
    {
        self.places.read(index)
    }

    /// The value in a place.
    pub(crate) fn get(&self, index: usize) -> &C
        requires { IsFilled self.now index }
        ensures { get_or self.now index None ≡ Some result.now }
    {
        self.places.get(index)
    }

    /// The value in a place, for writing.
    pub(crate) fn get_mut(&mut self, index: usize) -> &mut C
        requires { IsFilled self.old index }
        ensures* writes_back { sem 𝓛 (lends_place C.row self.entry index result) }
        ensures value { get_or self.old index None ≡ Some result.now }
    {
        self.places.get_mut(index)
    }
}
