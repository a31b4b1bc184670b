// An arena, whose freed cells are linked through the list of the cells' states.
ghost use Rattle.std.specs.Prelude.{◌≡◌, ◌<◌, ◌≤◌, ◌↔◌, length, replicate, nat_lt, Some, None, IsSome, IsNone, IsTrue, IsOk, IfOk, IfErr, OnErr, slice_set, if◌then◌else◌};
ghost use Rattle.std.specs.Borrow.{sem};
ghost use Rattle.version_arena.specs.Arena.{entry, IsLive, live_count, next_beside, with_next};

use crate::block::RawBlock;
use crate::cell_state::CellState;
use crate::slot::{Slot, slot_within};
use std::alloc::{AllocError, Global};
use std::marker::Model;

/// Values in the cells of one block of memory, each beside the slot of another value or of none.
///
/// A clause sees a list with an entry for each slot, from 0 on: a value and the slot beside it, or nothing.
///
/// The block is allocated once, by [`Arena::with_cells`], and freed once, at the end of the arena, and so is the list of the
/// cells' states. A cell's bytes are first written when the first value comes into it; where that value was taken, nothing is
/// written there, and the cell's state names the cell that was freed before it. So each call takes constant time, also
/// `with_cells`, and no other call allocates; the end of the arena takes time for each cell that was ever used. An arena may go to
/// another thread where its values may.
///
/// No clause can see a drop: that each live value is dropped once rests on the clauses of the raw layer (a place freed
/// is empty, a place written was empty) and on the test that counts drops.
pub struct Arena<T> {
    // The values of the live cells. The places of the others are empty.
    values: RawBlock<T>,
    // Of each cell that was ever used, of which there are these first ones: what it is, and the slot beside it.
    states: Vec<CellState>,
    live: u32,
    // The cell that was freed last, of those that are free again.
    free: Option<Slot>,
}

impl<T> Model for Arena<T> {
    ghost use Rattle.std.specs.Prelude.{◌≤◌, ℕ, List, Option, map, length, vec_capacity};

    ghost Value = { List (Option (T × Option ℕ)) };

    ghost use Rattle.version_arena.specs.Cells.{held_in, places, IsThreaded};

    ghost view = { λ a. map held_in (places a.values a.states.items) };

    ghost invariant = { λ a. IsThreaded (places a.values a.states.items) (length a.states.items) a.live a.free × (length a.values ≤ vec_capacity a.states) };
}

impl<T> Arena<T> {
    ghost use Rattle.version_arena.specs.Lends.{lends_value};

    /// An arena of `cap` free cells, 1 to 4,194,304. It touches none of them.
    ///
    /// An `AllocError` says that the allocator refused the block or the list, or, before it was asked, that the block would pass
    /// 2^63 bytes. Nothing is then held.
    pub fn with_cells(alloc: Global, cap: u32) -> Result<Arena<T>, AllocError>
        requires { (1 ≤ cap) × (cap ≤ 4194304) }
        ensures { IfOk result (λ arena. arena ≡ replicate cap None) }
    {
        let states = Vec::with_capacity(alloc, cap as usize)?;
        let values = RawBlock::reserve(alloc, cap as usize)?;
        Ok(Arena {
            values,
            states,
            live: 0,
            free: None,
        })
    }

    /// How many cells there are, live or free.
    pub fn cap(&self) -> u32
        ensures { result ≡ length self.now }
    {
        self.values.len() as u32
    }

    /// How many cells hold a value.
    pub fn live(&self) -> u32
        ensures { result ≡ live_count self.now }
    {
        self.live
    }

    /// Whether the cell of this slot holds a value. It is false of a slot that this arena does not have.
    pub fn is_live(&self, slot: Slot) -> bool
        ensures { IsTrue result ↔ IsLive self.now slot }
    {
        match self.states.get(slot.index()) {
            Some(state) => state.is_live(),
            None => false,
        }
    }

    /// Puts a value into a free cell, beside the slot `next`, and answers the cell's slot.
    ///
    /// Where all cells are live it hands the value back as an `Err`, and the arena stays as it was.
    #[inline(always)]
    pub fn put(&mut self, value: T, next: Option<Slot>) -> Result<Slot, T>
        // The cell was free, and no other changes.
        ensures was_free { IfOk result (λ slot. (slot < length self.old)
            × (entry self.old slot ≡ None)) }
        ensures put { IfOk result (λ slot. self.new
            ≡ slice_set self.old slot (Some (value, next))) }

        // It is refused only where each cell is live.
        ensures full { OnErr result (live_count self.old ≡ length self.old) }
        ensures succeeds { live_count self.old < length self.old → IsOk result }
        ensures returned { IfErr result (λ back. back ≡ value) }
        ensures unchanged { OnErr result (self.new ≡ self.old) }
    {
        let Some(slot) = first_free(self.free, self.states.len() as u32, self.cap()) else {
            return Err(value);
        };
        self.values.put(slot.index(), value);
        self.live += 1;
        if self.free.is_none() {
            self.states.push_reserved(CellState::live(next));
            return Ok(slot);
        }
        self.free = self.states[slot.index()].next();
        self.states[slot.index()] = CellState::live(next);
        Ok(slot)
    }

    /// Takes the value out of a live cell, which is free from then on. No other cell changes.
    pub fn take(&mut self, slot: Slot) -> T
        requires { IsLive self.old slot }
        ensures value { entry self.old slot ≡ Some (result, next_beside self.old slot) }
        ensures freed { self.new ≡ slice_set self.old slot None }
    {
        let value = self.values.take(slot.index());
        self.states[slot.index()] = CellState::free(self.free);
        self.free = Some(slot);
        self.live -= 1;
        value
    }

    /// The value in a live cell.
    pub fn get(&self, slot: Slot) -> &T
        requires { IsLive self.now slot }
        ensures { entry self.now slot ≡ Some (result.now, next_beside self.now slot) }
    {
        self.values.get(slot.index())
    }

    /// The slot beside the value in a live cell.
    pub fn next(&self, slot: Slot) -> Option<Slot>
        requires { IsLive self.now slot }
        ensures { result ≡ next_beside self.now slot }
    {
        self.states[slot.index()].next()
    }

    /// The value in a live cell, for writing. The slot beside it stays, and no other cell changes.
    pub fn get_mut(&mut self, slot: Slot) -> &mut T
        requires { IsLive self.old slot }
        ensures* writes_back { sem 𝓛 (lends_value T.row self.entry slot result) }
        ensures value { entry self.old slot ≡ Some (result.now, next_beside self.old slot) }
    {
        self.values.get_mut(slot.index())
    }

    /// Writes the slot beside the value in a live cell. The value stays, and no other cell changes.
    pub fn set_next(&mut self, slot: Slot, after: Option<Slot>)
        requires { IsLive self.old slot }
        ensures { self.new ≡ slice_set self.old slot (with_next (entry self.old slot) after) }
    {
        self.states[slot.index()] = CellState::live(after);
    }
}

impl<T: Drop> Drop for Arena<T> {
    fn drop(self) {
        let Arena {
            mut values,
            states,
            live: _,
            free: _,
        } = self;
        for index in 0..states.len() {
            if states[index].is_live() {
                drop(values.take(index));
            }
        }
        values.free();
    }
}

// The cell that the next value comes into: the one that was freed last, or else the one behind those that were ever used.
fn first_free(free: Option<Slot>, used: u32, cap: u32) -> Option<Slot>
    requires { cap ≤ 4194304 }
    ensures freed { IsSome free → result ≡ free }
    ensures unused { IsNone free → result ≡ (if nat_lt used cap then Some used else None) }
{
    match free {
        Some(slot) => Some(slot),
        None => slot_within(used, cap),
    }
}
