// What a cell of an arena is, in 4 bytes.
ghost use Rattle.std.specs.Prelude.{◌≡◌};
ghost use Rattle.version_arena.specs.CellState.{Free, Live};
ghost use Rattle.version_arena.specs.Cells.{is_live, next_of};

use crate::option_slot::OptionSlot;
use crate::slot::Slot;
use std::marker::Model;

// A free cell names the cell that was freed before it and is still free, and a live one the slot beside its value.
#[derive(Clone, Copy)]
pub(crate) struct CellState {
    // Twice the number of the slot that it names, and one more where it is live.
    code: u32,
}

impl Model for CellState {
    ghost use Rattle.std.specs.Prelude.{◌+◌, ◌*◌, ◌≤◌};
    ghost use Rattle.version_arena.specs.CellState.{CellState as Seen};

    ghost Value = { Seen };

    ghost use Rattle.version_arena.specs.Numbers.{state_of, code_of};
    ghost use Rattle.version_arena.specs.NumberLaws.{code_of-state_of};

    ghost view = { λ s. state_of s.code };

    ghost invariant = { λ s. s.code ≤ 2 * 4194304 + 1 };

    ghost inverse = { λ state. record { code = code_of state } };

    ghost inverse_ok = { λ s h i. record { code = code_of-state_of s.code i } };
}

impl CellState {
    // The state of a free cell, before which this one was freed and is still free.
    pub(crate) fn free(next: Option<Slot>) -> CellState
        ensures { result ≡ Free next }
    {
        let next = OptionSlot::new(next);
        CellState {
            code: 2 * next.number,
        }
    }

    // The state of a live cell, which has this slot beside its value.
    pub(crate) fn live(next: Option<Slot>) -> CellState
        ensures { result ≡ Live next }
    {
        let next = OptionSlot::new(next);
        CellState {
            code: 2 * next.number + 1,
        }
    }

    pub(crate) fn is_live(self) -> bool
        ensures { result ≡ is_live self }
    {
        self.code % 2 == 1
    }

    // The slot that it names.
    pub(crate) fn next(self) -> Option<Slot>
        ensures { result ≡ next_of self }
    {
        let next = OptionSlot {
            number: self.code / 2,
        };
        next.get()
    }
}
