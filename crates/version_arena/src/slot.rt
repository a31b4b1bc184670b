// The name of a cell.
ghost use Rattle.std.specs.Prelude.{◌≡◌, ℕ, ◌<◌, ◌≤◌, nat_lt, if◌then◌else◌, Some, None};

use std::marker::Model;

/// The number of a cell of an arena, from 0 on and below 4,194,304. It does not say whether the cell is live, nor of which
/// arena it is.
#[derive(Clone, Copy, Debug, PartialEq, Eq)]
pub struct Slot {
    pub(crate) index: u32,
}

impl Model for Slot {
    ghost Value = { ℕ };

    ghost view = { λ s. s.index };

    ghost invariant = { λ s. s.index < 4194304 };

    ghost inverse = { λ index. record { index = index } };
}

impl Slot {
    pub(crate) fn index(self) -> usize
        ensures { result ≡ self }
    {
        self.index as usize
    }
}

// The slot of this cell, where there is one.
pub(crate) fn slot_within(index: u32, cap: u32) -> Option<Slot>
    requires { cap ≤ 4194304 }
    ensures { result ≡ (if nat_lt index cap then Some index else None) }
{
    if index < cap {
        Some(Slot { index })
    } else {
        None
    }
}
