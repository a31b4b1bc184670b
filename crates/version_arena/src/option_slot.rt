//! A slot or none, in 4 bytes.
ghost use Rattle.std.specs.Prelude.{◌≡◌};

use crate::slot::Slot;
use std::marker::Model;

/// An `Option` of a slot in 4 bytes, where `Option<Slot>` takes 8. Contracts see the `Option`.
#[derive(Clone, Copy)]
pub struct OptionSlot {
    // 0 for none, else the slot's number plus one.
    pub(crate) number: u32,
}

impl Model for OptionSlot {
    ghost use Rattle.std.specs.Prelude.{ℕ, ◌≤◌, Option};

    ghost Value = { Option ℕ };

    ghost use Rattle.version_arena.specs.Numbers.{slot_of, number_of};
    ghost use Rattle.version_arena.specs.NumberLaws.{number_of-slot_of};

    ghost view = { λ o. slot_of o.number };

    ghost invariant = { λ o. o.number ≤ 4194304 };

    ghost inverse = { λ slot. record { number = number_of slot } };

    ghost inverse_ok = { λ o h i. record { number = number_of-slot_of o.number i } };
}

impl OptionSlot {
    /// The same, in 4 bytes.
    #[inline(always)]
    pub fn new(slot: Option<Slot>) -> OptionSlot
        ensures { result ≡ slot }
    {
        match slot {
            None => OptionSlot { number: 0 },
            Some(slot) => OptionSlot {
                number: slot.index + 1,
            },
        }
    }

    /// The same, as an `Option`.
    #[inline(always)]
    pub fn get(self) -> Option<Slot>
        ensures { result ≡ self }
    {
        if self.number == 0 {
            None
        } else {
            Some(Slot {
                index: self.number - 1,
            })
        }
    }
}
