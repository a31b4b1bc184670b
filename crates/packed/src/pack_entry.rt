//! What is packed as an entry of a list.
ghost use Rattle.std.specs.Prelude.{◌≡◌, ◌+◌, ◌≤◌, ◌++◌, List, ℕ, length};

use crate::Buffer;

/// What is packed as one entry of a `PackedList`.
pub trait PackEntry {
    // Its bytes.
    ghost packed_as: { Self → List ℕ };

    // How many bytes it needs room for. A text is put by a copy of its whole array, so these are more than it takes.
    ghost most_bytes: { Self → ℕ };

    // What is known of each value that was packed: its numbers are in their ranges.
    ghost is_stored: { Self → Type 0 };

    /// Puts its bytes at the end, for which there is room.
    fn put(&self, out: &mut Buffer)
        requires { length out.old.items + most_bytes self.now ≤ out.old.capacity }
        ensures packed { out.new.items ≡ out.old.items ++ packed_as self.now }
        ensures stored { is_stored self.now }
        ensures few { length out.new.items ≤ length out.old.items + most_bytes self.now }
        ensures room { out.old.capacity ≤ out.new.capacity };
}
