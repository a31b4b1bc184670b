//! An arena for versions: values in the cells of one block of memory, each beside the slot of another value; and bytes by slot, which take
//! memory by their number.
//!
//! From the top down: `arena` has the values of the live cells, and threads the freed ones through the list of the cells' states, `cell_state`;
//! `option_slot` has a slot or none in 4 bytes;
//! `slot_bytes` has the bytes of each slot in pieces;
//! `block` is one block with its allocator, and `raw_cells` alone has a raw pointer.
#![tactic(auto)]

mod arena;
mod block;
mod cell_state;
mod option_slot;
mod raw_cells;
mod slot;
mod slot_bytes;

pub use arena::Arena;
pub use option_slot::OptionSlot;
pub use slot::Slot;
pub use slot_bytes::SlotBytes;
