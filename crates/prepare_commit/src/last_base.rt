//! What the last base had, and what changed since.
ghost use Rattle.std.specs.Prelude.{◌≡◌, length, IfOk};

use crate::changed::ChangedChains;
use crate::parts::{EntryPosition, PartList};
use std::alloc::{AllocError, Global};

/// Parts that the last base has which was made of a cell or compared with it, for each chain where its item lies in them, and the
/// chains that may have changed since; a chain that did not has just what lies there.
#[derive(Drop)]
pub(crate) struct LastBase {
    pub(crate) parts: PartList,
    pub(crate) spots: Vec<EntryPosition>,
    pub(crate) since: ChangedChains,
    // Whether a base was cut of the cell, as another will be then.
    pub(crate) was_cut: bool,
    // How many collections came between the last two cuts, or before the first.
    pub(crate) between_cuts: u32,
    // How many came since the last cut.
    pub(crate) collections: u32,
}

impl LastBase {
    /// No base, with so many chains. The one error is that the allocation failed.
    pub(crate) fn none(alloc: Global, chains: u32) -> Result<LastBase, AllocError>
        ensures spots { IfOk result (λ last. length last.spots.items ≡ chains) }
        ensures since { IfOk result (λ last. length last.since ≡ chains) }
    {
        let mut spots = Vec::with_capacity(alloc, chains as usize)?;
        for _chain in 0..chains {
            spots.push_reserved(EntryPosition { part: 0, at: 0 });
        }
        Ok(LastBase {
            parts: PartList::new(alloc),
            spots,
            since: ChangedChains::open(alloc, chains)?,
            was_cut: false,
            between_cuts: 0,
            collections: 0,
        })
    }

    /// Whether so much changed since that it is packed ahead of the next cut, which is near. What is packed long before a cut changes
    /// again, and is packed twice.
    pub(crate) fn is_much_changed(&self) -> bool {
        self.was_cut && self.is_near_cut() && self.since.fill_a_part()
    }

    // Whether the last quarter of the time from cut to cut has begun, if the next cut comes after as many collections as the last did.
    fn is_near_cut(&self) -> bool {
        self.collections >= self.between_cuts - self.between_cuts / 4
    }
}
