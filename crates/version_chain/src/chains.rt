// The chains of one tenant.
ghost use Rattle.std.specs.Prelude.{◌≡◌, ◌↔◌, ℕ, ◌+◌, ◌-◌, ◌^◌, ◌<◌, ◌≤◌, ◌==◌, ◌&&◌, if◌then◌else◌, List, replicate, IsTrue, IsSome, IsSomeAnd, true, false, ◌++◌, length, map, filter, slice_get, slice_index_or, Option, Some, None, IfOk};
ghost use Rattle.version_arena.specs.Arena.{entry, next_beside};
ghost use Rattle.version_chain.specs.declared.version.Version.{Version};
ghost use Rattle.version_chain.specs.Chain.{IsPath, KeepsLatest, HoldsChains, HasShare, chain_versions, at_stamp, first_record, latest_record, lent_version, committed_records, stamp_of, marked_by, not_below, without_open};
ghost use Rattle.version_chain.specs.Changes.{HasChain, HasRoomFor, HoldsRun, ChangesChain, EachChainIs, GivesUp, HaveOneMore, InsertAnswers, IsRunOf, MarksOnly, Unchanged};
ghost use Rattle.version_chain.specs.Discarded.{DropsOpen, FreesOnly};
ghost use Rattle.version_chain.specs.Heads.{no_versions};
ghost use Rattle.version_chain.specs.Listed.{is_named, chain_in, with_kept, Lists, IsSweptAt, IsPutAt, node_in, is_open_node};
ghost use Rattle.version_chain.specs.Sweeping.{IsShort};
ghost use Rattle.version_chain.specs.Sharing.{ChangesOwn};

use crate::chain_slots::ChainSlots;
use crate::kept_list::KeptList;
use crate::shared_block::Block;
use crate::stamp_list::{Kept, is_held};
use crate::stored::StoredRecord;
use crate::version::{Bound, Version, stamp_of};
use crate::version_list::VersionList;
use stamps::{Keep, Record, Stamp, Visits};
use std::alloc::{AllocError, Global};
use std::marker::Model;
use version_arena::Slot;

// So many versions of a chain are visited before the list of the kept ones is searched.
const FEW: u32 = 4;

/// What became of a record that was to be inserted.
#[derive(Clone, Copy, Debug, PartialEq, Eq)]
pub enum Insert {
    /// The chain has it now.
    Added,
    /// The chain has it already.
    Same,
    /// The chain has another record of this stamp.
    Other,
    /// The tenant has no cell left of its share.
    Full,
}

/// The numbered chains of one tenant, in a block that may hold the chains of other tenants too and is passed to each
/// call. A clause sees each chain as the list of its versions, with strictly falling stamps. Beside them stands a list of
/// all these versions in the order of their stamps, which names each by its slot.
///
/// A version that is dropped stays in that list until a sweep, which looks into the cell of each listed version. It comes once more
/// than twice as many are listed as are kept, so for each version that is dropped it looks into two cells. A listed version counts
/// only where its cell holds it.
///
/// A stamp is searched for from the head of its chain down. Where its place is not behind the first few versions, one
/// version of the chain and one of the list are visited alternately, the latter from the stamp up: the first of them that
/// stands in this chain is the one before the place. So a search visits at most some three times the versions above the
/// place, and some twice the listed ones up to the next of the chain, whichever is less.
///
/// A call changes its own chain alone: no other chain of the tenant, and no cell of another tenant. Each live slot of the
/// tenant stands in exactly one chain, once, and a cut frees each slot once. Only `open` takes memory,
/// and `pack_to` for its list.
///
/// The caller's condition is a chain number in range, and the block in which these chains stand: it holds no other
/// version of the tenant.
#[derive(Drop)]
pub struct Chains {
    slots: ChainSlots,
    tenant: u32,
    share: u32,
    used: u32,
    kept: KeptList,
}

impl Model for Chains {
    ghost use Rattle.std.specs.Prelude.{◌≡◌};
    ghost use Rattle.version_chain.specs.Heads.{Heads};

    ghost Value = { Heads };

    ghost view = { λ c. record { tenant = c.tenant; share = c.share; used = c.used; heads = c.slots.heads; latest = c.slots.latest; kept = c.kept.kept } };

    ghost invariant = { λ c. c.kept.room ≡ c.share };
}

impl Chains {
    ghost use Rattle.version_chain.specs.Place.{IsPlace, IsNear, is_near_node, least_of, slot_after, IsLiveSlot, KeepsLatestBut, is_past, is_at, versions_from};

    /// So many empty chains of a tenant, which may have `cells` cells, in a block with no version of this tenant. It
    /// takes time for each chain, and memory for each chain and each cell. The one error is that this allocation failed.
    pub fn open(alloc: Global, cells: u32, chains: u32, tenant: u32) -> Result<Chains, AllocError>
        ensures { IfOk result (λ opened. opened ≡ no_versions tenant cells chains) }
    {
        Ok(Chains {
            slots: ChainSlots::open(alloc, chains)?,
            tenant,
            share: cells,
            used: 0,
            kept: KeptList::open(alloc, cells)?,
        })
    }

    /// How many versions the chains have in all. It visits none of them.
    pub fn used(&self) -> u32
        ensures { result ≡ self.now.used }
    {
        self.used
    }

    /// The record of this stamp in a chain, if there is one. It visits what a search for the stamp does.
    pub fn find<'b>(&self, block: &'b Block, chain: u32, stamp: Stamp) -> Option<StoredRecord<'b>>
        requires { HasChain block.now self.now chain }
        ensures { result ≡ at_stamp (chain_versions block.now self.now chain) stamp }
    {
        let (last, _) = self.seek(block, chain, stamp);
        self.record_at(block, chain, stamp, last)
    }

    // The last slot whose stamp is not below this one, and the slot after it.
    #[inline(always)]
    fn seek(&self, block: &Block, chain: u32, stamp: Stamp) -> (Option<Slot>, Option<Slot>)
        requires { HasChain block.now self.now chain }
        ensures { IsPlace block.now self.now chain stamp result.0 result.1 }
    {
        let bound = Bound::From(stamp);
        self.seek_within(block, chain, &bound)
    }

    // The last slot of a chain that is within a bound, and the slot after it. It visits the versions of the chain down to
    // there, or, where these are many, some of them beside the listed versions from the bound up to the next one of the chain.
    #[inline(always)]
    fn seek_within(&self, block: &Block, chain: u32, bound: &Bound) -> (Option<Slot>, Option<Slot>)
        requires { HasChain block.now self.now chain }
        ensures { IsPlace block.now self.now chain (least_of bound.now) result.0 result.1 }
    {
        let mut last = None;
        let mut here = self.slots.head(chain);
        for _step in 0..FEW {
            let Some(slot) = here else {
                return (last, here);
            };
            if block.get(slot).is_below(bound) {
                return (last, here);
            }
            last = here;
            here = block.next(slot);
        }
        self.seek_far(block, chain, bound)
    }

    // Does what `seek_within` does, where the first few versions of the chain are within the bound.
    #[cold]
    #[inline(never)]
    fn seek_far(&self, block: &Block, chain: u32, bound: &Bound) -> (Option<Slot>, Option<Slot>)
        requires { HasChain block.now self.now chain }
        ensures { IsPlace block.now self.now chain (least_of bound.now) result.0 result.1 }
    {
        let near = self.near(block, chain, bound);
        self.seek_from(block, chain, bound, near)
    }

    // A slot of a chain that is within a bound, and not far from the last such one; `None` stands for the head of the chain.
    // It looks alternately at one of the chain, from the head down, and at one of the list, from the bound up. The first of
    // the listed ones that stands in the chain is the last within the bound.
    fn near(&self, block: &Block, chain: u32, bound: &Bound) -> Option<Slot>
        requires { HasChain block.now self.now chain }
        ensures { IsNear block.now self.now chain (least_of bound.now) result }
    {
        let mut here = self.slots.head(chain);
        let mut listed = self.kept.upward(bound);
        for _step in 0..self.used {
            let Some(slot) = here else {
                return None;
            };
            if block.get(slot).is_below(bound) {
                return None;
            }
            let Some(kept) = listed.take_least() else {
                return None;
            };
            if self.is_near(block, chain, bound, kept.slot) {
                return Some(kept.slot);
            }
            here = block.next(slot);
        }
        None
    }

    // Whether the cell of a slot holds a version of this chain that is within a bound.
    fn is_near(&self, block: &Block, chain: u32, bound: &Bound, slot: Slot) -> bool
        ensures { result ≡ is_near_node self.now.tenant chain (least_of bound.now)
            (node_in block.now slot) }
    {
        if !block.is_live(slot) {
            return false;
        }
        let node = block.get(slot);
        node.tenant() == self.tenant && node.chain() == chain && !node.is_below(bound)
    }

    // The last slot of a chain that is within a bound, and the slot after it, found from a slot that is within it, or else
    // from the head. It visits the versions from there down, and one more.
    fn seek_from(
        &self,
        block: &Block,
        chain: u32,
        bound: &Bound,
        near: Option<Slot>,
    ) -> (Option<Slot>, Option<Slot>)
        requires chain { HasChain block.now self.now chain }
        requires near { IsNear block.now self.now chain (least_of bound.now) near }
        ensures { IsPlace block.now self.now chain (least_of bound.now) result.0 result.1 }
    {
        let mut last = near;
        let mut here = self.after(block, chain, near);
        while let Some(slot) = here {
            if block.get(slot).is_below(bound) {
                return (last, here);
            }
            last = here;
            here = block.next(slot);
        }
        (last, here)
    }

    // The slot after one of a chain, or its head.
    fn after(&self, block: &Block, chain: u32, slot: Option<Slot>) -> Option<Slot>
        requires known { chain < length self.now.heads }
        requires live { IsLiveSlot block.now slot }
        ensures { result ≡ slot_after block.now self.now chain slot }
    {
        match slot {
            Some(slot) => block.next(slot),
            None => self.slots.head(chain),
        }
    }

    // The record of this stamp, where `last` is the last slot whose stamp is not below it.
    fn record_at<'b>(
        &self,
        block: &'b Block,
        chain: u32,
        stamp: Stamp,
        last: Option<Slot>,
    ) -> Option<StoredRecord<'b>>
        requires chain { HasChain block.now self.now chain }
        requires place { (here : Option ℕ) × IsPlace block.now self.now chain stamp last here }
        ensures { result ≡ at_stamp (chain_versions block.now self.now chain) stamp }
    {
        let node = block.get(last?);
        if node.is_at(stamp) {
            return Some(node.into_record());
        }
        None
    }

    /// Puts a copy of a record into a chain, not committed as yet, unless the chain has one of its stamp or no cell of the
    /// tenant's share is left. Where it is not `Added`, nothing changes. The condition is that the tenant's share is there: as
    /// many cells are free as it may still use. It visits what a search for the record's stamp does, and shifts the listed
    /// versions of greater stamps.
    pub fn insert_from(&mut self, block: &mut Block, chain: u32, added: &Record) -> Insert
        requires chain { HasChain block.old self.old chain }
        requires list { Lists block.old self.old }
        requires share { HasShare block.old self.old }
        ensures changed { ChangesChain block.old self.old block.new self.new chain }
        ensures list { Lists block.new self.new }
        ensures answer { InsertAnswers result
            block.old self.old block.new self.new chain added.now }
    {
        let stamp = stamp_of(added);
        let (last, here) = self.seek(block, chain, stamp);
        let before = last;
        if let Some(found) = self.record_at(block, chain, stamp, before) {
            return if found.is(added) {
                Insert::Same
            } else {
                Insert::Other
            };
        }
        if self.used == self.share {
            return Insert::Full;
        }
        self.enter(block, chain, added, false, last, here);
        Insert::Added
    }

    /// Does what `insert_from` does, with a record that is given.
    pub fn insert(&mut self, block: &mut Block, chain: u32, added: Record) -> Insert
        requires chain { HasChain block.old self.old chain }
        requires list { Lists block.old self.old }
        requires share { HasShare block.old self.old }
        ensures changed { ChangesChain block.old self.old block.new self.new chain }
        ensures list { Lists block.new self.new }
        ensures answer { InsertAnswers result block.old self.old block.new self.new chain added }
    {
        self.insert_from(block, chain, &added)
    }

    /// Puts a version with its mark into a chain, which has none of its stamp, and for which there is a cell left of the
    /// tenant's share. The condition is also that of `insert`. It visits what a search for the version's stamp does, and
    /// shifts the listed versions of greater stamps.
    pub fn put(&mut self, block: &mut Block, chain: u32, version: &Version)
        requires chain { HasChain block.old self.old chain }
        requires list { Lists block.old self.old }
        requires room { HasRoomFor block.old self.old chain version.now.prepared.stamp }
        ensures changed { ChangesChain block.old self.old block.new self.new chain }
        ensures list { Lists block.new self.new }
        ensures added { HaveOneMore block.old self.old block.new self.new chain version.now }
    {
        let (last, here) = self.seek(block, chain, stamp_of(&version.prepared));
        self.enter(
            block,
            chain,
            &version.prepared,
            version.committed,
            last,
            here,
        );
    }

    // Puts a version between two slots that stand one after the other, and lists it.
    #[inline(always)]
    fn enter(
        &mut self,
        block: &mut Block,
        chain: u32,
        prepared: &Record,
        committed: bool,
        last: Option<Slot>,
        here: Option<Slot>,
    )
        requires chain { HasChain block.old self.old chain }
        requires list { Lists block.old self.old }
        requires room { HasRoomFor block.old self.old chain prepared.now.stamp }
        requires place { IsPlace block.old self.old chain prepared.now.stamp last here }
        ensures changed { ChangesChain block.old self.old block.new self.new chain }
        ensures list { Lists block.new self.new }
        ensures added { HaveOneMore block.old self.old block.new self.new chain
            (record { prepared = prepared.now; committed = committed }) }
    {
        let stamp = stamp_of(prepared);
        self.tidy(block);
        let slot = self.link(block, chain, prepared, committed, last, here);
        self.kept.insert(stamp, slot);
    }

    // Sweeps the list of the kept versions where that is due, so that there is room for one more.
    #[inline(always)]
    fn tidy(&mut self, block: &Block)
        requires stands { HoldsChains block.now self.old }
        requires list { Lists block.now self.old }
        requires room { self.old.used < self.old.share }
        ensures list { Lists block.now self.new }
        ensures room { length self.new.kept < self.old.share }
        ensures rest { self.new ≡ with_kept self.old self.new.kept }
        ensures unswept { IsShort self.old.used self.old.share self.old.kept → self.new ≡ self.old }
    {
        if self.kept.is_due(self.used, self.share) {
            self.kept.sweep(block, self.tenant);
        }
    }

    // Puts a version between two slots that stand one after the other, and answers its own slot.
    #[inline(always)]
    fn link(
        &mut self,
        block: &mut Block,
        chain: u32,
        prepared: &Record,
        committed: bool,
        last: Option<Slot>,
        here: Option<Slot>,
    ) -> Slot
        requires chain { HasChain block.old self.old chain }
        requires room { HasRoomFor block.old self.old chain prepared.now.stamp }
        requires place { IsPlace block.old self.old chain prepared.now.stamp last here }
        ensures changed { ChangesChain block.old self.old block.new self.new chain }
        ensures put { IsPutAt block.old block.new self.old.tenant prepared.now.stamp result }
        ensures kept { self.new.kept ≡ self.old.kept }
        ensures added { HaveOneMore block.old self.old block.new self.new chain
            (record { prepared = prepared.now; committed = committed }) }
    {
        let rises = self.rises(block, chain, stamp_of(prepared), committed);
        let slot = block.put(self.tenant, chain, prepared, committed, here);
        self.used += 1;
        let latest = latest_of(rises, slot, self.slots.latest(chain));
        self.slots.set_latest(chain, latest);
        match last {
            Some(last) => block.set_next(last, Some(slot)),
            None => self.slots.set_head(chain, Some(slot)),
        }
        slot
    }

    // Where the versions of a stamp begin and end in the list of the kept ones, in which they stand side by side. It looks
    // at the last few of the list, and finds others by a binary search.
    #[inline(always)]
    fn places_at(&self, stamp: Stamp) -> (usize, usize)
        ensures { IsRunOf stamp self.now.kept result.0 result.1 }
    {
        self.kept.places(stamp)
    }

    /// The version at a place of the list of the kept ones.
    pub fn kept_in(&self, place: usize) -> Kept
        requires { place < length self.now.kept }
        ensures { result ≡ slice_index_or self.now.kept place result }
    {
        self.kept.at(place)
    }

    /// The chain in which a listed version stands.
    pub fn chain_of(&self, block: &Block, kept: Kept) -> u32
        requires stands { HoldsChains block.now self.now }
        requires named { is_named self.now.tenant block.now kept ≡ true }
        ensures known { result < length self.now.heads }
        ensures place { result ≡ chain_in block.now kept.slot }
    {
        block.get(kept.slot).chain()
    }

    // Whether a version is committed and its stamp above those of the committed versions of a chain.
    fn rises(&self, block: &Block, chain: u32, stamp: Stamp, committed: bool) -> bool
        requires { HasChain block.now self.now chain }
        ensures { result ≡ (committed && is_past (latest_record block.now self.now chain) stamp) }
    {
        committed && self.is_past(block, chain, stamp)
    }

    // Whether this stamp is above those of the committed versions of a chain.
    fn is_past(&self, block: &Block, chain: u32, stamp: Stamp) -> bool
        requires { HasChain block.now self.now chain }
        ensures { result ≡ is_past (latest_record block.now self.now chain) stamp }
    {
        match self.latest(block, chain) {
            Some(latest) => latest.stamp() < stamp,
            None => true,
        }
    }

    /// Marks the version of a stamp in a chain as committed, and answers whether the chain has one; it may have been marked
    /// before. Where it has none, nothing changes. It visits what a search for the stamp does, and then what `mark_slot` does.
    pub fn mark(&mut self, block: &mut Block, chain: u32, stamp: Stamp) -> bool
        requires { HasChain block.old self.old chain }
        ensures changed { ChangesChain block.old self.old block.new self.new chain }
        ensures only { MarksOnly block.old self.old block.new self.new }
        ensures marked { chain_versions block.new self.new chain
            ≡ map (marked_by stamp) (chain_versions block.old self.old chain) }
        ensures found { IsTrue result
            ↔ IsSome (at_stamp (chain_versions block.old self.old chain) stamp) }
        ensures missing { result ≡ false → Unchanged block.old self.old block.new self.new }
    {
        let (last, _) = self.seek(block, chain, stamp);
        let Some(slot) = last else {
            return false;
        };
        if !block.get(slot).is_at(stamp) {
            return false;
        }
        let kept = Kept { stamp, slot };
        self.mark_slot(block, kept);
        true
    }

    /// Marks a listed version as committed, and answers its chain; it may have been marked before. It visits this
    /// version and the latest committed one of its chain.
    pub fn mark_slot(&mut self, block: &mut Block, kept: Kept) -> u32
        requires stands { HoldsChains block.old self.old }
        requires named { is_named self.old.tenant block.old kept ≡ true }
        ensures known { result < length self.old.heads }
        ensures place { result ≡ chain_in block.old kept.slot }
        ensures places { (slot : ℕ) → chain_in block.new slot ≡ chain_in block.old slot }
        ensures changed { ChangesChain block.old self.old block.new self.new result }
        ensures only { MarksOnly block.old self.old block.new self.new }
        ensures marked { chain_versions block.new self.new result
            ≡ map (marked_by kept.stamp) (chain_versions block.old self.old result) }
        ensures found { IsSome (at_stamp (chain_versions block.old self.old result) kept.stamp) }
    {
        let chain = block.get(kept.slot).chain();
        let rises = self.is_past(block, chain, kept.stamp);
        block.mark(kept.slot);
        let latest = latest_of(rises, kept.slot, self.slots.latest(chain));
        self.slots.set_latest(chain, latest);
        chain
    }

    /// The committed record of the greatest stamp in a chain, if any is committed. It visits this one alone.
    pub fn latest<'b>(&self, block: &'b Block, chain: u32) -> Option<StoredRecord<'b>>
        requires { HasChain block.now self.now chain }
        ensures { result ≡ latest_record block.now self.now chain }
    {
        let slot = self.slots.latest(chain)?;
        Some(block.get(slot).into_record())
    }

    /// The stamp of the committed version before which `keep - 1` others stand in a chain, the latest first; `0.0` where
    /// fewer are committed. It visits the versions down to that one.
    pub fn kth_committed(&self, block: &Block, chain: u32, keep: Keep) -> Stamp
        requires { HasChain block.now self.now chain }
        ensures { let committed = committed_records (chain_versions block.now self.now chain) in
            result ≡ stamp_of (slice_get committed (keep - 1)) }
    {
        match self.nth_committed(block, chain, keep.get() - 1) {
            Some(found) => found.stamp(),
            None => Stamp::ZERO,
        }
    }

    // The committed record before which so many others stand.
    fn nth_committed<'b>(&self, block: &'b Block, chain: u32, index: u8) -> Option<StoredRecord<'b>>
        requires { HasChain block.now self.now chain }
        ensures { let committed = committed_records (chain_versions block.now self.now chain) in
            result ≡ slice_get committed index }
    {
        let mut left = index;
        let mut here = self.slots.head(chain);
        while let Some(slot) = here {
            let node = block.get(slot);
            here = block.next(slot);
            if !node.is_committed() {
                continue;
            }
            if left == 0 {
                return Some(node.into_record());
            }
            left -= 1;
        }
        None
    }

    /// The record of the greatest stamp in a chain, if it has any. It visits this one alone.
    pub fn first<'b>(&self, block: &'b Block, chain: u32) -> Option<StoredRecord<'b>>
        requires { HasChain block.now self.now chain }
        ensures { result ≡ first_record (chain_versions block.now self.now chain) }
    {
        let slot = self.slots.head(chain)?;
        Some(block.get(slot).into_record())
    }

    /// The version at a place of a chain, from 0, the latest first: its record, and whether it is committed. `None` past the
    /// chain's end. It visits the versions down to that one.
    pub fn nth<'b>(
        &self,
        block: &'b Block,
        chain: u32,
        index: u32,
    ) -> Option<(StoredRecord<'b>, bool)>
        requires { HasChain block.now self.now chain }
        ensures { lent_version result ≡ slice_get (chain_versions block.now self.now chain) index }
    {
        let mut left = index;
        let mut here = self.slots.head(chain);
        while let Some(slot) = here {
            let node = block.get(slot);
            here = block.next(slot);
            if left == 0 {
                let committed = node.is_committed();
                return Some((node.into_record(), committed));
            }
            left -= 1;
        }
        None
    }

    /// Packs a chain's versions at the end of a list, the latest first, each with its mark. It visits each of them once. The
    /// one error is that an allocation failed; the list then has some of them more.
    pub fn pack_to(
        &self,
        block: &Block,
        chain: u32,
        list: &mut VersionList,
    ) -> Result<(), AllocError>
        requires { HasChain block.now self.now chain }
        ensures { IfOk result (λ _. list.new
            ≡ list.old ++ chain_versions block.now self.now chain) }
    {
        let mut here = self.slots.head(chain);
        while let Some(slot) = here {
            let node = block.get(slot);
            here = block.next(slot);
            list.push(&node)?;
        }
        Ok(())
    }

    /// Gives up the versions of a chain below a stamp, whether they are committed or not, frees their cells, and
    /// answers how many they were; the list of the kept versions still names them. It visits all versions of the chain.
    pub fn cut_below(&mut self, block: &mut Block, chain: u32, floor: Stamp) -> u32
        requires { HasChain block.old self.old chain }
        ensures changed { ChangesChain block.old self.old block.new self.new chain }
        ensures kept { chain_versions block.new self.new chain
            ≡ not_below floor (chain_versions block.old self.old chain) }
        ensures freed { result + length (chain_versions block.new self.new chain)
            ≡ length (chain_versions block.old self.old chain) }
        ensures given_up { GivesUp result block.old self.old block.new self.new }
        ensures listed { Lists block.old self.old → Lists block.new self.new }
    {
        let used = self.used;
        let (last, first) = self.seek(block, chain, floor);
        let mut here = first;
        while let Some(slot) = here {
            here = block.next(slot);
            let before = last;
            self.unlink(block, chain, before, slot);
        }
        used - self.used
    }

    /// Gives up the versions of a stamp, of any chains, that are not committed, frees their cells, and answers how many they
    /// were; the list of the kept versions still names them. The condition is that the versions that the list has of the stamp
    /// stand between these places, and are held, as `sweep_at` answers and leaves them. It visits them, each counted in `visits`;
    /// where one is not committed, it also searches for the stamp in its chain. At most 2^61 were counted before.
    pub fn discard_at(
        &mut self,
        block: &mut Block,
        stamp: Stamp,
        first: usize,
        end: usize,
        visits: &mut Visits,
    ) -> u32
        requires stands { HoldsChains block.old self.old }
        requires run { HoldsRun block.old self.old stamp first end }
        requires few { self.old.used < 2 ^ 32 }
        requires before { visits.old ≤ 2 ^ 61 }
        ensures own { ChangesOwn block.old block.new self.old self.new }
        ensures stands { HoldsChains block.new self.new }
        ensures list { Lists block.new self.new }
        ensures kept { EachChainIs (without_open stamp) block.old self.old block.new self.new }
        ensures given_up { GivesUp result block.old self.old block.new self.new }
        ensures visits { visits.new
            ≡ visits.old + length (filter (λ k. k.stamp == stamp) self.old.kept) }
    {
        let mut dropped = 0;
        for place in 0..end - first {
            visits.tick();
            let slot = self.kept_in(first + place).slot;
            dropped += self.discard_slot(block, stamp, slot);
        }
        dropped
    }

    // Gives up the version in a slot, where it is one of this stamp and not committed, and answers how many it gave up.
    fn discard_slot(&mut self, block: &mut Block, stamp: Stamp, slot: Slot) -> u32
        requires { HoldsChains block.old self.old }
        ensures own { ChangesOwn block.old block.new self.old self.new }
        ensures stands { HoldsChains block.new self.new }
        ensures left { (chain : ℕ) → chain < length self.old.heads
            → without_open stamp (chain_versions block.new self.new chain)
            ≡ without_open stamp (chain_versions block.old self.old chain) }
        ensures gone { is_open_node self.old.tenant stamp (node_in block.new slot) ≡ false }
        ensures given_up { GivesUp result block.old self.old block.new self.new }
        ensures dropped { DropsOpen stamp block.old self.old block.new self.new }
    {
        let kept = Kept { stamp, slot };
        if !is_held(block, self.tenant, &kept) {
            return 0;
        }
        let chain = block.get(slot).chain();
        self.discard(block, chain, stamp)
    }

    // Gives up the version of this stamp in a chain, where it is not committed, frees its cell, and answers how
    // many it gave up, which is 1 or 0; the list of the kept versions still names it.
    fn discard(&mut self, block: &mut Block, chain: u32, stamp: Stamp) -> u32
        requires { HasChain block.old self.old chain }
        ensures changed { ChangesChain block.old self.old block.new self.new chain }
        ensures kept { chain_versions block.new self.new chain
            ≡ without_open stamp (chain_versions block.old self.old chain) }
        ensures given_up { GivesUp result block.old self.old block.new self.new }
        ensures dropped { DropsOpen stamp block.old self.old block.new self.new }
    {
        let (last, here) = self.seek_above(block, chain, stamp);
        let Some(slot) = here else {
            return 0;
        };
        let node = block.get(slot);
        if node.is_committed() || !node.is_at(stamp) {
            return 0;
        }
        self.unlink(block, chain, last, slot);
        1
    }

    // The last slot whose stamp is above this one, and the slot after it.
    fn seek_above(&self, block: &Block, chain: u32, stamp: Stamp) -> (Option<Slot>, Option<Slot>)
        requires { HasChain block.now self.now chain }
        ensures { IsPlace block.now self.now chain (stamp + 1) result.0 result.1 }
    {
        let bound = Bound::Above(stamp);
        self.seek_within(block, chain, &bound)
    }

    // Takes the version at `here`, which stands after `last`, out of its chain and frees its cell.
    #[inline(always)]
    fn unlink(&mut self, block: &mut Block, chain: u32, last: Option<Slot>, here: Slot)
        requires chain { HasChain block.old self.old chain }
        requires place { (stamp : ℕ) × IsPlace block.old self.old chain stamp last (Some here) }
        ensures changed { ChangesChain block.old self.old block.new self.new chain }
        ensures removed { IsSomeAnd (entry block.old here)
            (λ cell. HaveOneMore block.new self.new block.old self.old chain cell.0.version) }
        ensures freed { FreesOnly block.old block.new here }
        ensures listed { self.new.kept ≡ self.old.kept }
        ensures place { (stamp : ℕ) → IsPlace block.old self.old chain stamp last (Some here)
            → IsPlace block.new self.new chain stamp last (next_beside block.old here) }
    {
        let next = block.next(here);
        let latest = self.latest_without(block, chain, here);
        block.free(here);
        self.used -= 1;
        self.slots.set_latest(chain, latest);
        match last {
            Some(last) => block.set_next(last, next),
            None => self.slots.set_head(chain, next),
        }
    }

    // The slot of the latest committed version of a chain, once the version at `here` is gone from it. It visits these
    // two, and where they are one, those below it down to the next that is committed.
    #[inline(always)]
    fn latest_without(&self, block: &Block, chain: u32, here: Slot) -> Option<Slot>
        requires chain { HasChain block.now self.now chain }
        requires place { (stamp : ℕ) × (last : Option ℕ)
            × IsPlace block.now self.now chain stamp last (Some here) }
        ensures { KeepsLatestBut block.now self.now chain here result }
    {
        let stamp = block.get(here).stamp();
        if self.is_latest(block, chain, stamp) {
            return self.committed_from(block, chain, block.next(here));
        }
        self.slots.latest(chain)
    }

    // Whether this stamp is that of the latest committed version of a chain.
    fn is_latest(&self, block: &Block, chain: u32, stamp: Stamp) -> bool
        requires { HasChain block.now self.now chain }
        ensures { result ≡ is_at (latest_record block.now self.now chain) stamp }
    {
        match self.latest(block, chain) {
            Some(latest) => latest.stamp() == stamp,
            None => false,
        }
    }

    // The slot of the first committed version from a slot of a chain on. It visits the versions down to that one.
    fn committed_from(&self, block: &Block, chain: u32, from: Option<Slot>) -> Option<Slot>
        requires { (rest : List Version) × IsPath block.now self.now.tenant chain from rest None
            × (length rest ≤ length block.now) }
        ensures { KeepsLatest block.now self.now.tenant chain
            (versions_from block.now from) result }
    {
        let mut here = from;
        while let Some(slot) = here {
            if block.get(slot).is_committed() {
                return Some(slot);
            }
            here = block.next(slot);
        }
        None
    }

    /// Sweeps the list of the kept versions where it has one of this stamp that its cell does not hold any more, and answers where
    /// those of the stamp begin and end in it, in which they stand side by side. It looks at the last few of the list, finds others
    /// by a binary search, and looks into their cells; only where one does not hold its version it looks into all cells, and
    /// searches once more.
    #[inline(always)]
    pub fn sweep_at(&mut self, block: &Block, stamp: Stamp) -> (usize, usize)
        requires { Lists block.now self.old }
        ensures run { HoldsRun block.now self.new stamp result.0 result.1 }
        ensures rest { self.new ≡ with_kept self.old self.new.kept }
        ensures unswept { IsSweptAt stamp self.old.tenant block.now self.old.kept
            → self.new ≡ self.old }
    {
        let (first, end) = self.places_at(stamp);
        if !self.has_unheld(block, stamp, first, end) {
            return (first, end);
        }
        self.sweep_again(block, stamp)
    }

    // Sweeps the list of the kept versions, and answers where those of a stamp begin and end in it then.
    #[cold]
    #[inline(never)]
    fn sweep_again(&mut self, block: &Block, stamp: Stamp) -> (usize, usize)
        requires { Lists block.now self.old }
        ensures run { HoldsRun block.now self.new stamp result.0 result.1 }
        ensures rest { self.new ≡ with_kept self.old self.new.kept }
    {
        self.kept.sweep(block, self.tenant);
        self.places_at(stamp)
    }

    // Whether the list has a version of this stamp that its cell does not hold any more. Those of the stamp stand between these
    // places.
    #[inline(always)]
    fn has_unheld(&self, block: &Block, stamp: Stamp, first: usize, end: usize) -> bool
        requires { IsRunOf stamp self.now.kept first end }
        ensures { result ≡ false ↔ IsSweptAt stamp self.now.tenant block.now self.now.kept }
    {
        for place in 0..end - first {
            if !is_held(block, self.tenant, &self.kept_in(first + place)) {
                return true;
            }
        }
        false
    }
}

// The slot of a version where it rises, and else the one that was kept.
fn latest_of(rises: bool, slot: Slot, kept: Option<Slot>) -> Option<Slot>
    ensures { result ≡ (if rises then Some slot else kept) }
{
    if rises { Some(slot) } else { kept }
}
