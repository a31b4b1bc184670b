//! The versions of a cell, in the chains of its items.
ghost use Rattle.std.specs.Prelude.{◌≡◌, ◌+◌, ◌<◌, ◌≤◌, ◌==◌, ◌^◌, List, ◌++◌, length, None, map, filter, count_by, nat_le, slice_set, IfOk};
ghost use Rattle.prepare_commit.specs.declared.items.ChainedItem.{ChainedItem};
ghost use Rattle.version_chain.specs.Chain.{HoldsChains, at_stamp, first_record, without_open};
ghost use Rattle.version_chain.specs.Changes.{HasChain, IsRunOf};
ghost use Rattle.version_chain.specs.Heads.{no_versions};
ghost use Rattle.version_chain.specs.Listed.{with_kept, Lists, IsSweptAt};
ghost use Rattle.plain_store.specs.Stamps.{kth_greatest};
ghost use Rattle.prepare_commit.specs.Calls.{lists_of, versions_at, ChangesVersions, HaveShare, NotesChanged};
ghost use Rattle.prepare_commit.specs.InBlock.{AreIn};
ghost use Rattle.prepare_commit.specs.Begun.{IsNotedAt};
ghost use Rattle.prepare_commit.specs.Layout.{held_in, chain_lists, together, item_chains, committed_of, IsPutIn, HaveAll};

use crate::changed::ChangedChains;
use stamps::{Keep, Stamp, Visits};
use std::alloc::{AllocError, Global};
use version_chain::{Block, Chains, StoredRecord, Version, VersionList};

/// Numbered chains of versions, in a block that the caller passes to each call. Contracts see the versions of each chain in the
/// block, how many versions there are, and how many there may be.
///
/// The caller's condition is a chain number in range, and the block in which these chains stand. A call changes no cell
/// of another tenant. Only `open` takes memory, and `pack_to` for its list.
#[derive(Drop)]
pub(crate) struct Versions {
    pub(crate) chains: Chains,
}

impl Versions {
    /// So many empty chains of a tenant, with room for `slots` versions in all, in a block with no version of this
    /// tenant. The one error is that the allocation failed.
    pub(crate) fn open(
        alloc: Global,
        slots: u32,
        chains: u32,
        tenant: u32,
    ) -> Result<Versions, AllocError>
        ensures { let none = no_versions tenant slots chains in
            IfOk result (λ v. v ≡ record { chains = none }) }
    {
        Ok(Versions {
            chains: Chains::open(alloc, slots, chains, tenant)?,
        })
    }

    /// The record of this stamp in a chain. It visits what a search for the stamp does.
    pub(crate) fn find<'b>(
        &self,
        block: &'b Block,
        chain: u32,
        stamp: Stamp,
    ) -> Option<StoredRecord<'b>>
        requires { HasChain block.now self.now.chains chain }
        ensures { result ≡ at_stamp (versions_at block.now self.now chain) stamp }
    {
        self.chains.find(block, chain, stamp)
    }

    /// The record of the greatest stamp in a chain, if it has any.
    pub(crate) fn first<'b>(&self, block: &'b Block, chain: u32) -> Option<StoredRecord<'b>>
        requires { HasChain block.now self.now.chains chain }
        ensures { result ≡ first_record (versions_at block.now self.now chain) }
    {
        self.chains.first(block, chain)
    }

    /// Packs a chain's versions at the end of a list, the latest first, each with its mark. It visits each of them once. The
    /// one error is that an allocation failed.
    pub(crate) fn pack_to(
        &self,
        block: &Block,
        chain: u32,
        list: &mut VersionList,
    ) -> Result<(), AllocError>
        requires { HasChain block.now self.now.chains chain }
        ensures { IfOk result (λ _. list.new ≡ list.old ++ versions_at block.now self.now chain) }
    {
        self.chains.pack_to(block, chain, list)
    }

    /// Puts a version with its mark into a chain, which has none of its stamp, while a slot is free. It visits what a
    /// search for the version's stamp does.
    pub(crate) fn put(&mut self, block: &mut Block, chain: u32, version: &Version)
        requires known { chain < length (lists_of block.old self.old) }
        requires share { HaveShare block.old self.old }
        requires room { self.old.chains.used < self.old.chains.share }
        requires missing { at_stamp (versions_at block.old self.old chain)
            version.now.prepared.stamp ≡ None }
        ensures put { IsPutIn (lists_of block.old self.old) (lists_of block.new self.new) chain
            version.now }
        ensures used { self.new.chains.used ≡ self.old.chains.used + 1 }
        ensures changed { ChangesVersions block.old self.old block.new self.new }
    {
        self.chains.put(block, chain, version);
    }

    /// The `keep`-th greatest committed stamp of a chain, `0.0` where there are fewer. It visits the versions down to
    /// that one.
    pub(crate) fn kth_committed(&self, block: &Block, chain: u32, keep: Keep) -> Stamp
        requires { HasChain block.now self.now.chains chain }
        ensures { result ≡ kth_greatest keep (committed_of (versions_at block.now self.now chain)) }
    {
        self.chains.kth_committed(block, chain, keep)
    }

    /// Gives up the versions of a chain below a stamp, and answers how many they were. It visits the versions of the
    /// chain.
    pub(crate) fn cut_below(&mut self, block: &mut Block, chain: u32, floor: Stamp) -> u32
        requires known { chain < length (lists_of block.old self.old) }
        requires lies { AreIn block.old self.old.chains }
        ensures changed { ChangesVersions block.old self.old block.new self.new }
        ensures kept { lists_of block.new self.new ≡ slice_set (lists_of block.old self.old) chain
            (filter (λ v. nat_le floor v.prepared.stamp) (versions_at block.old self.old chain)) }
        ensures fewer { self.new.chains.used + result ≡ self.old.chains.used }
        ensures freed { result + length (versions_at block.new self.new chain)
            ≡ length (versions_at block.old self.old chain) }
    {
        self.chains.cut_below(block, chain, floor)
    }

    /// Gives up the versions of a stamp that are not committed, answers how many they were, and notes the chains of all versions of the
    /// stamp. It finds these by a binary search of the list of the kept versions, reads in which chain each stands, and visits them, each counted in `visits`; where one is
    /// not committed, it also searches for the stamp in its chain.
    pub(crate) fn discard(
        &mut self,
        block: &mut Block,
        stamp: Stamp,
        since: &mut ChangedChains,
        visits: &mut Visits,
    ) -> u32
        requires lies { AreIn block.old self.old.chains }
        requires as_long { length since.old ≡ length (lists_of block.old self.old) }
        requires few { self.old.chains.used < 2 ^ 32 }
        requires before { visits.old ≤ 2 ^ 61 }
        ensures changed { ChangesVersions block.old self.old block.new self.new }
        ensures gone { lists_of block.new self.new
            ≡ map (without_open stamp) (lists_of block.old self.old) }
        ensures fewer { self.new.chains.used + result ≡ self.old.chains.used }
        ensures visits { (items : List ChainedItem)
            → HaveAll items (held_in block.old self.old.chains)
            → (let all = together (item_chains items (lists_of block.old self.old)) in
            visits.new ≡ visits.old + count_by (λ v. v.prepared.stamp == stamp) all) }
        ensures since { NotesChanged since.old since.new
            (lists_of block.old self.old) (lists_of block.new self.new) }
    {
        let (first, end) = self.sweep_at(block, stamp);
        note_at(block, &self.chains, stamp, first, end, since);
        self.chains.discard_at(block, stamp, first, end, visits)
    }

    /// Sweeps the list of the kept versions where it has one of this stamp that is gone, and answers where those of the stamp begin
    /// and end in it. It looks into the cells of those of the stamp, and only where one is gone into all.
    #[inline(always)]
    pub(crate) fn sweep_at(&mut self, block: &Block, stamp: Stamp) -> (usize, usize)
        requires { AreIn block.now self.old.chains }
        ensures lies { AreIn block.now self.new.chains }
        ensures swept { IsSweptAt stamp self.new.chains.tenant block.now self.new.chains.kept }
        ensures run { IsRunOf stamp self.new.chains.kept result.0 result.1 }
        ensures rest { self.new.chains ≡ with_kept self.old.chains self.new.chains.kept }
    {
        self.chains.sweep_at(block, stamp)
    }
}

// Notes the chains of the listed versions of a stamp, which stand between these places.
fn note_at(
    block: &Block,
    chains: &Chains,
    stamp: Stamp,
    first: usize,
    end: usize,
    since: &mut ChangedChains,
)
    requires stands { HoldsChains block.now chains.now }
    requires list { Lists block.now chains.now }
    requires swept { IsSweptAt stamp chains.now.tenant block.now chains.now.kept }
    requires long { length since.old ≡ length chains.now.heads }
    requires run { IsRunOf stamp chains.now.kept first end }
    ensures long { length since.new ≡ length since.old }
    ensures noted { IsNotedAt stamp since.old since.new (chain_lists block.now chains.now) }
{
    for place in 0..end - first {
        since.note(chains.chain_of(block, chains.kept_in(first + place)));
    }
}
