//! A cell over a block that the caller passes: its calls, and the bases that are cut of it.
ghost use Rattle.std.specs.Prelude.{◌≡◌, ◌≢◌, ◌+◌, ◌≤◌, ◌^◌, ◌↔◌, [], count_by, IfOk, OnErr, IsSomeAnd, IsTrue};
ghost use Rattle.std.specs.Prelude.{◌<◌, ◌==◌, ◌&&◌, List, max, not, is_some, nat_le, length};
ghost use Rattle.std.specs.Ordering.{nat_cmp};
ghost use Rattle.stamps.specs.Limits.{max_room};
ghost use Rattle.stamps.specs.Stamp.{client_of};
ghost use Rattle.version_chain.specs.Chain.{Cells, is_of_tenant, HasShare, OthersKept, at_stamp};
ghost use Rattle.version_chain.specs.Changes.{HasChain};
ghost use Rattle.version_arena.specs.Arena.{live_count};
ghost use Rattle.version_chain.specs.Sharing.{ChangesOwn};
ghost use Rattle.secondary_index.specs.Ordered.{IsInOrder};
ghost use Rattle.prepare_commit.specs.Marks.{mark_row, marks_of, mark_in};
ghost use Rattle.prepare_commit.specs.InBlock.{content_in, begun_with, LiesIn};
ghost use Rattle.prepare_commit.specs.Begun.{HasRoomAt, Holding, NotesFew, holdings, put_at};
ghost use Rattle.prepare_commit.specs.HowMuch.{IsHeldIn};
ghost use Rattle.prepare_commit.specs.Calls.{versions_at, HoldsTheSame, IsAnswered, IsServed, LiesWithShare};
ghost use Rattle.prepare_commit.specs.Layout.{chain_lists};
ghost use Rattle.prepare_commit.specs.Content.{HasVersion, IsBelowFloor};
ghost use Rattle.prepare_commit.specs.Serving.{Serves, StandsFor};
ghost use Rattle.prepare_commit.specs.Bases.{base_of, IsNew, IsOpenedAt, NameEach};
ghost use Rattle.plain_store.specs.Log.{Log};
ghost use Rattle.plain_store.specs.Replies.{IsSound};

use crate::ahead::pack_noted;
use crate::base::are_marks;
use crate::changed::ChangedChains;
use crate::collect::{collect, note_collected};
use crate::commit::move_item;
use crate::copies::{has_items, held_items, set_spots};
use crate::fill::StampedPlace;
use crate::held::Held;
use crate::holdings::Holdings;
use crate::items::{self, ChainedItem, ItemList, KnownItem};
use crate::last_base::LastBase;
use crate::parts::PartList;
use crate::reply::{
    GetReply, put_committed, put_discarded, put_found, put_freed, put_prepared, put_read, reply_of,
};
use crate::retire::{MOST_MOVED, MOST_PARTS, is_scattered, is_small, make_room};
use crate::versions::Versions;
use crate::{Base, fill, marks};
use plain_store::{Call, DiscardReply, Found, PrepareReply, Reply};
use secondary_index::TagIndex;
use stamps::{Keep, Key, Record, Stamp, Tag, Visits};
use std::alloc::{AllocError, Global};
use std::marker::Model;
use version_chain::{Block, Insert, VersionList};

/// What one tenant holds at one partition: an entry for each item of which a version was ever kept, in the order of the
/// keys; for each item a chain of its versions, the latest stamp first, each with a mark where it is committed; and an
/// index of the items by the tags of their latest committed versions, which knows no item that never had a tag. Beside them stands, for each client of which a
/// stamp was discarded, the greatest of these stamps. The versions lie in a block that the caller passes to each call; contracts
/// see with it all versions, entries and marks, how many of each there is room for, and the tag of each item in the index.
///
/// The caller's condition is the block: it has the versions of this cell, and no other version of its tenant. A call changes no cell of
/// another tenant, and leaves the others' shares as they are. A client's call takes no memory: `open`, `at`, `base`, `cut`, `holds` and
/// `begins_at` do, and so does `collect` once a base was cut. `found` looks its tag up in the index. `prepare` and `get` find their
/// item where it was last found, or by a binary search, and then walk its chain, or, far down, beside it the list of the versions by
/// stamp. `commit` and `discard` look the versions of their stamp up. `collect` goes over the items of which a version was committed
/// since an earlier one, or over all.
pub struct Cell {
    slots: u32,
    items: u32,
    clients: u32,
    versions: Versions,
    entries: ItemList,
    index: TagIndex,
    marks: Vec<Stamp>,
    // The chains of which a version was committed since the last collection, and how many versions that one kept.
    changed: ChangedChains,
    last: Option<Keep>,
    // Those of which one was committed before, since the last collection that kept the least, and how many that one kept.
    left: ChangedChains,
    least: Option<Keep>,
    // The parts of the last base that was made of the cell, or that it was compared with, and what changed since.
    last_base: LastBase,
}

// What lies in it is released here, so that no crate above proves it anew.
impl Drop for Cell {
    fn drop(self) {
        let Cell {
            slots: _,
            items: _,
            clients: _,
            versions: _,
            entries: _,
            index: _,
            marks: _,
            changed: _,
            last: _,
            left: _,
            least: _,
            last_base: _,
        } = self;
    }
}

impl Model for Cell {
    ghost use Rattle.std.specs.Prelude.{◌≡◌, ◌≤◌, length, vec_len, vec_capacity, ◌^◌, ◌<◌};
    ghost use Rattle.std.specs.Coded.{codes};
    ghost use Rattle.std.specs.Ordering.{nat_cmp};
    ghost use Rattle.secondary_index.specs.Ordered.{IsInOrder};
    ghost use Rattle.prepare_commit.specs.Content.{tags_code};
    ghost use Rattle.prepare_commit.specs.InBlock.{Parts};
    ghost use Rattle.prepare_commit.specs.Marks.{mark_row};
    ghost use Rattle.prepare_commit.specs.Spots.{begun_by};

    ghost Value = { Parts };

    ghost coded = { Prim.hlevel (codes, tags_code) };

    ghost view = { λ c. record {
      room = record { slots = c.slots; items = c.items; clients = c.clients };
      chains = c.versions.chains;
      items = c.entries.items;
      index = c.index;
      marks = c.marks.items;
      changed = c.changed;
      last = c.last;
      left = c.left;
      least = c.least;
      begun = begun_by c.last_base;
      since = c.last_base.since;
    } };

    ghost invariant = { λ c. (length c.entries.items ≤ c.items) × (c.entries.room ≡ c.items)
        × (c.slots < 2 ^ 32) × (c.items < 2 ^ 32)
        × IsInOrder nat_cmp mark_row c.marks.items × (vec_len c.marks ≤ c.clients) × (c.clients ≤ vec_capacity c.marks)
        × (length c.changed ≡ c.items) × (length c.last_base.since ≡ c.items) × (length c.last_base.spots.items ≡ c.items)
        × (length c.left ≡ c.items) };
}

impl Cell {
    ghost use Rattle.prepare_commit.specs.GetReply.{copied};

    /// An empty cell of a tenant, with room for `slots` versions, for the entries of `items` items and for the marks of
    /// `clients` clients, of each 1 to 65536 in this store, in a block with no version of this tenant. The chains, the list
    /// of the versions, the entries, the index, the marks and the list of the changed chains are reserved here, so that no client's call takes memory; it
    /// takes time for each item. The one error is that this allocation failed.
    #[tactic(auto, using(crate::proofs::StandsAfter::empty_stands))]
    pub fn open(
        alloc: Global,
        slots: u32,
        items: u32,
        clients: u32,
        tenant: u32,
    ) -> Result<Cell, AllocError>
        ensures room { IfOk result (λ cell. cell.room
            ≡ record { slots = slots; items = items; clients = clients }) }
        ensures chains { IfOk result (λ cell. (cell.chains.tenant ≡ tenant)
            × (cell.chains.share ≡ slots) × (cell.chains.used ≡ 0)) }
        ensures lies { IfOk result (λ cell. (block : Cells)
            → count_by (is_of_tenant tenant) block ≡ 0 → LiesIn block cell) }
        ensures empty { IfOk result (λ cell. (block : Cells)
            → StandsFor (content_in block cell) []) }
    {
        let cell = Cell::with_room(alloc, slots, items, clients, tenant)?;
        Ok(cell)
    }

    // An empty cell with this room, of a tenant. The one error is that an allocation failed.
    fn with_room(
        alloc: Global,
        slots: u32,
        items: u32,
        clients: u32,
        tenant: u32,
    ) -> Result<Cell, AllocError>
        ensures tenant { IfOk result (λ cell. cell.chains.tenant ≡ tenant) }
        ensures new { IfOk result (λ cell. IsNew
            (record { slots = slots; items = items; clients = clients }) cell) }
    {
        Ok(Cell {
            slots,
            items,
            clients,
            marks: Vec::with_capacity(alloc, clients as usize)?,
            changed: ChangedChains::open(alloc, items)?,
            last: None,
            left: ChangedChains::open(alloc, items)?,
            least: None,
            last_base: LastBase::none(alloc, items)?,
            entries: ItemList::open(alloc, items)?,
            index: TagIndex::open(alloc, items)?,
            versions: Versions::open(alloc, slots, items, tenant)?,
        })
    }

    /// A cell of a tenant that holds what a base does, with the base's room, in a block with no version of this tenant, of
    /// which as many cells are free as the base has slots. It stands for every log that the base stands for. It takes the
    /// memory that `open` takes, and for the time of the call lists of the versions and of their places; it puts the versions in the order
    /// of their stamps, so that each takes the time of a binary search. The one error is that the allocation failed; the
    /// block is then as it was.
    pub fn at(
        alloc: Global,
        block: &mut Block,
        base: &Base,
        tenant: u32,
    ) -> Result<Cell, AllocError>
        requires none { count_by (is_of_tenant tenant) block.old ≡ 0 }
        requires share { base.now.room.slots + live_count block.old ≤ length block.old }
        ensures opened { IfOk result (λ cell. IsOpenedAt base.now block.new cell) }
        ensures chains { IfOk result (λ cell. (cell.chains.tenant ≡ tenant)
            × (cell.chains.share ≡ base.now.room.slots)) }
        ensures share { IfOk result (λ cell. HasShare block.new cell.chains) }
        ensures others { OthersKept block.old block.new tenant }
        ensures live { IfOk result (λ _.
            live_count block.new ≡ live_count block.old + length base.now.versions) }
        ensures refused { OnErr result (block.new ≡ block.old) }
    {
        let slots = base.slots;
        let versions = base.held.versions(alloc)?;
        let places = fill::by_stamps(alloc, &versions)?;
        let mut cell = Cell::with_room(alloc, slots, base.items, base.clients, tenant)?;
        cell.fill(block, base, &versions, &places);
        Ok(cell)
    }

    // Puts what a base has into an empty cell with the base's room, the versions in the order of these places.
    fn fill(
        &mut self,
        block: &mut Block,
        base: &Base,
        versions: &VersionList,
        places: &[StampedPlace],
    )
        requires versions { versions.now ≡ base.now.versions }
        requires new { IsNew base.now.room self.old }
        requires none { count_by (is_of_tenant self.old.chains.tenant) block.old ≡ 0 }
        requires share { HasShare block.old self.old.chains }
        requires each { NameEach places.now base.now.versions }
        ensures own { ChangesOwn block.old block.new self.old.chains self.new.chains }
        ensures opened { IsOpenedAt base.now block.new self.new }
    {
        fill::add_items(&mut self.entries, &base.held);
        fill::add_versions(block, &self.entries, &mut self.versions, versions, places);
        fill::index_latest(block, &self.entries, &self.versions, &mut self.index);
        fill::add_marks(&mut self.marks, &base.marks);
        self.last_base.since.note_all(self.items);
    }

    /// Keeps a version, not committed as yet, as PREPARE does at a RAMP-Fast server. The first of these that holds is
    /// the reply; the refusals and the floor are this store's own.
    ///
    /// - `Prepared`: the version comes too late, below its item's floor. Nothing changes.
    /// - `Prepared`: this very record is kept. Nothing changes.
    /// - `Clash`: another record is kept with this key and stamp. Nothing changes.
    /// - `Discarded`: a DISCARD counted of this stamp, or of a greater one of its client. Nothing changes.
    /// - `FullItems`: the item has no entry, and all are used. Nothing changes.
    /// - `FullSlots`: as many versions are kept as there are slots. Nothing changes.
    /// - `Prepared`: now the version is kept, and its item has an entry. The item stands under the same tag as before.
    ///
    /// The condition is that the tenant's share is there: as many cells of the block are free as it may still use.
    ///
    /// It finds the item where it was last found, or by a binary search, and searches for the version's stamp in its chain. For an item with
    /// no entry it shifts the places of the entries behind the new one, and no entry.
    #[inline(always)]
    pub fn prepare(&mut self, block: &mut Block, version: &Record) -> PrepareReply
        requires { LiesWithShare block.old self.old }
        ensures served { IsServed block.old self.old block.new self.new
            (Call.Prepare version.now) (Reply.Prepare result) }
        ensures refused { result ≢ PrepareReply.Prepared
            → HoldsTheSame block.old self.old block.new self.new }
        ensures repeated { HasVersion (content_in block.old self.old) version.now
            → HoldsTheSame block.old self.old block.new self.new }
        ensures late { IsBelowFloor (content_in block.old self.old) version.now
            → HoldsTheSame block.old self.old block.new self.new }
    {
        let place = match items::search(&self.entries, &version.key) {
            Ok(place) => {
                let item = *self.entries.get(place);
                if version.stamp < item.entry.floor {
                    return PrepareReply::Prepared;
                }
                if refuses(
                    &self.marks,
                    block,
                    &self.versions,
                    item.chain,
                    version.stamp,
                ) {
                    return PrepareReply::Discarded;
                }
                self.last_base.since.note(item.chain);
                return reply_of(self.versions.chains.insert_from(block, item.chain, version));
            }
            Err(place) => place,
        };
        if marks::is_discarded(&self.marks, version.stamp) {
            return PrepareReply::Discarded;
        }
        if self.entries.len() == self.items as usize {
            return PrepareReply::FullItems;
        }
        let item = ChainedItem {
            entry: KnownItem {
                key: version.key,
                floor: Stamp::ZERO,
            },
            chain: self.entries.len() as u32,
        };
        self.last_base.since.note(item.chain);
        if let Insert::Full = self.versions.chains.insert_from(block, item.chain, version) {
            return PrepareReply::FullSlots;
        }
        self.entries.insert(place, item);
        PrepareReply::Prepared
    }

    /// Commits the kept versions of a stamp, as COMMIT does at a RAMP-Fast server: the latest committed version of an
    /// item is the one of greatest stamp, in whatever order the COMMITs come. The answer is how many versions of the
    /// stamp are kept, also where they are committed already. It is 0 for `0.0`, and where it is 0 nothing changes.
    ///
    /// Each item then stands under the tag of its latest committed version: one of which a version of this stamp became
    /// the latest has moved.
    ///
    /// It finds the versions of the stamp among the last few listed, or by a binary search, and visits them alone. Where one is listed
    /// that is gone, it sweeps the list first. To move an item it reads the slot of its chain's latest committed version, where any
    /// item has a tag, and shifts the index where the tag is another one. An item that the index does not know, and that has no tag,
    /// it looks for where it would go in, or by a binary search.
    pub fn commit(&mut self, block: &mut Block, stamp: Stamp) -> u32
        requires { LiesIn block.old self.old }
        ensures served { IsServed block.old self.old block.new self.new
            (Call.Commit stamp) (Reply.Committed result) }
        ensures initial { stamp ≡ 0 → result ≡ 0 }
        ensures nothing { result ≡ 0
            → content_in block.new self.new ≡ content_in block.old self.old }
    {
        self.commit_counted(block, stamp, &mut Visits::new())
    }

    /// What `commit` does, and the versions that are looked at, but for those by which it finds the first, and whether they are held,
    /// are counted in `visits`: as many as are answered. What is done in the tag index is not counted. At most 2^61 were counted before.
    pub fn commit_counted(&mut self, block: &mut Block, stamp: Stamp, visits: &mut Visits) -> u32
        requires lies { LiesIn block.old self.old }
        requires before { visits.old ≤ 2 ^ 61 }
        ensures served { IsServed block.old self.old block.new self.new
            (Call.Commit stamp) (Reply.Committed result) }
        ensures initial { stamp ≡ 0 → result ≡ 0 }
        ensures nothing { result ≡ 0
            → content_in block.new self.new ≡ content_in block.old self.old }
        ensures visits { visits.new ≡ visits.old + result }
    {
        let (first, end) = self.versions.sweep_at(block, stamp);
        let mut count = 0;
        for place in 0..end - first {
            visits.tick();
            let kept = self.versions.chains.kept_in(first + place);
            let chain = self.versions.chains.mark_slot(block, kept);
            self.changed.note(chain);
            self.last_base.since.note(chain);
            let Some(latest) = self.versions.chains.latest(block, chain) else {
                unreachable!();
            };
            move_item(&mut self.index, chain, &latest);
            count += 1;
        }
        count
    }

    /// Takes back what a write of this stamp left, and refuses it from now on. This call is the store's own. The first of
    /// these that holds is the reply.
    ///
    /// - `Dropped` of 0: the stamp is `0.0`. Nothing changes.
    /// - `FullMarks`: no stamp of its client was discarded before, and as many clients have a mark as there is room for.
    ///   Nothing changes.
    /// - `Dropped`, with the number of the kept versions of the stamp that are not committed. These are dropped, and the
    ///   client's mark is raised to the stamp. Committed versions and entries stay, and each item stands under the same
    ///   tag as before.
    ///
    /// It finds the versions of the stamp as `commit` does, and searches for it in the chain of each.
    #[cold]
    #[inline(never)]
    pub fn discard(&mut self, block: &mut Block, stamp: Stamp) -> DiscardReply
        requires { LiesIn block.old self.old }
        ensures served { IsServed block.old self.old block.new self.new
            (Call.Discard stamp) (Reply.Discard result) }
        ensures initial { stamp ≡ 0
            → (result ≡ DiscardReply.Dropped 0) × (block.new ≡ block.old) × (self.new ≡ self.old) }
        ensures refused { result ≡ DiscardReply.FullMarks
            → (block.new ≡ block.old) × (self.new ≡ self.old) }
    {
        self.discard_counted(block, stamp, &mut Visits::new())
    }

    /// What `discard` does, and the versions that are looked at, the probes of a binary search excepted, are counted in
    /// `visits`: the kept versions of the stamp, where it is not `0.0` and the reply is not `FullMarks`. The search in a
    /// chain to take a version out of it is not counted. At most 2^61 were counted before.
    pub fn discard_counted(
        &mut self,
        block: &mut Block,
        stamp: Stamp,
        visits: &mut Visits,
    ) -> DiscardReply
        requires lies { LiesIn block.old self.old }
        requires before { visits.old ≤ 2 ^ 61 }
        ensures served { IsServed block.old self.old block.new self.new
            (Call.Discard stamp) (Reply.Discard result) }
        ensures initial { stamp ≡ 0
            → (result ≡ DiscardReply.Dropped 0) × (block.new ≡ block.old) × (self.new ≡ self.old)
            × (visits.new ≡ visits.old) }
        ensures refused { result ≡ DiscardReply.FullMarks
            → (block.new ≡ block.old) × (self.new ≡ self.old) × (visits.new ≡ visits.old) }
        ensures visits { stamp ≢ 0 → result ≢ DiscardReply.FullMarks
            → (let all = (content_in block.old self.old).versions in
            visits.new ≡ visits.old + count_by (λ v. v.prepared.stamp == stamp) all) }
    {
        let most = self.clients;
        if stamp == Stamp::ZERO {
            return DiscardReply::Dropped(0);
        }
        if !marks::raise(&mut self.marks, most, stamp) {
            return DiscardReply::FullMarks;
        }
        DiscardReply::Dropped(
            self.versions
                .discard(block, stamp, &mut self.last_base.since, visits),
        )
    }

    /// Reads an item, as GET does at a RAMP-Fast server, and changes nothing.
    ///
    /// - Without a stamp: its latest committed version, or `Initial`.
    /// - With a stamp: `Collected` where the stamp is below the item's floor. Else the version of the stamp, committed
    ///   or not, or `Unknown` where it is not kept, as for `0.0`.
    ///
    /// It finds the item where it was last found, or by a binary search, and searches for the stamp in its chain, or knows the latest.
    #[inline(always)]
    pub fn get<'b>(&self, block: &'b Block, key: &Key, stamp: Option<Stamp>) -> GetReply<'b>
        requires { LiesIn block.now self.now }
        ensures { IsAnswered block.now self.now (Call.Get key.now stamp)
            (Reply.Get (copied result)) }
    {
        let Ok(place) = items::search(&self.entries, key) else {
            return match stamp {
                Some(_) => GetReply::Unknown,
                None => GetReply::Initial,
            };
        };
        let item = self.entries.get(place);
        let Some(stamp) = stamp else {
            return match self.versions.chains.latest(block, item.chain) {
                Some(latest) => {
                    let _written = latest.stamp();
                    GetReply::Version(latest)
                }
                None => GetReply::Initial,
            };
        };
        if stamp < item.entry.floor {
            return GetReply::Collected(item.entry.floor);
        }
        match self.versions.find(block, item.chain, stamp) {
            Some(version) => GetReply::Version(version),
            None => GetReply::Unknown,
        }
    }

    /// Reports the items that stand under a tag, and changes nothing: how many they are, and the first of their keys in byte
    /// order, all of them or `MAX_FOUND`. An item stands under the tag of its latest committed version; under the empty tag stands
    /// none. This search is the store's own.
    ///
    /// It looks the tag up in the index, and visits neither versions nor entries.
    pub fn found(&self, tag: &Tag) -> Found
        ensures { (block : Cells)
            → IsAnswered block self.now (Call.Found tag.now) (Reply.Found result) }
    {
        self.index.under(tag)
    }

    /// Raises the floor of each item to the `keep`-th greatest of its committed stamps, where it has so many and the
    /// floor is lower. Gives up the versions below their items' floors, committed or not, and answers how many they
    /// were. Entries stay, and each item stands under the same tag as before. This rule is the store's own.
    ///
    /// It visits the items of which a version was committed since the last collection, each where it was last found, and walks down the chain of
    /// each. Where the last one kept more versions, it visits those of which one was committed since the last that kept the least; and all
    /// items in their order where even that one kept more.
    ///
    /// Where it gave up any version, it goes over the list of the kept versions once. Where bases are cut of the cell, the next cut is
    /// near by the number of collections between the last two, and much changed since, it packs that ahead of the next, which takes
    /// memory; where an allocation failed, the next cut packs all.
    pub fn collect(&mut self, block: &mut Block, keep: Keep) -> u32
        requires { LiesIn block.old self.old }
        ensures { IsServed block.old self.old block.new self.new
            (Call.Collect keep) (Reply.Freed result) }
    {
        let freed = self.collect_items(block, keep);
        self.pack_ahead(block);
        freed
    }

    // Does what `collect` does, and packs nothing.
    fn collect_items(&mut self, block: &mut Block, keep: Keep) -> u32
        requires { LiesIn block.old self.old }
        ensures { IsServed block.old self.old block.new self.new
            (Call.Collect keep) (Reply.Freed result) }
    {
        note_collected(
            &mut self.last_base.since,
            &self.changed,
            &self.left,
            self.items,
            self.last,
            self.least,
            keep,
        );
        collect(
            block,
            &mut self.entries,
            &mut self.versions,
            &mut self.changed,
            &mut self.left,
            &mut self.last,
            &mut self.least,
            keep,
        )
    }

    // Packs a bounded number of the items that changed since the last base, where they are many. Where an allocation fails, the next
    // cut packs all.
    fn pack_ahead(&mut self, block: &Block)
        requires { LiesIn block.now self.old }
        ensures lies { LiesIn block.now self.new }
        ensures rest { self.new ≡ begun_with self.old self.new.begun self.new.since }
    {
        self.last_base.collections = self.last_base.collections.saturating_add(1);
        if self.last_base.is_much_changed() {
            self.pack_changed(block);
        }
    }

    // Does what `pack_ahead` does where they are many. It stands alone, so that no other collection has room for it.
    #[cold]
    #[inline(never)]
    fn pack_changed(&mut self, block: &Block)
        requires { LiesIn block.now self.old }
        ensures lies { LiesIn block.now self.new }
        ensures rest { self.new ≡ begun_with self.old self.new.begun self.new.since }
    {
        let alloc = *self.marks.allocator();
        let Ok(free) = self.tidy() else {
            return;
        };
        match pack_noted(
            alloc,
            block,
            &self.entries,
            &self.versions,
            &mut self.last_base,
            free,
        ) {
            Ok(()) => (),
            Err(_) => self.last_base.since.note_all(self.items),
        }
    }

    /// How much it holds. It visits none of that.
    pub fn holdings(&self) -> Holdings
        ensures { (block : Cells) → LiesIn block self.now
            → IsHeldIn (content_in block self.now) result }
    {
        // There are no more marks than these.
        let _most = self.clients;
        Holdings {
            versions: self.versions.chains.used(),
            items: self.entries.len() as u32,
            marks: self.marks.len() as u32,
        }
    }

    /// What the cell holds, as a base. It packs the versions of each item that a call may have changed since the last base was cut of
    /// the cell, or the cell began at one; the others lie in parts that the base shares. The condition is that the cell stands for
    /// some log. The one error is that an allocation failed.
    pub fn base(&self, block: &Block) -> Result<Base, AllocError>
        requires lies { LiesIn block.now self.now }
        requires log { (log : Log) × IsSound self.now.room log
            × StandsFor (content_in block.now self.now) log }
        ensures { IfOk result (λ base. base ≡ base_of block.now self.now) }
    {
        self.base_at(block, self.last_base.parts.len())
    }

    // What `base` reports, with what changed in a part that is put at a number where no item lies that did not change.
    fn base_at(&self, block: &Block, free: usize) -> Result<Base, AllocError>
        requires lies { LiesIn block.now self.now }
        requires log { (log : Log) × IsSound self.now.room log
            × StandsFor (content_in block.now self.now) log }
        requires free { HasRoomAt self.now.begun self.now.since self.now.items free }
        ensures { IfOk result (λ base. base ≡ base_of block.now self.now) }
    {
        let alloc = *self.marks.allocator();
        let held = self.held(alloc, block, free)?;
        let marks = Vec::from_slice(alloc, &self.marks)?;
        Ok(Base {
            slots: self.slots,
            items: self.items,
            clients: self.clients,
            held,
            marks,
        })
    }

    /// What `base` reports, of which the cell then shares the parts: what is made or compared next takes from there what did not change.
    /// Where the parts are many, or have much that no base wants any more, items are packed anew that did not change: a bounded number.
    pub fn cut(&mut self, block: &Block) -> Result<Base, AllocError>
        requires lies { LiesIn block.now self.old }
        requires log { (log : Log) × IsSound self.old.room log
            × StandsFor (content_in block.now self.old) log }
        ensures base { IfOk result (λ base. base ≡ base_of block.now self.old) }
        ensures lies { LiesIn block.now self.new }
        ensures rest { self.new ≡ begun_with self.old self.new.begun self.new.since }
    {
        let free = self.tidy()?;
        let base = self.base_at(block, free)?;
        self.begin(&base.held)?;
        self.last_base.was_cut = true;
        self.last_base.between_cuts = self.last_base.collections;
        self.last_base.collections = 0;
        Ok(base)
    }

    // Where the next base puts its new part. Where the parts of the last base are scattered, it notes items that did not change, so
    // that a part has no other any more: all of a small cell, at most twice `MOST_MOVED` of any other. Above `MOST_PARTS` parts the new
    // part adds none. The one error is that an allocation failed.
    fn tidy(&mut self) -> Result<usize, AllocError>
        ensures lies { (block : Cells) → LiesIn block self.old → LiesIn block self.new }
        ensures rest { self.new ≡ begun_with self.old self.new.begun self.new.since }
        ensures few { MOST_MOVED < length self.old.items
            → NotesFew (MOST_MOVED + MOST_MOVED) self.old.since self.new.since }
        ensures free { IfOk result (λ free. (block : Cells) → LiesIn block self.old
            → HasRoomAt self.new.begun self.new.since self.new.items free) }
        ensures parts { length self.old.items ≤ max_room
            → IfOk result (λ free. (part : List Holding)
            → length (put_at self.new.begun.parts free part)
            ≤ max (MOST_PARTS + 1) (length self.old.begun.parts)) }
    {
        let alloc = *self.marks.allocator();
        if !is_scattered(&self.last_base.parts, self.entries.len()) {
            return Ok(self.last_base.parts.len());
        }
        if is_small(self.entries.len()) {
            self.last_base.since.note_all(self.items);
            self.last_base.parts = PartList::new(alloc);
            return Ok(0);
        }
        let room = make_room(
            alloc,
            self.entries.len() as u32,
            &self.last_base.parts,
            &self.last_base.spots,
            &mut self.last_base.since,
        )?;
        Ok(room.unwrap_or(self.last_base.parts.len()))
    }

    // Shares the parts of what is held, which is just what the items have. The one error is that an allocation failed; nothing
    // changes then.
    fn begin(&mut self, held: &Held) -> Result<(), AllocError>
        requires { (block : Cells) × LiesIn block self.old
            × (held.now ≡ holdings self.old.items (chain_lists block self.old.chains)) }
        ensures lies { (block : Cells) → LiesIn block self.old
            → held.now ≡ holdings self.old.items (chain_lists block self.old.chains)
            → LiesIn block self.new }
        ensures rest { self.new ≡ begun_with self.old self.new.begun self.new.since }
    {
        let alloc = *self.marks.allocator();
        let (parts, places) = held.parts();
        self.last_base.parts = parts.copied(alloc)?;
        set_spots(&self.entries, places, &mut self.last_base.spots);
        self.last_base.since.clear();
        Ok(())
    }

    // What the items have. The one error is that an allocation failed.
    fn held(&self, alloc: Global, block: &Block, free: usize) -> Result<Held, AllocError>
        requires lies { LiesIn block.now self.now }
        requires free { HasRoomAt self.now.begun self.now.since self.now.items free }
        ensures { let lists = chain_lists block.now self.now.chains in
            IfOk result (λ held. held ≡ holdings self.now.items lists) }
    {
        held_items(
            alloc,
            block,
            &self.entries,
            &self.versions,
            &self.last_base,
            free,
        )
    }

    /// Whether the cell holds just what a base does, with the base's room. Of an item that no call changed since the last base it
    /// compares where it lies, where both have the same parts, which it finds by their bytes; it visits the versions of the others.
    /// The one error is that an allocation failed, for copies of versions.
    pub fn holds(&self, block: &Block, base: &Base) -> Result<bool, AllocError>
        requires { LiesIn block.now self.now }
        ensures { IfOk result (λ yes. IsTrue yes ↔ (base_of block.now self.now ≡ base.now)) }
    {
        if !self.has_room_of(base) {
            return Ok(false);
        }
        if !are_marks(&self.marks, &base.marks) {
            return Ok(false);
        }
        self.has(block, &base.held)
    }

    // Whether the cell has the room of a base.
    fn has_room_of(&self, base: &Base) -> bool
        ensures { IsTrue result ↔ (self.now.room ≡ base.now.room) }
    {
        self.slots == base.slots && self.items == base.items && self.clients == base.clients
    }

    // Whether the items have just what is held. The one error is that an allocation failed.
    fn has(&self, block: &Block, held: &Held) -> Result<bool, AllocError>
        requires { LiesIn block.now self.now }
        ensures { IfOk result (λ yes. IsTrue yes
            ↔ (holdings self.now.items (chain_lists block.now self.now.chains) ≡ held.now)) }
    {
        let alloc = *self.marks.allocator();
        has_items(
            alloc,
            block,
            &self.entries,
            &self.versions,
            &self.last_base,
            held,
        )
    }

    /// Whether the cell holds just what a base does, as `holds` reports. Where it does, it shares the base's parts then, as after `cut`.
    pub fn begins_at(&mut self, block: &Block, base: &Base) -> Result<bool, AllocError>
        requires { LiesIn block.now self.old }
        ensures exact { IfOk result (λ yes. IsTrue yes ↔ (base_of block.now self.old ≡ base.now)) }
        ensures lies { LiesIn block.now self.new }
        ensures rest { self.new ≡ begun_with self.old self.new.begun self.new.since }
    {
        let begins_there = self.holds(block, base)?;
        if begins_there {
            self.begin(&base.held)?;
        }
        Ok(begins_there)
    }

    /// Serves any of these calls by its own method, and answers its reply, with a copy of the record that `get` lends.
    pub fn apply(&mut self, block: &mut Block, call: &Call) -> Reply
        requires { LiesWithShare block.old self.old }
        ensures { IsServed block.old self.old block.new self.new call.now result }
    {
        match call {
            Call::Prepare(version) => Reply::Prepare(self.prepare(block, version)),
            Call::Commit(stamp) => Reply::Committed(self.commit(block, *stamp)),
            Call::Get(key, stamp) => Reply::Get(self.get(block, key, *stamp).copied()),
            Call::Found(tag) => Reply::Found(self.found(tag)),
            Call::Collect(keep) => Reply::Freed(self.collect(block, *keep)),
            Call::Discard(stamp) => Reply::Discard(self.discard(block, *stamp)),
        }
    }

    // Puts what stands under a tag into the caller's buffer. It stands alone, so that no other call has room for it.
    #[cold]
    #[inline(never)]
    fn found_into(&self, tag: &Tag, reply: &mut Option<Reply>)
        ensures { (block : Cells)
            → IsSomeAnd reply.new (λ told. IsAnswered block self.now (Call.Found tag.now) told) }
    {
        put_found(self.found(tag), reply);
    }

    /// Does what `apply` does, and puts the reply into the caller's buffer, over a reply of the same kind where it lies.
    pub fn apply_into(&mut self, block: &mut Block, call: &Call, reply: &mut Option<Reply>)
        requires { LiesWithShare block.old self.old }
        ensures lies { LiesIn block.new self.new }
        ensures own { ChangesOwn block.old block.new self.old.chains self.new.chains }
        ensures serves { IsSomeAnd reply.new (λ told.
            Serves (content_in block.old self.old) (content_in block.new self.new) call.now told) }
    {
        match call {
            Call::Prepare(version) => put_prepared(self.prepare(block, version), reply),
            Call::Commit(stamp) => put_committed(
                self.commit_counted(block, *stamp, &mut Visits::new()),
                reply,
            ),
            Call::Get(key, stamp) => put_read(&self.get(block, key, *stamp), reply),
            Call::Found(tag) => self.found_into(tag, reply),
            Call::Collect(keep) => put_freed(self.collect(block, *keep), reply),
            Call::Discard(stamp) => put_discarded(self.discard(block, *stamp), reply),
        }
    }
}

// Whether a version of this stamp is refused in an item's chain, since it was discarded and is not kept.
fn refuses(marks: &[Stamp], block: &Block, versions: &Versions, chain: u32, stamp: Stamp) -> bool
    requires order { IsInOrder nat_cmp mark_row marks.now }
    requires chain { HasChain block.now versions.now.chains chain }
    ensures { let kept = at_stamp (versions_at block.now versions.now chain) stamp in
        result ≡ (nat_le stamp (mark_in (marks_of marks.now) (client_of stamp))
        && not (is_some kept)) }
{
    marks::is_discarded(marks, stamp) && versions.find(block, chain, stamp).is_none()
}
