//! The known keys of an index, in byte order.
ghost use Rattle.std.specs.Prelude.{◌≡◌, ◌+◌, ◌<◌, ◌≤◌, ◌⊎◌, MatchResult, IsTrue, length, count_by, bytes_eq, if◌then◌else◌, option_copied, is_some, max, [], unwrap_or, Some};
ghost use Rattle.std.specs.Prelude.{ℕ, slice_index_or};
ghost use Rattle.std.specs.declared.cmp.Ordering.TheVariants.{Less};
ghost use Rattle.std.specs.FinMap as map;
ghost use Rattle.stamps.specs.Key.{key_cmp};
ghost use Rattle.secondary_index.specs.declared.entries.TaggedKey.{TaggedKey as Entry};
ghost use Rattle.secondary_index.specs.Ordered.{IsInOrder, StandsAt, BelongsAt};
ghost use Rattle.secondary_index.specs.Layout.{entry_row, tags_of, is_tagged_entry};

use lists::RowList;
use stamps::{Key, Tag};

/// A known key, and the tag that it was last set to.
#[derive(Clone, Copy)]
pub(crate) struct TaggedKey {
    pub(crate) key: Key,
    pub(crate) tag: Tag,
}

/// Where a key's entry stands, or else where it would go in.
pub(crate) fn search(entries: &RowList<TaggedKey>, key: &Key) -> Result<usize, usize>
    requires { IsInOrder key_cmp entry_row entries.now.items }
    ensures { MatchResult result (StandsAt key_cmp entry_row key.now entries.now.items)
        (BelongsAt key_cmp entry_row key.now entries.now.items) }
{
    entries.binary_search_by(|entry| entry.key.cmp(key))
}

/// Whether a key's entry stands at a place.
pub(crate) fn stands_at(entries: &RowList<TaggedKey>, place: usize, key: &Key) -> bool
    ensures { IsTrue result → StandsAt key_cmp entry_row key.now entries.now.items place }
{
    if place >= entries.len() {
        return false;
    }
    entries.get(place).key == *key
}

/// Whether a key has no entry, and one would go in at a place.
pub(crate) fn belongs_at(entries: &RowList<TaggedKey>, place: usize, key: &Key) -> bool
    requires { IsInOrder key_cmp entry_row entries.now.items }
    ensures { IsTrue result → BelongsAt key_cmp entry_row key.now entries.now.items place }
{
    if place > entries.len() {
        return false;
    }
    if !is_above(entries, place, key) {
        return false;
    }
    is_below(entries, place, key)
}

/// Whether a key is above that of the entry before a place, if there is one.
fn is_above(entries: &RowList<TaggedKey>, place: usize, key: &Key) -> bool
    requires { place ≤ length entries.now.items }
    ensures { IsTrue result → (k : ℕ) (d : Entry) → k + 1 ≡ place
        → key_cmp (slice_index_or entries.now.items k d).key key.now ≡ Less }
{
    if place == 0 {
        return true;
    }
    entries.get(place - 1).key.cmp(key).is_lt()
}

/// Whether a key is below that of the entry at a place, if there is one.
fn is_below(entries: &RowList<TaggedKey>, place: usize, key: &Key) -> bool
    ensures { IsTrue result → (d : Entry) → place < length entries.now.items
        → key_cmp key.now (slice_index_or entries.now.items place d).key ≡ Less }
{
    if place >= entries.len() {
        return true;
    }
    key.cmp(&entries.get(place).key).is_lt()
}

/// Whether a key's entry stands at a place and has this tag.
pub(crate) fn has_at(entries: &RowList<TaggedKey>, place: usize, key: &Key, tag: Tag) -> bool
    requires { IsInOrder key_cmp entry_row entries.now.items }
    ensures { IsTrue result → map.get (tags_of entries.now.items) key.now ≡ Some tag }
{
    if !stands_at(entries, place, key) {
        return false;
    }
    entries.get(place).tag == tag
}

/// Puts in an entry, and answers the tag that the key had, if it was known.
pub(crate) fn put(entries: &mut RowList<TaggedKey>, entry: TaggedKey) -> Option<Tag>
    requires order { IsInOrder key_cmp entry_row entries.old.items }
    requires room { IsTrue (map.contains_key (tags_of entries.old.items) entry.key)
        ⊎ (length entries.old.items < entries.old.room) }
    ensures order { IsInOrder key_cmp entry_row entries.new.items }
    ensures tags { tags_of entries.new.items
        ≡ map.insert (tags_of entries.old.items) entry.key entry.tag }
    ensures old { result ≡ map.get (tags_of entries.old.items) entry.key }
    ensures len { length entries.new.items
        ≡ (if is_some result then length entries.old.items else length entries.old.items + 1) }
    ensures room { entries.new.room ≡ entries.old.room }
    ensures tagged { count_by is_tagged_entry entries.new.items
        + (if bytes_eq (unwrap_or result []) [] then 0 else 1)
        ≡ count_by is_tagged_entry entries.old.items + (if bytes_eq entry.tag [] then 0 else 1) }
{
    match search(entries, &entry.key) {
        Ok(index) => {
            let old = entries.get(index).tag;
            entries.set(index, entry);
            Some(old)
        }
        Err(index) => {
            entries.insert(index, entry);
            None
        }
    }
}
