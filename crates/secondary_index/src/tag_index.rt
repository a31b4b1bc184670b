//! The index.
ghost use Rattle.std.specs.Prelude.{◌≡◌, ℕ, ◌+◌, ◌^◌, ◌<◌, ◌≤◌, ◌↔◌, false, min, List, [], ◌∷◌, IfOk, IfSome, IsTrue};
ghost use Rattle.std.specs.FinMap as map;
ghost use Rattle.secondary_index.specs.Index.{HasPlace, Setting, IsIndexOf, with_tag, keys_under, keys_last_set_to, findings_of};
ghost use Rattle.stamps.specs.Limits.{max_found};

use crate::entries::{self, TaggedKey};
use crate::pairs::{self, Pair};
use lists::RowList;
use plain_store::Found;
use stamps::{Key, Tag, Visits};
use std::alloc::{AllocError, Global};
use std::marker::Model;

/// The tag of each known key, and for each tag the keys that carry it. A key is known once it was set, and its last tag is
/// the one that counts; the empty tag is none.
///
/// Contracts see how many keys there is room for, and a finite map from the known keys to their last tags. `open` takes all
/// the memory. Both lists are in order, so a look-up is a binary search, and `set` shifts four bytes for each key that
/// stands behind. `set_numbered` looks first where the key stood.
#[derive(Drop)]
pub struct TagIndex {
    room: u32,
    entries: RowList<TaggedKey>,
    pairs: RowList<Pair>,
    /// Where the entry of the key with each number stood, or would have gone in, when it was last looked for.
    places: Vec<u32>,
}

impl Model for TagIndex {
    ghost use Rattle.std.specs.Prelude.{◌≡◌, ◌<◌, ◌≤◌, ◌^◌, length};
    ghost use Rattle.secondary_index.specs.Index.{Index, index_code};

    ghost Value = { Index };

    ghost coded = { index_code };

    ghost use Rattle.secondary_index.specs.Layout.{tags_of, Holds};

    ghost view = { λ t. record { room = t.room; tags = tags_of t.entries.items } };

    ghost invariant = { λ t. Holds t.entries.items t.pairs.items × (length t.entries.items ≤ t.room)
        × (t.entries.room ≡ t.room) × (t.pairs.room ≡ t.room) × (t.room < 2 ^ 32) };
}

impl TagIndex {
    /// An index with room for so many keys, in this store 1 to 65536, of which none is known. Both lists are reserved
    /// here. The one error is that this allocation failed.
    pub fn open(alloc: Global, items: u32) -> Result<TagIndex, AllocError>
        ensures value { IfOk result (λ index. index ≡ record { room = items; tags = map.empty }) }
        ensures law { IfOk result (λ index. IsIndexOf index.tags []) }
    {
        Ok(TagIndex {
            room: items,
            entries: RowList::open(alloc, items)?,
            pairs: RowList::open(alloc, items)?,
            places: Vec::with_capacity(alloc, items as usize)?,
        })
    }

    /// Whether there is room for one more key.
    pub fn has_room(&self) -> bool
        ensures { IsTrue result ↔ (map.len self.now.tags < self.now.room) }
    {
        self.entries.len() < self.room as usize
    }

    /// Whether a key was ever set.
    pub fn is_known(&self, key: &Key) -> bool
        ensures { result ≡ map.contains_key self.now.tags key.now }
    {
        entries::search(&self.entries, key).is_ok()
    }

    /// Whether any known key has a tag.
    #[inline(always)]
    pub fn has_tags(&self) -> bool
        ensures { result ≡ false
            → (key : List ℕ) → IfSome (map.get self.now.tags key) (λ tag. tag ≡ []) }
    {
        self.pairs.len() > 0
    }

    /// Gives a key its tag, in place of the one that it had. The key is known from then on. This takes no memory. Where
    /// the key has the tag already, it only looks the key up; else it also shifts the places of the keys behind a new one, and
    /// of those that carry tags between the two.
    pub fn set(&mut self, key: &Key, tag: Tag)
        requires { HasPlace self.old key.now }
        ensures value { self.new
            ≡ record { room = self.old.room; tags = map.insert self.old.tags key.now tag } }
        ensures law { (settings : List Setting) → IsIndexOf self.old.tags settings
            → IsIndexOf self.new.tags (record { key = key.now; tag = tag } ∷ settings) }
    {
        let old = entries::put(&mut self.entries, TaggedKey { key: *key, tag });
        if old == Some(tag) {
            return;
        }
        pairs::take_out(&mut self.pairs, key, old);
        pairs::put_in(&mut self.pairs, key, tag);
    }

    /// Does what `set` does with a key to which its caller gave a number, below the number of keys that there is room for. Where the key has
    /// the tag already and stands where it did, it looks at that place alone.
    pub fn set_numbered(&mut self, number: u32, key: &Key, tag: Tag)
        requires { HasPlace self.old key.now }
        ensures value { self.new
            ≡ record { room = self.old.room; tags = map.insert self.old.tags key.now tag } }
        ensures law { (settings : List Setting) → IsIndexOf self.old.tags settings
            → IsIndexOf self.new.tags (record { key = key.now; tag = tag } ∷ settings) }
    {
        let place = self.place_of(number);
        if entries::has_at(&self.entries, place, key, tag) {
            return;
        }
        let has_moved = !entries::stands_at(&self.entries, place, key);
        self.set(key, tag);
        if has_moved {
            self.look_up(number, key);
        }
    }

    /// Does what `set_numbered` does, except that a key that is not known stays so where its tag is the empty one. Whether a key is
    /// known that gets the empty tag is seen where it stood or would have gone in when it was last looked for, or else by a binary search.
    pub fn move_numbered(&mut self, number: u32, key: &Key, tag: Tag)
        requires { HasPlace self.old key.now }
        ensures { self.new
            ≡ record { room = self.old.room; tags = with_tag self.old.tags key.now tag } }
    {
        if tag.as_bytes().is_empty() && !self.is_known_numbered(number, key) {
            return;
        }
        self.set_numbered(number, key, tag);
    }

    /// Whether the key with this number was ever set. Where it has moved, its place is noted.
    fn is_known_numbered(&mut self, number: u32, key: &Key) -> bool
        ensures known { result ≡ map.contains_key self.old.tags key.now }
        ensures same { self.new ≡ self.old }
    {
        let place = self.place_of(number);
        if entries::stands_at(&self.entries, place, key) {
            return true;
        }
        if entries::belongs_at(&self.entries, place, key) {
            return false;
        }
        self.look_up(number, key)
    }

    /// Where the entry of the key with this number stood, or would have gone in, when it was last looked for.
    fn place_of(&self, number: u32) -> usize {
        match self.places.get(number as usize) {
            Some(place) => *place as usize,
            None => 0,
        }
    }

    /// Whether a key was ever set, by a binary search. Where its entry stands, or would go in, is noted for its number.
    fn look_up(&mut self, number: u32, key: &Key) -> bool
        ensures known { result ≡ map.contains_key self.old.tags key.now }
        ensures same { self.new ≡ self.old }
    {
        match entries::search(&self.entries, key) {
            Ok(place) => {
                note(&mut self.places, number as usize, place as u32);
                true
            }
            Err(place) => {
                note(&mut self.places, number as usize, place as u32);
                false
            }
        }
    }

    /// How many keys carry a tag, and the first of them in byte order: all of them, or `MAX_FOUND`. No key carries the empty tag.
    pub fn under(&self, tag: &Tag) -> Found
        ensures value { result ≡ findings_of (keys_under self.now.tags tag.now) }
        ensures law { (settings : List Setting) → IsIndexOf self.now.tags settings
            → result ≡ findings_of (keys_last_set_to settings tag.now) }
    {
        self.under_counted(tag, &mut Visits::new())
    }

    /// What `under` reports, and the entries of the index that are looked at, the probes of a binary search excepted, are
    /// counted in `visits`: as many as keys are reported. At most 2^61 were counted before.
    pub fn under_counted(&self, tag: &Tag, visits: &mut Visits) -> Found
        requires { visits.old ≤ 2 ^ 61 }
        ensures value { result ≡ findings_of (keys_under self.now.tags tag.now) }
        ensures law { (settings : List Setting) → IsIndexOf self.now.tags settings
            → result ≡ findings_of (keys_last_set_to settings tag.now) }
        ensures visits { visits.new ≡ visits.old + min max_found result.count }
    {
        let (first, count) = pairs::under(&self.pairs, tag);
        if count == 0 {
            return Found::new(0, &[]);
        }
        let told = count.min(Found::MAX_KEYS);
        let mut keys = [self.pairs.get(first).key; Found::MAX_KEYS];
        pairs::copy_keys(&self.pairs, first, told, &mut keys, visits);
        Found::new(count as u32, &keys[..told])
    }
}

/// Puts a place at a number of a list, where there is room for it. Numbers that were not noted before it get the place 0.
fn note(places: &mut Vec<u32>, number: usize, place: u32) {
    if number < places.len() {
        places[number] = place;
        return;
    }
    if number >= places.capacity() {
        return;
    }
    for filled in places.len()..number {
        let _filled = filled;
        places.push_reserved(0);
    }
    places.push_reserved(place);
}
