//! The pairs of a tag and a key that carries it, by tag and then by key.
ghost use Rattle.std.specs.Prelude.{◌≡◌, ◌+◌, ◌<◌, ◌≤◌, ◌^◌, ◌&&◌, ◌||◌, not, MatchResult, bytes_eq, if◌then◌else◌, length, map, take, drop, filter, false, []};
ghost use Rattle.plain_store.specs.Words.{is_tagged};
ghost use Rattle.secondary_index.specs.Ordered.{IsInOrder, StandsAt, BelongsAt};
ghost use Rattle.secondary_index.specs.declared.pairs.Pair.{Pair as Member};
ghost use Rattle.secondary_index.specs.Layout.{pair_cmp, pair_row, has_pair, has_own, is_pair};

use lists::RowList;
use stamps::{Key, Tag, Visits};

/// A tag, and a key that carries it.
#[derive(Clone, Copy, PartialEq, Eq, PartialOrd, Ord)]
pub(crate) struct Pair {
    pub(crate) tag: Tag,
    pub(crate) key: Key,
}

/// Where a pair stands, or else where it would go in.
fn search(pairs: &RowList<Pair>, pair: &Pair) -> Result<usize, usize>
    requires { IsInOrder pair_cmp pair_row pairs.now.items }
    ensures { MatchResult result (StandsAt pair_cmp pair_row pair.now pairs.now.items)
        (BelongsAt pair_cmp pair_row pair.now pairs.now.items) }
{
    pairs.binary_search_by(|other| other.cmp(pair))
}

/// Takes out a key's pair with the tag that it had, if it had one.
pub(crate) fn take_out(pairs: &mut RowList<Pair>, key: &Key, tag: Option<Tag>)
    requires { IsInOrder pair_cmp pair_row pairs.old.items }
    ensures order { IsInOrder pair_cmp pair_row pairs.new.items }
    ensures members { (p : Member) → has_pair pairs.new.items p
        ≡ (has_pair pairs.old.items p && not (is_pair key.now tag p)) }
    ensures len { length pairs.new.items
        + (if has_own pairs.old.items key.now tag then 1 else 0) ≡ length pairs.old.items }
    ensures room { pairs.new.room ≡ pairs.old.room }
{
    let Some(tag) = tag else {
        return;
    };
    if let Ok(index) = search(pairs, &Pair { tag, key: *key }) {
        pairs.remove(index);
    }
}

/// Puts in a key's pair with its tag, unless that is the empty one.
pub(crate) fn put_in(pairs: &mut RowList<Pair>, key: &Key, tag: Tag)
    requires order { IsInOrder pair_cmp pair_row pairs.old.items }
    requires new { has_pair pairs.old.items (record { tag = tag; key = key.now }) ≡ false }
    requires room { bytes_eq tag [] ≡ false → length pairs.old.items < pairs.old.room }
    ensures order { IsInOrder pair_cmp pair_row pairs.new.items }
    ensures members { (p : Member) → has_pair pairs.new.items p
        ≡ (has_pair pairs.old.items p || (is_tagged p.tag tag && bytes_eq p.key key.now)) }
    ensures len { length pairs.new.items
        ≡ length pairs.old.items + (if bytes_eq tag [] then 0 else 1) }
    ensures room { pairs.new.room ≡ pairs.old.room }
{
    if tag.as_bytes().is_empty() {
        return;
    }
    let pair = Pair { tag, key: *key };
    if let Err(index) = search(pairs, &pair) {
        pairs.insert(index, pair);
    }
}

/// Where the first of the pairs with a tag stands, and how many they are.
pub(crate) fn under(pairs: &RowList<Pair>, tag: &Tag) -> (usize, usize)
    requires { IsInOrder pair_cmp pair_row pairs.now.items }
    ensures within { result.0 + result.1 ≤ length pairs.now.items }
    ensures pairs { take result.1 (drop result.0 pairs.now.items)
        ≡ filter (λ p. bytes_eq p.tag tag.now) pairs.now.items }
{
    let first = pairs.partition_point(|pair| pair.tag < *tag);
    let end = pairs.partition_point(|pair| pair.tag <= *tag);
    (first, end - first)
}

/// Writes the keys of so many pairs from the first on, and counts each pair as looked at.
pub(crate) fn copy_keys(
    pairs: &RowList<Pair>,
    first: usize,
    count: usize,
    keys: &mut [Key],
    visits: &mut Visits,
)
    requires within { first + count ≤ length pairs.now.items }
    requires short { length pairs.now.items < 2 ^ 32 }
    requires room { count ≤ length keys.old }
    requires few { visits.old + count ≤ 2 ^ 62 }
    ensures keys { take count keys.new
        ≡ map (λ p. p.key) (take count (drop first pairs.now.items)) }
    ensures visits { visits.new ≡ visits.old + count }
{
    for index in 0..count {
        visits.tick();
        keys[index] = pairs.get(first + index).key;
    }
}
