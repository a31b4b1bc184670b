//! Which part of the last base the next one replaces, so that the parts stay few and have little that no base wants any more.
ghost use Rattle.std.specs.Prelude.{◌≡◌, ◌≢◌, ◌+◌, ◌↔◌, ◌<◌, ◌≤◌, ◌/◌, ◌⊎◌, ℕ, false, length, IsTrue, IfOk, IfSome, None, slice_index_or};
ghost use Rattle.std.specs.List.{sum_by};
ghost use Rattle.stamps.specs.Limits.{max_room};
ghost use Rattle.prepare_commit.specs.Begun.{IsLeft, NotesFew, NotesJust, NotesMore, entries_of, kept_in, no_place};

use crate::changed::ChangedChains;
use crate::parts::{EntryPosition, PartList};
use std::alloc::{AllocError, Global};

/// Above so many parts each cut replaces one. A cell has at most 65536 items, so that one of more parts has at most 255 of them.
pub(crate) const MOST_PARTS: usize = 256;

/// For one part that is replaced, a cut packs at most so many items that did not change.
pub(crate) const MOST_MOVED: usize = 512;

/// Whether so few items are packed anew at once, if need be.
pub(crate) fn is_small(items: usize) -> bool
    ensures { IsTrue result ↔ (items ≤ MOST_MOVED) }
{
    items <= MOST_MOVED
}

/// Whether the parts are many, or have much that no base wants any more.
pub(crate) fn is_scattered(parts: &PartList, items: usize) -> bool
    ensures { IsTrue result
        ↔ ((MOST_PARTS < length parts.now) ⊎ (items < entries_of parts.now / 2)) }
{
    are_many(parts) || are_wasteful(parts, items)
}

fn are_many(parts: &PartList) -> bool
    ensures { IsTrue result ↔ (MOST_PARTS < length parts.now) }
{
    parts.len() > MOST_PARTS
}

// Whether more than half of the entries are no item's any more.
fn are_wasteful(parts: &PartList, items: usize) -> bool
    ensures { IsTrue result ↔ (items < entries_of parts.now / 2) }
{
    parts.entries() / 2 > items
}

/// A part that the next base can replace, if there is one. There is one where the parts are more than `MOST_PARTS`, and the chains at
/// most as many as a cell has items. Of the first so many chains, each of which is an item's, it notes at most `MOST_MOVED` of the part
/// with the most that no base wants any more, or of the one with the fewest items, or of both. The one error is that an allocation failed.
pub(crate) fn make_room(
    alloc: Global,
    chains: u32,
    parts: &PartList,
    spots: &[EntryPosition],
    since: &mut ChangedChains,
) -> Result<Option<usize>, AllocError>
    requires spots { chains ≤ length spots.now }
    requires since { chains ≤ length since.old }
    ensures more { NotesMore since.old since.new }
    ensures few { NotesFew (MOST_MOVED + MOST_MOVED) since.old since.new }
    ensures within { IfOk result (λ free. IfSome free (λ part. part < length parts.now)) }
    ensures free { IfOk result (λ free. IfSome free (IsLeft spots.now since.new chains)) }
    ensures room { MOST_PARTS < length parts.now → chains ≤ max_room
        → IfOk result (λ free. free ≢ None) }
{
    let kept = count_kept(alloc, chains, parts, spots, since)?;
    if are_wasteful(parts, chains as usize) {
        let part = most_unused(parts, &kept);
        if part < parts.len() && note_in(chains, spots, since, part) {
            return Ok(Some(part));
        }
    }
    if are_many(parts) {
        let part = emptiest(&kept);
        if part < parts.len() && note_in(chains, spots, since, part) {
            return Ok(Some(part));
        }
    }
    Ok(None)
}

// How many chains that are not noted lie in each part. The one error is that an allocation failed.
fn count_kept(
    alloc: Global,
    chains: u32,
    parts: &PartList,
    spots: &[EntryPosition],
    since: &ChangedChains,
) -> Result<Vec<usize>, AllocError>
    requires spots { chains ≤ length spots.now }
    requires since { chains ≤ length since.now }
    ensures long { IfOk result (λ counts. length counts.items ≡ length parts.now) }
    ensures each { IfOk result (λ counts. (part : ℕ) → part < length counts.items
        → slice_index_or counts.items part 0 ≡ kept_in spots.now since.now chains part) }
    ensures all { IfOk result (λ counts. sum_by (λ n. n) counts.items ≤ chains) }
{
    let mut counts = vec![in alloc; 0usize; parts.len()]?;
    for chain in 0..chains {
        let part = spots[chain as usize].part as usize;
        if !since.has(chain) && part < counts.len() {
            counts[part] = counts[part].saturating_add(1);
        }
    }
    Ok(counts)
}

// The first of the parts with the fewest of these chains.
fn emptiest(kept: &[usize]) -> usize
    ensures within { 0 < length kept.now → result < length kept.now }
    ensures least { (part : ℕ) → part < length kept.now
        → slice_index_or kept.now result 0 ≤ slice_index_or kept.now part 0 }
{
    let mut best = 0;
    let mut fewest = usize::MAX;
    for nth in 0..kept.len() {
        if kept[nth] < fewest {
            best = nth;
            fewest = kept[nth];
        }
    }
    best
}

// The first of the parts with the most entries beside these chains.
fn most_unused(parts: &PartList, kept: &[usize]) -> usize {
    let mut best = 0;
    let mut most = 0;
    for nth in 0..parts.len().min(kept.len()) {
        let unused = parts.entries_in(nth).saturating_sub(kept[nth]);
        if unused > most {
            best = nth;
            most = unused;
        }
    }
    best
}

// Notes the chains that lie in a part, `MOST_MOVED` at most. Whether there is no other; where there is one, it notes just so many.
fn note_in(chains: u32, spots: &[EntryPosition], since: &mut ChangedChains, part: usize) -> bool
    requires spots { chains ≤ length spots.now }
    requires since { chains ≤ length since.old }
    ensures more { NotesMore since.old since.new }
    ensures few { NotesFew MOST_MOVED since.old since.new }
    ensures free { IsTrue result → IsLeft spots.now since.new chains part }
    ensures most { result ≡ false → NotesJust MOST_MOVED since.old since.new }
    ensures full { kept_in spots.now since.old chains part ≤ MOST_MOVED → IsTrue result }
{
    let mut left = MOST_MOVED;
    for chain in 0..chains {
        if lies_in(spots, since, chain, part) {
            if left == 0 {
                return false;
            }
            left -= 1;
            since.note(chain);
        }
    }
    true
}

// Whether a chain is not noted and lies in a part.
fn lies_in(spots: &[EntryPosition], since: &ChangedChains, chain: u32, part: usize) -> bool
    requires spots { chain < length spots.now }
    requires since { chain < length since.now }
    ensures { IsTrue result ↔ ((slice_index_or since.now chain false ≡ false)
        × ((slice_index_or spots.now chain no_place).part ≡ part)) }
{
    !since.has(chain) && spots[chain as usize].part as usize == part
}
