//! secondary_index: the items under a tag.
use crate::values::{key, tag};
use plain_store::Found;
use secondary_index::TagIndex;
use stamps::{Key, Tag, Visits};
use std::alloc::{AllocError, Global};

/// Whether a key stands under its last tag.
fn are_under(alloc: Global) -> Option<bool> {
    let (x, red): (Key, Tag) = (key("x")?, tag("red")?);
    let opened: Result<TagIndex, AllocError> = TagIndex::open(alloc, 1);
    let mut index = opened.ok()?;
    let has_room: bool = index.has_room();
    if !has_room {
        return Some(false);
    }
    index.set(&x, red);
    let found: Found = index.under(&red);
    let mut visits = Visits::new();
    let counted: Found = index.under_counted(&red, &mut visits);
    let is_one = found.count() == 1 && found.keys() == [x].as_slice() && counted == found;
    Some(is_one && visits.count() == 1)
}

#[test]
fn secondary_index_has_its_calls(rt: HostRuntime) {
    assert!(rt; are_under(rt.alloc()) == Some(true));
}
