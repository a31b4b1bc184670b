//! Lists of keys that a search found.
use lists::SmallList;
use stamps::{Key, limits};

/// The key that fills the unused rest of a list.
pub(crate) fn filler() -> Key {
    let text = b"-";
    Key::read(text).unwrap()
}

/// Keys that a search found: up to `MAX_FOUND`.
pub type FoundKeys = SmallList<Key, { limits::MAX_FOUND }>;
