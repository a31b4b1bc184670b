//! Lists of what a reader asks for in its second round.
use lists::SmallList;
use stamps::{Key, Stamp, limits};

/// A key, and the stamp of the version that is needed of it.
#[derive(Clone, Copy, Debug, PartialEq, Eq)]
pub struct Late {
    pub key: Key,
    pub stamp: Stamp,
}

/// The late keys of a read in the order given, up to `MAX_KEYS`.
pub type LateKeys = SmallList<Late, { limits::MAX_KEYS }>;
