//! What a reader gets.
use stamps::{Item, Stamp};

/// What a reader gets of one key. The initial version has stamp `0.0`, no tag and no value.
#[derive(Clone, Copy, Debug, PartialEq, Eq)]
pub struct Reading {
    /// What the version wrote.
    pub item: Item,
    /// When it was written.
    pub stamp: Stamp,
}
