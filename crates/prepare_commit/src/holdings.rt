//! How much a cell holds.

/// How many versions, items and marks a cell holds, of each at most as many as it has room for.
#[derive(Clone, Copy, Debug, PartialEq, Eq)]
pub struct Holdings {
    /// The versions that it keeps.
    pub versions: u32,
    /// The items that it knows.
    pub items: u32,
    /// The clients of which a stamp was discarded.
    pub marks: u32,
}
