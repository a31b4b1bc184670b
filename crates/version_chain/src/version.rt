// What a cell of a chain holds.
ghost use Rattle.std.specs.Prelude.{◌≡◌, nat_lt, length};
ghost use Rattle.version_chain.specs.Place.{least_of};

use stamps::{Record, Stamp};

/// A version of an item, and whether its transaction is known to be committed.
#[derive(Clone, Copy, PartialEq, Eq)]
pub struct Version {
    /// What was prepared.
    pub prepared: Record,
    /// Whether it is marked as committed.
    pub committed: bool,
}

pub(crate) fn stamp_of(prepared: &Record) -> Stamp
    ensures { result ≡ prepared.now.stamp }
{
    prepared.stamp
}

// How many bytes the tag of a record has.
pub(crate) fn tag_len_of(prepared: &Record) -> u8
    ensures { result ≡ length prepared.now.tag }
{
    prepared.tag.len() as u8
}

/// Which stamps are looked for: those from one on, or those above one.
#[derive(Clone, Copy)]
pub(crate) enum Bound {
    /// This stamp and those above it.
    From(Stamp),
    /// Those above this stamp.
    Above(Stamp),
}

impl Bound {
    pub(crate) fn excludes(&self, stamp: Stamp) -> bool
        ensures { result ≡ nat_lt stamp (least_of self.now) }
    {
        match self {
            Bound::From(least) => stamp < *least,
            Bound::Above(below) => stamp <= *below,
        }
    }
}

/// What a cell of a chain holds of a version; the bytes of its record lie beside it. Whose a live slot is stands in the slot itself.
#[derive(Clone, Copy)]
pub(crate) struct Head {
    /// The stamp of the version.
    pub(crate) stamp: Stamp,
    /// The number of the tenant.
    pub(crate) tenant: u32,
    /// The number of the chain, among those of the tenant.
    pub(crate) chain: u32,
    /// How many bytes the record has without its stamp, `MAX_BODY_BYTES` at most.
    pub(crate) len: u16,
    /// How many bytes the record's tag has, `Tag::MAX_LEN` at most.
    pub(crate) tag_len: u8,
    /// Whether the version is marked as committed.
    pub(crate) committed: bool,
}
