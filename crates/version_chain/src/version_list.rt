//! Versions, packed one behind the other.
ghost use Rattle.std.specs.Prelude.{◌≡◌, ◌<◌, ◌≤◌, ◌+◌, ◌^◌, ◌++◌, ◌∷◌, ◌↔◌, [], length, Some, IsSome, IsTrue, slice_get, take, drop, IfOk, OnOk, OnErr};
ghost use Rattle.packed.specs.Bodies.{packed_body};
ghost use Rattle.packed.specs.Reading.{byte_at, stamp_at};
ghost use Rattle.version_chain.specs.PackedVersions.{mark_of, version_from, version_in, IsPackedVersion};

use crate::stored::{SMALL_BYTES, SMALL_ROOM, StoredNode};
use crate::version::Version;
use packed::{BODY_ROOM, PackedList, body_record, read_byte, read_stamp};
use stamps::{Record, Stamp};
use std::alloc::{AllocError, Global};
use std::marker::Model;

/// Versions, packed one behind the other: a byte for the mark, the stamp, and the other bytes of the record as they lie in a block.
/// Contracts see the list of them.
#[derive(Drop)]
pub struct VersionList {
    list: PackedList,
}

impl Model for VersionList {
    ghost use Rattle.std.specs.Prelude.{List};
    ghost use Rattle.version_chain.specs.declared.version.Version.{Version as Kept};
    ghost use Rattle.version_chain.specs.PackedVersions.{ArePackedVersions, versions_in};

    ghost Value = { List Kept };

    ghost view = { λ l. versions_in l.list.items };

    ghost invariant = { λ l. ArePackedVersions l.list.items };
}

impl VersionList {
    /// No versions. It takes no memory.
    pub fn new(alloc: Global) -> VersionList
        ensures { result ≡ [] }
    {
        VersionList {
            list: PackedList::new(alloc),
        }
    }

    /// No versions, with room for so many small ones. The one error is that an allocation failed.
    pub fn with_room(alloc: Global, versions: usize) -> Result<VersionList, AllocError>
        ensures { IfOk result (λ list. list ≡ []) }
    {
        let mut list = PackedList::new(alloc);
        list.reserve(versions, versions.saturating_mul(USUAL_BYTES))?;
        Ok(VersionList { list })
    }

    /// The same versions, in just the memory that they take. The one error is that an allocation failed.
    pub fn fitted(&self, alloc: Global) -> Result<VersionList, AllocError>
        ensures { IfOk result (λ list. list ≡ self.now) }
    {
        let mut bytes = 0usize;
        for at in 0..self.list.len() {
            bytes = bytes.saturating_add(self.list.get(at).len());
        }
        let mut list = VersionList::new(alloc);
        list.list.reserve(self.list.len(), bytes)?;
        list.push_part(self, 0, self.len())?;
        Ok(list)
    }

    /// The number of versions.
    pub fn len(&self) -> usize
        ensures count { result ≡ length self.now }
        ensures few { length self.now < 2 ^ 63 }
    {
        self.list.len()
    }

    /// Whether there is no version.
    pub fn is_empty(&self) -> bool
        ensures { IsTrue result ↔ (self.now ≡ []) }
    {
        self.len() == 0
    }

    /// The version at a place, from 0, which is unpacked.
    pub fn version(&self, at: usize) -> Version
        requires { at < length self.now }
        ensures { Some result ≡ slice_get self.now at }
    {
        unpacked(self.list.get(at))
    }

    /// Copies a version of a block to the end, byte by byte. The one error is that an allocation failed; the versions are then as they
    /// were.
    pub(crate) fn push(&mut self, node: &StoredNode) -> Result<(), AllocError>
        ensures ok { OnOk result (self.new ≡ self.old ++ node.now.version ∷ []) }
        ensures err { OnErr result (self.new ≡ self.old) }
    {
        if node.len() <= SMALL_BYTES {
            let mut bytes = [0; SMALL_ROOM];
            return self.push_by(node, &mut bytes);
        }
        self.push_large(node)
    }

    // The same of a version that may be as large as any.
    #[inline(never)]
    fn push_large(&mut self, node: &StoredNode) -> Result<(), AllocError>
        ensures ok { OnOk result (self.new ≡ self.old ++ node.now.version ∷ []) }
        ensures err { OnErr result (self.new ≡ self.old) }
    {
        let _short = node.len();
        let mut bytes = [0; BODY_ROOM];
        self.push_by(node, &mut bytes)
    }

    // The same by way of a buffer, which has 63 bytes more than the record without its stamp.
    fn push_by(&mut self, node: &StoredNode, bytes: &mut [u8]) -> Result<(), AllocError>
        requires { length (packed_body node.now.version.prepared) + 63 ≤ length bytes.old }
        ensures ok { OnOk result (self.new ≡ self.old ++ node.now.version ∷ []) }
        ensures err { OnErr result (self.new ≡ self.old) }
    {
        let len = node.read(bytes);
        let mark = mark_of(node.is_committed());
        self.list.push_stamped(mark, node.stamp(), &bytes[..len])?;
        Ok(())
    }

    /// Puts versions of another list, so many from a place on, at the end, byte by byte. The one error is that memory was
    /// refused; some of them may be there then.
    pub fn push_part(
        &mut self,
        other: &VersionList,
        from: usize,
        count: usize,
    ) -> Result<(), AllocError>
        requires { from + count ≤ length other.now }
        ensures { OnOk result (self.new ≡ self.old ++ take count (drop from other.now)) }
    {
        self.list.push_part(&other.list, from, count)
    }

    /// Whether so many versions from a place on are those of another list from a place on. It compares bytes, and unpacks none.
    pub fn has_part(&self, at: usize, other: &VersionList, from: usize, count: usize) -> bool
        requires own { at + count ≤ length self.now }
        requires others { from + count ≤ length other.now }
        ensures { IsTrue result
            ↔ (take count (drop at self.now) ≡ take count (drop from other.now)) }
    {
        self.list.has_part(at, &other.list, from, count)
    }

    /// Whether both have the same versions, in the same order. It compares bytes, and unpacks none.
    pub fn is(&self, other: &VersionList) -> bool
        ensures { IsTrue result ↔ (self.now ≡ other.now) }
    {
        self.list.is(&other.list)
    }
}

/// The bytes of a version with a short key and value.
const USUAL_BYTES: usize = 64;

fn mark_of(committed: bool) -> u8
    ensures { result ≡ mark_of committed }
{
    if committed { 1 } else { 0 }
}

fn version_from(mark: u8, prepared: Record) -> Version
    ensures { result ≡ version_from mark prepared }
{
    Version {
        prepared,
        committed: mark == 1,
    }
}

/// The version of these bytes.
fn unpacked(bytes: &[u8]) -> Version
    requires { IsPackedVersion bytes.now }
    ensures { result ≡ version_in bytes.now }
{
    let (mark, rest) = front_mark(bytes);
    let (stamp, body) = front_stamp(rest);
    version_from(mark, body_record(body, stamp))
}

/// The byte at the front, and those behind it.
#[inline(always)]
fn front_mark(bytes: &[u8]) -> (u8, &[u8])
    requires { IsSome (byte_at bytes.now) }
    ensures { Some (result.0, result.1.now) ≡ byte_at bytes.now }
{
    match read_byte(bytes) {
        Some(read) => read,
        None => unreachable!(),
    }
}

/// The stamp at the front, and the bytes behind it.
#[inline(always)]
fn front_stamp(bytes: &[u8]) -> (Stamp, &[u8])
    requires { IsSome (stamp_at bytes.now) }
    ensures { Some (result.0, result.1.now) ≡ stamp_at bytes.now }
{
    match read_stamp(bytes) {
        Some(read) => read,
        None => unreachable!(),
    }
}
