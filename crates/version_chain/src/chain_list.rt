//! Chains of versions, packed one behind the other.
ghost use Rattle.std.specs.Prelude.{◌≡◌, ◌<◌, ◌+◌, ◌++◌, ◌↔◌, ℕ, [], length, IsTrue, slice_index_or, OnOk};
ghost use Rattle.packed.specs.Cuts.{IsCut, pieces, start_of};

use crate::version_list::VersionList;
use std::alloc::{AllocError, Global};
use std::marker::Model;

/// Chains of versions, packed one behind the other. Contracts see the list of the chains, each as the list of its versions.
#[derive(Drop)]
pub struct ChainList {
    versions: VersionList,
    // Where each chain ends among the versions.
    ends: Vec<usize>,
}

impl Model for ChainList {
    ghost use Rattle.std.specs.Prelude.{List, length};
    ghost use Rattle.packed.specs.Cuts.{IsCut, pieces};
    ghost use Rattle.version_chain.specs.declared.version.Version.{Version as Kept};

    ghost Value = { List (List Kept) };

    ghost view = { λ l. pieces l.versions 0 l.ends.items };

    ghost invariant = { λ l. IsCut 0 l.ends.items (length l.versions) };
}

impl ChainList {
    /// The chains that end at these places of a list of versions, each where the next begins, the last at the end of the list.
    pub fn of(versions: VersionList, ends: Vec<usize>) -> ChainList
        requires { IsCut 0 ends.items (length versions) }
        ensures { result ≡ pieces versions 0 ends.items }
    {
        ChainList { versions, ends }
    }

    /// Puts a chain's versions at the end of a list, byte by byte. The one error is that an allocation failed; some of them may be
    /// there then.
    pub fn put_to(&self, at: usize, list: &mut VersionList) -> Result<(), AllocError>
        requires { at < length self.now }
        ensures { OnOk result (list.new ≡ list.old ++ slice_index_or self.now at []) }
    {
        let (start, count) = part_at(&self.ends, at);
        list.push_part(&self.versions, start, count)
    }

    /// Whether both lie the same, and then have the same chains. It compares bytes, and unpacks none.
    pub fn is(&self, other: &ChainList) -> bool
        ensures { IsTrue result → self.now ≡ other.now }
    {
        self.versions.is(&other.versions) && are_ends(&self.ends, &other.ends)
    }

    /// Whether a chain has the versions of a list, in the same order. It compares bytes, and unpacks none.
    pub fn is_list(&self, at: usize, list: &VersionList) -> bool
        requires { at < length self.now }
        ensures { IsTrue result ↔ (slice_index_or self.now at [] ≡ list.now) }
    {
        let (start, count) = part_at(&self.ends, at);
        count == list.len() && self.versions.has_part(start, list, 0, count)
    }

    /// Whether a chain has the versions of a chain of another list, in the same order. It compares bytes, and unpacks none.
    pub fn is_chain(&self, at: usize, other: &ChainList, place: usize) -> bool
        requires own { at < length self.now }
        requires others { place < length other.now }
        ensures { IsTrue result
            ↔ (slice_index_or self.now at [] ≡ slice_index_or other.now place []) }
    {
        let (start, count) = part_at(&self.ends, at);
        let (from, many) = part_at(&other.ends, place);
        count == many && self.versions.has_part(start, &other.versions, from, count)
    }
}

/// Whether chains end at the same places.
fn are_ends(one: &[usize], other: &[usize]) -> bool
    ensures { IsTrue result ↔ (one.now ≡ other.now) }
{
    one == other
}

/// Where a chain begins.
fn start_of(ends: &[usize], at: usize) -> usize
    requires { at < length ends.now }
    ensures { result ≡ start_of 0 ends.now at }
{
    if at == 0 { 0 } else { ends[at - 1] }
}

/// Where a chain begins, and how long it is.
fn part_at(ends: &[usize], at: usize) -> (usize, usize)
    requires cut { (total : ℕ) × IsCut 0 ends.now total }
    requires place { at < length ends.now }
    ensures start { result.0 ≡ start_of 0 ends.now at }
    ensures end { result.0 + result.1 ≡ slice_index_or ends.now at 0 }
{
    let start = start_of(ends, at);
    (start, ends[at] - start)
}
