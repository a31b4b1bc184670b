//! The partitions that a search asks.
ghost use Rattle.std.specs.Prelude.{◌≡◌, ◌≤◌, length, map};
ghost use Rattle.std.specs.List.{list_any, list_all};
ghost use Rattle.stamps.specs.Bounds.{IsParts};
ghost use Rattle.plain_store.specs.Finding.{below};
ghost use Rattle.get_all.specs.AskedPartition.{asked_at, with_told, awaits};

use lists::SmallList;
use stamps::limits;
use std::marker::Model;

/// A partition that is asked, and whether it told what it found.
#[derive(Clone, Copy)]
pub(crate) struct AskedPartition {
    pub(crate) partition: u32,
    pub(crate) has_told: bool,
}

impl AskedPartition {
    fn new(partition: u32) -> AskedPartition
        ensures { result ≡ asked_at partition }
    {
        AskedPartition {
            partition,
            has_told: false,
        }
    }

    /// The partition once this one told what it found.
    fn with_told(self, partition: u32) -> AskedPartition
        ensures { result ≡ with_told partition self }
    {
        AskedPartition {
            has_told: self.has_told || self.partition == partition,
            ..self
        }
    }
}

/// Every partition of a store in ascending order: up to `MAX_PARTS`.
#[derive(Drop)]
pub(crate) struct AskedList(SmallList<AskedPartition, { AskedList::MAX_LEN }>);

impl Model for AskedList {
    ghost use Rattle.std.specs.Prelude.{List};
    ghost use Rattle.get_all.specs.declared.told.AskedPartition.{AskedPartition};

    ghost Value = { List AskedPartition };

    ghost view = { λ a. a.0 };
}

impl AskedList {
    const MAX_LEN: usize = limits::MAX_PARTS as usize;

    /// So many partitions, of which none told anything.
    pub(crate) fn new(parts: u32) -> AskedList
        requires { IsParts parts }
        ensures { result ≡ map asked_at (below parts) }
    {
        let mut asked = AskedList(SmallList::empty(AskedPartition::new(0)));
        asked.reset(parts);
        asked
    }

    /// Puts in its place so many partitions, of which none told anything.
    pub(crate) fn reset(&mut self, parts: u32)
        requires { IsParts parts }
        ensures { self.new ≡ map asked_at (below parts) }
    {
        self.0.clear();
        for partition in 0..parts {
            self.0.push(AskedPartition::new(partition));
        }
    }

    fn as_slice(&self) -> &[AskedPartition]
        ensures { result.now ≡ self.now }
    {
        self.0.as_slice()
    }

    /// Whether what this partition reports is the first that it reports.
    pub(crate) fn await_told(&self, partition: u32) -> bool
        ensures { result ≡ list_any (awaits partition) self.now }
    {
        self.as_slice()
            .iter()
            .any(|asked| asked.partition == partition && !asked.has_told)
    }

    /// Whether each partition told what it found.
    pub(crate) fn have_told(&self) -> bool
        ensures { result ≡ list_all (λ asked. asked.has_told) self.now }
    {
        self.as_slice().iter().all(|asked| asked.has_told)
    }

    /// Takes that this partition told what it found.
    pub(crate) fn mark(&mut self, partition: u32)
        ensures { self.new ≡ map (with_told partition) self.old }
    {
        self.0.change(|asked| take_told(asked, partition));
    }
}

/// Has each of them take that this partition told what it found.
fn take_told(asked: &mut [AskedPartition], partition: u32)
    ensures { asked.new ≡ map (with_told partition) asked.old }
{
    for one in asked.iter_mut() {
        *one = one.with_told(partition);
    }
}
