//! Chains that were changed since something was done with them all.
ghost use Rattle.std.specs.Prelude.{◌≡◌, ◌≤◌, ◌<◌, ◌==◌, ◌||◌, ℕ, true, false, All, length, replicate, slice_set, slice_index_or, IfOk, IfSome, None};
ghost use Rattle.std.specs.List.{list_any};
ghost use Rattle.prepare_commit.specs.Remembered.{AreNoted};

use std::alloc::{AllocError, Global};
use std::marker::Model;

/// The chains of a cell that were changed since a collection, or since a base was made of it. Contracts see for each
/// chain whether it is noted.
///
/// Only `open` takes memory.
#[derive(Drop)]
pub(crate) struct ChangedChains {
    flags: Vec<bool>,
    // The numbers of the chains that are noted, each once.
    numbers: Vec<u32>,
}

impl Model for ChangedChains {
    ghost use Rattle.std.specs.Prelude.{Bool, List, ◌≤◌, length, vec_capacity};
    ghost use Rattle.prepare_commit.specs.Remembered.{AreNoted};

    ghost Value = { List Bool };

    ghost view = { λ c. c.flags.items };

    ghost invariant = { λ c. AreNoted c.flags.items c.numbers.items × (length c.flags.items ≤ vec_capacity c.numbers) };
}

impl ChangedChains {
    /// So many chains, of which none is noted. The one error is that the allocation failed.
    pub(crate) fn open(alloc: Global, chains: u32) -> Result<ChangedChains, AllocError>
        ensures { IfOk result (λ changed. changed ≡ replicate chains false) }
    {
        let mut flags = Vec::with_capacity(alloc, chains as usize)?;
        for _chain in 0..chains {
            flags.push_reserved(false);
        }
        Ok(ChangedChains {
            flags,
            numbers: Vec::with_capacity(alloc, chains as usize)?,
        })
    }

    /// Whether a chain is noted.
    pub(crate) fn has(&self, chain: u32) -> bool
        requires { chain < length self.now }
        ensures { result ≡ slice_index_or self.now chain false }
    {
        self.flags[chain as usize]
    }

    /// Whether so many chains are noted that they fill a part of a base.
    pub(crate) fn fill_a_part(&self) -> bool {
        self.numbers.len() >= A_PART
    }

    /// How many chains are noted.
    pub(crate) fn count(&self) -> usize {
        self.numbers.len()
    }

    /// The numbers of the chains that are noted, each once.
    pub(crate) fn numbers(&self) -> &[u32]
        ensures { AreNoted self.now result.now }
    {
        &self.numbers
    }

    /// Notes a chain; it may have been noted before.
    pub(crate) fn note(&mut self, chain: u32)
        requires { chain < length self.old }
        ensures { self.new ≡ slice_set self.old chain true }
    {
        let is_noted = self.flags[chain as usize];
        if is_noted {
            return;
        }
        self.flags[chain as usize] = true;
        self.numbers.push_reserved(chain);
    }

    /// Notes all chains that are noted in another set, and no others. It visits these alone.
    pub(crate) fn note_those(&mut self, others: &ChangedChains)
        requires { length self.old ≡ length others.now }
        ensures long { length self.new ≡ length self.old }
        ensures noted { (chain : ℕ)
            → slice_index_or self.new chain false
            ≡ (slice_index_or self.old chain false || slice_index_or others.now chain false) }
    {
        self.note_each(&others.numbers);
    }

    // Notes chains.
    fn note_each(&mut self, numbers: &[u32])
        requires { All (λ n. n < length self.old) numbers.now }
        ensures long { length self.new ≡ length self.old }
        ensures noted { (chain : ℕ)
            → slice_index_or self.new chain false
            ≡ (slice_index_or self.old chain false || list_any (λ n. n == chain) numbers.now) }
    {
        for chain in numbers {
            self.note(*chain);
        }
    }

    /// Notes all chains, of which there are so many.
    pub(crate) fn note_all(&mut self, chains: u32)
        requires { length self.old ≡ chains }
        ensures long { length self.new ≡ length self.old }
        ensures noted { (chain : ℕ) → chain < length self.old
            → slice_index_or self.new chain false ≡ true }
    {
        for chain in 0..chains {
            self.note(chain);
        }
    }

    /// Takes out all chains that are noted. It visits these alone.
    pub(crate) fn clear(&mut self)
        ensures long { length self.new ≡ length self.old }
        ensures none { (chain : ℕ) → slice_index_or self.new chain false ≡ false }
    {
        while let Some(_chain) = self.take() {}
    }

    /// Takes out a chain that is noted, if there is one.
    pub(crate) fn take(&mut self) -> Option<u32>
        ensures noted { IfSome result (λ chain. (chain < length self.old)
            × (slice_index_or self.old chain false ≡ true)) }
        ensures taken { IfSome result (λ chain. self.new ≡ slice_set self.old chain false) }
        ensures none { result ≡ None
            → (self.new ≡ self.old) × ((chain : ℕ) → slice_index_or self.old chain false ≡ false) }
    {
        let chain = self.numbers.pop()?;
        self.flags[chain as usize] = false;
        Some(chain)
    }
}

/// So many chains are packed together ahead of a base.
const A_PART: usize = 256;
