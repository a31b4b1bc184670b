//! Lists of partitions.
ghost use Rattle.std.specs.Prelude.{◌≡◌, ◌<◌, ◌++◌, [], ◌∷◌, length};
ghost use Rattle.stamps.specs.Limits.{max_keys};

use lists::SmallList;
use stamps::limits;
use std::marker::Model;

/// Partitions in ascending order, each once: those of one write, up to `MAX_KEYS`. A byte holds the number of each, so that a list of them is small.
#[derive(Drop)]
pub struct Partitions(SmallList<u8, { Partitions::MAX_LEN }>);

impl Model for Partitions {
    ghost use Rattle.std.specs.Prelude.{ℕ, List};

    ghost Value = { List ℕ };

    ghost view = { λ p. p.0 };
}

impl Partitions {
    /// The most partitions of a write, which has no more items.
    pub const MAX_LEN: usize = limits::MAX_KEYS;

    /// No partition.
    pub fn none() -> Partitions
        ensures { result ≡ [] }
    {
        Partitions(SmallList::empty(0))
    }

    pub(crate) fn push(&mut self, partition: u8)
        requires { length self.old < max_keys }
        ensures { self.new ≡ self.old ++ partition ∷ [] }
    {
        self.0.push(partition);
    }

    /// The partitions in ascending order.
    pub fn as_slice(&self) -> &[u8]
        ensures { result.now ≡ self.now }
    {
        self.0.as_slice()
    }
}
