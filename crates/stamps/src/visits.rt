//! A count of what a call looked at.
ghost use Rattle.std.specs.Prelude.{◌≡◌, ◌+◌, ◌<◌, ◌^◌};

use std::marker::Model;

/// How many versions, or entries of an index, were looked at. The calls that say so in their contracts count them in it.
#[derive(Clone, Copy, Debug, PartialEq, Eq)]
pub struct Visits {
    count: u64,
}

impl Model for Visits {
    ghost use Rattle.std.specs.Prelude.{ℕ};

    ghost Value = { ℕ };

    ghost view = { λ v. v.count };

    ghost inverse = { λ count. record { count = count } };
}

impl Visits {
    /// None as yet.
    pub fn new() -> Visits
        ensures { result ≡ 0 }
    {
        Visits { count: 0 }
    }

    /// One more. The condition is that fewer than 2^62 were counted.
    pub fn tick(&mut self)
        requires { self.old < 2 ^ 62 }
        ensures { self.new ≡ self.old + 1 }
    {
        self.count += 1;
    }

    /// How many they are.
    pub fn count(&self) -> u64
        ensures { result ≡ self.now }
    {
        self.count
    }
}
