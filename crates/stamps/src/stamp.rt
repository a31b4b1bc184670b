//! Stamps.
ghost use Rattle.std.specs.Prelude.{◌≡◌, ◌+◌, ◌<◌, ◌≤◌, ◌↔◌, max, nat_eq, IsSome, IfSome, Some, refl};
ghost use Rattle.std.specs.Ordering.{nat_cmp, ordering_then};
ghost use Rattle.std.specs.Cmp.{nat_cmp_total, nat_eq_equiv, partial_equiv_from_equiv, unsigned_po, unsigned_ties};
ghost use Rattle.stamps.specs.Limits.{max_counter};
ghost use Rattle.stamps.specs.Stamp.{IsStamp, stamp, counter_of, client_of, drawn_stamp};

use crate::limits;
use std::cmp::Ordering;
use std::fmt;
use std::marker::Model;

/// When a transaction wrote: a counter, 1 to 2^40 - 1, and the number of the client that drew it, 1 to 65535; or `0.0`.
/// The counter decides the order of two stamps, and then the client. A contract sees a stamp as a number,
/// `counter * 65536 + client`, and stamps compare as these numbers do.
#[derive(Clone, Copy, Debug)]
pub struct Stamp {
    number: u64,
}

impl Model for Stamp {
    ghost use Rattle.std.specs.Prelude.{ℕ};

    ghost Value = { ℕ };

    ghost use Rattle.stamps.specs.Stamp.{IsStamp};

    ghost view = { λ s. s.number };

    ghost invariant = { λ s. IsStamp s.number };

    ghost inverse = { λ s. record { number = s } };
}

impl Stamp {
    /// `0.0`, the stamp of every item's initial version, below all others. A contract sees it as 0.
    pub const ZERO: Stamp = Stamp { number: 0 };

    /// The greatest counter, 2^40 - 1.
    pub const MAX_COUNTER: u64 = limits::MAX_COUNTER;

    /// The stamp of this counter and client. `None` where the counter is 0 or above `MAX_COUNTER`, or the client is 0.
    pub fn new(counter: u64, client: u16) -> Option<Stamp>
        ensures exact { IsSome result ↔ (0 < counter) × (counter ≤ max_counter) × (0 < client) }
        ensures value { IfSome result (λ s. s ≡ stamp counter client) }
    {
        if counter == 0 || counter > Stamp::MAX_COUNTER || client == 0 {
            return None;
        }
        Some(Stamp {
            number: stamp_number(counter, client),
        })
    }

    /// The stamp of this number, which is known to be one's. It checks nothing.
    #[inline(always)]
    pub fn of_number(number: u64) -> Stamp
        requires { IsStamp number }
        ensures { result ≡ number }
    {
        Stamp { number }
    }

    /// The stamp that the client of this one, which is not `0.0`, draws next: its counter is one above the greater of
    /// this one's and `seen`. `None` where that would be above `MAX_COUNTER`.
    pub fn next(self, seen: u64) -> Option<Stamp>
        requires { 0 < self }
        ensures exact { IsSome result ↔ (max (counter_of self) seen + 1 ≤ max_counter) }
        ensures value { IfSome result (λ s. s ≡ drawn_stamp self seen) }
    {
        let greatest = self.counter().max(seen);
        if greatest >= Stamp::MAX_COUNTER {
            return None;
        }
        Some(Stamp {
            number: stamp_number(greatest + 1, self.client()),
        })
    }

    /// The counter, 1 to 2^40 - 1, or 0 for `0.0`.
    pub fn counter(self) -> u64
        ensures value { result ≡ counter_of self }
        ensures in_range { result ≤ max_counter }
    {
        self.number / 65536
    }

    /// The number as which contracts see the stamp, `counter * 65536 + client`.
    pub fn number(self) -> u64
        ensures value { result ≡ self }
        ensures valid { IsStamp result }
    {
        self.number
    }

    /// The number of the client that drew the stamp, 1 to 65535, or 0 for `0.0`.
    pub fn client(self) -> u16
        ensures { result ≡ client_of self }
    {
        (self.number % 65536) as u16
    }
}

// The number of the stamp `counter.client`.
fn stamp_number(counter: u64, client: u16) -> u64
    requires { counter ≤ max_counter }
    ensures { result ≡ stamp counter client }
{
    counter * 65536 + u64::from(client)
}

impl PartialEq for Stamp {
    ghost eq = { nat_eq };

    ghost laws = { partial_equiv_from_equiv nat_eq_equiv };

    fn eq(&self, other: &Stamp) -> bool {
        self.number == other.number
    }
}

impl Eq for Stamp {
    ghost laws = { nat_eq_equiv };
}

impl PartialOrd for Stamp {
    ghost partial_cmp = { λ s t. Some (nat_cmp s t) };

    ghost laws = { unsigned_po };

    fn partial_cmp(&self, other: &Stamp) -> Option<Ordering> {
        Some(self.cmp(other))
    }
}

impl Ord for Stamp {
    ghost cmp = { nat_cmp };

    ghost total = { nat_cmp_total };

    ghost matches_partial_cmp = { λ s t. refl };

    ghost matches_eq = { unsigned_ties };

    fn cmp(&self, other: &Stamp) -> Ordering
        ensures as_numbers { result ≡ nat_cmp self.now other.now }
        ensures by_counter_then_client { result ≡ ordering_then
            (nat_cmp (counter_of self.now) (counter_of other.now))
            (nat_cmp (client_of self.now) (client_of other.now)) }
    {
        self.number.cmp(&other.number)
    }
}

impl fmt::Display for Stamp {
    ghost use Rattle.std.specs.Prelude.{◌++◌, ◌∷◌, Some, decimal};
    ghost use Rattle.stamps.specs.Stamp.{counter_of, client_of};

    ghost output = { λ s. Some (decimal (counter_of s) ++ 46 ∷ decimal (client_of s)) };

    fn fmt<W: fmt::Write>(&self, f: &mut fmt::Formatter<W>) -> fmt::Result {
        let counter = self.counter();
        let client = self.client();
        write!(f, "{counter}.{client}")
    }
}
