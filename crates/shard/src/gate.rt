//! Where those that serve can be watched and held.
ghost use Rattle.std.specs.Prelude.{ℕ};

/// Each call of a seat passes the gate once: `pass` before the lock of its partition is asked for, and `inside` just before it
/// is served, with that lock held. A seat calls `pass` for all calls of a round before it has the first of them served, and
/// whoever serves a call, the seat or the partition's worker, calls `inside`. `nth` counts the calls that came to the
/// partition from 1, and stays at 2^62: it is the same in both. Where `COUNTS` is false it is 1 for each call.
///
/// `has_passed` and `is_inside` stand for what a call of the gate leaves. An implementation need not say what they are. Code for
/// any gate learns them from these calls alone, so a contract that names them says that the gate was called.
pub trait Gate {
    ghost has_passed: { Self → ℕ → ℕ → Type 0 } = { λ _ _ _. Unit {0} };

    ghost is_inside: { Self → ℕ → ℕ → Type 0 } = { λ _ _ _. Unit {0} };

    /// Whether the calls that come to a partition are counted. All who come there write that count, so a gate that reads no `nth`
    /// should say false: no thread waits for the count then.
    const COUNTS: bool = true;

    /// Before call `nth` of this partition, with no lock held.
    fn pass(&self, partition: u32, nth: u64)
        ensures { has_passed self.now partition nth };

    /// Just before call `nth` is served, with this partition's lock held.
    fn inside(&self, partition: u32, nth: u64)
        ensures { is_inside self.now partition nth };
}

/// Watches and holds nobody.
impl Gate for () {
    const COUNTS: bool = false;

    fn pass(&self, _partition: u32, _nth: u64) {}

    fn inside(&self, _partition: u32, _nth: u64) {}
}
