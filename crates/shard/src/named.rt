//! A caller's gate, under the name of a history.
ghost use Rattle.std.specs.Prelude.{◌≡◌};

use crate::gate::Gate;
use history::Naming;
use std::marker::PhantomData;

/// A caller's gate `W`, which knows no history, under the name `J` of the history of the store that it watches.
#[derive(Drop)]
pub struct Named<J, W> {
    gate: W,
    of: PhantomData<J>,
}

impl<J, W> Named<J, W> {
    /// This gate, under a name.
    pub fn new(gate: W) -> Named<J, W>
        ensures { result.gate ≡ gate }
    {
        Named {
            gate,
            of: PhantomData,
        }
    }
}

impl<J: Naming, W> Naming for Named<J, W> {
    ghost book = { J.book };
}

impl<J: Naming, W: Gate> Gate for Named<J, W> {
    ghost has_passed = { λ named partition nth. W.has_passed named.gate partition nth };

    ghost is_inside = { λ named partition nth. W.is_inside named.gate partition nth };

    const COUNTS: bool = W::COUNTS;

    fn pass(&self, partition: u32, nth: u64) {
        self.gate.pass(partition, nth)
    }

    fn inside(&self, partition: u32, nth: u64) {
        self.gate.inside(partition, nth)
    }
}
