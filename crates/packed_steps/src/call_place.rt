//! A place that packed calls are read into.
ghost use Rattle.std.specs.Prelude.{◌≡◌};
ghost use Rattle.std.specs.Option.{option_map};
ghost use Rattle.plain_store.specs.declared.calls.Call.TheVariants.{Commit};
ghost use Rattle.packed_steps.specs.PackedCalls.{call_at};

use crate::reading_calls::call_by_into;
use packed::read_byte;
use plain_store::Call;
use stamps::Stamp;
use std::marker::Model;

/// A place that packed calls are read into, one after the other. A PREPARE is written over the last PREPARE, which lies apart from other
/// calls: it has some 740 bytes. Contracts see the call that was read last.
#[derive(Drop)]
pub struct CallPlace {
    is_prepare: bool,
    prepare: Call,
    other: Call,
}

impl Model for CallPlace {
    ghost use Rattle.std.specs.Prelude.{cond};
    ghost use Rattle.plain_store.specs.declared.calls.Call.{Call as Asked};

    ghost Value = { Asked };

    ghost view = { λ p. cond p.is_prepare p.prepare p.other };
}

impl CallPlace {
    /// One with a COMMIT of `0.0`, as if that was read.
    pub fn new() -> CallPlace
        ensures { result ≡ Commit 0 }
    {
        CallPlace {
            is_prepare: false,
            prepare: Call::Commit(Stamp::ZERO),
            other: Call::Commit(Stamp::ZERO),
        }
    }

    /// The call that was read last.
    pub fn call(&self) -> &Call
        ensures { result.now ≡ self.now }
    {
        if self.is_prepare {
            &self.prepare
        } else {
            &self.other
        }
    }

    /// Reads the call at the front, and answers the bytes behind it. Where there is none, what was read before may be lost.
    #[tactic(auto, unfolding(crate::specs::PackedCalls::call_at))]
    pub fn read<'a>(&mut self, bytes: &'a [u8]) -> Option<&'a [u8]>
        ensures { option_map (λ rest. (self.new, rest.now)) result ≡ call_at bytes.now }
    {
        let Some((form, rest)) = read_byte(bytes) else {
            return None;
        };
        self.is_prepare = form == 0;
        if self.is_prepare {
            call_by_into(form, rest, &mut self.prepare)
        } else {
            call_by_into(form, rest, &mut self.other)
        }
    }
}
