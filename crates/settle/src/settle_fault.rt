//! Why there is no verdict.
ghost use Rattle.std.specs.Prelude.{◌≡◌};

use plain_store::OutOfMemory;
use std::alloc::AllocError;

/// Why journals and transcripts were not settled.
#[derive(Clone, Copy, Debug, PartialEq, Eq)]
pub enum SettleFault {
    /// There is no tenant of this number.
    NoTenant,
    /// A journal, the epochs before what a journal has, the transcript of a seat's event, or the event of a reply that was
    /// taken is not there.
    Missing,
    /// What the journals and the transcripts say is not what the store does.
    Mismatch,
    /// Steps are left, and none can come next.
    Stuck,
    /// Memory was refused.
    OutOfMemory,
}

impl From<OutOfMemory> for SettleFault {
    ghost use Rattle.settle.specs.declared.settle_fault.SettleFault.TheVariants.{OutOfMemory as NoMemory};

    ghost from_gives = { λ _ fault. fault ≡ NoMemory };

    fn from(_: OutOfMemory) -> SettleFault {
        SettleFault::OutOfMemory
    }
}

impl From<AllocError> for SettleFault {
    ghost use Rattle.settle.specs.declared.settle_fault.SettleFault.TheVariants.{OutOfMemory as NoMemory};

    ghost from_gives = { λ _ fault. fault ≡ NoMemory };

    fn from(_: AllocError) -> SettleFault {
        SettleFault::OutOfMemory
    }
}
