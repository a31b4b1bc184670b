//! Why a step is not taken.
ghost use Rattle.std.specs.Prelude.{◌≡◌};

use plain_store::OutOfMemory;
use std::alloc::AllocError;

/// Why a step that may come next was not taken.
#[derive(Clone, Copy, Debug, PartialEq, Eq)]
pub enum StepFault {
    /// The store does not do at the step what the journals and the transcripts say.
    Mismatch,
    /// The step delivers a message that may have been lost since it was delivered before.
    Lost,
    /// Memory was refused.
    OutOfMemory,
}

impl From<OutOfMemory> for StepFault {
    ghost use Rattle.settle.specs.declared.step_fault.StepFault.TheVariants.{OutOfMemory as NoMemory};

    ghost from_gives = { λ _ fault. fault ≡ NoMemory };

    fn from(_: OutOfMemory) -> StepFault {
        StepFault::OutOfMemory
    }
}

impl From<AllocError> for StepFault {
    ghost use Rattle.settle.specs.declared.step_fault.StepFault.TheVariants.{OutOfMemory as NoMemory};

    ghost from_gives = { λ _ fault. fault ≡ NoMemory };

    fn from(_: AllocError) -> StepFault {
        StepFault::OutOfMemory
    }
}
