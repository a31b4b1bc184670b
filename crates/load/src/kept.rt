//! The epochs of a load whose journals are cut, all of which are kept.
ghost use Rattle.std.specs.Prelude.{◌≡◌, IfOk, IfErr};
ghost use Rattle.std.specs.Arc.{arc_value};
ghost use Rattle.line_runs.specs.declared.fault.ProgramFault.TheVariants.{OutOfMemory as NoMemory};
ghost use Rattle.load.specs.Loading.{AreAllThere};

use crate::all_there::are_all_there;
use hub::{Closed, Front, Naming, Sink};
use line_runs::ProgramFault;
use partition::Epoch;
use std::alloc::{AllocError, Global};
use std::mem;
use std::sync::{Arc, Mutex, Wait};

/// A sink that keeps each epoch, with its partition and its tenant.
#[derive(Drop)]
pub(crate) struct KeptEpochs<H> {
    rt: H,
    alloc: Global,
    came: Arc<Mutex<Vec<(u32, u32, Epoch)>>>,
}

impl<J: Naming, H: Wait> Sink<J> for KeptEpochs<H> {
    fn epoch(&self, partition: u32, tenant: u32, epoch: Epoch, _seen: &Front<J>) {
        // One that finds no memory is missing from then on: `epochs` reports so.
        let _ = self.came.lock(&self.rt).push((partition, tenant, epoch));
    }
}

impl<H: Wait + Drop> KeptEpochs<H> {
    /// A sink to which no epoch came yet, and the same sink once more: what comes to one has come to both.
    /// Each waits by a handle of its own.
    pub(crate) fn open_both(
        alloc: Global,
        one: H,
        other: H,
    ) -> Result<(KeptEpochs<H>, KeptEpochs<H>), AllocError>
        ensures { IfOk result (λ both. arc_value both.1.came ≡ arc_value both.0.came) }
    {
        let Ok(came) = Arc::new(alloc, Mutex::new(Vec::new(alloc))) else {
            return Err(AllocError);
        };
        let same = Arc::try_clone(&came)?;
        let kept = KeptEpochs {
            rt: one,
            alloc,
            came,
        };
        let sink = KeptEpochs {
            rt: other,
            alloc,
            came: same,
        };
        Ok((kept, sink))
    }

    /// All epochs of the store that was closed, which are taken out. It is `OutOfMemory` where one is missing: it found no
    /// memory when it came.
    pub(crate) fn epochs(&self, closed: &Closed) -> Result<Vec<(u32, u32, Epoch)>, ProgramFault>
        ensures all { IfOk result (λ epochs. AreAllThere closed.now epochs.items) }
        ensures refused { IfErr result (λ fault. fault ≡ NoMemory) }
    {
        let epochs = mem::replace(&mut *self.came.lock(&self.rt), Vec::new(self.alloc));
        if !are_all_there(self.alloc, closed, &epochs)? {
            return Err(ProgramFault::OutOfMemory);
        }
        Ok(epochs)
    }
}
