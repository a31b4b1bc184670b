//! Collections.
ghost use Rattle.std.specs.Prelude.{◌≡◌, ◌<◌, ◌∷◌, length, All};
ghost use Rattle.plain_store.specs.Words.{Setup, setup_of};
ghost use Rattle.plain_store.specs.declared.step.Act.TheVariants.{Collect as CollectAt, Keep as SetKeep};
ghost use Rattle.plain_store.specs.History.{History};
ghost use Rattle.plain_store.specs.Run.{moment_of};
ghost use Rattle.partition.specs.Shelf.{tenants as seats};
ghost use Rattle.partition.specs.declared.shelf.Shelf.{Shelf as Shelved};
ghost use Rattle.tenant_sessions.specs.Sessions.{IsRun};
ghost use Rattle.world.specs.Standing.{TenantStandsFor, CellsStandFor, TenantSteps, OthersStay};
ghost use Rattle.world.specs.Served.{TakesAtOnce};

use crate::tenant::Tenant;
use partition::Shelf;
use plain_store::{Answer, Call, Refusal, Reply};
use stamps::Keep;

impl Tenant {
    /// Has the tenant's cell at a partition give up old versions. It keeps as many as are set now.
    pub fn collect(&self, number: u32, shelves: &mut [Shelf], partition: u32, answer: &mut Answer)
        requires { All (λ (shelf : Shelved). number < seats shelf) shelves.old }
        ensures serves { (setup : Setup) (history : History)
            → setup ≡ setup_of (length shelves.old) self.now.limits → IsRun setup history
            → TenantStandsFor setup history self.now
            → CellsStandFor setup history shelves.old number
            → TenantSteps setup history (CollectAt partition) answer.new self.now
            × CellsStandFor setup (moment_of setup history (CollectAt partition)
            ∷ history) shelves.new number }
        ensures others { OthersStay shelves.old shelves.new number }
    {
        let place = partition as usize;
        if place >= shelves.len() {
            *answer = Answer::Refused(Refusal::NoPartition);
            return;
        }
        match shelves[place].apply(number, &Call::Collect(self.keep)) {
            Reply::Freed(count) => *answer = Answer::Freed(count),
            _ => *answer = Answer::Freed(0),
        }
    }

    /// From now on each collection keeps this many committed versions of an item. No version is dropped by that.
    pub fn set_keep(&mut self, keep: Keep, answer: &mut Answer)
        ensures { TakesAtOnce (SetKeep keep) self.old self.new answer.new }
    {
        self.keep = keep;
        *answer = Answer::Keeps(keep);
    }
}
