//! What was left of the journals of a store whose epochs were checked.
ghost use Rattle.std.specs.Prelude.{◌≤◌, length};
ghost use Rattle.stamps.specs.Limits.{max_tenants};

use crate::epochs::Checked;
use partition::Epoch;
use stamps::Limits;

/// What was left of one tenant's journal at one partition.
#[derive(Drop)]
pub struct Ending {
    /// What is known of it by its epochs before.
    pub checked: Checked,
    /// The epoch that was left in it.
    pub epoch: Epoch,
}

/// What was left of the journals of a store.
#[derive(Drop)]
pub struct LastEpochs {
    /// The limits of its tenants, of which there are at most `MAX_TENANTS`.
    pub limits: Vec<Limits>,
    /// For each partition what was left of the tenants' journals: that of tenant n at place n.
    pub rows: Vec<Vec<Ending>>,
    pub ghost few_tenants: { length limits.items ≤ max_tenants },
}
