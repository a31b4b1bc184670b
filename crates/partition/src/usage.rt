//! How much a tenant uses of a partition.
ghost use Rattle.std.specs.Prelude.{◌≡◌, ◌<◌, Some, length, slice_get};
ghost use Rattle.partition.specs.Accounts.{Account};
ghost use Rattle.partition.specs.Used.{IsUsageOf};

use crate::Book;
use prepare_commit::Holdings;

/// How much one tenant uses of one partition, at one moment.
#[derive(Clone, Copy, Debug, PartialEq, Eq)]
pub struct Usage {
    /// How much its cell holds.
    pub holdings: Holdings,
    /// How many calls were served, collections among them.
    pub served: u64,
    /// The number of its epoch, from 1: one more than were cut.
    pub epoch: u64,
}

impl Book {
    /// How much a tenant uses now. It visits none of what the tenant's cell holds.
    pub fn usage(&self, tenant: u32) -> Usage
        requires { tenant < length self.now }
        ensures { (account : Account) → slice_get self.now tenant ≡ Some account
            → IsUsageOf account result }
    {
        let (served, epoch) = self.places(tenant);
        Usage {
            holdings: self.holdings(tenant),
            served,
            epoch,
        }
    }
}
