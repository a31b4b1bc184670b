//! A round of collections at a partition: each tenant in turn.
ghost use Rattle.std.specs.Prelude.{◌≡◌, ◌+◌, ◌*◌, ◌<◌, ◌≤◌, length, false, IsErrOf, OnErr, OnOk};
ghost use Rattle.partition.specs.Accounts.{events_at};
ghost use Rattle.shard.specs.Rounds.{AreShort};
ghost use Rattle.shard.specs.Turns.{HasCollected, HasSkipped};

use crate::collector::Collector;
use crate::jobs::Fault;
use crate::keep_settings::TenantKeep;
use crate::shard::{ShardConfig, ShardState, answer, is_full, is_long};
use history::Naming;
use plain_store::Call;

/// What stands for a seat in the event of a collection.
const COLLECTOR: u64 = 0;

/// How far a round has come. `collect_next` alone takes it further, by one tenant each.
#[derive(Drop)]
pub struct Round {
    /// Whose turn it is next.
    next: u32,
    /// Whether a journal is to be cut.
    cuts: bool,
}

/// Why a tenant was not collected in its turn.
#[derive(Clone, Copy)]
pub(crate) enum Skipped {
    /// Its journal is full, and is cut first.
    Full,
    /// The numbers of collections are used up.
    Numbers,
    /// The book has no such tenant, has a later event of the collector, or was refused memory.
    Refused(Fault),
}

impl Round {
    /// A round in which no tenant had its turn.
    pub(crate) fn new() -> Round
        ensures { (result.next ≡ 0) × (result.cuts ≡ false) }
    {
        Round {
            next: 0,
            cuts: false,
        }
    }

    /// Whether it left a journal that is to be cut.
    pub fn cuts(&self) -> bool
        ensures { result ≡ self.now.cuts }
    {
        self.cuts
    }

    /// Collects for the tenant whose turn it is, as seat 0, with its partition's lock held, and keeps as many versions as are set
    /// for it. One whose journal is full is left out until it was cut.
    pub(crate) fn collect_next<J: Naming>(
        &mut self,
        state: &mut ShardState<J>,
        config: &ShardConfig,
        collector: &Collector,
        its: &TenantKeep,
    ) -> Result<(), Skipped>
        requires { its.now.tenant ≡ self.old.next }
        ensures next { self.new.next ≡ self.old.next + 1 }
        ensures collected { OnOk result
            (HasCollected config.now.epoch its.now.keep state.old state.new self.old self.new) }
        ensures skipped { OnErr result (HasSkipped state.old state.new self.old self.new) }
        ensures full { IsErrOf result Skipped.Full
            → (0 < config.now.epoch)
            × (2 * config.now.epoch ≤ length (events_at state.old.book.accounts self.old.next)) }
        ensures no_tenant { IsErrOf result (Skipped.Refused Fault.NoTenant)
            → length state.old.book.accounts ≤ self.old.next }
        ensures short { AreShort config.now.epoch state.old.book.accounts
            → AreShort config.now.epoch state.new.book.accounts }
    {
        self.next += 1;
        let tenant = its.tenant();
        if is_full(&state.book, config.epoch, tenant) {
            return Err(Skipped::Full);
        }
        let Some(number) = collector.next_number() else {
            return Err(Skipped::Numbers);
        };
        let call = Call::Collect(its.keep());
        match answer(&mut state.book, COLLECTOR, number, tenant, &call) {
            Ok(_) => {
                state.collections.count(tenant);
                self.cuts = self.cuts || is_long(&state.book, config.epoch, tenant);
                Ok(())
            }
            Err(fault) => Err(Skipped::Refused(fault)),
        }
    }
}
