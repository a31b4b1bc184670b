//! One tenant: its limits, its messages and its sessions.
ghost use Rattle.std.specs.Prelude.{◌≡◌, ◌<◌, [], IfOk};
ghost use Rattle.stamps.specs.Bounds.{IsParts};
ghost use Rattle.plain_store.specs.Words.{setup_of, IsAct};

use message_table::Table;
use partition::Shelf;
use plain_store::{Act, Answer, OutOfMemory, Reading, Readings};
use stamps::{Keep, Limits};
use std::alloc::Global;
use tenant_sessions::Sessions;

/// What a tenant has besides its cells.
#[derive(Drop)]
pub struct Tenant {
    /// What it was opened with.
    pub limits: Limits,
    /// How many committed versions of an item a collection keeps now.
    pub keep: Keep,
    pub table: Table,
    pub sessions: Sessions,
    /// Where a session writes what it read.
    pub readings: Readings,
}

impl Tenant {
    ghost use Rattle.world.specs.Standing.{TenantStandsFor, answered_in_place};
    ghost use Rattle.world.specs.Served.{HaveItsCells, ServesAct};

    /// A tenant of `parts` partitions that has taken no step. The one error is that an allocation failed.
    pub fn open(alloc: Global, parts: u32, limits: &Limits) -> Result<Tenant, OutOfMemory>
        requires { IsParts parts }
        ensures limits { IfOk result (λ tenant. tenant.limits ≡ limits.now) }
        ensures stands { IfOk result
            (λ tenant. TenantStandsFor (setup_of parts limits.now) [] tenant) }
    {
        let sessions = Sessions::open(alloc, parts, limits.clients)?;
        let none: [Reading; 0] = [];
        let readings = Readings::of(&none).unwrap();
        Ok(Tenant {
            limits: *limits,
            keep: limits.keep,
            table: Table::open(alloc),
            sessions,
            readings,
        })
    }

    /// Takes one step of the tenant with this number, and writes its answer into the caller's buffer. The one error is that an allocation failed.
    pub fn step(
        &mut self,
        number: u32,
        shelves: &mut [Shelf],
        act: &Act,
        answer: &mut Answer,
    ) -> Result<(), OutOfMemory>
        requires valid { IsAct act.now }
        requires cells { HaveItsCells number shelves.old }
        // Memory is asked for after all tests, and not to lose, to stop, to collect or to set what is kept.
        ensures { ServesAct act.now number self.old self.new shelves.old shelves.new
            (answered_in_place result answer.new) }
    {
        match act {
            Act::Hello(client, base) => self.hello(*client, *base, answer),
            Act::Put(client, items) => self.put(*client, items.as_slice(), answer),
            Act::Get(client, keys) => self.get(*client, keys.as_slice(), answer),
            Act::Find(client, tag) => self.find(*client, *tag, answer),
            Act::Deliver(row) => self.deliver(number, shelves, *row, answer),
            Act::Lose(row) => {
                self.lose(*row, answer);
                Ok(())
            }
            Act::Retry(client) => self.retry(*client, answer),
            Act::Stop(client) => {
                self.stop(*client, answer);
                Ok(())
            }
            Act::Collect(partition) => {
                self.collect(number, shelves, *partition, answer);
                Ok(())
            }
            Act::Keep(keep) => {
                self.set_keep(*keep, answer);
                Ok(())
            }
        }
    }
}
