//! A cell with a block to itself, as what it holds.
ghost use Rattle.std.specs.Prelude.{◌≡◌, ◌↔◌, ◌∷◌, IfOk, IsSomeAnd, IsTrue};
ghost use Rattle.plain_store.specs.Log.{Log};
ghost use Rattle.plain_store.specs.Replies.{reply_after};
ghost use Rattle.prepare_commit.specs.Bases.{Leaves};

use crate::{Base, Cell};
use plain_store::{Call, Reply};
use std::alloc::{AllocError, Global};
use std::marker::Model;
use version_chain::Block;

/// A cell of tenant 0, whose block no other tenant shares, and which was opened at a base. Contracts see what it holds, as a
/// base.
pub struct Replica {
    block: Block,
    cell: Cell,
}

// What lies in it is released here, so that no crate above proves it anew.
impl Drop for Replica {
    fn drop(self) {
        let Replica { block: _, cell: _ } = self;
    }
}

impl Model for Replica {
    ghost use Rattle.version_chain.specs.Chain.{HasShare};
    ghost use Rattle.prepare_commit.specs.Bases.{Frozen, base_of, HasStood};
    ghost use Rattle.prepare_commit.specs.InBlock.{LiesIn};

    ghost Value = { Frozen };

    ghost view = { λ r. base_of r.block r.cell };

    ghost invariant = { λ r. LiesIn r.block r.cell × HasShare r.block r.cell.chains × HasStood r.block r.cell };
}

impl Replica {
    /// What a base holds, with its room. It takes all memory that its calls will want, and time for each item and each version.
    /// The one error is that the allocation failed, as it also is for more than `Block::MOST_CELLS` slots.
    pub fn at(alloc: Global, base: &Base) -> Result<Replica, AllocError>
        ensures { IfOk result (λ replica. replica ≡ base.now) }
    {
        let slots = base.slots();
        if slots > Block::MOST_CELLS {
            return Err(AllocError);
        }
        let mut block = Block::open(alloc, slots.max(1))?;
        let cell = Cell::at(alloc, &mut block, base, 0)?;
        Ok(Replica { block, cell })
    }

    /// Whether it holds just what a base does, with the base's room, as `Cell::holds` reports. The one error is that memory was
    /// refused.
    pub fn is(&self, base: &Base) -> Result<bool, AllocError>
        ensures { IfOk result (λ yes. IsTrue yes ↔ (self.now ≡ base.now)) }
    {
        self.cell.holds(&self.block, base)
    }

    /// What it holds, as a base. It visits each item and each version once. The one error is that an allocation failed.
    pub fn base(&self) -> Result<Base, AllocError>
        ensures { IfOk result (λ base. base ≡ self.now) }
    {
        self.cell.base(&self.block)
    }

    /// Whether it holds just what a base does, as `is` reports. Where it does, it shares the base's parts then: of the items that no call
    /// changes, the next base is found to have the same where it has the same parts. The one error is that an allocation failed.
    pub fn begins_at(&mut self, base: &Base) -> Result<bool, AllocError>
        ensures exact { IfOk result (λ yes. IsTrue yes ↔ (self.old ≡ base.now)) }
        ensures same { self.new ≡ self.old }
    {
        self.cell.begins_at(&self.block, base)
    }

    /// Serves a call as `Cell::apply` does, and puts the reply into the caller's buffer, over a reply of the same kind where
    /// it lies: it is the one after each log that leaves what is held, and this log with the call leaves what is held then.
    pub fn serve(&mut self, call: &Call, reply: &mut Option<Reply>)
        ensures room { self.new.room ≡ self.old.room }
        ensures reply { IsSomeAnd reply.new (λ told. (log : Log) → Leaves self.old log
            → told ≡ reply_after self.old.room log call.now) }
        ensures left { IsSomeAnd reply.new (λ told. (log : Log) → Leaves self.old log
            → Leaves self.new (record { call = call.now; reply = told } ∷ log)) }
    {
        self.cell.apply_into(&mut self.block, call, reply);
    }
}
