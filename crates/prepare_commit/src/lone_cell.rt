//! A cell with a block to itself.
ghost use Rattle.std.specs.Prelude.{◌≡◌, ◌≢◌, ◌+◌, ◌≤◌, ◌==◌, ◌^◌, [], count_by, IfOk};
ghost use Rattle.prepare_commit.specs.Serving.{Serves, StandsFor};

use crate::Cell;
use plain_store::{Call, DiscardReply, Reply};
use stamps::{Stamp, Visits};
use std::alloc::{AllocError, Global};
use std::marker::Model;
use version_chain::Block;

/// A cell of tenant 0 whose block no other tenant shares. Contracts see what the cell holds.
///
/// Only `open` takes memory.
pub struct LoneCell {
    block: Block,
    cell: Cell,
}

// What lies in it is released here, so that no crate above proves it anew.
impl Drop for LoneCell {
    fn drop(self) {
        let LoneCell { block: _, cell: _ } = self;
    }
}

impl Model for LoneCell {
    ghost use Rattle.std.specs.Coded.{codes};
    ghost use Rattle.version_chain.specs.Chain.{HasShare};
    ghost use Rattle.prepare_commit.specs.Content.{Content, tags_code};
    ghost use Rattle.prepare_commit.specs.InBlock.{content_in, LiesIn};
    ghost use Rattle.prepare_commit.specs.Marks.{marks_code};

    ghost Value = { Content };

    ghost coded = { Prim.hlevel (codes, tags_code, marks_code) };

    ghost view = { λ c. content_in c.block c.cell };

    ghost invariant = { λ c. LiesIn c.block c.cell × HasShare c.block c.cell.chains };
}

impl LoneCell {
    /// An empty cell, with room for `slots` versions, for the entries of `items` items and for the marks of `clients`
    /// clients, and a block of `slots` cells. All memory is taken here; it takes time for each item, and touches no slot.
    /// The one error is that the allocation failed, as it is where there are more than `Block::MOST_CELLS` slots.
    pub fn open(alloc: Global, slots: u32, items: u32, clients: u32) -> Result<LoneCell, AllocError>
        ensures room { IfOk result (λ cell. cell.room
            ≡ record { slots = slots; items = items; clients = clients }) }
        ensures empty { IfOk result (λ cell. StandsFor cell []) }
    {
        if slots > Block::MOST_CELLS {
            return Err(AllocError);
        }
        Ok(LoneCell {
            block: Block::open(alloc, slots.max(1))?,
            cell: Cell::open(alloc, slots, items, clients, 0)?,
        })
    }

    /// What `Cell::commit_counted` does.
    pub fn commit_counted(&mut self, stamp: Stamp, visits: &mut Visits) -> u32
        requires { visits.old ≤ 2 ^ 61 }
        ensures serves { Serves self.old self.new (Call.Commit stamp) (Reply.Committed result) }
        ensures visits { visits.new ≡ visits.old + result }
    {
        self.cell.commit_counted(&mut self.block, stamp, visits)
    }

    /// What `Cell::discard_counted` does.
    pub fn discard_counted(&mut self, stamp: Stamp, visits: &mut Visits) -> DiscardReply
        requires { visits.old ≤ 2 ^ 61 }
        ensures serves { Serves self.old self.new (Call.Discard stamp) (Reply.Discard result) }
        ensures visits { stamp ≢ 0 → result ≢ DiscardReply.FullMarks
            → visits.new
            ≡ visits.old + count_by (λ v. v.prepared.stamp == stamp) self.old.versions }
    {
        self.cell.discard_counted(&mut self.block, stamp, visits)
    }

    /// What `Cell::apply` does.
    pub fn apply(&mut self, call: &Call) -> Reply
        ensures { Serves self.old self.new call.now result }
    {
        self.cell.apply(&mut self.block, call)
    }
}
