//! Steps: what a tenant's store is asked to do.
ghost use Rattle.plain_store.specs.Words.{IsAct};

use crate::{Items, Keys};
use stamps::{Client, Counter, Keep, Tag};
use std::fmt;

/// What a tenant's store is asked to do.
#[derive(Drop, PartialEq)]
pub enum Act {
    /// Open the client's session. Its counter is no less than this base.
    Hello(Client, Counter),
    /// Begin to write these items.
    Put(Client, Items),
    /// Begin to read these keys.
    Get(Client, Keys),
    /// Begin to find the items that carry this tag.
    Find(Client, Tag),
    /// Deliver the message of this row.
    Deliver(u64),
    /// Lose the message of this row.
    Lose(u64),
    /// Send again what the client's transaction waits for.
    Retry(Client),
    /// End the client's session, and its transaction.
    Stop(Client),
    /// Collect old versions at this partition, by the number of kept ones in force.
    Collect(u32),
    /// From now on each collection keeps this many committed versions of an item.
    Keep(Keep),
}

/// An act, and the number of the tenant that it is of.
#[derive(Debug, Drop, PartialEq)]
pub struct Step {
    /// The place of the tenant's limits among those that the store was opened with, from 0.
    pub tenant: u32,
    /// What its store is asked to do.
    pub act: Act,
}

impl Act {
    /// The client that it names has a number in range: this only reads it.
    pub fn read_client(&self)
        ensures { IsAct self.now }
    {
        match self {
            Act::Hello(client, _) => {
                let _number = client.get();
            }
            Act::Put(client, _) => {
                let _number = client.get();
            }
            Act::Get(client, _) => {
                let _number = client.get();
            }
            Act::Find(client, _) => {
                let _number = client.get();
            }
            Act::Retry(client) => {
                let _number = client.get();
            }
            Act::Stop(client) => {
                let _number = client.get();
            }
            Act::Deliver(_) | Act::Lose(_) | Act::Collect(_) | Act::Keep(_) => {}
        }
    }
}

// The form's name alone: what it holds has a text of its own.
impl fmt::Debug for Act {
    fn fmt<W: fmt::Write>(&self, f: &mut fmt::Formatter<W>) -> fmt::Result {
        f.write_str(match self {
            Act::Hello(_, _) => "Hello",
            Act::Put(_, _) => "Put",
            Act::Get(_, _) => "Get",
            Act::Find(_, _) => "Find",
            Act::Deliver(_) => "Deliver",
            Act::Lose(_) => "Lose",
            Act::Retry(_) => "Retry",
            Act::Stop(_) => "Stop",
            Act::Collect(_) => "Collect",
            Act::Keep(_) => "Keep",
        })
    }
}
