//! Messages between a tenant's clients and partitions.
ghost use Rattle.std.specs.Prelude.{◌≡◌};
ghost use Rattle.plain_store.specs.Rounds.{round_of};

use crate::{Call, Reply};
use stamps::Client;

/// A call on its way to a partition or, with its reply, on its way back.
#[derive(Clone, Copy, PartialEq, Eq)]
pub struct Message {
    /// The client whose transaction calls.
    pub client: Client,
    /// The number of the client's transaction, from 1.
    pub ticket: u64,
    /// The partition that is called, or replies.
    pub partition: u32,
    /// What it is asked.
    pub call: Call,
    /// What it replied; a call on its way has none.
    pub reply: Option<Reply>,
}

impl Message {
    /// The round of a read that it belongs to, 1 or 2, and 0 where it is of no read.
    pub fn round(&self) -> u8
        ensures { result ≡ round_of self.now.call }
    {
        match &self.call {
            Call::Get(_, None) => 1,
            Call::Get(_, Some(_)) => 2,
            _ => 0,
        }
    }
}
