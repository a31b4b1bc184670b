//! A seat's call on its way.
ghost use Rattle.std.specs.Prelude.{◌≡◌};
ghost use Rattle.history.specs.Entries.{HasMark};
ghost use Rattle.history.specs.Legal.{MayServe};
ghost use Rattle.shard.specs.Homes.{HasHome};

use history::{Front, Mark, Naming};
use plain_store::Message;

/// A seat's call on its way to its partition, which is the home of its key if it has one. A message is large, so it lies in a
/// box: the reply is written into the same box.
#[derive(Drop)]
pub struct SeatCall<J: Naming> {
    pub partition: u32,
    pub parts: u32,
    pub tenant: u32,
    pub seat: u64,
    pub number: u64,
    /// Its number among the calls that arrive at the partition.
    pub arrival: u64,
    pub message: Box<Message>,
    /// That of its operation.
    pub mark: Mark,
    /// What its seat has seen of the history, which shows that it may be served, and, once it was served, that it was.
    pub front: Front<J>,
    ghost at_home: { HasHome message.value.call parts partition },
    ghost marked: { HasMark front mark },
    ghost may: { ∥ MayServe front partition tenant message.value.call ∥₁ },
}
