//! What a seat did.
use plain_store::{Act, Answer, Reply};
use stamps::{Client, Item, Key, Tag};

/// One thing that a seat did.
#[derive(Drop)]
pub enum Entry {
    /// It began an operation. Or its client's counter was raised: the session ended by a `Stop`, and began again by the `Hello` that stands
    /// right after it.
    Began(Act),
    /// It took the reply to the call of this number, whose event has this place in the partition's journal.
    Took {
        number: u64,
        partition: u32,
        place: u64,
        reply: Reply,
    },
    /// It answered the operation. This stands right after the reply that ended it; replies that are then taken and ignored follow.
    Answered(Answer),
}

/// A reply that a seat took.
#[derive(Clone, Copy)]
pub struct Taken {
    /// The number of its call.
    pub number: u64,
    pub partition: u32,
    /// The place of its event in the partition's journal.
    pub place: u64,
    pub reply: Reply,
}

/// What an operation of a seat does.
#[derive(Clone, Copy, PartialEq, Eq)]
pub enum Operation {
    /// It writes items.
    Put,
    /// It reads keys.
    Get,
    /// It finds the items that carry a tag.
    Find,
}

/// An act, with its items or keys where they lie: it is packed, and no copy of them is made.
#[derive(Clone, Copy)]
pub enum LentAct<'a> {
    /// An `Act::Put`.
    Put(Client, &'a [Item]),
    /// An `Act::Get`.
    Get(Client, &'a [Key]),
    /// An `Act::Find`.
    Find(Client, Tag),
    /// Any act.
    Whole(&'a Act),
}
