//! What happens in a running store, as its history reports it.
use plain_store::{Call, Items};
use stamps::{Client, Limits, Stamp};
use std::marker::Model;

/// The limits of each tenant. The n-th are those of tenant n.
pub struct AllLimits {
    limits: Vec<Limits>,
}

impl Model for AllLimits {
    ghost use Rattle.std.specs.Prelude.{List};
    ghost use Rattle.stamps.specs.declared.bounds.Limits.{Limits};

    ghost Value = { List Limits };

    ghost view = { λ all. all.limits.items };
}

/// What a store was opened with: how many partitions it has, and each tenant's limits.
pub struct StoreOpening {
    pub parts: u32,
    pub limits: AllLimits,
}

/// A client of a tenant, and the word that counts its entries.
#[derive(Clone, Copy)]
pub struct JoinedClient {
    pub word: u64,
    pub tenant: u32,
    pub client: Client,
}

/// A put of the client with this word: the stamp that it drew, and its items.
pub struct Write {
    pub word: u64,
    pub tenant: u32,
    pub stamp: Stamp,
    pub items: Items,
}

/// How the client with this word ends its put of this stamp.
#[derive(Clone, Copy)]
pub struct Decision {
    pub word: u64,
    pub tenant: u32,
    pub stamp: Stamp,
}

/// A counter that was drawn from the clock of a tenant.
#[derive(Clone, Copy)]
pub struct Draw {
    pub tenant: u32,
    pub counter: u64,
}

/// A call that a partition served for a tenant: which seat sent it, and which of the seat's calls it was. A collection has seat 0.
/// Its reply is the definition's, after the calls before it.
pub struct ServedCall {
    pub partition: u32,
    pub tenant: u32,
    pub seat: u64,
    pub number: u64,
    pub call: Call,
}

/// An entry of the history. None is ever made: it exists in proofs alone.
pub enum HistoryEntry {
    /// The store was opened. Each history begins so.
    Opened(StoreOpening),
    /// A client came for the first time.
    Joined(JoinedClient),
    /// The client's word counts from now on.
    Arrived(u64),
    /// A put drew its stamp.
    Began(Write),
    /// All items of a put are prepared, and it is committed.
    Decided(Decision),
    /// A put was refused, and is never committed.
    GivenUp(Decision),
    /// A read or a search of the client with this word began.
    ReadBegan(u64),
    /// A put drew its counter from the clock of its tenant.
    Drew(Draw),
    /// The clock of this tenant went on by one without a draw: it was raised, or told that a put is done.
    Passed(u32),
    /// A call was served.
    Served(ServedCall),
}

/// So many entries of a word. What has them has all that stands before the last of them.
#[derive(Clone, Copy, PartialEq, Eq)]
pub struct Mark {
    pub word: u64,
    pub entries: u64,
}

/// What a store is opened with.
#[derive(Clone, Copy)]
pub struct StoreToOpen<'a> {
    pub parts: u32,
    pub limits: &'a [Limits],
}

/// A put that begins.
#[derive(Clone, Copy)]
pub struct WriteToBegin<'a> {
    pub word: u64,
    pub tenant: u32,
    pub stamp: Stamp,
    pub items: &'a [stamps::Item],
}

/// A call that is to be served.
#[derive(Clone, Copy)]
pub struct CallToServe<'a> {
    pub partition: u32,
    pub tenant: u32,
    pub seat: u64,
    pub number: u64,
    pub call: &'a Call,
}
