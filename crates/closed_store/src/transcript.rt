//! What a seat did, in its order.
use entry_list::EntryList;
use stamps::{Client, Counter};

/// One session of a client: what it began, took and answered, in its order. After a worker's fault nothing more is entered.
#[derive(Drop)]
pub struct Transcript {
    /// Its tenant's number.
    pub tenant: u32,
    pub client: Client,
    /// Which of its client's sessions it is, from 1.
    pub turn: u64,
    /// The number of its seat, from 1.
    pub seat: u64,
    /// The base that it was opened with.
    pub base: Counter,
    /// The counter that opening it answered.
    pub counter: Counter,
    /// What it did.
    pub entries: EntryList,
}
