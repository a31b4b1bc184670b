//! Answers to steps.
use crate::{Readings, Refusal, Reply};
use stamps::{Counter, Keep, Key, Stamp};
use std::fmt;

/// The first and the last of the rows that a step sent.
#[derive(Clone, Copy, Debug, PartialEq, Eq)]
pub struct Rows {
    /// The number of the first row, from 1.
    pub first: u64,
    /// No less than `first`, unless nothing was sent.
    pub last: u64,
}

/// What a step is answered.
#[derive(Clone, Copy, PartialEq, Eq)]
pub enum Answer {
    /// The step changed nothing, for this cause.
    Refused(Refusal),
    /// A session is open. Its counter.
    Ready(Counter),
    /// A write began under this stamp.
    PutBegun(Stamp, Rows),
    /// A read began.
    GetBegun(Rows),
    /// A search began.
    FindBegun(Rows),
    /// A call was delivered. The row of its reply, and the reply.
    Replied(u64, Reply),
    /// A reply was delivered that no transaction is waiting for.
    Ignored,
    /// A reply was taken, and more are needed.
    Wait,
    /// The write of this stamp is decided, and its COMMITs were sent.
    Decided(Stamp, Rows),
    /// The write of this stamp is done.
    Done(Stamp),
    /// The reader asks for the versions that it is late for.
    Ask(Rows),
    /// The search reads what it found.
    BeginsRead(Rows),
    /// What a read gave, key by key in the order asked.
    Read(Readings),
    /// What a search gave, in byte order of the keys.
    Listed(Readings),
    /// A version that a reader asked for lies below this floor of its key.
    Restart(Key, Stamp),
    /// The transaction ended so. The rows of its DISCARDs, if it sent any.
    Ended(Refusal, Option<Rows>),
    /// The message of the row will not be delivered any more.
    Lost,
    /// The session is closed, and its transaction ended.
    Stopped,
    /// What was sent again, if anything.
    Sent(Option<Rows>),
    /// How many versions a collection gave up.
    Freed(u32),
    /// How many committed versions of an item each collection keeps from now on.
    Keeps(Keep),
}

// The form's name alone: what it holds has a text of its own.
impl fmt::Debug for Answer {
    fn fmt<W: fmt::Write>(&self, f: &mut fmt::Formatter<W>) -> fmt::Result {
        f.write_str(match self {
            Answer::Refused(_) => "Refused",
            Answer::Ready(_) => "Ready",
            Answer::PutBegun(_, _) => "PutBegun",
            Answer::GetBegun(_) => "GetBegun",
            Answer::FindBegun(_) => "FindBegun",
            Answer::Replied(_, _) => "Replied",
            Answer::Ignored => "Ignored",
            Answer::Wait => "Wait",
            Answer::Decided(_, _) => "Decided",
            Answer::Done(_) => "Done",
            Answer::Ask(_) => "Ask",
            Answer::BeginsRead(_) => "BeginsRead",
            Answer::Read(_) => "Read",
            Answer::Listed(_) => "Listed",
            Answer::Restart(_, _) => "Restart",
            Answer::Ended(_, _) => "Ended",
            Answer::Lost => "Lost",
            Answer::Stopped => "Stopped",
            Answer::Sent(_) => "Sent",
            Answer::Freed(_) => "Freed",
            Answer::Keeps(_) => "Keeps",
        })
    }
}
