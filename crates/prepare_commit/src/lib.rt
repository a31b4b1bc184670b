//! One cell: what one tenant holds at one partition, and its replies.
//!
//! A cell is one tenant's part of a RAMP-Fast server (Bailis and others, "Scalable Atomic Visibility with RAMP
//! Transactions"): `prepare` keeps a version, `commit` makes the versions of a stamp visible, and `get` reads the latest
//! committed version or the one that a stamp names. This store's own are `discard`, which takes versions back, `found`,
//! which reports the items whose latest committed version carries a tag, the counts in the replies, the limits of slots,
//! items and marks, the clash of two records at one stamp, the reply that a version is unknown, and the floors and
//! collections.
#![tactic(auto)]

mod ahead;
mod base;
mod cell;
mod changed;
mod collect;
mod commit;
mod copies;
mod fill;
mod held;
mod holdings;
mod items;
mod last_base;
mod lone_cell;
mod marks;
mod part_entries;
mod parts;
mod place_hints;
mod replica;
mod reply;
mod retire;
mod versions;

pub use base::Base;
pub use cell::Cell;
pub use holdings::Holdings;
pub use lone_cell::LoneCell;
pub use replica::Replica;
pub use reply::GetReply;
