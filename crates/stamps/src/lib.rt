//! The small values of the store, all of them `Copy`: keys, tags and values, stamps, write sets and records, and
//! the bounded numbers of its configuration; and a count of what a call looked at. Each type holds values of its range alone; what makes one answers `None`
//! for all others.
#![tactic(auto)]

mod bounds;
mod key;
mod key_source;
pub mod limits;
mod record;
mod stamp;
mod tag;
mod text;
mod value;
mod visits;
mod write_set;

pub use bounds::{Client, Counter, Keep, Limits};
pub use key::{Key, home};
pub use key_source::KeySource;
pub use record::{Item, Record};
pub use stamp::Stamp;
pub use tag::Tag;
pub use value::Value;
pub use visits::Visits;
pub use write_set::WriteSet;
