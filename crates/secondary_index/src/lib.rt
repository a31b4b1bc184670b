//! Which items stand under a tag: an inverted index from tags to keys.
#![tactic(auto)]

mod entries;
mod pairs;
mod tag_index;

pub use tag_index::TagIndex;
