//! The client's side of a read, and of a search over all partitions.
#![tactic(auto)]

ghost use Rattle.get_all.specs.Reading.{ReadsAreUnfractured};

mod finder;
mod found_keys;
mod late;
mod read_progress;
mod reader;
mod record_place;
mod tag_search;
mod told;

pub use finder::Finder;
pub use found_keys::FoundKeys;
pub use late::{Late, LateKeys};
pub use reader::{ReadMove, ReadMoveKind, Reader};
pub use tag_search::{FindMove, TagSearch};

/// Whatever replies a read is offered, what it reads once it is whole is unfractured by the write sets shown.
pub fn reads_are_unfractured()
    ensures { ReadsAreUnfractured }
{}
