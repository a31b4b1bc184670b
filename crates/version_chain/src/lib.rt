//! Chains of versions in the cells of one block that the caller passes to each call. A chain's stamps fall strictly.
#![tactic(auto)]

mod chain_list;
mod chain_slots;
mod chains;
mod kept_list;
mod shared_block;
mod stamp_list;
mod stored;
mod version;
mod version_list;

pub use chain_list::ChainList;
pub use chains::{Chains, Insert};
pub use shared_block::Block;
pub use stamp_list::Kept;
pub use stored::StoredRecord;
pub use version::Version;
pub use version_list::VersionList;
