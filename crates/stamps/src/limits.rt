//! The limits of the store, each written down once. The types take theirs from here, and so do the crates above.

/// The most keys that a transaction names.
pub const MAX_KEYS: usize = 16;

/// The most keys that a search returns. They are read as one transaction, so it is `MAX_KEYS` at most.
pub const MAX_FOUND: usize = 16;

/// The most bytes of a key.
pub const MAX_KEY_LEN: usize = 32;

/// The most bytes of a tag.
pub const MAX_TAG_LEN: usize = 16;

/// The most bytes of a value.
pub const MAX_VALUE_LEN: usize = 128;

/// The most partitions of a store.
pub const MAX_PARTS: u32 = 64;

/// The most tenants of a store.
pub const MAX_TENANTS: u32 = 64;

/// The most bytes of a tenant's name.
pub const MAX_NAME_LEN: usize = 16;

/// The most slots, and the most items, of a tenant at a partition.
pub const MAX_ROOM: u32 = 65_536;

/// The most committed versions of an item that a collection keeps.
pub const MAX_KEEP: u8 = 255;

/// The most clients of a tenant.
pub const MAX_CLIENTS: u32 = 1_024;

/// The most seats that each tenant of a load has.
pub const MAX_SEATS: u32 = 16;

/// The greatest counter of a stamp, 2^40 - 1.
pub const MAX_COUNTER: u64 = 1_099_511_627_775;

/// The most rows of a tenant's table of messages, 2^62.
pub const MAX_ROWS: u64 = 4_611_686_018_427_387_904;

/// How many bytes a line has at most, its LF included.
pub const LINE_LIMIT: usize = 4_096;
