//! How many bytes packed values take at most.
use stamps::limits::{MAX_KEY_LEN, MAX_KEYS, MAX_TAG_LEN, MAX_VALUE_LEN};

/// The most bytes of a number: a byte, or that and eight more.
pub const MAX_NUMBER_BYTES: usize = 9;

/// How many bytes a stamp takes, as one number.
pub const STAMP_BYTES: usize = 8;

/// The most bytes of a key behind its length.
pub const MAX_KEY_BYTES: usize = 1 + MAX_KEY_LEN;

/// The most bytes of an item: a key, a tag and a value, each behind its length.
pub const MAX_ITEM_BYTES: usize = MAX_KEY_BYTES + (1 + MAX_TAG_LEN) + (1 + MAX_VALUE_LEN);

/// The most bytes of a transaction's keys behind their count.
pub const MAX_KEYS_BYTES: usize = 1 + MAX_KEYS * MAX_KEY_BYTES;

/// The most bytes of a record: an item, its stamp and the keys of its write set.
pub const MAX_RECORD_BYTES: usize = MAX_ITEM_BYTES + STAMP_BYTES + MAX_KEYS_BYTES;

/// The most bytes of a record without its stamp.
pub const MAX_BODY_BYTES: usize = MAX_ITEM_BYTES + MAX_KEYS_BYTES;

/// How many bytes a buffer has that bodies are copied to and from, 64 at a time: the longest one, and 63 behind it.
pub const BODY_ROOM: usize = MAX_BODY_BYTES + 63;
