//! How many bytes packed calls, replies and answers take at most.
use packed::{MAX_ITEM_BYTES, MAX_NUMBER_BYTES, MAX_RECORD_BYTES, STAMP_BYTES};
use stamps::limits::MAX_KEYS;

/// The most bytes of a call: one for its form, and a record.
pub const MAX_CALL_BYTES: usize = 1 + MAX_RECORD_BYTES;

/// The most bytes of a reply: one for its form, and a record.
pub const MAX_REPLY_BYTES: usize = 1 + MAX_RECORD_BYTES;

/// The most bytes of an answer: one for its form, and as many readings as a transaction has keys, behind their count.
pub const MAX_ANSWER_BYTES: usize = 1
    + MAX_NUMBER_BYTES
    + MAX_KEYS * (MAX_ITEM_BYTES + STAMP_BYTES);
