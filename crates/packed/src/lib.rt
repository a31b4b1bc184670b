//! The store's small values as few bytes: numbers in a byte or 9, stamps in 8 bytes, texts behind a byte with their length,
//! keys behind a byte with their count; and a list of packed entries that grows.
#![tactic(auto)]

mod bodies;
mod buffer;
mod laying;
mod pack_entry;
mod packed_list;
mod sizes;
mod value_decoding;
mod value_encoding;

pub use bodies::{body_key, body_record, body_tag, front_key, front_tag, pack_body, unpack_body};
pub use buffer::Buffer;
pub use pack_entry::PackEntry;
pub use packed_list::{PackedList, are_bytes};
pub use sizes::{
    BODY_ROOM, MAX_BODY_BYTES, MAX_ITEM_BYTES, MAX_KEY_BYTES, MAX_KEYS_BYTES, MAX_NUMBER_BYTES,
    MAX_RECORD_BYTES, STAMP_BYTES,
};
pub use value_decoding::{
    read_byte, read_count, read_key, read_number, read_record, read_record_into, read_stamp,
    read_tag, read_value, read_writes,
};
pub use value_encoding::{
    put_key, put_keys, put_number, put_record, put_stamp, put_tag, put_value,
};
