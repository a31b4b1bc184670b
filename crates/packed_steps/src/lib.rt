//! The store's calls and replies, acts and answers as few bytes: a byte for the form, and its parts.
#![tactic(auto)]

mod call_place;
mod reading_acts;
mod reading_answers;
mod reading_calls;
mod reading_replies;
mod step_sizes;
mod writing_acts;
mod writing_answers;
mod writing_calls;
mod writing_replies;

pub use call_place::CallPlace;
pub use reading_acts::{read_act, read_client, read_counter, read_item, read_keep};
pub use reading_answers::{read_answer, read_reading, read_readings, read_refusal, read_rows};
pub use reading_calls::read_call;
pub use reading_replies::{read_found, read_reply};
pub use step_sizes::{MAX_ANSWER_BYTES, MAX_CALL_BYTES, MAX_REPLY_BYTES};
pub use writing_acts::{
    put_act, put_all_keys, put_find_act, put_get_act, put_item, put_items, put_put_act,
};
pub use writing_answers::{put_answer, put_reading, put_readings, put_rows};
pub use writing_calls::put_call;
pub use writing_replies::{put_found, put_reply};
