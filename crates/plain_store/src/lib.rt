//! The words that the store's parts share, the plain store, and the laws of its runs.
#![tactic(auto)]

mod answer;
mod calls;
mod found;
mod laws;
mod lists;
mod message;
mod out_of_memory;
mod reading;
mod readings;
mod refusal;
mod step;

pub use answer::{Answer, Rows};
pub use calls::{Call, DiscardReply, PrepareReply, ReadReply, Reply};
pub use found::Found;
pub use laws::{
    calls_are_few, calls_go_home, committed_stamps_are_different, decided_is_not_discarded,
    discards_drop_no_more, logs_are_of_calls, no_answer_is_false, only_full_cells_refuse,
    only_repeats_are_ignored, partitions_answer_by_logs, puts_are_newest, reads_are_atomic,
    reads_are_fresh, reads_rest_on_replies, restarts_are_right,
};
pub use lists::{Items, Keys};
pub use message::Message;
pub use out_of_memory::OutOfMemory;
pub use reading::Reading;
pub use readings::Readings;
pub use refusal::Refusal;
pub use step::{Act, Step};
