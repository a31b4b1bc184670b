//! put_all: the client's side of a write.
use crate::values::{item, key};
use plain_store::{PrepareReply, Refusal};
use put_all::{WriteMove, Writer};
use stamps::{Key, Stamp};

/// The counter of the write that is done, or the number of the refusal, or of the move.
fn number_of_move(moved: WriteMove) -> u64 {
    match moved {
        WriteMove::Wait => 0,
        WriteMove::Decide => 1,
        WriteMove::Done(stamp) => stamp.counter(),
        WriteMove::Refused(refusal) => u64::from(refusal.number()),
        WriteMove::Ignored => 2,
    }
}

/// Whether a write is decided and done.
fn is_written() -> Option<bool> {
    let x: Key = key("x")?;
    let stamp: Stamp = Stamp::new(9, 1)?;
    let writer: Option<Writer> = Writer::new(stamp, &[item("x")?], 2);
    let mut writer = writer?;
    let decided: WriteMove = writer.take_prepare(&x, PrepareReply::Prepared);
    let done: WriteMove = writer.take_commit(0);
    let is_done = number_of_move(decided) == 1 && number_of_move(done) == 9;
    let refused = WriteMove::Refused(Refusal::FullSlots);
    Some(is_done && number_of_move(refused) == 15)
}

#[test]
fn put_all_has_its_calls(rt: HostRuntime) {
    assert!(rt; is_written() == Some(true));
}
