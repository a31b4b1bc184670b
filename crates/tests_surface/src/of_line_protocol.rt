//! line_protocol: the text of lines, in and out.
use crate::values::{item, key, no_parts, record, stamp};
use bytes::BytesMut;
use line_protocol::{
    LINE_LIMIT, Lines, Name, NoRoom, Request, read_cell_line, read_serve_line, read_step_line,
    write_answer, write_reply,
};
use plain_store::{
    Act, Answer, Call, DiscardReply, Found, PrepareReply, ReadReply, Reading, Readings, Refusal,
    Reply, Rows, Step,
};
use stamps::{Counter, Keep};
use std::alloc::{AllocError, Global};

/// Whether lines are distinguished, in pieces.
fn are_lines(alloc: Global) -> Option<bool> {
    let opened: Result<Lines, AllocError> = Lines::open(alloc);
    let mut lines = opened.ok()?;
    let taken: Result<usize, Refusal> = lines.feed(b"get x\nget");
    let line: Option<&[u8]> = lines.next_line();
    let is_line = line == Some(b"get x".as_slice());
    let ended: Result<(), Refusal> = lines.end();
    let fed: Result<usize, Refusal> = lines.feed(b"g");
    let is_cut = fed == Ok(1) && lines.end() == Err(Refusal::Cut);
    Some(taken == Ok(6) && is_line && ended == Ok(()) && is_cut)
}

/// Whether each kind of line is read.
fn are_read(alloc: Global) -> Option<bool> {
    let _named = no_parts();
    let call: Result<Call, Refusal> = read_cell_line(b"get x 1.1");
    let names: [Name; 1] = [Name::read(b"t")?];
    let step: Result<Step, Refusal> = read_step_line(alloc, &names, b"t deliver 3");
    let request: Result<Request, Refusal> = read_serve_line(alloc, b"bye");
    let is_call = call == Ok(Call::Get(key("x")?, Some(stamp(1)?)));
    let Step { tenant, act } = step.ok()?;
    let is_step = tenant == 0 && act == Act::Deliver(3);
    Some(is_call && is_step && number_of_request(&request.ok()?) == 6)
}

fn number_of_request(request: &Request) -> u8 {
    match request {
        Request::Hello(_, _, _) => 0,
        Request::Put(_) => 1,
        Request::Get(_) => 2,
        Request::Find(_) => 3,
        Request::Keep(_) => 4,
        Request::Info => 5,
        Request::Bye => 6,
    }
}

/// Whether the line of an answer is written.
fn tells(out: &mut BytesMut, answer: &Answer) -> bool {
    let written: Result<(), NoRoom> = write_answer(answer, out);
    written.is_ok()
}

/// Whether the line of a reply is written.
fn replies(out: &mut BytesMut, reply: &Reply) -> bool {
    let written: Result<(), NoRoom> = write_reply(reply, out);
    written.is_ok()
}

/// The lines of a cell's replies, in this order.
const REPLIES: &str = "\
prepared
committed 2
version x@1.1#red=1 writes x
initial
collected 1.1
refused 21
found 1 x
freed 3
dropped 4
refused 27
";

/// Whether each reply of a cell is written as its line.
fn are_replies(alloc: Global) -> Option<bool> {
    let _named = no_parts();
    let mut out = BytesMut::with_capacity(alloc, 2 * LINE_LIMIT).ok()?;
    let version = ReadReply::Version(record("x", 1)?);
    let collected = ReadReply::Collected(stamp(1)?);
    let found = Found::new(1, &[key("x")?]);
    let mut holds = replies(&mut out, &Reply::Prepare(PrepareReply::Prepared));
    holds &= replies(&mut out, &Reply::Committed(2));
    holds &= replies(&mut out, &Reply::Get(version));
    holds &= replies(&mut out, &Reply::Get(ReadReply::Initial));
    holds &= replies(&mut out, &Reply::Get(collected));
    holds &= replies(&mut out, &Reply::Get(ReadReply::Unknown));
    holds &= replies(&mut out, &Reply::Found(found));
    holds &= replies(&mut out, &Reply::Freed(3));
    holds &= replies(&mut out, &Reply::Discard(DiscardReply::Dropped(4)));
    holds &= replies(&mut out, &Reply::Discard(DiscardReply::FullMarks));
    Some(holds && out.as_slice() == REPLIES.as_bytes())
}

/// The lines of answers, in this order.
const ANSWERS: &str = "\
refused 10
ready 7
put 1.1 rows 1-2
get rows 1-2
find rows 1-2
row 9 initial
ignored
wait
decided 1.1 rows 1-2
done 1.1
ask rows 1-2
found rows 1-2
read x@1.1#red=1
list x@1.1#red=1
restart x 1.1
ended 15 rows 1-2
ended 20
lost
stopped
sent rows 1-2
sent none
freed 3
keep 4
";

/// Whether what begins, and what comes of a message, is written as its line.
fn are_begun(out: &mut BytesMut) -> Option<bool> {
    let _named = no_parts();
    let rows = Rows { first: 1, last: 2 };
    let stamp = stamp(1)?;
    let mut holds = tells(out, &Answer::Refused(Refusal::NoTenant));
    holds &= tells(out, &Answer::Ready(Counter::new(7)?));
    holds &= tells(out, &Answer::PutBegun(stamp, rows));
    holds &= tells(out, &Answer::GetBegun(rows));
    holds &= tells(out, &Answer::FindBegun(rows));
    holds &= tells(out, &Answer::Replied(9, Reply::Get(ReadReply::Initial)));
    holds &= tells(out, &Answer::Ignored);
    holds &= tells(out, &Answer::Wait);
    holds &= tells(out, &Answer::Decided(stamp, rows));
    holds &= tells(out, &Answer::Done(stamp));
    holds &= tells(out, &Answer::Ask(rows));
    Some(holds & tells(out, &Answer::BeginsRead(rows)))
}

/// Whether what ends a transaction, and what else is reported, is written as its line.
fn are_ended(out: &mut BytesMut) -> Option<bool> {
    let _named = no_parts();
    let rows = Rows { first: 1, last: 2 };
    let (item, stamp) = (item("x")?, stamp(1)?);
    let readings = Readings::of(&[Reading { item, stamp }])?;
    let mut holds = tells(out, &Answer::Read(readings));
    holds &= tells(out, &Answer::Listed(readings));
    holds &= tells(out, &Answer::Restart(item.key, stamp));
    holds &= tells(out, &Answer::Ended(Refusal::FullSlots, Some(rows)));
    holds &= tells(out, &Answer::Ended(Refusal::Clash, None));
    holds &= tells(out, &Answer::Lost);
    holds &= tells(out, &Answer::Stopped);
    holds &= tells(out, &Answer::Sent(Some(rows)));
    holds &= tells(out, &Answer::Sent(None));
    holds &= tells(out, &Answer::Freed(3));
    Some(holds & tells(out, &Answer::Keeps(Keep::new(4)?)))
}

/// Whether each answer is written as its line.
fn are_answers(alloc: Global) -> Option<bool> {
    let mut out = BytesMut::with_capacity(alloc, 2 * LINE_LIMIT).ok()?;
    let holds = are_begun(&mut out)? && are_ended(&mut out)?;
    Some(holds && out.as_slice() == ANSWERS.as_bytes())
}

#[test]
fn line_protocol_has_its_calls(rt: HostRuntime) {
    let yes = Some(true);
    assert!(rt; are_lines(rt.alloc()) == yes && are_read(rt.alloc()) == yes);
    assert!(rt; are_replies(rt.alloc()) == yes && are_answers(rt.alloc()) == yes);
}
