//! plain_store: the words that the crates share, and the slow evaluation of oracle.
use crate::values::{client, item, key, limits, no_parts, record, stamp, tag};
use oracle::oracle_run;
use plain_store::{
    Act, Answer, Call, DiscardReply, Found, Items, Keys, Message, OutOfMemory, PrepareReply,
    ReadReply, Reading, Readings, Refusal, Reply, Rows, Step,
};
use stamps::{Client, Counter, Item, Keep, Key, Stamp, Tag};
use std::alloc::Global;

/// Each refusal with its number.
const REFUSALS: [(Refusal, u8); 23] = [
    (Refusal::NoTenant, 10),
    (Refusal::NoSession, 11),
    (Refusal::Busy, 12),
    (Refusal::BadItems, 13),
    (Refusal::StampsUsed, 14),
    (Refusal::FullSlots, 15),
    (Refusal::FullItems, 16),
    (Refusal::NoMessage, 17),
    (Refusal::NoPartition, 18),
    (Refusal::Stopped, 19),
    (Refusal::Clash, 20),
    (Refusal::Unknown, 21),
    (Refusal::Torn, 22),
    (Refusal::TooMany, 23),
    (Refusal::ClientsFull, 24),
    (Refusal::Late, 25),
    (Refusal::RowsUsed, 26),
    (Refusal::FullMarks, 27),
    (Refusal::Discarded, 28),
    (Refusal::OutOfMemory, 30),
    (Refusal::BadLine, 40),
    (Refusal::LineTooLong, 41),
    (Refusal::Cut, 42),
];

/// Whether each refusal has its number, by which it is found, and other numbers have none.
fn are_numbered() -> bool {
    for (refusal, wanted) in REFUSALS {
        let number: u8 = refusal.number();
        let found: Option<Refusal> = Refusal::of_number(wanted);
        if number != wanted || found != Some(refusal) {
            return false;
        }
    }
    for number in [0, 9, 29, 31, 39, 43, 255] {
        if Refusal::of_number(number).is_some() {
            return false;
        }
    }
    Refusal::ALL.len() == REFUSALS.len()
}

/// The calls in their order.
fn calls() -> Option<[Call; 6]> {
    let (stamp, key): (Stamp, Key) = (stamp(1)?, key("x")?);
    let (tag, keep): (Tag, Keep) = (tag("red")?, Keep::new(1)?);
    Some([
        Call::Prepare(record("x", 1)?),
        Call::Commit(stamp),
        Call::Get(key, Some(stamp)),
        Call::Found(tag),
        Call::Collect(keep),
        Call::Discard(stamp),
    ])
}

fn place_of_call(call: &Call) -> usize {
    match call {
        Call::Prepare(_) => 0,
        Call::Commit(_) => 1,
        Call::Get(_, _) => 2,
        Call::Found(_) => 3,
        Call::Collect(_) => 4,
        Call::Discard(_) => 5,
    }
}

/// The replies in their order.
fn replies() -> Option<[Reply; 6]> {
    let found: Found = Found::new(1, &[key("x")?]);
    let (count, keys): (u32, &[Key]) = (found.count(), found.keys());
    if count != 1 || keys != [key("x")?].as_slice() {
        return None;
    }
    Some([
        Reply::Prepare(PrepareReply::Prepared),
        Reply::Committed(1),
        Reply::Get(ReadReply::Version(record("x", 1)?)),
        Reply::Found(found),
        Reply::Freed(1),
        Reply::Discard(DiscardReply::Dropped(1)),
    ])
}

fn place_of_reply(reply: &Reply) -> usize {
    match reply {
        Reply::Prepare(_) => 0,
        Reply::Committed(_) => 1,
        Reply::Get(_) => 2,
        Reply::Found(_) => 3,
        Reply::Freed(_) => 4,
        Reply::Discard(_) => 5,
    }
}

fn number_of_prepare_reply(reply: PrepareReply) -> u32 {
    match reply {
        PrepareReply::Prepared => 0,
        PrepareReply::FullSlots => 15,
        PrepareReply::FullItems => 16,
        PrepareReply::Clash => 20,
        PrepareReply::Discarded => 28,
    }
}

fn number_of_read_reply(reply: &ReadReply) -> u64 {
    match reply {
        ReadReply::Version(version) => version.stamp.counter(),
        ReadReply::Initial => 0,
        ReadReply::Collected(floor) => floor.counter(),
        ReadReply::Unknown => 21,
    }
}

fn number_of_discard_reply(reply: DiscardReply) -> u32 {
    match reply {
        DiscardReply::Dropped(count) => count,
        DiscardReply::FullMarks => 27,
    }
}

/// Whether the replies to a PREPARE, a GET and a DISCARD have their forms.
fn are_replies() -> Option<bool> {
    let collected = ReadReply::Collected(stamp(3)?);
    Some(
        number_of_prepare_reply(PrepareReply::Discarded) == 28
            && number_of_read_reply(&collected) == 3
            && number_of_discard_reply(DiscardReply::FullMarks) == 27,
    )
}

/// Whether calls and replies are distinguished, by their places in their lists.
fn are_told_apart() -> Option<bool> {
    let _named = no_parts();
    for (place, call) in calls()?.iter().enumerate() {
        if place_of_call(call) != place {
            return Some(false);
        }
    }
    for (place, reply) in replies()?.iter().enumerate() {
        if place_of_reply(reply) != place {
            return Some(false);
        }
    }
    Some(true)
}

/// The acts in their order.
fn acts(alloc: Global) -> Option<Vec<Act>> {
    let (client, base): (Client, Counter) = (client(1)?, Counter::new(0)?);
    let items: Vec<Item> = Vec::from_slice(alloc, &[item("x")?]).ok()?;
    let keys: Vec<Key> = Vec::from_slice(alloc, &[key("x")?]).ok()?;
    let mut acts: Vec<Act> = Vec::new(alloc);
    acts.push(Act::Hello(client, base)).ok()?;
    acts.push(Act::Put(client, Items::new(items))).ok()?;
    acts.push(Act::Get(client, Keys::new(keys))).ok()?;
    acts.push(Act::Find(client, tag("red")?)).ok()?;
    acts.push(Act::Deliver(1u64)).ok()?;
    acts.push(Act::Lose(1u64)).ok()?;
    acts.push(Act::Retry(client)).ok()?;
    acts.push(Act::Stop(client)).ok()?;
    acts.push(Act::Collect(0u32)).ok()?;
    acts.push(Act::Keep(Keep::new(1)?)).ok()?;
    Some(acts)
}

fn place_of_act(act: &Act) -> usize {
    match act {
        Act::Hello(_, _) => 0,
        Act::Put(_, _) => 1,
        Act::Get(_, _) => 2,
        Act::Find(_, _) => 3,
        Act::Deliver(_) => 4,
        Act::Lose(_) => 5,
        Act::Retry(_) => 6,
        Act::Stop(_) => 7,
        Act::Collect(_) => 8,
        Act::Keep(_) => 9,
    }
}

/// Whether acts are distinguished, by their places in their list.
fn are_acts(alloc: Global) -> Option<bool> {
    let acts = acts(alloc)?;
    for (place, act) in acts.iter().enumerate() {
        if place_of_act(act) != place {
            return Some(false);
        }
    }
    Some(acts.len() == 10)
}

/// Whether a message has its fields, and its round.
fn are_messages() -> Option<bool> {
    let _named = no_parts();
    let message = Message {
        client: client(1)?,
        ticket: 1u64,
        partition: 0u32,
        call: Call::Get(key("x")?, None),
        reply: Some(Reply::Get(ReadReply::Initial)),
    };
    let round: u8 = message.round();
    Some(round == 1 && message.ticket == 1 && message.partition == 0)
}

/// The number of an answer's form.
fn place_of_answer(answer: &Answer) -> usize {
    match answer {
        Answer::Refused(_) => 0,
        Answer::Ready(_) => 1,
        Answer::PutBegun(_, _) => 2,
        Answer::GetBegun(_) => 3,
        Answer::FindBegun(_) => 4,
        Answer::Replied(_, _) => 5,
        Answer::Ignored => 6,
        Answer::Wait => 7,
        Answer::Decided(_, _) => 8,
        Answer::Done(_) => 9,
        Answer::Ask(_) => 10,
        Answer::BeginsRead(_) => 11,
        Answer::Read(_) => 12,
        Answer::Listed(_) => 13,
        Answer::Restart(_, _) => 14,
        Answer::Ended(_, _) => 15,
        Answer::Lost => 16,
        Answer::Stopped => 17,
        Answer::Sent(_) => 18,
        Answer::Freed(_) => 19,
        Answer::Keeps(_) => 20,
    }
}

/// Whether the slow evaluation answers each step of a list.
fn is_evaluated(alloc: Global) -> Option<bool> {
    let _named = no_parts();
    let (client, base) = (client(1)?, Counter::new(7)?);
    let mut steps: Vec<Step> = Vec::new(alloc);
    let (hello, stop) = (Act::Hello(client, base), Act::Stop(client));
    steps
        .push(Step {
            tenant: 0u32,
            act: hello,
        })
        .ok()?;
    steps
        .push(Step {
            tenant: 0u32,
            act: stop,
        })
        .ok()?;
    let limits = [limits(4)?];
    let answers: Result<Vec<Answer>, OutOfMemory> = oracle_run(alloc, 2, &limits, &steps);
    let answers = answers.ok()?;
    Some(answers.as_slice() == [Answer::Ready(base), Answer::Stopped].as_slice())
}

/// Whether what is read has its fields.
fn are_readings() -> Option<bool> {
    let _named = no_parts();
    let (item, stamp): (Item, Stamp) = (item("x")?, stamp(1)?);
    let readings: Option<Readings> = Readings::of(&[Reading { item, stamp }]);
    let rows = Rows {
        first: 1u64,
        last: 2u64,
    };
    let read = Answer::Read(readings?);
    Some(place_of_answer(&read) == 12 && place_of_answer(&Answer::Ask(rows)) == 10)
}

#[test]
fn plain_store_has_its_words(rt: HostRuntime) {
    let yes = Some(true);
    assert!(rt; are_numbered() && are_told_apart() == yes && are_replies() == yes);
    assert!(rt; are_acts(rt.alloc()) == yes && are_messages() == yes);
    assert!(rt; are_readings() == yes && is_evaluated(rt.alloc()) == yes);
}
