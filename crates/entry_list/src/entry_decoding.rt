//! What is read of packed entries.
ghost use Rattle.std.specs.Prelude.{◌≡◌, IfOk};
ghost use Rattle.entry_list.specs.PackedEntries.{began_at, taken_at, took_at, answered_at, entry_by, entry_at, taken_of, taken_part, answer_of, answer_alone, answer_part, operation_of, operation_by, operation_part, entry_in, IsPackedEntry};

use crate::kinds::{Entry, Operation, Taken};
use packed::{read_byte, read_count, read_number};
use packed_steps::{read_act, read_answer, read_reply};
use plain_store::Answer;
use std::alloc::{AllocError, Global};

#[tactic(auto, unfolding(crate::specs::PackedEntries::began_at))]
fn began_at(alloc: Global, bytes: &[u8]) -> Result<Option<Entry>, AllocError>
    ensures { IfOk result (λ found. found ≡ began_at bytes.now) }
{
    let Some((act, _)) = read_act(alloc, bytes)? else {
        return Ok(None);
    };
    Ok(Some(Entry::Began(act)))
}

#[tactic(auto, unfolding(crate::specs::PackedEntries::taken_at))]
fn taken_at(bytes: &[u8]) -> Option<Taken>
    ensures { result ≡ taken_at bytes.now }
{
    let (number, rest) = read_number(bytes)?;
    let (partition, rest) = read_count(rest)?;
    let (place, rest) = read_number(rest)?;
    let Some((reply, _)) = read_reply(rest) else {
        return None;
    };
    Some(Taken {
        number,
        partition,
        place,
        reply,
    })
}

#[tactic(auto, unfolding(crate::specs::PackedEntries::took_at))]
fn took_at(bytes: &[u8]) -> Option<Entry>
    ensures { result ≡ took_at bytes.now }
{
    let Some(taken) = taken_at(bytes) else {
        return None;
    };
    Some(Entry::Took {
        number: taken.number,
        partition: taken.partition,
        place: taken.place,
        reply: taken.reply,
    })
}

#[tactic(auto, unfolding(crate::specs::PackedEntries::answered_at))]
fn answered_at(bytes: &[u8]) -> Option<Entry>
    ensures { result ≡ answered_at bytes.now }
{
    let Some((answer, _)) = read_answer(bytes) else {
        return None;
    };
    Some(Entry::Answered(answer))
}

// The parts of this kind.
#[tactic(auto, unfolding(crate::specs::PackedEntries::entry_by))]
fn entry_by(alloc: Global, kind: u8, bytes: &[u8]) -> Result<Option<Entry>, AllocError>
    ensures { IfOk result (λ found. found ≡ entry_by kind bytes.now) }
{
    match kind {
        0 => began_at(alloc, bytes),
        1 => Ok(took_at(bytes)),
        2 => Ok(answered_at(bytes)),
        _ => Ok(None),
    }
}

#[tactic(auto, unfolding(crate::specs::PackedEntries::entry_at))]
fn entry_at(alloc: Global, bytes: &[u8]) -> Result<Option<Entry>, AllocError>
    ensures { IfOk result (λ found. found ≡ entry_at bytes.now) }
{
    let Some((kind, rest)) = read_byte(bytes) else {
        return Ok(None);
    };
    entry_by(alloc, kind, rest)
}

/// The entry of these bytes.
pub fn unpacked(alloc: Global, bytes: &[u8]) -> Result<Entry, AllocError>
    requires { IsPackedEntry bytes.now }
    ensures { IfOk result (λ entry. entry ≡ entry_in bytes.now) }
{
    let found = entry_at(alloc, bytes)?;
    Ok(found.unwrap())
}

#[tactic(auto, unfolding(crate::specs::PackedEntries::taken_part))]
fn taken_part(bytes: &[u8]) -> Option<Taken>
    ensures { result ≡ taken_part bytes.now }
{
    let (kind, rest) = read_byte(bytes)?;
    if kind != 1 {
        return None;
    }
    taken_at(rest)
}

/// The reply that was taken, if the entry of these bytes is that.
pub fn taken_in(bytes: &[u8]) -> Option<Taken>
    requires { IsPackedEntry bytes.now }
    ensures { result ≡ taken_of (entry_in bytes.now) }
{
    taken_part(bytes)
}

#[tactic(auto, unfolding(crate::specs::PackedEntries::answer_alone))]
fn answer_alone(bytes: &[u8]) -> Option<Answer>
    ensures { result ≡ answer_alone bytes.now }
{
    let Some((answer, _)) = read_answer(bytes) else {
        return None;
    };
    Some(answer)
}

#[tactic(auto, unfolding(crate::specs::PackedEntries::answer_part))]
fn answer_part(bytes: &[u8]) -> Option<Answer>
    ensures { result ≡ answer_part bytes.now }
{
    let (kind, rest) = read_byte(bytes)?;
    if kind != 2 {
        return None;
    }
    answer_alone(rest)
}

/// What was answered, if the entry of these bytes is that.
pub fn answer_in(bytes: &[u8]) -> Option<Answer>
    requires { IsPackedEntry bytes.now }
    ensures { result ≡ answer_of (entry_in bytes.now) }
{
    answer_part(bytes)
}

fn operation_by(form: u8) -> Option<Operation>
    ensures { result ≡ operation_by form }
{
    match form {
        1 => Some(Operation::Put),
        2 => Some(Operation::Get),
        3 => Some(Operation::Find),
        _ => None,
    }
}

#[tactic(auto, unfolding(crate::specs::PackedEntries::operation_part))]
fn operation_part(bytes: &[u8]) -> Option<Operation>
    ensures { result ≡ operation_part bytes.now }
{
    let (kind, rest) = read_byte(bytes)?;
    let (form, _) = read_byte(rest)?;
    if kind != 0 {
        return None;
    }
    operation_by(form)
}

/// What the operation that was begun does, if the entry of these bytes is that.
pub fn operation_in(bytes: &[u8]) -> Option<Operation>
    requires { IsPackedEntry bytes.now }
    ensures { result ≡ operation_of (entry_in bytes.now) }
{
    operation_part(bytes)
}
