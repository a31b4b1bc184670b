//! The lines that ask one cell.
ghost use Rattle.std.specs.Prelude.{◌≡◌, Some, IfOk, IfErr, Ok, option_map};
ghost use Rattle.plain_store.specs.declared.calls.Call.{Call};
ghost use Rattle.plain_store.specs.declared.refusal.Refusal.TheVariants.{BadLine};
ghost use Rattle.line_protocol.specs.Spelling.{HasLine, line_of};
ghost use Rattle.line_protocol.specs.Reading.{prepare_at, get_at, commit_at, found_at, collect_at, discard_at, call_at};

use crate::token::{
    read_key, read_number, read_record, read_stamp, read_tag, read_writes, split_first,
};
use plain_store::{Call, Refusal};
use stamps::{Keep, Stamp};

/// The call that a line asks for. The line is handed in without its LF. Reading takes no memory.
///
/// It is [`Refusal::BadLine`] exactly where the line asks for no call. No line asks for [`Call::Found`] of the empty
/// tag.
pub fn read_cell_line(line: &[u8]) -> Result<Call, Refusal>
    // What is read is spelled so.
    ensures found { IfOk result (λ call. HasLine call × (line.now ≡ line_of call)) }
    // What is spelled so is read.
    ensures only { (call : Call) → HasLine call → line.now ≡ line_of call → result ≡ Ok call }
    ensures error { IfErr result (λ e. e ≡ BadLine) }
{
    match read_call(line) {
        Some(call) => Ok(call),
        None => Err(Refusal::BadLine),
    }
}

#[tactic(auto, unfolding(crate::specs::Reading::call_at))]
fn read_call(line: &[u8]) -> Option<Call>
    ensures { result ≡ call_at line.now }
{
    let (command, words) = split_first(line, b' ')?;
    if command == b"prepare".as_slice() {
        return read_prepare(words);
    }
    if command == b"commit".as_slice() {
        return read_commit(words);
    }
    if command == b"get".as_slice() {
        return read_get(words);
    }
    if command == b"found".as_slice() {
        return read_found(words);
    }
    if command == b"collect".as_slice() {
        return read_collect(words);
    }
    if command == b"discard".as_slice() {
        return read_discard(words);
    }
    None
}

#[tactic(auto, unfolding(crate::specs::Reading::prepare_at))]
fn read_prepare(words: &[u8]) -> Option<Call>
    ensures { result ≡ prepare_at words.now }
{
    let (record, writes) = split_first(words, b' ')?;
    let writes = read_writes(writes)?;
    Some(Call::Prepare(read_record(record, writes)?))
}

#[tactic(auto, unfolding(crate::specs::Reading::commit_at))]
fn read_commit(words: &[u8]) -> Option<Call>
    ensures { result ≡ commit_at words.now }
{
    let stamp = read_stamp(words)?;
    if stamp == Stamp::ZERO {
        return None;
    }
    Some(Call::Commit(stamp))
}

#[tactic(auto, unfolding(crate::specs::Reading::get_at))]
fn read_get(words: &[u8]) -> Option<Call>
    ensures { result ≡ get_at words.now }
{
    match split_first(words, b' ') {
        None => Some(Call::Get(read_key(words)?, None)),
        Some((key, stamp)) => Some(Call::Get(read_key(key)?, Some(read_stamp(stamp)?))),
    }
}

#[tactic(auto, unfolding(crate::specs::Reading::found_at))]
fn read_found(words: &[u8]) -> Option<Call>
    ensures { result ≡ found_at words.now }
{
    Some(Call::Found(read_tag(words)?))
}

#[tactic(auto, unfolding(crate::specs::Reading::collect_at))]
fn read_collect(words: &[u8]) -> Option<Call>
    ensures { result ≡ collect_at words.now }
{
    let keep = read_number(words, u64::from(u8::MAX))?;
    Some(Call::Collect(Keep::new(keep as u8)?))
}

#[tactic(auto, unfolding(crate::specs::Reading::discard_at))]
fn read_discard(words: &[u8]) -> Option<Call>
    ensures { result ≡ discard_at words.now }
{
    Some(Call::Discard(read_stamp(words)?))
}
