//! The lines that ask for steps.
ghost use Rattle.std.specs.Prelude.{◌≡◌, ◌⊎◌, ℕ, ◌<◌, Some, IfSome, IfNone, IfOk, IfErr, OnOk, IsOk, Ok, Err, vec_len, vec_capacity};
ghost use Rattle.std.specs.Option.{option_map};
ghost use Rattle.stamps.specs.Limits.{max_counter};
ghost use Rattle.plain_store.specs.declared.step.Act.{Act};
ghost use Rattle.plain_store.specs.declared.refusal.Refusal.TheVariants.{NoTenant, BadLine, OutOfMemory};
ghost use Rattle.line_protocol.specs.Spelling.{space};
ghost use Rattle.line_protocol.specs.Reading.{number_at, parts_in, each_at};
ghost use Rattle.line_protocol.specs.StepSpelling.{IsNumberOf, IsNobody, IsStepLine, AsksFor, AsksStranger, AsksNothing, HasList, Refuses};
ghost use Rattle.line_protocol.specs.StepReading.{client_at, item_at, hello_at, put_at, get_at, find_at, deliver_at, lose_at, retry_at, stop_at, collect_at, keep_at, plain_by, act_at, name_at, FindsList, FindsAct};

use crate::Name;
use crate::token::{next_part, read_number, read_tag, split_first};
use crate::word::{split_end, split_key, split_tag, split_value};
use plain_store::{Act, Items, Keys, Refusal, Step};
use stamps::{Client, Counter, Item, Keep, Key, Stamp, Value};
use std::alloc::{AllocError, Global};

/// The step that a line asks for, of one of the tenants of these names. The line is handed in without its LF. The
/// tenant's number is the place, from 0, where its name first stands among them; a name that first stands at 2^32 or
/// further back has no number, and its tenant is not there.
///
/// The whole line is read before the tenant is looked up: it is [`Refusal::BadLine`] exactly where the line asks for
/// nothing, and [`Refusal::NoTenant`] exactly where it asks for an act of a tenant that is not there. It is
/// [`Refusal::OutOfMemory`] only where the list of a [`Act::Put`] or [`Act::Get`] found no memory.
pub fn read_step_line(alloc: Global, names: &[Name], line: &[u8]) -> Result<Step, Refusal>
    // What is read is spelled so.
    ensures found { IfOk result (λ step. AsksFor names.now line.now step.tenant step.act) }
    // What is spelled so is read, unless there is no memory for a list.
    ensures only { (number : ℕ) (act : Act) → AsksFor names.now line.now number act
        → (result ≡ Ok (record { tenant = number; act = act }))
        ⊎ ((result ≡ Err OutOfMemory) × HasList act) }
    ensures error { IfErr result (Refuses names.now line.now) }
    ensures no_tenant { AsksStranger names.now line.now → result ≡ Err NoTenant }
    ensures bad_line { AsksNothing line.now → result ≡ Err BadLine }
{
    let Some((name, text)) = split_first(line, b' ') else {
        return Err(Refusal::BadLine);
    };
    let Some(name) = read_name(name) else {
        return Err(Refusal::BadLine);
    };
    let Some(act) = read_act(alloc, text) else {
        return Err(Refusal::BadLine);
    };
    let Some(tenant) = tenant_number(names, &name) else {
        return Err(Refusal::NoTenant);
    };
    match act {
        Ok(act) => Ok(Step { tenant, act }),
        Err(AllocError) => Err(Refusal::OutOfMemory),
    }
}

/// 1 to `MAX_NAME_LEN` bytes of a tenant's name.
pub(crate) fn read_name(text: &[u8]) -> Option<Name>
    ensures { result ≡ name_at text.now }
{
    Name::read(text)
}

/// The number of the tenant of this name: the place, from 0, where it first stands among these. `None` where it stands
/// nowhere, or first at 2^32 or further back.
pub fn tenant_number(names: &[Name], name: &Name) -> Option<u32>
    ensures some { IfSome result (λ number. IsNumberOf names.now name.now number) }
    ensures none { IfNone result (IsNobody names.now name.now) }
{
    let place = names.iter().position(|known| known == name)?;
    u32::try_from(place).ok()
}

#[tactic(auto, unfolding(crate::specs::StepReading::act_at))]
fn read_act(alloc: Global, text: &[u8]) -> Option<Result<Act, AllocError>>
    ensures { FindsAct (act_at text.now) result }
{
    let (command, words) = split_first(text, b' ')?;
    if command == b"put".as_slice() {
        return read_put(alloc, words);
    }
    if command == b"get".as_slice() {
        return read_get(alloc, words);
    }
    Some(Ok(read_plain_act(command, words)?))
}

#[tactic(auto, unfolding(crate::specs::StepReading::put_at))]
fn read_put(alloc: Global, words: &[u8]) -> Option<Result<Act, AllocError>>
    ensures { FindsAct (put_at words.now) result }
{
    let (client, items) = next_part(words, b' ');
    let client = read_client(client)?;
    match read_each(alloc, items)? {
        Ok(items) => Some(Ok(Act::Put(client, Items::new(items)))),
        Err(error) => Some(Err(error)),
    }
}

#[tactic(auto, unfolding(crate::specs::StepReading::get_at))]
fn read_get(alloc: Global, words: &[u8]) -> Option<Result<Act, AllocError>>
    ensures { FindsAct (get_at words.now) result }
{
    let (client, keys) = next_part(words, b' ');
    let client = read_client(client)?;
    match read_each(alloc, keys)? {
        Ok(keys) => Some(Ok(Act::Get(client, Keys::new(keys)))),
        Err(error) => Some(Err(error)),
    }
}

/// What a word of a list is read as.
pub(crate) trait Word: Sized + Drop {
    ghost use Rattle.std.specs.Prelude.{◌≡◌, ◌++◌, ◌∷◌, [], ℕ, List, Option, Some, None, MatchOption, IsOk, OnOk};
    ghost use Rattle.std.specs.Option.{option_map};
    ghost use Rattle.line_protocol.specs.Spelling.{space};
    ghost use Rattle.line_protocol.specs.Reading.{part_at};

    ghost at: { List ℕ → Option Self };

    /// Reads the first word of a text, and keeps it behind the others, unless there was no memory for one of them. It
    /// returns whether there was, and what follows the space behind the word, if there is one.
    fn take<'a>(
        text: &'a [u8],
        list: &mut Vec<Self>,
        kept: Result<(), AllocError>,
    ) -> Option<(Result<(), AllocError>, Option<&'a [u8]>)>
        ensures { MatchOption result
            (at (part_at space text.now).0 ≡ None)
            (λ p. (word : Self)
            × (at (part_at space text.now).0 ≡ Some word)
            × (option_map (λ t. t.now) p.1 ≡ (part_at space text.now).1)
            × OnOk p.0 (IsOk kept × (list.new.items ≡ list.old.items ++ word ∷ []))) };
}

impl Word for Item {
    ghost at = { item_at };

    // An item is made where it is kept.
    fn take<'a>(
        text: &'a [u8],
        list: &mut Vec<Item>,
        kept: Result<(), AllocError>,
    ) -> Option<(Result<(), AllocError>, Option<&'a [u8]>)> {
        let (key, after) = split_key(text)?;
        let Some(tagged) = split_tag(after) else {
            return None;
        };
        let (value, rest) = split_value(tagged.1)?;
        if let Err(error) = make_room(list, kept) {
            return Some((Err(error), rest));
        }
        list.push_reserved(Item {
            key: Key::of_stored(key),
            tag: tagged.0,
            value: Value::of_stored(value),
        });
        Some((Ok(()), rest))
    }
}

impl Word for Key {
    ghost use Rattle.line_protocol.specs.Reading.{key_at};

    ghost at = { key_at };

    fn take<'a>(
        text: &'a [u8],
        list: &mut Vec<Key>,
        kept: Result<(), AllocError>,
    ) -> Option<(Result<(), AllocError>, Option<&'a [u8]>)> {
        let (key, after) = split_key(text)?;
        let rest = split_end(after)?;
        if let Err(error) = make_room(list, kept) {
            return Some((Err(error), rest));
        }
        list.push_reserved(Key::of_stored(key));
        Some((Ok(()), rest))
    }
}

/// Each word of the text, if there is one. Words that found no memory are read too, so that a bad one is never
/// missed.
pub(crate) fn read_each<T: Word>(
    alloc: Global,
    text: Option<&[u8]>,
) -> Option<Result<Vec<T>, AllocError>>
    ensures { FindsList (λ list. list.items)
        (each_at T.at (parts_in space (option_map (λ t. t.now) text.entry))) result }
{
    let mut list = Vec::new(alloc);
    let mut kept = Ok(());
    let mut rest = text;
    while let Some(more) = rest {
        let (still, after) = T::take(more, &mut list, kept)?;
        kept = still;
        rest = after;
    }
    Some(kept.map(|()| list))
}

// Room for one word more, unless there was no memory for one before.
fn make_room<T: Drop>(list: &mut Vec<T>, kept: Result<(), AllocError>) -> Result<(), AllocError>
    ensures { OnOk result (IsOk kept
        × (vec_len list.new < vec_capacity list.new)
        × (list.new.items ≡ list.old.items)) }
{
    kept?;
    list.reserve(1)
}

/// 1 to 65535.
#[tactic(auto, unfolding(crate::specs::StepReading::client_at))]
pub(crate) fn read_client(text: &[u8]) -> Option<Client>
    ensures { result ≡ client_at text.now }
{
    let number = read_number(text, u64::from(u16::MAX))?;
    Client::new(number as u16)
}

/// 1 to 255.
#[tactic(auto, unfolding(crate::specs::StepReading::keep_at))]
pub(crate) fn read_keep(text: &[u8]) -> Option<Keep>
    ensures { result ≡ keep_at text.now }
{
    let number = read_number(text, u64::from(u8::MAX))?;
    Keep::new(number as u8)
}

// An act that carries no list.
fn read_plain_act(command: &[u8], words: &[u8]) -> Option<Act>
    ensures { result ≡ plain_by command.now words.now }
{
    if command == b"hello".as_slice() {
        return read_hello(words);
    }
    if command == b"find".as_slice() {
        return read_find(words);
    }
    if command == b"deliver".as_slice() {
        return read_deliver(words);
    }
    if command == b"lose".as_slice() {
        return read_lose(words);
    }
    if command == b"retry".as_slice() {
        return read_retry(words);
    }
    if command == b"stop".as_slice() {
        return read_stop(words);
    }
    if command == b"collect".as_slice() {
        return read_collect(words);
    }
    if command == b"keep".as_slice() {
        return Some(Act::Keep(read_keep(words)?));
    }
    None
}

// CLIENT, or CLIENT BASE.
#[tactic(auto, unfolding(crate::specs::StepReading::hello_at))]
fn read_hello(words: &[u8]) -> Option<Act>
    ensures { result ≡ hello_at words.now }
{
    match split_first(words, b' ') {
        None => Some(Act::Hello(read_client(words)?, Counter::new(0)?)),
        Some((client, base)) => Some(Act::Hello(read_client(client)?, read_base(base)?)),
    }
}

/// 0 to 2^40 - 1.
pub(crate) fn read_base(text: &[u8]) -> Option<Counter>
    ensures { result ≡ number_at max_counter text.now }
{
    Counter::new(read_number(text, Stamp::MAX_COUNTER)?)
}

// CLIENT TAG.
#[tactic(auto, unfolding(crate::specs::StepReading::find_at))]
fn read_find(words: &[u8]) -> Option<Act>
    ensures { result ≡ find_at words.now }
{
    let (client, tag) = split_first(words, b' ')?;
    Some(Act::Find(read_client(client)?, read_tag(tag)?))
}

#[tactic(auto, unfolding(crate::specs::StepReading::deliver_at))]
fn read_deliver(words: &[u8]) -> Option<Act>
    ensures { result ≡ deliver_at words.now }
{
    Some(Act::Deliver(read_number(words, u64::MAX)?))
}

#[tactic(auto, unfolding(crate::specs::StepReading::lose_at))]
fn read_lose(words: &[u8]) -> Option<Act>
    ensures { result ≡ lose_at words.now }
{
    Some(Act::Lose(read_number(words, u64::MAX)?))
}

#[tactic(auto, unfolding(crate::specs::StepReading::retry_at))]
fn read_retry(words: &[u8]) -> Option<Act>
    ensures { result ≡ retry_at words.now }
{
    Some(Act::Retry(read_client(words)?))
}

#[tactic(auto, unfolding(crate::specs::StepReading::stop_at))]
fn read_stop(words: &[u8]) -> Option<Act>
    ensures { result ≡ stop_at words.now }
{
    Some(Act::Stop(read_client(words)?))
}

#[tactic(auto, unfolding(crate::specs::StepReading::collect_at))]
fn read_collect(words: &[u8]) -> Option<Act>
    ensures { result ≡ collect_at words.now }
{
    let partition = read_number(words, u64::from(u32::MAX))?;
    Some(Act::Collect(partition as u32))
}
