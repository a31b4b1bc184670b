//! The lines of a session.
ghost use Rattle.std.specs.Prelude.{◌≡◌, ◌⊎◌, IfOk, IfErr, Ok, Err};
ghost use Rattle.std.specs.Option.{option_map};
ghost use Rattle.line_protocol.specs.declared.request.Request.{Request};
ghost use Rattle.plain_store.specs.declared.refusal.Refusal.TheVariants.{BadLine, OutOfMemory};
ghost use Rattle.line_protocol.specs.ServeSpelling.{IsServeLine, IsNoServeLine, CarriesList, RefusesLine};
ghost use Rattle.line_protocol.specs.ServeReading.{get_at, hello_at, plain_request_by, put_at, request_at, any_client_at, FindsRequest};

use crate::Request;
use crate::step_line::{read_base, read_client, read_each, read_keep, read_name};
use crate::token::{next_short_part, read_tag, split_first};
use plain_store::{Items, Keys, Refusal};
use stamps::{Client, Counter};
use std::alloc::{AllocError, Global};

/// What a line of a session asks for. The line is handed in without its LF. The tenant of a [`Request::Hello`] is not
/// looked up here: any name of a tenant is read.
///
/// It is [`Refusal::BadLine`] exactly where the line asks for nothing, and [`Refusal::OutOfMemory`] only where the list
/// of a [`Request::Put`] or [`Request::Get`] found no memory.
pub fn read_serve_line(alloc: Global, line: &[u8]) -> Result<Request, Refusal>
    // What is read is spelled so.
    ensures found { IfOk result (λ request. IsServeLine request line.now) }
    // What is spelled so is read, unless there is no memory for a list.
    ensures only { (request : Request) → IsServeLine request line.now
        → (result ≡ Ok request) ⊎ ((result ≡ Err OutOfMemory) × CarriesList request) }
    ensures error { IfErr result (RefusesLine line.now) }
    ensures bad_line { IsNoServeLine line.now → result ≡ Err BadLine }
{
    match read_request(alloc, line) {
        None => Err(Refusal::BadLine),
        Some(Ok(request)) => Ok(request),
        Some(Err(AllocError)) => Err(Refusal::OutOfMemory),
    }
}

#[tactic(auto, unfolding(crate::specs::ServeReading::request_at))]
fn read_request(alloc: Global, line: &[u8]) -> Option<Result<Request, AllocError>>
    ensures { FindsRequest (request_at line.now) result }
{
    let (command, words) = next_short_part(line, b' ');
    if command == b"put".as_slice() {
        return read_put(alloc, words);
    }
    if command == b"get".as_slice() {
        return read_get(alloc, words);
    }
    Some(Ok(read_plain_request(command, words)?))
}

// The items, if there is one.
#[tactic(auto, unfolding(crate::specs::ServeReading::put_at))]
fn read_put(alloc: Global, words: Option<&[u8]>) -> Option<Result<Request, AllocError>>
    ensures { FindsRequest (put_at (option_map (λ t. t.now) words.entry)) result }
{
    match read_each(alloc, words)? {
        Ok(items) => Some(Ok(Request::Put(Items::new(items)))),
        Err(error) => Some(Err(error)),
    }
}

// The keys, if there is one.
#[tactic(auto, unfolding(crate::specs::ServeReading::get_at))]
fn read_get(alloc: Global, words: Option<&[u8]>) -> Option<Result<Request, AllocError>>
    ensures { FindsRequest (get_at (option_map (λ t. t.now) words.entry)) result }
{
    match read_each(alloc, words)? {
        Ok(keys) => Some(Ok(Request::Get(Keys::new(keys)))),
        Err(error) => Some(Err(error)),
    }
}

// A request that carries no list.
#[cold]
#[inline(never)]
fn read_plain_request(command: &[u8], words: Option<&[u8]>) -> Option<Request>
    ensures { result ≡ plain_request_by command.now (option_map (λ t. t.now) words.entry) }
{
    let Some(words) = words else {
        if command == b"bye".as_slice() {
            return Some(Request::Bye);
        }
        return if command == b"info".as_slice() {
            Some(Request::Info)
        } else {
            None
        };
    };
    if command == b"hello".as_slice() {
        return read_hello(words);
    }
    if command == b"find".as_slice() {
        return Some(Request::Find(read_tag(words)?));
    }
    if command == b"keep".as_slice() {
        return Some(Request::Keep(read_keep(words)?));
    }
    None
}

// TENANT CLIENT, or TENANT CLIENT BASE.
#[tactic(auto, unfolding(crate::specs::ServeReading::hello_at))]
fn read_hello(words: &[u8]) -> Option<Request>
    ensures { result ≡ hello_at words.now }
{
    let (name, numbers) = split_first(words, b' ')?;
    let name = read_name(name)?;
    match split_first(numbers, b' ') {
        None => Some(Request::Hello(name, read_any_client(numbers)?, Counter::new(0)?)),
        Some((client, base)) => {
            Some(Request::Hello(name, read_any_client(client)?, read_base(base)?))
        }
    }
}

// CLIENT, or `any`.
#[tactic(auto, unfolding(crate::specs::ServeReading::any_client_at))]
fn read_any_client(text: &[u8]) -> Option<Option<Client>>
    ensures { result ≡ any_client_at text.now }
{
    match read_client(text) {
        Some(client) => Some(Some(client)),
        None => if text == b"any".as_slice() {
            Some(None)
        } else {
            None
        },
    }
}
