//! What a request asks for.
ghost use Rattle.std.specs.Prelude.{◌≡◌, IfSome, IfNone, map};
ghost use Rattle.std.specs.List.{list_all, list_any};
ghost use Rattle.std.specs.Char.{is_ascii_digit};
ghost use Rattle.httparse.specs.Borrowed.{header_parts};
ghost use Rattle.httparse.specs.Grammar.{HasNoRequest};
ghost use Rattle.server_metrics.specs.Requests.{IsAskedBy, asked_by, is_foreign, is_here, is_host, is_named, is_port, page_by};

use crate::answer::Status;
use httparse::{EMPTY_HEADER, Header, Request, Status as Parsed};

/// How many header lines a request has at most.
pub const MOST_FIELDS: usize = 64;

/// What a request asks for.
#[derive(Clone, Copy, Debug, PartialEq, Eq)]
pub enum PageRequest {
    /// The page that shows it: `GET /`.
    Overview,
    /// How the server stands, in figures: `GET /metrics`.
    Metrics,
    /// Whether it is well: `GET /health`.
    Health,
    /// Nothing that there is: it is refused with this status.
    Refused(Status),
}

/// What the request asks for that these bytes begin with; `None` where its head is not there yet. A body is not looked at.
pub fn read_request(bytes: &[u8]) -> Option<PageRequest>
    ensures asked { IfSome result (IsAskedBy bytes.now) }
    ensures waits { IfNone result (HasNoRequest bytes.now) }
{
    let mut headers = [EMPTY_HEADER; MOST_FIELDS];
    let mut request = Request::new(&mut headers);
    match request.parse(bytes) {
        Ok(Parsed::Complete(_)) => {
            let Some(method) = request.method else {
                unreachable!();
            };
            let Some(path) = request.path else {
                unreachable!();
            };
            let Some(minor) = request.version else {
                unreachable!();
            };
            Some(asked_of(method, path, minor, request.headers))
        }
        Ok(Parsed::Partial) => None,
        Err(_) => Some(PageRequest::Refused(Status::BadRequest)),
    }
}

// What a request of these parts asks for.
#[tactic(auto, using(crate::proofs::Headers::foreign_parts, crate::proofs::Headers::host_parts))]
fn asked_of(method: &str, path: &str, minor: u8, headers: &[Header<'_>]) -> PageRequest
    ensures { result ≡ asked_by method.now path.now minor (map header_parts headers.now) }
{
    if has_foreign(headers) {
        return PageRequest::Refused(Status::Forbidden);
    }
    if minor == 1 && !has_host(headers) {
        return PageRequest::Refused(Status::BadRequest);
    }
    page_of(method, path)
}

// What a request that names this machine asks for.
fn page_of(method: &str, path: &str) -> PageRequest
    ensures { result ≡ page_by method.now path.now }
{
    if method != "GET" {
        return PageRequest::Refused(Status::OtherMethod);
    }
    if path == "/" {
        return PageRequest::Overview;
    }
    if path == "/metrics" {
        return PageRequest::Metrics;
    }
    if path == "/health" {
        return PageRequest::Health;
    }
    PageRequest::Refused(Status::NotFound)
}

// Whether one of the header lines names a host that is not this machine.
fn has_foreign(headers: &[Header<'_>]) -> bool
    ensures { result ≡ list_any (λ header. is_foreign (header_parts header)) headers.now }
{
    headers.iter().any(|header| is_foreign(header))
}

// Whether one of them names the host.
fn has_host(headers: &[Header<'_>]) -> bool
    ensures { result ≡ list_any (λ header. is_host (header_parts header)) headers.now }
{
    headers.iter().any(|header| is_host(header))
}

// Whether a header line names a host that is not this machine.
fn is_foreign(header: &Header<'_>) -> bool
    ensures { result ≡ is_foreign (header_parts header.now) }
{
    is_host(header) && !is_here(header.value)
}

// Whether it names the host.
fn is_host(header: &Header<'_>) -> bool
    ensures { result ≡ is_host (header_parts header.now) }
{
    header.name.eq_ignore_ascii_case("host")
}

// Whether a host is this machine, with a port or without.
fn is_here(host: &[u8]) -> bool
    ensures { result ≡ is_here host.now }
{
    is_named(b"127.0.0.1", host) || is_named(b"localhost", host) || is_named(b"[::1]", host)
}

// Whether a host has this name, with a port or without.
fn is_named(name: &[u8], host: &[u8]) -> bool
    ensures { result ≡ is_named name.now host.now }
{
    match host.strip_prefix(name) {
        Some(port) => is_port(port),
        None => false,
    }
}

// Whether this is a port behind a host, or nothing.
fn is_port(text: &[u8]) -> bool
    ensures { result ≡ is_port text.now }
{
    match text {
        [] => true,
        [first, digits @ ..] => *first == b':' && all_digits(digits),
    }
}

fn all_digits(text: &[u8]) -> bool
    ensures { result ≡ list_all is_ascii_digit text.now }
{
    text.iter().all(|byte| byte.is_ascii_digit())
}
