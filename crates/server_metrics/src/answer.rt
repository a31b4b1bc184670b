//! The text that answers a request.
ghost use Rattle.std.specs.Prelude.{◌≡◌, IfOk, string_bytes};
ghost use Rattle.server_metrics.specs.Responses.{html_text, more_of, response_text, status_line, words_of};

use std::alloc::{AllocError, Global};

// What a browser lets the page do: its own style and script, and requests to this port.
const OF_PAGE: &str =
    "default-src 'none'; style-src 'unsafe-inline'; script-src 'unsafe-inline'; connect-src 'self'; frame-ancestors 'none'";

/// How a request is answered.
#[derive(Clone, Copy, Debug, PartialEq, Eq)]
pub enum Status {
    /// 200: the page that was asked for; of the health, no limit is used up.
    Well,
    /// 400: it is no request of HTTP/1.0 or 1.1, has no host though it is of 1.1, or has more than 64 header lines.
    BadRequest,
    /// 403: the host is not this machine, as where a page of another site sent it.
    Forbidden,
    /// 404: there is no such page.
    NotFound,
    /// 405: only `GET` is answered.
    OtherMethod,
    /// 431: its head has more than 8 KiB.
    TooLarge,
    /// 503: the server is not well.
    NotWell,
    /// 507: the server is well, and a limit is used up.
    Full,
}

/// The whole text of an answer with this page of HTML, which may load nothing and run its own script. The connection ends behind it. The one
/// error is that an allocation failed.
pub(crate) fn html_response(alloc: Global, body: &str) -> Result<String, AllocError>
    ensures { IfOk result (λ text. string_bytes text ≡ html_text body.now) }
{
    format!(in alloc;
        "HTTP/1.1 200 OK\r\nContent-Type: text/html; charset=utf-8\r\nContent-Length: {}\r\nContent-Security-Policy: {}\r\nConnection: close\r\n\r\n{}",
        body.len(),
        OF_PAGE,
        body
    )
}

/// The whole text of an answer with this body. The connection ends behind it. The one error is that an allocation failed.
pub fn response(alloc: Global, status: Status, body: &str) -> Result<String, AllocError>
    ensures { IfOk result (λ text. string_bytes text ≡ response_text status body.now) }
{
    format!(in alloc;
        "HTTP/1.1 {}\r\nContent-Type: text/plain; version=0.0.4; charset=utf-8\r\nContent-Length: {}\r\n{}Connection: close\r\n\r\n{}",
        status_line(status),
        body.len(),
        more_of(status),
        body
    )
}

// The number and the phrase.
fn status_line(status: Status) -> &'static str
    ensures { result.now ≡ status_line status }
{
    match status {
        Status::Well => "200 OK",
        Status::BadRequest => "400 Bad Request",
        Status::Forbidden => "403 Forbidden",
        Status::NotFound => "404 Not Found",
        Status::OtherMethod => "405 Method Not Allowed",
        Status::TooLarge => "431 Request Header Fields Too Large",
        Status::NotWell => "503 Service Unavailable",
        Status::Full => "507 Insufficient Storage",
    }
}

// The header line that this status has beside the others.
fn more_of(status: Status) -> &'static str
    ensures { result.now ≡ more_of status }
{
    match status {
        Status::OtherMethod => "Allow: GET\r\n",
        _ => "",
    }
}

/// The words for a client that gets this status.
pub(crate) fn words_of(status: Status) -> &'static str
    ensures { result.now ≡ words_of status }
{
    match status {
        Status::Well => "ok\n",
        Status::BadRequest => "This is no request of HTTP/1.1.\n",
        Status::Forbidden => "The host is not this machine.\n",
        Status::NotFound => "There are /, /metrics and /health.\n",
        Status::OtherMethod => "Only GET is answered.\n",
        Status::TooLarge => "The head of the request is too long.\n",
        Status::NotWell =>
            "An epoch was not right or could not be checked, or a partition is not there.\n",
        Status::Full => "full: some writes are refused, or no session is free\n",
    }
}
