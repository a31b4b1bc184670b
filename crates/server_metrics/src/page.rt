//! The pages that answer requests.
ghost use Rattle.std.specs.Prelude.{◌≡◌, IfOk, string_bytes};
ghost use Rattle.server_metrics.specs.Pages.{health_text_page, metrics_text_page, overview_text_page, text_page};

use crate::answer::{Status, html_response, response, words_of};
use crate::health::{health_status, put_health};
use crate::metrics::{ServerReadings, put_metrics};
use crate::overview::OVERVIEW;
use std::alloc::{AllocError, Global};

/// The page that shows a server in a browser. The one error is that an allocation failed.
pub fn overview_page(alloc: Global) -> Result<String, AllocError>
    ensures { IfOk result (λ page. string_bytes page ≡ overview_text_page) }
{
    html_response(alloc, OVERVIEW)
}

/// The metrics that were read. The one error is that an allocation failed.
pub fn metrics_page(alloc: Global, readings: &ServerReadings<'_>) -> Result<String, AllocError>
    ensures { IfOk result (λ page. string_bytes page ≡ metrics_text_page readings.now) }
{
    let mut body = String::new(alloc);
    put_metrics(&mut body, readings)?;
    response(alloc, Status::Well, body.as_str())
}

/// Whether the server was well when it was read: 503 exactly where it was not, else 507 exactly where one of its limits was used up,
/// else 200. The text has a line for each limit of which less than a quarter was left. The one error is that an allocation failed.
pub fn health_page(alloc: Global, readings: &ServerReadings<'_>) -> Result<String, AllocError>
    ensures { IfOk result (λ page. string_bytes page ≡ health_text_page readings.now) }
{
    let mut body = String::new(alloc);
    put_health(&mut body, readings)?;
    response(alloc, health_status(readings), body.as_str())
}

/// A page with the words of a status alone. The one error is that an allocation failed.
pub fn status_page(alloc: Global, status: Status) -> Result<String, AllocError>
    ensures { IfOk result (λ page. string_bytes page ≡ text_page status) }
{
    response(alloc, status, words_of(status))
}
