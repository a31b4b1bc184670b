//! The pages of a status port, each of which is no older than the one before.
ghost use Rattle.std.specs.Prelude.{◌≡◌, ℕ, List, IfOk, string_bytes};
ghost use mathlib.Core.List.{IsPrefix};
ghost use Rattle.server_metrics.specs.declared.request.PageRequest.{PageRequest as Asked};
ghost use Rattle.server_status.specs.Answered.{IsAnswerTo, IsLaterReader};

use crate::reading::Watched;
use hub::{Front, Gate, Naming};
use server_metrics::{PageRequest, health_page, metrics_page, overview_page, status_page};
use server_verdicts::JournalChecks;
use std::alloc::{AllocError, Global};
use std::sync::Wait;

/// What answers requests, one after another.
///
/// `has_answered` and `goes_on` stand for what a call leaves. Code for any pages learns them from the call alone, and cannot
/// begin anew: what it answers is of these, in their order.
pub(crate) trait Answering {
    ghost has_answered: { Self → Self → Asked → List ℕ → Type 0 };

    ghost goes_on: { Self → Self → Type 0 };

    /// The page that answers a request. The one error is that an allocation failed.
    fn page<H: Wait>(
        &mut self,
        rt: &H,
        alloc: Global,
        asked: PageRequest,
    ) -> Result<String, AllocError>
        ensures answer { IfOk result
            (λ page. has_answered self.old self.new asked (string_bytes page)) }
        ensures later { goes_on self.old self.new };
}

/// The pages of one server. They keep what was seen of its history: no page is of an older store than one before it.
#[derive(Drop)]
pub(crate) struct Pages<'w, 's, G: Naming, C> {
    watched: &'w Watched<'s, G, C>,
    seen: Front<G>,
}

impl<'w, 's, G: Gate + Naming, C> Pages<'w, 's, G, C> {
    /// None yet.
    pub(crate) fn new(watched: &'w Watched<'s, G, C>) -> Pages<'w, 's, G, C>
        ensures { result.watched.now ≡ watched.now }
    {
        let seen = watched.hub.opening();
        Pages { watched, seen }
    }
}

impl<G: Gate + Naming, C: JournalChecks> Answering for Pages<'_, '_, G, C> {
    ghost has_answered = { λ before after asked page.
        IsAnswerTo C.has_told before.watched.now before.seen after.seen asked page };

    ghost goes_on = { λ before after. IsLaterReader before.watched.now after.watched.now before.seen after.seen };

    fn page<H: Wait>(
        &mut self,
        rt: &H,
        alloc: Global,
        asked: PageRequest,
    ) -> Result<String, AllocError> {
        match asked {
            PageRequest::Overview => overview_page(alloc),
            PageRequest::Metrics => {
                metrics_page(alloc, &self.watched.read(rt, alloc, &mut self.seen)?)
            }
            PageRequest::Health => {
                health_page(alloc, &self.watched.read(rt, alloc, &mut self.seen)?)
            }
            PageRequest::Refused(status) => status_page(alloc, status),
        }
    }
}
