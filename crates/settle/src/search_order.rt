//! Where the next step is looked for first.
use crate::next_step::{Source, is_over};
use crate::progress::Progress;
use crate::session_order::SessionOrder;

/// Where the next step is looked for first. Each step lets one transcript go on at most: its own, that of the seat whose event
/// it was, or the client's next session. So a search that asks that one, and then one that gave no step yet, seldom asks more.
#[derive(Clone, Copy)]
pub struct SearchOrder {
    /// The place of the transcript that is asked first.
    pub first: usize,
    /// The transcripts in front of this place were asked; those from it on are asked before them.
    pub fresh: usize,
}

impl SearchOrder {
    /// The search for the first step.
    pub fn new() -> SearchOrder {
        SearchOrder { first: 0, fresh: 0 }
    }

    /// The search for the step after one of this origin, which was taken.
    pub fn after(self, progress: &Progress, places: &SessionOrder, source: &Source) -> SearchOrder {
        match source {
            Source::Transcript(place) => SearchOrder {
                first: progress.goes_on(places, *place),
                fresh: self.fresh_after(*place),
            },
            Source::Journal(_, seat) => SearchOrder {
                first: places.slot_of(*seat).unwrap_or(self.first),
                fresh: self.fresh,
            },
        }
    }

    /// How far transcripts were asked in their order, when the one at a place gave a step: if it was asked first, no further.
    fn fresh_after(self, place: usize) -> usize {
        if place == self.first {
            return self.fresh;
        }
        self.fresh.max(place.saturating_add(1))
    }
}

impl Progress {
    /// The place of the transcript that may go on after a step of the one at a place: where that is over, the client's next session.
    fn goes_on(&self, places: &SessionOrder, place: usize) -> usize {
        match self.stages.get(place) {
            Some(stage) if is_over(*stage) => places.after(place).unwrap_or(place),
            _ => place,
        }
    }
}
