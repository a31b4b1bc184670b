//! How many connections a server serves at the moment, which decides whether a read looks for a while before it sleeps.
ghost use Rattle.std.specs.Prelude.{◌≡◌};

use std::sync::atomic::{AtomicU64, Ordering};

/// Up to how many connections a server may serve where a read looks for what comes before it sleeps. Beside each a client is at work, so
/// these two keep four processors busy.
const MOST_LOOKING: u64 = 2;

/// How many connections a server serves: a session each.
#[derive(Drop)]
pub(crate) struct SessionCount {
    sessions: AtomicU64,
}

/// The receipt of a session that began and has not ended. `begin` alone makes one.
#[derive(Drop)]
pub(crate) struct SessionBegun<'s> {
    count: &'s SessionCount,
}

impl SessionCount {
    /// The count of a server that serves no connection yet.
    pub(crate) fn new() -> SessionCount {
        SessionCount {
            sessions: AtomicU64::new(0),
        }
    }

    /// A session begins, and has the receipt.
    pub(crate) fn begin(&self) -> SessionBegun<'_>
        ensures { result.count.now ≡ self.now }
    {
        self.sessions.fetch_add(1, Ordering::SeqCst);
        SessionBegun { count: self }
    }

    /// Whether there are so few that each may look for a while.
    pub(crate) fn are_few(&self) -> bool {
        self.sessions.load(Ordering::SeqCst) <= MOST_LOOKING
    }
}

impl SessionBegun<'_> {
    /// The session ends.
    pub(crate) fn end(self) {
        self.count.sessions.fetch_sub(1, Ordering::SeqCst);
    }
}
