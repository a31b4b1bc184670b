//! Whom a server serves, and what those that ended left: what the server's lock keeps.
ghost use Rattle.std.specs.Prelude.{◌≡◌, ◌≢◌, ◌⊎◌, ◌↔◌, ◌+◌, ◌-◌, ◌^◌, false, true, min, slice_get, slice_set, vec_len, IfNone, IfOk, IfSome, IsTrue, MatchOption, None, Some};
ghost use Rattle.server_sessions.specs.Histories.{IsGivenIn};
ghost use Rattle.server_sessions.specs.Places.{AreFree, AreTaken, IsKeptOrLost, IsLeftOf, LeavesTheSame, ServesNone, StaysServed, failed_in, lost_in, one_less, one_more, refused_in, taken_count};
ghost use Rattle.server_sessions.specs.Receipts.{kept_of};

use crate::kept_transcripts::KeptTranscripts;
use crate::line_session::{SessionLeft, SessionRun};
use crate::session_options::SessionOptions;
use hub::Naming;
use std::alloc::{AllocError, Global};
use std::net::{Shutdown, TcpStream};
use std::sync::Arc;

/// Whom a server serves, and what those that ended left.
#[derive(Drop)]
pub(crate) struct ServedConnections<G: Naming> {
    /// The connections that are served, each at a place of its own.
    places: Vec<Option<Arc<TcpStream>>>,
    /// How many connections are still to be begun, where they are counted.
    left: Option<u32>,
    /// How many connections were begun.
    begun: u64,
    kept: KeptTranscripts<G>,
    has_failed: bool,
    has_refused: bool,
    has_lost: bool,
}

/// What was changed of a server's connections.
#[derive(Clone, Copy, PartialEq, Eq)]
enum Change {
    /// A connection began at this place.
    Begun(usize),
    /// The one at this place ended.
    Ended(usize),
    /// The one at this place could not be served.
    GivenUp(usize),
    /// A device failed.
    Failed,
}

/// The receipt of a change: it was made in what a server's lock keeps.
#[derive(Drop)]
pub(crate) struct Receipt {
    change: Change,
}

/// How many connections a server has.
#[derive(Clone, Copy, Debug, PartialEq, Eq)]
pub struct Connections {
    /// Those that it serves now.
    pub open: usize,
    /// How many it serves at a time.
    pub most: usize,
    /// Those that it began to serve, in all.
    pub begun: u64,
}

/// What a server left.
#[derive(Drop)]
pub struct Left<G: Naming, N> {
    /// By which names the tenants of its sessions went.
    pub tenants: N,
    /// How their lines were answered.
    pub options: SessionOptions,
    /// The transcripts of the seats of its sessions, but for those that found no memory, and what these seats have seen.
    pub kept: KeptTranscripts<G>,
    /// What kept it from some of its connections, or of their transcripts.
    pub faults: ServerFaults,
}

/// What kept a server from some of its connections, or of their transcripts. A server that ended alone gives one.
#[derive(Drop)]
pub struct ServerFaults {
    has_failed: bool,
    has_refused: bool,
    has_lost: bool,
}

impl ServerFaults {
    /// Whether a connection could not be accepted, a thread could not be started, or the input could not be read.
    pub fn has_failed(&self) -> bool
        ensures { result ≡ failed_in self.now }
    {
        self.has_failed
    }

    /// Whether a connection found no memory for its place: it was closed, and not counted.
    pub fn has_refused(&self) -> bool
        ensures { result ≡ refused_in self.now }
    {
        self.has_refused
    }

    /// Whether a transcript found no memory.
    pub fn has_lost(&self) -> bool
        ensures { result ≡ lost_in self.now }
    {
        self.has_lost
    }
}

impl<G: Naming> ServedConnections<G> {
    /// So many places, each free, of a server that is still to begin so many connections, or all that come.
    pub(crate) fn new(
        alloc: Global,
        sessions: u32,
        left: Option<u32>,
        kept: KeptTranscripts<G>,
    ) -> Result<ServedConnections<G>, AllocError>
        ensures { IfOk result (ServesNone sessions left kept.transcripts) }
    {
        let places = free_places(alloc, sessions)?;
        Ok(ServedConnections {
            places,
            left,
            begun: 0,
            kept,
            has_failed: false,
            has_refused: false,
            has_lost: false,
        })
    }

    /// What it left, whose sessions were answered by these names and with these options.
    pub(crate) fn leave<N>(self, tenants: N, options: SessionOptions) -> Left<G, N>
        ensures { IsLeftOf tenants options self result }
    {
        let ServedConnections {
            places: _,
            left: _,
            begun: _,
            kept,
            has_failed,
            has_refused,
            has_lost,
        } = self;
        Left {
            tenants,
            options,
            kept,
            faults: ServerFaults {
                has_failed,
                has_refused,
                has_lost,
            },
        }
    }

    /// Whether a further connection is to be accepted, but has no place yet.
    pub(crate) fn waits(&self) -> bool
        ensures { IsTrue result ↔ ((self.now.left ≢ Some 0) × AreTaken self.now.places.items) }
    {
        self.left != Some(0) && are_taken(&self.places)
    }

    /// A place for the next connection. None where no more are to be begun, or each place has one.
    pub(crate) fn free_place(&self) -> Option<usize>
        ensures free { IfSome result (λ place. (self.now.left ≢ Some 0)
            × (slice_get self.now.places.items place ≡ Some None)) }
        ensures none { IfNone result ((self.now.left ≡ Some 0) ⊎ AreTaken self.now.places.items) }
    {
        if self.left == Some(0) {
            return None;
        }
        first_free(&self.places)
    }

    /// Whether no connection is served.
    pub(crate) fn is_empty(&self) -> bool
        ensures { IsTrue result ↔ AreFree self.now.places.items }
    {
        are_free(&self.places)
    }

    /// How many connections are served, and how many were begun.
    pub(crate) fn counts(&self) -> (usize, u64)
        ensures { (result.0 ≡ taken_count self.now.places.items) × (result.1 ≡ self.now.begun) }
    {
        (taken_count(&self.places), self.begun)
    }

    /// A connection has begun, and has this place.
    pub(crate) fn begin(&mut self, place: usize, stream: Arc<TcpStream>) -> Receipt
        ensures receipt { result.change ≡ Change.Begun place }
        ensures places { self.new.places.items
            ≡ slice_set self.old.places.items place (Some stream) }
        ensures left { (self.new.left ≡ one_less self.old.left)
            × (self.new.begun ≡ min (self.old.begun + 1) (2 ^ 64 - 1)) }
        ensures others { LeavesTheSame self.old self.new }
    {
        self.left = self.left.map(|left| left.saturating_sub(1));
        self.begun = self.begun.saturating_add(1);
        self.put(place, Some(stream));
        Receipt {
            change: Change::Begun(place),
        }
    }

    /// The connection at this place is served no longer. The transcript that its session left, if any, is kept behind those before,
    /// unless journals are cut, or is lost where it finds no memory.
    pub(crate) fn end(&mut self, place: usize, session: SessionRun<'_, G>) -> Receipt
        requires { IfSome session.left (λ its. IsGivenIn its.1 its.0) }
        ensures receipt { result.change ≡ Change.Ended place }
        ensures places { self.new.places.items ≡ slice_set self.old.places.items place None }
        ensures kept { MatchOption
            (kept_of session.entry.hub.now.epoch session.entry.left)
            (LeavesTheSame self.old self.new) (λ its. IsKeptOrLost its.0 self.old self.new) }
        ensures others { (self.new.left ≡ self.old.left) × (self.new.begun ≡ self.old.begun)
            × (self.new.has_failed ≡ self.old.has_failed)
            × (self.new.has_refused ≡ self.old.has_refused) }
    {
        if let Some(left) = session.into_kept() {
            self.keep(left);
        }
        self.put(place, None);
        Receipt {
            change: Change::Ended(place),
        }
    }

    /// The connection at this place can't be served, since no thread could be started: another may begin for it.
    pub(crate) fn give_up(&mut self, place: usize) -> Receipt
        ensures receipt { result.change ≡ Change.GivenUp place }
        ensures places { self.new.places.items ≡ slice_set self.old.places.items place None }
        ensures left { (self.new.left ≡ one_more self.old.left)
            × (self.new.begun ≡ self.old.begun) }
        ensures failed { self.new.has_failed ≡ true }
        ensures transcripts { self.new.kept.transcripts ≡ self.old.kept.transcripts }
        ensures others { (self.new.has_refused ≡ self.old.has_refused)
            × (self.new.has_lost ≡ self.old.has_lost) }
    {
        self.has_failed = true;
        self.left = self.left.map(|left| left.saturating_add(1));
        self.put(place, None);
        Receipt {
            change: Change::GivenUp(place),
        }
    }

    /// A device failed.
    pub(crate) fn fail(&mut self) -> Receipt
        ensures receipt { result.change ≡ Change.Failed }
        ensures failed { self.new.has_failed ≡ true }
        ensures same { StaysServed self.old self.new }
        ensures others { (self.new.has_refused ≡ self.old.has_refused)
            × (self.new.has_lost ≡ self.old.has_lost) }
    {
        self.has_failed = true;
        Receipt {
            change: Change::Failed,
        }
    }

    /// A connection found no memory.
    pub(crate) fn refuse(&mut self)
        ensures refused { self.new.has_refused ≡ true }
        ensures same { StaysServed self.old self.new }
        ensures others { (self.new.has_failed ≡ self.old.has_failed)
            × (self.new.has_lost ≡ self.old.has_lost) }
    {
        self.has_refused = true;
    }

    /// Keeps the transcript of a session that ended, behind those before. It is lost where it finds no memory.
    fn keep(&mut self, session: SessionLeft<G>)
        requires { IsGivenIn session.1 session.0 }
        ensures kept { IsKeptOrLost session.0 self.old self.new }
        ensures others { (self.new.places ≡ self.old.places) × (self.new.left ≡ self.old.left)
            × (self.new.begun ≡ self.old.begun) × (self.new.has_failed ≡ self.old.has_failed)
            × (self.new.has_refused ≡ self.old.has_refused) }
    {
        if !self.kept.keep(session) {
            self.has_lost = true;
        }
    }

    /// Shuts the connections down that are served, and answers how many these are.
    pub(crate) fn shut(&self, how: Shutdown) -> usize
        ensures { result ≡ taken_count self.now.places.items }
    {
        shut_all(&self.places, how)
    }

    // Puts this at a place, if it is there.
    fn put(&mut self, place: usize, stream: Option<Arc<TcpStream>>)
        ensures places { self.new.places.items ≡ slice_set self.old.places.items place stream }
        ensures left { (self.new.left ≡ self.old.left) × (self.new.begun ≡ self.old.begun) }
        ensures others { LeavesTheSame self.old self.new }
    {
        if place < self.places.len() {
            self.places[place] = stream;
        }
    }
}

/// Shuts the connections of these places down, and answers how many these are.
fn shut_all(places: &[Option<Arc<TcpStream>>], how: Shutdown) -> usize
    ensures { result ≡ taken_count places.now }
{
    let mut count = 0;
    for place in places {
        if let Some(stream) = place {
            // One that its peer has closed needs none.
            let _ = stream.shutdown(how);
            count += 1;
        }
    }
    count
}

/// How many places have a connection.
fn taken_count(places: &[Option<Arc<TcpStream>>]) -> usize
    ensures { result ≡ taken_count places.now }
{
    places.iter().filter(|place| place.is_some()).count()
}

/// So many places, none of which has a connection.
fn free_places(alloc: Global, sessions: u32) -> Result<Vec<Option<Arc<TcpStream>>>, AllocError>
    ensures { IfOk result (λ places. (vec_len places ≡ sessions) × AreFree places.items) }
{
    let mut places = Vec::with_capacity(alloc, sessions as usize)?;
    for _place in 0..sessions {
        places.push(None)?;
    }
    Ok(places)
}

/// The first place that has no connection.
fn first_free(places: &[Option<Arc<TcpStream>>]) -> Option<usize>
    ensures free { IfSome result (λ place. slice_get places.now place ≡ Some None) }
    ensures none { IfNone result (AreTaken places.now) }
{
    for place in 0..places.len() {
        if places[place].is_none() {
            return Some(place);
        }
    }
    None
}

/// Whether each place has a connection.
fn are_taken(places: &[Option<Arc<TcpStream>>]) -> bool
    ensures { IsTrue result ↔ AreTaken places.now }
{
    first_free(places).is_none()
}

/// Whether no place has one.
fn are_free(places: &[Option<Arc<TcpStream>>]) -> bool
    ensures { IsTrue result ↔ AreFree places.now }
{
    for place in 0..places.len() {
        if places[place].is_some() {
            return false;
        }
    }
    true
}
