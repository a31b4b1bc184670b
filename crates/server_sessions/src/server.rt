//! A server's connections: those that it serves, and what those that ended left.
ghost use Rattle.std.specs.Prelude.{◌≡◌, false, true, is_none, IfOk, IfSome, IsTrue};
ghost use Rattle.server_sessions.specs.declared.served.Change.TheVariants.{Begun, Ended, Failed, GivenUp};
ghost use Rattle.std.specs.IoError.{raw_os_error};
ghost use Rattle.server_sessions.specs.Histories.{IsGivenIn};
ghost use Rattle.server_sessions.specs.Passing.{is_passing};
ghost use Rattle.server_sessions.specs.Ports.{IsServerOf, answers_of, count_of, listener_of, most_of, options_of, stays_of, tenants_of};
ghost use Rattle.server_sessions.specs.Receipts.{IsRunFor};
ghost use Rattle.server_sessions.specs.Streams.{IsGivenStream, IsStreamOf};

use crate::answer_counts::AnswerCounts;
use crate::kept_transcripts::KeptTranscripts;
use crate::line_times::{LineClock, LineTimes};
use crate::listener::{Accept, passes};
use crate::peer::Peer;
use crate::served::{Connections, Left, Receipt, ServedConnections};
use crate::session_count::SessionCount;
use crate::session_options::SessionOptions;
use crate::tenants::Tenants;
use crate::unanswered::{Answered, Side, Unanswered, shared};
use hub::Naming;
use line_protocol::Name;
use std::alloc::{AllocError, Global};
use std::io;
use std::net::{Shutdown, TcpStream};
use std::sync::atomic::{AtomicBool, Ordering};
use std::sync::{Condvar, CondvarTimeouts, Mutex, Wait};
use std::time::{Clock, Duration};

/// After how many milliseconds an `accept` that failed is tried again, where no session has ended before.
const MOMENT: u64 = 50;

/// How many seconds a session has to write its answers, once it is to end.
const GRACE: u64 = 5;

/// A server: where its connections come from, and those that it serves. Any thread may hold a `&` to it.
#[derive(Drop)]
pub struct Server<L, G: Naming, N> {
    alloc: Global,
    listener: L,
    /// By which names its tenants go.
    tenants: N,
    /// How many connections it serves at a time.
    sessions: u32,
    stays: bool,
    options: SessionOptions,
    answers: AnswerCounts,
    times: LineTimes,
    served: Mutex<ServedConnections<G>>,
    changed: Condvar,
    /// Whether no more is accepted or read.
    is_ending: AtomicBool,
    /// Whether no more lines are answered.
    is_cut: AtomicBool,
    /// How many sessions it has.
    count: SessionCount,
}

/// A connection that has a place of a server. Who has its stream answered gives its place back.
#[derive(Drop)]
pub(crate) struct Entered {
    pub(crate) place: usize,
    pub(crate) stream: Unanswered<Side, Side>,
    begun: Receipt,
}

impl<L, G: Naming, N> Server<L, G, N> {
    /// A server of as many connections as these, and then no more, over tenants of these names. Memory for their places and their
    /// transcripts is asked for now.
    pub fn counted(
        alloc: Global,
        listener: L,
        tenants: N,
        sessions: u32,
    ) -> Result<Server<L, G, N>, AllocError>
    where
        L: Drop,
        N: Drop,
        ensures { IfOk result (IsServerOf listener tenants sessions false) }
    {
        let transcripts = Vec::with_capacity(alloc, sessions as usize)?;
        let kept = KeptTranscripts::new(transcripts);
        Server::of(alloc, listener, tenants, sessions, Some(sessions), kept)
    }

    /// A server of all connections that come until it is ended, as many as these at a time, over tenants of these names. Memory for
    /// their places is asked for now, and for transcripts as they come.
    pub fn staying(
        alloc: Global,
        listener: L,
        tenants: N,
        sessions: u32,
    ) -> Result<Server<L, G, N>, AllocError>
    where
        L: Drop,
        N: Drop,
        ensures { IfOk result (IsServerOf listener tenants sessions true) }
    {
        let kept = KeptTranscripts::new(Vec::new(alloc));
        Server::of(alloc, listener, tenants, sessions, None, kept)
    }

    fn of(
        alloc: Global,
        listener: L,
        tenants: N,
        sessions: u32,
        left: Option<u32>,
        kept: KeptTranscripts<G>,
    ) -> Result<Server<L, G, N>, AllocError>
    where
        L: Drop,
        N: Drop,
        ensures { IfOk result (IsServerOf listener tenants sessions (is_none left)) }
    {
        let stays = left.is_none();
        let served = ServedConnections::new(alloc, sessions, left, kept)?;
        let answers = AnswerCounts::new(alloc)?;
        let times = LineTimes::new(alloc)?;
        Ok(Server {
            alloc,
            listener,
            tenants,
            sessions,
            stays,
            options: SessionOptions {
                strict: false,
                newest: false,
                store: 0,
            },
            answers,
            times,
            served: Mutex::new(served),
            changed: Condvar::new(),
            is_ending: AtomicBool::new(false),
            is_cut: AtomicBool::new(false),
            count: SessionCount::new(),
        })
    }

    /// The same server, whose sessions have these options. Else they have none: they are not strict, no put takes its counter from a clock, and the store's number is 0.
    pub fn with_options(self, options: SessionOptions) -> Server<L, G, N>
        ensures listener { (listener_of result ≡ listener_of self)
            × (tenants_of result ≡ tenants_of self) }
        ensures connections { (most_of result ≡ most_of self) × (stays_of result ≡ stays_of self) }
        ensures options { options_of result ≡ options }
    {
        let mut server = self;
        server.options = options;
        server
    }

    /// What it left, once all its sessions have ended.
    pub fn left(self) -> Left<G, N>
    where
        L: Drop,
        ensures { (result.tenants ≡ tenants_of self) × (result.options ≡ options_of self) }
    {
        let (left, _answers) = self.left_and_answers();
        left
    }

    /// What it left, once all its sessions have ended, and how their lines were answered.
    pub fn left_and_answers(self) -> (Left<G, N>, AnswerCounts)
    where
        L: Drop,
        ensures manner { (result.0.tenants ≡ tenants_of self)
            × (result.0.options ≡ options_of self) }
        ensures answers { result.1 ≡ answers_of self }
    {
        let Server {
            alloc: _,
            listener: _,
            tenants,
            sessions: _,
            stays: _,
            options,
            answers,
            times: _,
            served,
            changed: _,
            is_ending: _,
            is_cut: _,
            count: _,
        } = self;
        (served.into_inner().leave(tenants, options), answers)
    }

    /// Where its connections come from.
    pub fn listener(&self) -> &L
        ensures { result.now ≡ listener_of self.now }
    {
        &self.listener
    }

    /// Whether its connections are not counted, so that it stays until it is asked to end.
    pub(crate) fn stays(&self) -> bool
        ensures { result ≡ stays_of self.now }
    {
        self.stays
    }

    /// How the lines of its sessions are answered.
    pub(crate) fn options(&self) -> SessionOptions
        ensures { result ≡ options_of self.now }
    {
        self.options
    }

    /// How many lines its sessions answered by refusals and by restarts.
    pub fn answers(&self) -> &AnswerCounts
        ensures { result.now ≡ answers_of self.now }
    {
        &self.answers
    }

    /// How long the lines of its sessions took.
    pub fn times(&self) -> &LineTimes {
        &self.times
    }

    /// The peer of a connection that it serves, whose lines' times are noted by this clock.
    pub(crate) fn peer<'s, S, H>(&'s self, stream: S, clock: &'s LineClock<'s, H>) -> Peer<'s, S, H>
        ensures { (result.stream ≡ stream) × (result.unlooked ≡ 0)
            × (result.count.now ≡ count_of self.now) × (result.clock.now ≡ clock.now) }
    {
        Peer {
            stream,
            waits: true,
            is_last: &self.is_ending,
            is_cut: &self.is_cut,
            unlooked: 0,
            count: &self.count,
            clock,
        }
    }

    /// Where its sessions are counted.
    pub(crate) fn count(&self) -> &SessionCount
        ensures { result.now ≡ count_of self.now }
    {
        &self.count
    }

    /// How many connections it has.
    pub fn connections<R: Wait>(&self, rt: &R) -> Connections
        ensures { result.most ≡ most_of self.now }
    {
        let (open, begun) = self.served.lock(rt).counts();
        Connections {
            open,
            most: self.sessions as usize,
            begun,
        }
    }

    /// Notes that a device failed: the program reports so at its end.
    pub(crate) fn fail<R: Wait>(&self, rt: &R) -> Receipt
        ensures { result.change ≡ Failed }
    {
        self.served.lock(rt).fail()
    }

    /// The connection at this place can't be served, since no thread could be started.
    pub(crate) fn give_up<R: Wait>(&self, rt: &R, place: usize) -> Receipt
        ensures { result.change ≡ GivenUp place }
    {
        let given_up = self.served.lock(rt).give_up(place);
        self.changed.notify_all();
        given_up
    }

    /// Whether it is to end.
    pub(crate) fn is_ending(&self) -> bool {
        self.is_ending.load(Ordering::SeqCst)
    }

    /// Waits for a place that is free. None where no more connections are to be accepted.
    fn free_place<R: Wait>(&self, rt: &R) -> Option<usize> {
        let served = self.changed.wait_while(rt, self.served.lock(rt), |served| {
            served.waits() && !self.is_ending()
        });
        if self.is_ending() {
            return None;
        }
        served.free_place()
    }

    /// Gives a connection this place. None where it is to end by now, and where it found no memory: then it is closed, and the
    /// program reports so at its end.
    fn enter<R: Wait>(&self, rt: &R, place: usize, stream: TcpStream) -> Option<Entered>
        ensures stream { IfSome result (λ entered. IsStreamOf stream entered.stream) }
        ensures begun { IfSome result
            (λ entered. (entered.begun.change ≡ Begun place) × (entered.place ≡ place)) }
    {
        let Ok((stream, held)) = shared(self.alloc, stream) else {
            self.served.lock(rt).refuse();
            return None;
        };
        let mut served = self.served.lock(rt);
        if self.is_ending() {
            return None;
        }
        let begun = served.begin(place, held);
        Some(Entered {
            place,
            stream,
            begun,
        })
    }
}

impl<L, G: Naming, N: Tenants> Server<L, G, N> {
    /// By which names its tenants go.
    pub(crate) fn names(&self) -> &[Name]
        ensures { result.now ≡ N.listed (tenants_of self.now) }
    {
        self.tenants.names()
    }

    /// The connection at this place, whose stream was answered, is served no longer. The session that answered it was
    /// run for this server: by the names of its tenants and with its options, and its answers were counted here. Each
    /// reply in its transcript has its place in what was seen. The connection is closed, if nobody else has it, before
    /// another gets its place.
    pub(crate) fn leave<R: Wait>(
        &self,
        rt: &R,
        place: usize,
        answered: Answered<'_, G, Side>,
    ) -> Receipt
        requires run { IsRunFor (N.listed (tenants_of self.now)) (options_of self.now)
            (answers_of self.now) answered.session }
        requires given { IfSome answered.session.left (λ its. IsGivenIn its.1 its.0) }
        ensures { result.change ≡ Ended place }
    {
        let session = answered.into_session();
        let ended = self.served.lock(rt).end(place, session);
        self.changed.notify_all();
        ended
    }
}

impl<L: Accept, G: Naming, N> Server<L, G, N> {
    /// The next connection, with the place that it has, and the receipt that it began there. None where no more are accepted. An
    /// `accept` that failed is made again once a session has ended or a moment has passed, where its error passes; one that does
    /// not pass ends the server.
    pub(crate) fn next<R: Wait + Clock>(&self, rt: &R) -> Option<Entered>
        ensures given { IfSome result
            (λ next. IsGivenStream (L.has_given (listener_of self.now)) next.stream) }
        ensures begun { IfSome result (λ next. next.begun.change ≡ Begun next.place) }
    {
        for _ in rt.forever() {
            let place = self.free_place(rt)?;
            match self.listener.accept() {
                Ok(stream) => {
                    let entered = self.enter(rt, place, stream);
                    if entered.is_some() {
                        return entered;
                    }
                }
                Err(error) => {
                    if !self.goes_on_after(rt, &error) {
                        return None;
                    }
                }
            }
        }
        unreachable!()
    }

    /// Whether it goes on after an `accept` that failed: where the error passes, once a session has ended or a moment has passed.
    /// An error that does not pass ends it. Either is noted, unless the `accept` failed since the server is to end.
    fn goes_on_after<R: Wait + Clock>(&self, rt: &R, error: &io::Error) -> bool
        ensures { IsTrue result → IsTrue (is_passing (raw_os_error error.now)) }
    {
        if self.is_ending() {
            return false;
        }
        let _failed = self.fail(rt);
        if !passes(error) {
            self.end(rt);
            return false;
        }
        let served = self.served.lock(rt);
        let _ = self
            .changed
            .wait_timeout(rt, served, Duration::from_millis(MOMENT));
        true
    }

    /// Ends it: no more connections are accepted, and each session ends at its next read.
    pub(crate) fn end<R: Wait>(&self, rt: &R)
        ensures { L.is_closed (listener_of self.now) }
    {
        {
            let _served = self.served.lock(rt);
            self.is_ending.store(true, Ordering::SeqCst);
        }
        self.changed.notify_all();
        self.listener.close();
    }

    /// Closes the listener. Where the server is to end, the connections are shut down, so that each session ends at its next
    /// read. One that has not ended after some seconds, since its peer takes nothing or its lines take long, answers no more
    /// lines.
    pub(crate) fn close<R: Wait + Clock>(&self, rt: &R)
        ensures { L.is_closed (listener_of self.now) }
    {
        self.listener.close();
        if !self.is_ending() {
            return;
        }
        let _cut = self.served.lock(rt).shut(Shutdown::Read);
        let served = self.served.lock(rt);
        let (served, _) = self.changed.wait_timeout_while(
            rt,
            served,
            Duration::from_secs(GRACE),
            |served| !served.is_empty(),
        );
        drop(served);
        self.is_cut.store(true, Ordering::SeqCst);
        let _cut = self.served.lock(rt).shut(Shutdown::Both);
    }
}
