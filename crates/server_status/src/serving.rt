//! Requests of HTTP, each on a connection of its own.
ghost use Rattle.std.specs.Prelude.{◌≡◌};
ghost use Rattle.server_status.specs.Answered.{HasAnswered, port_listener};

use crate::pages::{Answering, Pages};
use crate::reading::Watched;
use crate::visitor::Visitor;
use hub::{Named, Naming};
use server_metrics::{hear, pass_over, write_page};
use server_sessions::{Accept, Listener, Open, serve_connections};
use server_verdicts::JournalChecks;
use std::alloc::Global;
use std::io::{Read, Write};
use std::net::{Shutdown, TcpStream};
use std::sync::Wait;
use std::sync::atomic::{AtomicBool, Ordering};
use std::thread;
use std::thread::Threads;
use std::time::{Clock, Duration, Instant};

/// How many connections are answered at a time, each by a thread.
const MOST_AT_ONCE: u32 = 16;

/// Within how many milliseconds of its connection a client has sent its request.
const TO_ASK: u64 = 5_000;

/// Within how many it has taken its answer.
const TO_TAKE: u64 = 15_000;

/// Within how many it has closed its connection.
const TO_CLOSE: u64 = 16_000;

/// After how many milliseconds an `accept` that failed is tried again.
const MOMENT: u64 = 50;

/// The port at which a server reports of itself. It answers 16 connections at a time. One that sends nothing for a second ends, and
/// however slow its client is, a connection ends 16 seconds after it was accepted, and within a second once the port is closed.
#[derive(Drop)]
pub struct StatusPort<L = Listener> {
    listener: L,
    is_closed: AtomicBool,
}

/// Serves the connections of a server as `serve_connections` does, and meanwhile answers the requests that come to a port, in
/// threads of their own, of which there are 16, or as many as can be started. Where none can, the port is closed, and the server goes on.
pub fn serve_and_report<
    J: Naming + Send + Sync,
    C: JournalChecks + Send + Sync,
    H: Threads + Wait + Clock + Sync,
    L: Accept + Sync,
    R: Read,
>(
    rt: &H,
    alloc: Global,
    watched: &Watched<'_, Named<J, Open>, C>,
    port: &StatusPort<L>,
    reader: &mut R,
)
    // When it returns, no more requests are answered.
    ensures closed { L.is_closed (port_listener port.now) }
{
    thread::scope(
        thread::scope_env(),
        rt,
        |scope|
            ensures { L.is_closed (port_listener port.entry.now) }
        {
            let mut answers = false;
            for _thread in 0..MOST_AT_ONCE {
                let mut pages = Pages::new(watched);
                if scope
                    .spawn(move || port.serve(rt, alloc, &mut pages))
                    .is_ok()
                {
                    answers = true;
                }
            }
            if !answers {
                port.close();
            }
            serve_connections(rt, alloc, watched.hub, watched.server, reader);
            port.close();
        },
    );
}

impl<L> StatusPort<L> {
    /// One that answers who connects to this listener.
    pub fn new(listener: L) -> StatusPort<L>
        ensures { port_listener result ≡ listener }
    {
        StatusPort {
            listener,
            is_closed: AtomicBool::new(false),
        }
    }
}

impl<L: Accept> StatusPort<L> {
    /// Answers requests by these pages, one at a time, until it is closed. Threads may do so side by side, each by pages of its own.
    fn serve<P: Answering, H: Wait + Clock>(&self, rt: &H, alloc: Global, pages: &mut P) {
        for _ in rt.forever() {
            match self.listener.accept() {
                Ok(stream) => self.answer(rt, alloc, pages, &stream),
                Err(_) => {
                    if self.is_closed.load(Ordering::SeqCst) {
                        break;
                    }
                    thread::sleep(rt, Duration::from_millis(MOMENT));
                }
            }
        }
    }

    /// Closes it: it answers no more requests.
    fn close(&self)
        ensures { L.is_closed (port_listener self.now) }
    {
        self.is_closed.store(true, Ordering::SeqCst);
        self.listener.close();
    }

    // Answers the request of a connection, and waits for its client to close it: a close behind unread bytes might lose the answer.
    // One that sends nothing, or takes too long, gets no answer, and so does one for whose answer an allocation failed.
    fn answer<P: Answering, H: Wait + Clock>(
        &self,
        rt: &H,
        alloc: Global,
        pages: &mut P,
        stream: &TcpStream,
    ) {
        let Ok(begun) = Instant::now(rt) else {
            return;
        };
        let is_over = &self.is_closed;
        let mut asking = Visitor::new(rt, stream, begun, TO_ASK);
        let mut taking = Visitor::new(rt, stream, begun, TO_TAKE);
        if answer_one(rt, alloc, pages, &mut asking, &mut taking, is_over) {
            let _ = stream.shutdown(Shutdown::Write);
            let mut closing = Visitor::new(rt, stream, begun, TO_CLOSE);
            pass_over(&mut closing, is_over);
        }
    }
}

// Reads a request and writes its answer. Says whether all of that was written.
fn answer_one<P: Answering, H: Wait, R: Read, W: Write>(
    rt: &H,
    alloc: Global,
    pages: &mut P,
    reader: &mut R,
    writer: &mut W,
    is_over: &AtomicBool,
) -> bool
    ensures { HasAnswered (P.has_answered pages.old pages.new)
        (R.remaining reader.old) (R.remaining reader.new)
        (W.contents writer.old) (W.contents writer.new) result }
{
    let Some(asked) = hear(reader, is_over) else {
        return false;
    };
    match pages.page(rt, alloc, asked) {
        Ok(page) => write_page(writer, page.as_bytes(), is_over),
        Err(_) => false,
    }
}
