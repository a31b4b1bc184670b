//! The other side of a connection, as a session reads it and writes to it.
ghost use Rattle.std.specs.Prelude.{◌≡◌, ◌==◌, ◌-◌, ◌↔◌, MatchOption, OnOk, IsTrue};
ghost use Rattle.std.specs.Io.{ReadsAtMost, WritesAtMost};
ghost use Rattle.std.specs.Io.KnownBytes.{Keeps, ReadConsumes, WriteAppends};
ghost use Rattle.server_sessions.specs.Peers.{HasRead, flushes_left};

use crate::line_times::LineClock;
use crate::session_count::SessionCount;
use std::io::{self, ErrorKind, Read, Write};
use std::sync::atomic::{AtomicBool, Ordering};
use std::thread;
use std::time::Clock;

/// How many flushes there are from one look whether the peer is gone to the next, where nothing is written between them.
const FLUSHES_A_LOOK: u32 = 16;

/// How often a read looks whether something came before it sleeps. It takes some 15 µs, as long as a sleep and the wake-up behind it.
const LOOKS: u32 = 60;

/// So many bytes at once are mostly several requests, for whose answers their sender waits together.
const MUCH: usize = 256;

/// How many reads pass over what a peer sent that is not read: of 4 KiB each, they are more than a connection holds.
const PASSED: u32 = 2048;

/// What a peer's bytes come from and go to, beside its reads and writes.
pub(crate) trait PeerStream {
    /// Whether reads wait for bytes from now on.
    fn set_waits(&self, waits: bool) -> io::Result<()>;

    /// The error that it met since it was asked last, if any.
    fn met_error(&self) -> io::Result<Option<io::Error>>;

    /// Sends the end: nothing is written any more.
    fn send_end(&self) -> io::Result<()>;
}

/// The peer of a connection: what is read is what its stream gave, and what is written is handed to its stream, byte by byte. A read fails
/// once sessions are to end: no line is cut by that, and none is answered so. A flush fails once the peer is known to be gone, or is waited
/// for no longer. A look is a call of the system, so not each flush takes one: the first one behind a write does, and then one of 16.
#[derive(Drop)]
pub(crate) struct Peer<'s, S, H> {
    pub(crate) stream: S,
    /// Whether reads of the stream wait, as this peer left it. To change that is a call of the system, so a read leaves it as it is.
    pub(crate) waits: bool,
    /// Whether nothing more is read.
    pub(crate) is_last: &'s AtomicBool,
    /// Whether no more lines are answered.
    pub(crate) is_cut: &'s AtomicBool,
    /// How many flushes are left that take no look.
    pub(crate) unlooked: u32,
    /// How many sessions there are, of which this is one.
    pub(crate) count: &'s SessionCount,
    /// By which the times of its lines are noted.
    pub(crate) clock: &'s LineClock<'s, H>,
}

impl<S, H> Peer<'_, S, H> {
    /// Whether this flush takes a look.
    fn is_look(&mut self) -> bool
        ensures look { IsTrue result ↔ (self.old.unlooked ≡ 0) }
        ensures next { self.new.unlooked ≡ flushes_left self.old.unlooked }
        ensures stream { self.new.stream ≡ self.old.stream }
    {
        if self.unlooked > 0 {
            self.unlooked -= 1;
            return false;
        }
        self.unlooked = FLUSHES_A_LOOK - 1;
        true
    }
}

impl<S: PeerStream + Read, H> Peer<'_, S, H> {
    /// Parts from a peer whose connection is shut down for reads: it is sent the end, and what it sent is passed over. A close
    /// behind unread bytes would reset the connection, and its last answers might be lost.
    pub(crate) fn part(&mut self) {
        let _ = turn(&self.stream, &mut self.waits, true);
        let _ = self.stream.send_end();
        let mut piece = [0; 4096];
        for _ in 0..PASSED {
            match self.stream.read(&mut piece) {
                Ok(taken) if taken > 0 => {}
                _ => return,
            }
        }
    }
}

/// Has reads of the stream wait, or not.
fn turn<S: PeerStream>(stream: &S, waits: &mut bool, wanted: bool) -> io::Result<()>
    ensures { OnOk result (waits.new ≡ wanted) }
{
    if *waits != wanted {
        stream.set_waits(wanted)?;
        *waits = wanted;
    }
    Ok(())
}

/// Takes what comes. It looks for a while before it sleeps, where there are few sessions.
fn receive<S: PeerStream + Read, H: Clock>(
    stream: &mut S,
    waits: &mut bool,
    count: &SessionCount,
    clock: &LineClock<'_, H>,
    buf: &mut [u8],
) -> io::Result<usize>
    ensures { HasRead (S.remaining stream.old) (S.remaining stream.new) buf.new result }
{
    if count.are_few() {
        return look_and_wait(stream, waits, clock, buf);
    }
    wait(stream, waits, clock, buf)
}

/// Takes what comes within some looks, or else waits for it.
fn look_and_wait<S: PeerStream + Read, H: Clock>(
    stream: &mut S,
    waits: &mut bool,
    clock: &LineClock<'_, H>,
    buf: &mut [u8],
) -> io::Result<usize>
    ensures { HasRead (S.remaining stream.old) (S.remaining stream.new) buf.new result }
{
    match look(stream, waits, buf) {
        Some(taken) => {
            clock.came();
            taken
        }
        None => wait(stream, waits, clock, buf),
    }
}

/// Waits for what comes. Where much came at once, others run first: its own turn then begins anew, and does not end while it holds a
/// partition that they would wait for.
fn wait<S: PeerStream + Read, H: Clock>(
    stream: &mut S,
    waits: &mut bool,
    clock: &LineClock<'_, H>,
    buf: &mut [u8],
) -> io::Result<usize>
    ensures { HasRead (S.remaining stream.old) (S.remaining stream.new) buf.new result }
{
    turn(stream, waits, true)?;
    let taken = stream.read(buf);
    clock.came();
    if matches!(&taken, Ok(count) if *count >= MUCH) {
        thread::yield_now();
    }
    taken
}

/// What came within some looks, if anything did. Reads of the stream do not wait when it returns, unless that can't be set: then there is
/// no look.
fn look<S: PeerStream + Read>(
    stream: &mut S,
    waits: &mut bool,
    buf: &mut [u8],
) -> Option<io::Result<usize>>
    ensures { MatchOption result (Keeps (S.remaining stream.old) (S.remaining stream.new))
        (HasRead (S.remaining stream.old) (S.remaining stream.new) buf.new) }
{
    if turn(stream, waits, false).is_err() {
        return None;
    }
    look_often(stream, buf)
}

/// What the first read took that did not find the stream empty, of some reads that do not wait; a failure too.
fn look_often<S: Read>(stream: &mut S, buf: &mut [u8]) -> Option<io::Result<usize>>
    ensures { MatchOption result (Keeps (S.remaining stream.old) (S.remaining stream.new))
        (HasRead (S.remaining stream.old) (S.remaining stream.new) buf.new) }
{
    for _look in 0..LOOKS {
        match stream.read(buf) {
            Err(error) if error.kind() == ErrorKind::WouldBlock => {}
            taken => return Some(taken),
        }
    }
    None
}

impl<S: PeerStream + Read, H: Clock> Read for Peer<'_, S, H> {
    ghost remaining = { λ p. S.remaining p.stream };

    fn read(&mut self, buf: &mut [u8]) -> io::Result<usize>
        ensures bound { ReadsAtMost result buf.new }
        ensures bytes { ReadConsumes (S.remaining self.old.stream) (S.remaining self.new.stream)
            result buf.new }
        // A read changes nothing of when the next look is.
        ensures looks { self.new.unlooked ≡ self.old.unlooked }
    {
        if self.is_last.load(Ordering::SeqCst) {
            return Err(io::Error::from(ErrorKind::ConnectionAborted));
        }
        match receive(
            &mut self.stream,
            &mut self.waits,
            self.count,
            self.clock,
            buf,
        ) {
            // One that waits when sessions are to end takes nothing: the connection is shut down.
            Ok(0) if self.is_last.load(Ordering::SeqCst) => {
                Err(io::Error::from(ErrorKind::ConnectionAborted))
            }
            taken => taken,
        }
    }
}

/// Writes. Where a stream that does not wait has no room, it waits from now on.
fn send<S: PeerStream + Write>(stream: &mut S, buf: &[u8]) -> io::Result<usize>
    ensures bound { WritesAtMost result buf.now }
    ensures bytes { WriteAppends (S.contents stream.old) (S.contents stream.new) result buf.now }
{
    match stream.write(buf) {
        Err(error) if error.kind() == ErrorKind::WouldBlock => {}
        taken => return taken,
    }
    stream.set_waits(true)?;
    stream.write(buf)
}

impl<S: PeerStream + Write, H: Clock> Write for Peer<'_, S, H> {
    ghost contents = { λ p. S.contents p.stream };

    fn write(&mut self, buf: &[u8]) -> io::Result<usize>
        ensures bound { WritesAtMost result buf.now }
        ensures bytes { WriteAppends (S.contents self.old.stream) (S.contents self.new.stream)
            result buf.now }
        // The first flush behind it takes a look.
        ensures looks { self.new.unlooked ≡ 0 }
    {
        self.unlooked = 0;
        let taken = send(&mut self.stream, buf)?;
        self.clock.wrote(&buf[..taken]);
        Ok(taken)
    }

    fn flush(&mut self) -> io::Result<()>
        ensures bytes { Keeps (S.contents self.old.stream) (S.contents self.new.stream) }
        ensures looks { OnOk result (self.new.unlooked ≡ flushes_left self.old.unlooked) }
    {
        if self.is_cut.load(Ordering::SeqCst) {
            return Err(io::Error::from(io::ErrorKind::ConnectionAborted));
        }
        if !self.is_look() {
            return Ok(());
        }
        match self.stream.met_error() {
            Ok(None) => Ok(()),
            Ok(Some(error)) => Err(error),
            Err(error) => Err(error),
        }
    }
}
