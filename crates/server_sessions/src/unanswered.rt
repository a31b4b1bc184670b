//! The stream of a connection: its server answers it once, and by that alone the connection leaves its server.
ghost use Rattle.std.specs.Prelude.{◌≡◌, IfOk};
ghost use Rattle.std.specs.Arc.{arc_value};
ghost use Rattle.server_sessions.specs.Ports.{answers_of, options_of, tenants_of};
ghost use Rattle.server_sessions.specs.Promised.{HasRun};
ghost use Rattle.server_sessions.specs.Receipts.{IsRunFor};
ghost use Rattle.server_sessions.specs.Streams.{IsStreamOf};

use crate::line_session::{SessionRun, run_session_as};
use crate::line_times::LineClock;
use crate::peer::PeerStream;
use crate::server::Server;
use crate::serving::{Open, OpenHub};
use crate::tenants::Tenants;
use hub::{Named, Naming};
use line_runs::RunFault;
use std::alloc::{AllocError, Global};
use std::io::{self, Read, Write};
use std::net::{Shutdown, TcpStream};
use std::sync::{Arc, Wait};
use std::time::Clock;

/// One side of a connection's stream: what is read of it, or what is written to it.
#[derive(Drop)]
pub(crate) struct Side {
    stream: Arc<TcpStream>,
}

impl Read for Side {
    fn read(&mut self, buf: &mut [u8]) -> io::Result<usize> {
        (&*self.stream).read(buf)
    }
}

impl Write for Side {
    fn write(&mut self, buf: &[u8]) -> io::Result<usize> {
        (&*self.stream).write(buf)
    }

    fn flush(&mut self) -> io::Result<()> {
        (&*self.stream).flush()
    }
}

impl PeerStream for Side {
    fn set_waits(&self, waits: bool) -> io::Result<()> {
        self.stream.set_nonblocking(!waits)
    }

    fn met_error(&self) -> io::Result<Option<io::Error>> {
        self.stream.take_error()
    }

    fn send_end(&self) -> io::Result<()> {
        self.stream.shutdown(Shutdown::Write)
    }
}

/// A connection's stream, of which nothing was read, and to which nothing was written. Who has one can only have it
/// answered, and that once.
#[derive(Drop)]
pub(crate) struct Unanswered<R, W> {
    reader: R,
    writer: W,
}

/// A connection's stream that was answered, and the session that did so. `Unanswered::answer` alone makes one.
#[derive(Drop)]
pub(crate) struct Answered<'s, G: Naming, W> {
    session: SessionRun<'s, G>,
    writer: W,
}

/// The stream of a connection, to be answered, and as its server holds it meanwhile.
pub(crate) fn shared(
    alloc: Global,
    stream: TcpStream,
) -> Result<(Unanswered<Side, Side>, Arc<TcpStream>), AllocError>
    ensures { IfOk result (λ both. IsStreamOf stream both.0 × (arc_value both.1 ≡ stream)) }
{
    // A stream that can't be told so only answers later.
    let _ = stream.set_nodelay(true);
    let stream = Arc::new(alloc, stream)?;
    let reader = Side {
        stream: Arc::try_clone(&stream)?,
    };
    let writer = Side {
        stream: Arc::try_clone(&stream)?,
    };
    Ok((Unanswered { reader, writer }, stream))
}

impl<R: PeerStream + Read, W: PeerStream + Write> Unanswered<R, W> {
    /// Answers the lines of this stream by this store, the names of the server's tenants and the server's options. All
    /// that was written to it are the answers to what it gave, byte by byte. Its seat has ended then, so that its client
    /// may connect again at once.
    pub(crate) fn answer<'s, J: Naming, H: Wait + Clock, L, N: Tenants>(
        self,
        rt: &H,
        alloc: Global,
        hub: &'s OpenHub<J>,
        server: &'s Server<L, Named<J, Open>, N>,
    ) -> (Answered<'s, Named<J, Open>, W>, Result<(), RunFault>)
    where
        R: Drop,
        ensures run { HasRun (options_of server.now) hub.now (N.listed (tenants_of server.now))
            (R.remaining self.reader) (W.contents self.writer) (W.contents result.0.writer)
            result.0.session.left result.1 }
        ensures receipt { IsRunFor (N.listed (tenants_of server.now)) (options_of server.now)
            (answers_of server.now) result.0.session }
    {
        let Unanswered { reader, writer } = self;
        let clock = LineClock::new(rt, server.times());
        let mut reader = server.peer(reader, &clock);
        let mut writer = server.peer(writer, &clock);
        let begun = server.count().begin();
        let (session, ended) = run_session_as(
            rt,
            alloc,
            hub,
            server.names(),
            server.options(),
            Some(server.answers()),
            &mut reader,
            &mut writer,
        );
        begun.end();
        if server.is_ending() {
            reader.part();
        }
        let writer = writer.stream;
        (Answered { session, writer }, ended)
    }
}

impl<'s, G: Naming, W> Answered<'s, G, W> {
    /// The session that answered it. The stream is closed, if nobody else has it.
    pub(crate) fn into_session(self) -> SessionRun<'s, G>
    where
        W: Drop,
        ensures { result ≡ self.entry.session }
    {
        let Answered { session, writer } = self;
        drop(writer);
        session
    }
}
