//! A client of the status port, as its request is read and its page is written.
ghost use Rattle.std.specs.Prelude.{◌≤◌, IfOk};
ghost use Rattle.std.specs.Duration.{as_nanos};

use std::io::{self, Read, Write};
use std::net::TcpStream;
use std::time::{Clock, Duration, Instant};

/// How many milliseconds a read or a write waits for its client.
const PATIENCE: u64 = 1000;

/// The client of a connection. A read or a write of it waits for a second at most, and fails once its time is over.
#[derive(Drop)]
pub(crate) struct Visitor<'s, H> {
    rt: &'s H,
    stream: &'s TcpStream,
    begun: Instant,
    time: Duration,
}

impl<'s, H: Clock> Visitor<'s, H> {
    /// The client of this connection, for so many milliseconds from where it began.
    pub(crate) fn new(
        rt: &'s H,
        stream: &'s TcpStream,
        begun: Instant,
        millis: u64,
    ) -> Visitor<'s, H> {
        Visitor {
            rt,
            stream,
            begun,
            time: Duration::from_millis(millis),
        }
    }

    // How long a read or a write may wait now. An error where it may no longer.
    fn patience(&self) -> io::Result<Duration>
        ensures { IfOk result (λ wait. as_nanos wait ≤ 1000000000) }
    {
        let taken = Instant::now(self.rt)?.duration_since(self.begun);
        let left = self.time.saturating_sub(taken);
        if left.is_zero() {
            return Err(io::Error::from(io::ErrorKind::TimedOut));
        }
        Ok(left.min(Duration::from_millis(PATIENCE)))
    }
}

impl<H: Clock> Read for Visitor<'_, H> {
    fn read(&mut self, buf: &mut [u8]) -> io::Result<usize> {
        self.stream.set_read_timeout(Some(self.patience()?))?;
        let mut stream = self.stream;
        stream.read(buf)
    }
}

impl<H: Clock> Write for Visitor<'_, H> {
    fn write(&mut self, buf: &[u8]) -> io::Result<usize> {
        self.stream.set_write_timeout(Some(self.patience()?))?;
        let mut stream = self.stream;
        stream.write(buf)
    }

    fn flush(&mut self) -> io::Result<()> {
        Ok(())
    }
}
