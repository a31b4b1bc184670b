//! Where a server's connections come from.
ghost use Rattle.std.specs.Prelude.{◌≡◌, ◌↔◌, IfOk, IsTrue};
ghost use Rattle.std.specs.declared.net.tcp.TcpStream.{TcpStream as Stream};
ghost use Rattle.server_sessions.specs.Listened.{IsHome};
ghost use Rattle.std.specs.IoError.{raw_os_error};
ghost use Rattle.server_sessions.specs.Passing.{is_passing};

use std::io;
use std::net::{IpAddr, Ipv4Addr, Net, Shutdown, SocketAddr, TcpListener, TcpStream};
use std::os::fd::OwnedFd;

/// What connections are accepted from.
///
/// `has_given` and `is_closed` stand for what these calls leave. An implementation need not say what they are. Code for any
/// listener learns them from these calls alone, so a contract that names them says that the call was made.
pub trait Accept {
    ghost has_given: { Self → Stream → Type 0 } = { λ _ _. Unit {0} };

    ghost is_closed: { Self → Type 0 } = { λ _. Unit {0} };

    /// Waits for the next connection.
    fn accept(&self) -> io::Result<TcpStream>
        ensures { IfOk result (has_given self.now) };

    /// From now on no connection is accepted: each `accept` fails, also one that waits already, and who connects is refused.
    fn close(&self)
        ensures { is_closed self.now };
}

/// A listener at a port of 127.0.0.1: the system reports no other address for it.
#[derive(Drop)]
pub struct Listener {
    listener: TcpListener,
    // The same socket once more, as what can be shut down. It is there from the start, since at the end there may be no
    // descriptor left.
    socket: TcpStream,
    address: SocketAddr,
    ghost at_home: { IsHome address },
}

/// Whether an address is 127.0.0.1, at any port.
fn is_home(address: &SocketAddr) -> bool
    ensures { IsTrue result ↔ IsHome address.now }
{
    match address.ip() {
        IpAddr::V4(ip) => ip.octets() == [127, 0, 0, 1],
        IpAddr::V6(_) => false,
    }
}

impl Listener {
    ghost use Rattle.server_sessions.specs.Ports.{IsPortFor, port_of};

    /// Listens at this port of 127.0.0.1, or, where it is 0, at one that is free. Where the system reports another address or
    /// port, it fails with `AddrNotAvailable`, and nothing listens.
    pub fn bind<H: Net<Listener = TcpListener, Stream = TcpStream>>(
        rt: &H,
        port: u16,
    ) -> io::Result<Listener>
        ensures { IfOk result (λ listener. IsPortFor port (port_of listener)) }
    {
        let listener = TcpListener::bind(rt, (Ipv4Addr::LOCALHOST, port))?;
        let address = listener.local_addr()?;
        if !is_home(&address) {
            return Err(io::ErrorKind::AddrNotAvailable.into());
        }
        if port != 0 && address.port() != port {
            return Err(io::ErrorKind::AddrNotAvailable.into());
        }
        let socket = TcpStream::from(OwnedFd::from(listener.try_clone()?));
        Ok(Listener {
            listener,
            socket,
            address,
        })
    }

    /// The port at which it listens.
    pub fn port(&self) -> u16
        ensures { result ≡ port_of self.now }
    {
        self.address.port()
    }
}

impl Accept for Listener {
    fn accept(&self) -> io::Result<TcpStream> {
        let (stream, _) = self.listener.accept()?;
        Ok(stream)
    }

    fn close(&self) {
        // Of a socket that listens, this ends the calls that wait.
        let _ = self.socket.shutdown(Shutdown::Both);
    }
}

/// The codes of the errors of which `accept(2)` says that they pass, so that the call is made again.
const PASSING: [i32; 18] = [
    1, // EPERM: a rule of the network forbade this connection
    4, // EINTR
    11, // EAGAIN
    12, // ENOMEM
    23, // ENFILE: no descriptor is left in the system
    24, // EMFILE: none is left to the process
    64, // ENONET
    71, // EPROTO
    92, // ENOPROTOOPT
    95, // EOPNOTSUPP
    100, // ENETDOWN
    101, // ENETUNREACH
    103, // ECONNABORTED: the peer left before its connection was accepted
    104, // ECONNRESET
    105, // ENOBUFS
    110, // ETIMEDOUT
    112, // EHOSTDOWN
    113, // EHOSTUNREACH
];

/// Whether an `accept` that failed so may go well a moment later: the system gave one of these codes.
pub(crate) fn passes(error: &io::Error) -> bool
    ensures { result ≡ is_passing (raw_os_error error.now) }
{
    match error.raw_os_error() {
        Some(code) => PASSING.contains(&code),
        None => false,
    }
}
