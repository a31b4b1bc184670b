//! The connections of a server, each served in a thread of its own.
ghost use Rattle.std.specs.Prelude.{◌≡◌, false, IsTrue};
ghost use Rattle.std.specs.Io.KnownBytes.{IsAtEnd};
ghost use Rattle.server_sessions.specs.declared.served.Change.TheVariants.{Ended};
ghost use Rattle.server_sessions.specs.Ports.{listener_of, stays_of};

use crate::listener::Accept;
use crate::served::Receipt;
use crate::server::{Entered, Server};
use crate::tenants::Tenants;
use hub::{Gate, Hub, Named, Naming, Seat};
use std::alloc::Global;
use std::io::{ErrorKind, Read};
use std::sync::Wait;
use std::thread;
use std::thread::Threads;
use std::time::Clock;

/// The gate at which nobody is watched or held.
#[derive(Clone, Copy, Drop)]
pub struct Open;

/// A store at whose gate nobody is watched or held. J names its history.
pub type OpenHub<J> = Hub<Named<J, Open>>;

/// A client's session in it.
pub type OpenSeat<'a, J> = Seat<'a, Named<J, Open>>;

impl Gate for Open {
    const COUNTS: bool = false;

    fn pass(&self, _partition: u32, _nth: u64) {}

    fn inside(&self, _partition: u32, _nth: u64) {}
}

/// Serves the connections of this server, each in a thread of its own: its lines are answered as `run_session_as` answers them, by the
/// server's options and the names of its tenants. Where the server is to stay, it ends when the input does, or can't be read; else
/// nothing is read of it. When it returns, no connection is accepted any more, and these threads have ended. What they left the server
/// reports.
pub fn serve_connections<
    J: Naming + Send + Sync,
    H: Threads + Wait + Clock + Sync,
    L: Accept + Sync,
    N: Tenants + Sync,
    R: Read,
>(rt: &H, alloc: Global, hub: &OpenHub<J>, server: &Server<L, Named<J, Open>, N>, reader: &mut R)
    // No connection is accepted any more.
    ensures closed { L.is_closed (listener_of server.now) }
    ensures unread { stays_of server.now ≡ false → reader.new ≡ reader.old }
{
    if !server.stays() {
        return accept_all(rt, alloc, hub, server);
    }
    thread::scope(
        thread::scope_env(),
        rt,
        |scope|
            ensures { L.is_closed (listener_of server.entry.now) }
        {
            let started = scope.spawn(move || accept_all(rt, alloc, hub, server));
            if started.is_err() || !is_read_out(rt, reader) {
                let _failed = server.fail(rt);
            }
            server.end(rt);
        },
    );
}

// Reads the input to its end, and keeps nothing of it. Whether no read failed.
fn is_read_out<H: Wait, R: Read>(rt: &H, reader: &mut R) -> bool
    ensures { IsTrue result → IsAtEnd (R.remaining reader.new) }
{
    let mut piece = [0; 512];
    for _ in rt.forever() {
        match reader.read(&mut piece) {
            Ok(0) => return true,
            Ok(_) => {}
            Err(error) if error.kind() == ErrorKind::Interrupted => {}
            Err(_) => return false,
        }
    }
    unreachable!()
}

// Accepts connections until the server has no more, and serves each in a thread of its own. These threads have ended when
// it returns.
fn accept_all<
    J: Naming + Send + Sync,
    H: Threads + Wait + Clock + Sync,
    L: Accept + Sync,
    N: Tenants + Sync,
>(rt: &H, alloc: Global, hub: &OpenHub<J>, server: &Server<L, Named<J, Open>, N>)
    ensures { L.is_closed (listener_of server.now) }
{
    thread::scope(
        thread::scope_env(),
        rt,
        |scope|
            ensures { L.is_closed (listener_of server.entry.now) }
        {
            for _ in rt.forever() {
                let Some(entered) = server.next(rt) else {
                    break;
                };
                let place = entered.place;
                let started = scope.spawn(move || serve_connection(
                    rt, alloc, hub, server, entered,
                ));
                if started.is_err() {
                    let _given_up = server.give_up(rt, place);
                }
            }
            server.close(rt);
        },
    );
}

// Answers one connection's lines, by this server's names and options alone: a connection leaves only once its stream was
// answered, and each stream is answered once. Its seat has ended before the stream is closed, so that its client may
// connect again at once.
fn serve_connection<J: Naming, H: Wait + Clock, L, N: Tenants>(
    rt: &H,
    alloc: Global,
    hub: &OpenHub<J>,
    server: &Server<L, Named<J, Open>, N>,
    entered: Entered,
) -> Receipt
    // Its place is given back.
    ensures { result.change ≡ Ended entered.place }
{
    let (answered, _) = entered.stream.answer(rt, alloc, hub, server);
    server.leave(rt, entered.place, answered)
}
