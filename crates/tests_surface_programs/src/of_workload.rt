//! workload: the programs, each over a reader and a writer.
ghost use Rattle.std.specs.Prelude.{◌≡◌, false, true};

use hub::{Config, Hub, Named, Naming, NewStore, Transcript};
use line_protocol::Name;
use line_runs::{End, RunFault};
use stamps::{Keep, Limits};
use std::alloc::Global;
use std::marker::Brand;
use std::net::{Net, TcpListener, TcpStream};
use std::sync::Wait;
use std::thread::Threads;
use std::time::Clock;
use workload::{
    Listener, Open, Server, ServerOptions, SessionOptions, StoreLeft, StoreServer, run_cell,
    run_session, run_sim, run_words,
};

/// Room for four versions, items and clients; a collection keeps one committed version of an item.
fn limits() -> Option<Limits> {
    Limits::new(4, 4, Keep::new(1)?, 4)
}

fn number_of_end(end: End) -> u8 {
    match end {
        End::Whole => 0,
        End::TooLong => 1,
        End::Cut => 2,
    }
}

fn number_of_fault(fault: RunFault) -> u8 {
    match fault {
        RunFault::Read | RunFault::ReadsUsed => 0,
        RunFault::Write => 1,
        RunFault::OutOfMemory => 2,
    }
}

/// Whether a run over a cell answers its lines.
fn runs_cell(alloc: Global) -> bool {
    let mut reader: &[u8] = b"get x\nget";
    let mut writer: Vec<u8> = Vec::new(alloc);
    let ended: Result<End, RunFault> = run_cell(alloc, 4, 4, 4, &mut reader, &mut writer);
    number_of_fault(RunFault::Write) == 1
        && ended == Ok(End::Cut)
        && writer.as_slice() == b"initial\nrefused 42\n".as_slice()
}

/// Whether a run over a store answers its lines.
fn runs_sim(alloc: Global) -> Option<bool> {
    let (limits, names) = ([limits()?], [Name::read(b"t")?]);
    let mut reader: &[u8] = b"t hello 1\n";
    let mut writer: Vec<u8> = Vec::new(alloc);
    let ended: Result<End, RunFault> = run_sim(alloc, 2, &limits, &names, &mut reader, &mut writer);
    let is_whole = number_of_end(ended.ok()?) == 0;
    Some(is_whole && writer.as_slice() == b"ready 0\n".as_slice())
}

/// What a session over a running store of one tenant left.
type Left = (Option<Transcript>, Result<(), RunFault>);

/// Whether a session answers its lines.
fn runs_session<R: Threads + Wait + Clone + Send + Drop + 'static>(
    rt: &R,
    alloc: Global,
) -> Option<bool> {
    session_in::<Brand, R>(rt, alloc, NewStore::of(config(alloc)?))
}

/// Two partitions, and a tenant.
fn config(alloc: Global) -> Option<Config> {
    Some(Config {
        parts: 2,
        limits: Vec::from_slice(alloc, &[limits()?]).ok()?,
        queue: 64,
        every: 64,
        epoch: 0,
    })
}

fn session_in<
    J: Naming + Send + Sync + Drop + 'static,
    R: Threads + Wait + Clone + Send + Drop + 'static,
>(rt: &R, alloc: Global, store: NewStore) -> Option<bool>
    requires { store.history.seen.book ≡ J.book }
{
    let gate = Named::<J, ()>::new(());
    let hub: Hub<Named<J, ()>> = Hub::open(rt, alloc, store, gate, ()).ok()?;
    let names = [Name::read(b"t")?];
    let mut reader: &[u8] = b"hello t 1\nbye\n";
    let mut writer: Vec<u8> = Vec::new(alloc);
    let (transcript, ended): Left = run_session(rt, alloc, &hub, &names, &mut reader, &mut writer);
    let _ = hub.close(rt, Vec::new(alloc));
    let is_whole = transcript.is_some() && ended == Ok(());
    Some(is_whole && writer.as_slice() == b"ready 0\nbye\n".as_slice())
}

/// A server at a free port, which stays until its input ends, and keeps what it answers to be settled.
fn options() -> ServerOptions
    ensures plain { (result.strict ≡ false) × (result.newest ≡ false) }
    ensures recorded { result.unrecorded ≡ false }
{
    ServerOptions {
        port: 0,
        sessions: 1,
        stay: true,
        strict: false,
        newest: false,
        unrecorded: false,
        counts: false,
        queue: 64,
        every: 64,
        epoch: 0,
        status: 0,
    }
}

/// Whether a store is served in its name, and what it left is returned.
fn serves_store<
    R: Threads
        + Wait
        + Clock
        + Net<Listener = TcpListener, Stream = TcpStream>
        + Clone
        + Send
        + Sync
        + Drop
        + 'static,
>(rt: &R, alloc: Global) -> Option<bool> {
    let names = [Name::read(b"t")?];
    serve_in::<Brand, R>(rt, alloc, NewStore::of(config(alloc)?), &names)
}

fn serve_in<
    J: Naming + Send + Sync + Drop + 'static,
    R: Threads
        + Wait
        + Clock
        + Net<Listener = TcpListener, Stream = TcpStream>
        + Clone
        + Send
        + Sync
        + Drop
        + 'static,
>(rt: &R, alloc: Global, store: NewStore, names: &[Name]) -> Option<bool>
    requires name { store.history.seen.book ≡ J.book }
    requires journals { store.journals ≡ true }
{
    let options = options();
    let listener = Listener::bind(rt, options.port).ok()?;
    let server: Server<Listener, Named<J, Open>, &[Name]> = Server::staying(
        alloc,
        listener,
        names,
        options.sessions,
    ).ok()?;
    let given = StoreServer {
        store,
        names,
        server: server.with_options(SessionOptions {
            strict: options.strict,
            newest: options.newest,
            store: 1,
        }),
        status: None,
        options,
    };
    let mut reader: &[u8] = b"";
    let mut writer: Vec<u8> = Vec::new(alloc);
    let mut left: Option<StoreLeft<J>> = None;
    let ended = given.serve(rt, alloc, &mut reader, &mut writer, &mut left);
    Some(left.is_some() && ended == Ok(()) && writer.as_slice().ends_with(b"\nsettled t yes\n"))
}

/// Whether a program does what its words ask for, and reports a fault by its status and its line.
fn runs_words<
    R: Threads
        + Wait
        + Clock
        + Net<Listener = TcpListener, Stream = TcpStream>
        + Clone
        + Send
        + Sync
        + Drop
        + 'static,
>(rt: &R, alloc: Global) -> Option<bool> {
    let mut words: Vec<String> = Vec::new(alloc);
    words.push("ramp".to_string(alloc).ok()?).ok()?;
    words.push("serve".to_string(alloc).ok()?).ok()?;
    let mut reader: &[u8] = b"";
    let mut writer: Vec<u8> = Vec::new(alloc);
    let mut errors: Vec<u8> = Vec::new(alloc);
    let status: u8 = run_words(rt, alloc, &words, &mut reader, &mut writer, &mut errors);
    Some(status == 2 && errors.as_slice().ends_with(b"\nramp: Options\n"))
}

#[test]
fn workload_has_its_calls(rt: HostRuntime) {
    let yes = Some(true);
    assert!(rt; runs_cell(rt.alloc()) && runs_sim(rt.alloc()) == yes);
    assert!(rt; runs_session(&rt, rt.alloc()) == yes && serves_store(&rt, rt.alloc()) == yes);
    assert!(rt; runs_words(&rt, rt.alloc()) == yes);
}
