//! A server: sessions over TCP, and the verdicts over the store that they left.
ghost use Rattle.std.specs.Prelude.{◌≡◌, ◌<◌, ◌≤◌, ◌⊎◌, ◌&&◌, false, length, not, slice_get, true, Ok, Err, IfOk, IfErr, Some, string_bytes};
ghost use Rattle.line_runs.specs.declared.fault.ProgramFault.TheVariants.{Device, OutOfMemory as NoMemory};
ghost use Rattle.hub.specs.Hubs.{config_view, view_with};
ghost use Rattle.load.specs.Stores.{DoneOrRefused};
ghost use Rattle.workload.specs.Amounts.{judged_line};
ghost use Rattle.workload.specs.TenantLines.{TellsLines};
ghost use Rattle.workload.specs.Serving.{ComesBehind, HasServedOf, IsAskedFor, IsFaultBefore, IsLeftIn, ServesAndTells, TellsOfPort, TellsPortFirst, TellsPortFor, fault_before, greater_fault, is_told, listening_line};
ghost use Rattle.server_sessions.specs.Ports.{IsServerOf, listener_of, most_of, options_of, port_of, stays_of, tenants_of};

use crate::judged_lines::{Amount, amounts_asked, tell_judged};
use crate::served_lines::tell_served;
use command_line::{ServerOptions, VERSION};
use hub::{Config, HubFault, Named, Naming, NewStore};
use line_protocol::Name;
use line_runs::{ProgramFault, write_text};
use load::{NamedClosed, NamedEndings, close_store, open_hub};
use server_sessions::{
    Left, Listener, Open, OpenHub, Server, ServerFaults, SessionOptions, serve_connections,
};
use server_status::{StatusPort, Watched, serve_and_report};
use server_verdicts::{Checking, Known, tell_checks, tell_verdicts};
use std::alloc::{AllocError, Global};
use std::io::{Read, Write};
use std::marker::Brand;
use std::net::{Net, TcpListener, TcpStream};
use std::sync::Wait;
use std::thread::Threads;
use std::time::{Clock, SystemTime, UNIX_EPOCH};

/// Where a server's connections come from, and the port that reports how it stands, if it has one.
#[derive(Drop)]
struct Ports {
    listener: Listener,
    status: Option<StatusPort>,
}

/// A store that is not open yet, and the server that is to serve it, in its name, over tenants of these names. The server's sessions have
/// the options that are asked for, and the store keeps journals unless it is to record nothing.
#[derive(Drop)]
pub struct StoreServer<'n, J: Naming>
where
    Named<J, Open>: Naming,
{
    pub store: NewStore,
    pub names: &'n [Name],
    pub server: Server<Listener, Named<J, Open>, &'n [Name]>,
    /// The port that reports how the server stands, if it has one.
    pub status: Option<StatusPort>,
    pub options: ServerOptions,
    pub ghost name: { store.history.seen.book ≡ J.book },
    pub ghost asked: { IsAskedFor names.now options (tenants_of server).now (options_of server) },
    pub ghost journals: { store.journals ≡ not options.unrecorded },
}

/// What the store of a name left. There is one such store, since a hub is opened with its history.
#[derive(Drop)]
pub enum StoreLeft<J: Naming> {
    /// All that it left, and what kept its server from some connections.
    Whole(NamedClosed<J>, ServerFaults),
    /// What it left of its journals, where they are cut, with what is known of each; and what kept its server from some
    /// connections.
    Endings(NamedEndings<J>, ServerFaults),
}

/// The port that reports how a server stands, if it has one, and what is known of the journals, where epochs are checked.
#[derive(Clone, Copy)]
struct Reporting<'s> {
    port: Option<&'s StatusPort>,
    known: Option<&'s Known>,
}

/// Opens a store and listens at the port of these options. Writes `listening` and the port, serves sessions, each in a
/// thread of its own, closes the store, and writes the lines of `tell_verdicts`. The tenants go by these names, in the
/// order of their limits.
///
/// So many sessions are served as the options say. Where the server is to stay, all are served that come until the input
/// ends, so many at a time; then each ends at its next read, and after some seconds in any case.
///
/// Where the config has journals cut, each epoch is checked against what those before it led to, by a thread of its partition,
/// while the store goes on; the partition's worker waits where two are left to be checked. At the end the lines are those of
/// `tell_checks`, over these epochs and what is left.
///
/// Where the options ask for counts, it also writes behind these lines, be they yes or no, of how much of what the close answered they
/// are, by the lines of `tell_judged`: how many calls, and without epochs how many operations. Their faults are those of the lines.
///
/// Where the options say that it records nothing, the store keeps no journals, and nothing is checked: the lines are then those of
/// `tell_served`, how many lines of each tenant were answered.
///
/// Where the options have a status port, that reports meanwhile how the server stands.
///
/// A connection's fault ends that connection alone. It is `Device` where a port can't be listened at or a line can't be
/// written; and also, but at the end and after these lines, where a connection could not be accepted, a thread could not be
/// started or the input could not be read. It is `OutOfMemory` where the store, a transcript, `settle` or a check
/// found no memory, and after these lines where a connection did; and `Settle` where a tenant is not settled, or not right.
/// Of several faults the one of the lowest status is reported. However it ends, each thread has ended.
pub fn run_server<
    H: Threads
        + Wait
        + Clock
        + Net<Listener = TcpListener, Stream = TcpStream>
        + Clone
        + Send
        + Sync
        + Drop
        + 'static,
    R: Read,
    W: Write,
>(
    rt: &H,
    alloc: Global,
    config: Config,
    names: &[Name],
    options: ServerOptions,
    reader: &mut R,
    writer: &mut W,
) -> Result<(), ProgramFault>
    ensures { ServesAndTells options.unrecorded options.counts
        (view_with config (not options.unrecorded))
        names.now (TellsPortFor options.port) (W.contents writer.old)
        (W.contents writer.new) result }
{
    let Ok(listener) = Listener::bind(rt, options.port) else {
        return Err(ProgramFault::Device);
    };
    let status = bind_status(rt, options.status)?;
    let ports = Ports { listener, status };
    let store = new_store(config, options.unrecorded);
    serve_named::<Brand, H, R, W>(rt, alloc, store, names, ports, options, reader, writer)
}

// The store to be served, which keeps journals unless it records nothing.
fn new_store(config: Config, unrecorded: bool) -> NewStore
    ensures config { result.config ≡ config }
    ensures journals { result.journals ≡ not unrecorded }
{
    let store = NewStore::of(config);
    if unrecorded {
        store.without_journals()
    } else {
        store
    }
}

// Has a server in the name of the store serve it.
fn serve_named<
    J: Naming + Send + Sync + Drop + 'static,
    H: Threads + Wait + Clock + Clone + Send + Sync + Drop + 'static,
    R: Read,
    W: Write,
>(
    rt: &H,
    alloc: Global,
    store: NewStore,
    names: &[Name],
    ports: Ports,
    options: ServerOptions,
    reader: &mut R,
    writer: &mut W,
) -> Result<(), ProgramFault>
    requires journals { store.journals ≡ not options.unrecorded }
    requires name { store.history.seen.book ≡ J.book }
    ensures { ServesAndTells options.unrecorded options.counts
        (view_with store.config store.journals) names.now (TellsPortFirst (port_of ports.listener))
        (W.contents writer.old) (W.contents writer.new) result }
{
    let Ports { listener, status } = ports;
    let server = server_of(alloc, listener, names, options, store_number(rt))?;
    let given = StoreServer {
        store,
        names,
        server,
        status,
        options,
    };
    let mut left: Option<StoreLeft<J>> = None;
    given.serve(rt, alloc, reader, writer, &mut left)
}

impl<J: Naming + Send + Sync + Drop + 'static> StoreServer<'_, J> {
    /// Opens the store, has its server write the port and serve it, closes it, and writes the last lines, all as
    /// `run_server`. These are of what the store of this name left, which is returned, unless an allocation failed before
    /// them, and with it what kept the server from some connections: a fault of these is reported, unless the lines came
    /// to a greater one. Whoever connects to this server is served by that store: only a hub in its name serves the
    /// server's connections.
    pub fn serve<
        H: Threads + Wait + Clock + Clone + Send + Sync + Drop + 'static,
        R: Read,
        W: Write,
    >(
        self,
        rt: &H,
        alloc: Global,
        reader: &mut R,
        writer: &mut W,
        left: &mut Option<StoreLeft<J>>,
    ) -> Result<(), ProgramFault>
        ensures served { HasServedOf (IsLeftIn left.new) self.entry.options.unrecorded
            self.entry.options.counts
            (view_with self.entry.store.config self.entry.store.journals) self.entry.names.now
            (W.contents writer.old) (W.contents writer.new) result }
        ensures port { TellsPortFirst (port_of (listener_of self.entry.server))
            (W.contents writer.old) (W.contents writer.new) result }
    {
        if self.options.unrecorded {
            return serve_unrecorded(rt, alloc, self, reader, writer, left);
        }
        if self.store.config.epoch == 0 {
            return serve_and_settle(rt, alloc, self, reader, writer, left);
        }
        serve_and_check(rt, alloc, self, reader, writer, left)
    }
}

// The port that reports how the server stands, where one is asked for.
fn bind_status<H: Net<Listener = TcpListener, Stream = TcpStream>>(
    rt: &H,
    port: u32,
) -> Result<Option<StatusPort>, ProgramFault>
    requires { port ≤ 65535 }
    ensures { IfErr result (λ fault. (fault ≡ NoMemory) ⊎ (fault ≡ Device)) }
{
    if port == 0 {
        return Ok(None);
    }
    match Listener::bind(rt, port as u16) {
        Ok(listener) => Ok(Some(StatusPort::new(listener))),
        Err(_) => Err(ProgramFault::Device),
    }
}

// A server of these connections over tenants of these names, counted or not as the options say, strict or not, with newest puts or not,
// and whose store has this number.
fn server_of<G: Naming>(
    alloc: Global,
    listener: Listener,
    names: &[Name],
    options: ServerOptions,
    store: u64,
) -> Result<Server<Listener, G, &[Name]>, AllocError>
    ensures listener { IfOk result (λ server. listener_of server ≡ listener) }
    ensures connections { IfOk result (λ server. (most_of server ≡ options.sessions)
        × (stays_of server ≡ options.stay)) }
    ensures asked { IfOk result
        (λ server. IsAskedFor names.now options (tenants_of server).now (options_of server)) }
    ensures store { IfOk result (λ server. (options_of server).store ≡ store) }
{
    let strict = options.strict;
    let newest = options.newest;
    let server = plain_server_of(alloc, listener, names, options)?;
    Ok(server.with_options(SessionOptions {
        strict,
        newest,
        store,
    }))
}

// The same server, whose sessions have no options.
fn plain_server_of<G: Naming>(
    alloc: Global,
    listener: Listener,
    names: &[Name],
    options: ServerOptions,
) -> Result<Server<Listener, G, &[Name]>, AllocError>
    ensures { IfOk result (IsServerOf listener names.entry options.sessions options.stay) }
{
    if options.stay {
        Server::staying(alloc, listener, names, options.sessions)
    } else {
        Server::counted(alloc, listener, names, options.sessions)
    }
}

// Serves a store whose journals are kept, and settles its tenants.
fn serve_and_settle<
    J: Naming + Send + Sync + Drop + 'static,
    H: Threads + Wait + Clock + Clone + Send + Sync + Drop + 'static,
    R: Read,
    W: Write,
>(
    rt: &H,
    alloc: Global,
    given: StoreServer<'_, J>,
    reader: &mut R,
    writer: &mut W,
    its: &mut Option<StoreLeft<J>>,
) -> Result<(), ProgramFault>
    requires recorded { given.options.unrecorded ≡ false }
    requires kept { given.store.config.epoch ≡ 0 }
    ensures served { HasServedOf (IsLeftIn its.new) false given.entry.options.counts
        (config_view given.entry.store.config) given.entry.names.now
        (W.contents writer.old) (W.contents writer.new) result }
    ensures port { TellsPortFirst (port_of (listener_of given.entry.server)) (W.contents writer.old)
        (W.contents writer.new) result }
{
    let StoreServer {
        store,
        names,
        server,
        status,
        options,
    } = given;
    let hub = open_hub::<J, (), H>(rt, alloc, store, ())?;
    let reporting = Reporting {
        port: status.as_ref(),
        known: None,
    };
    let told = serve_all(rt, alloc, &hub, names, &server, reporting, reader, writer);
    let left = server.left();
    let before = fault_of(&left, names, options);
    let (left_here, _seen) = close_store(rt, hub, left.kept);
    told?;
    if left.faults.has_lost() {
        return Err(ProgramFault::OutOfMemory);
    }
    let closed = left_here.closed();
    let amounts = amounts_asked(alloc, closed, options.counts)?;
    let verdicts = tell_verdicts(alloc, closed, names, writer);
    let ended = tell_behind(
        alloc,
        verdicts,
        &amounts,
        options.counts,
        true,
        names,
        writer,
    );
    *its = Some(StoreLeft::Whole(left_here, left.faults));
    ended_after(before, ended)
}

// Serves a store whose journals are cut, has each epoch checked meanwhile, and checks the last one of each journal that is left.
fn serve_and_check<
    J: Naming + Send + Sync + Drop + 'static,
    H: Threads + Wait + Clock + Clone + Send + Sync + Drop + 'static,
    R: Read,
    W: Write,
>(
    rt: &H,
    alloc: Global,
    given: StoreServer<'_, J>,
    reader: &mut R,
    writer: &mut W,
    its: &mut Option<StoreLeft<J>>,
) -> Result<(), ProgramFault>
    requires recorded { given.options.unrecorded ≡ false }
    requires cut { 0 < given.store.config.epoch }
    ensures served { HasServedOf (IsLeftIn its.new) false given.entry.options.counts
        (config_view given.entry.store.config) given.entry.names.now
        (W.contents writer.old) (W.contents writer.new) result }
    ensures port { TellsPortFirst (port_of (listener_of given.entry.server)) (W.contents writer.old)
        (W.contents writer.new) result }
{
    let StoreServer {
        store,
        names,
        server,
        status,
        options,
    } = given;
    let (hub, checking) = open_checked::<J, H>(rt, alloc, store)?;
    let reporting = Reporting {
        port: status.as_ref(),
        known: Some(checking.known()),
    };
    let told = serve_all(rt, alloc, &hub, names, &server, reporting, reader, writer);
    let left = server.left();
    let before = fault_of(&left, names, options);
    let (left_here, _seen) = close_store(rt, hub, left.kept);
    let known = checking.end(rt, alloc);
    told?;
    let amounts = amounts_asked(alloc, left_here.closed(), options.counts)?;
    let endings = left_here.into_endings(alloc, known)?;
    let verdicts = tell_checks(alloc, endings.endings(), names, writer);
    let ended = tell_behind(
        alloc,
        verdicts,
        &amounts,
        options.counts,
        false,
        names,
        writer,
    );
    *its = Some(StoreLeft::Endings(endings, left.faults));
    ended_after(before, ended)
}

// Serves a store that keeps no journals. It reports how many lines were answered.
fn serve_unrecorded<
    J: Naming + Send + Sync + Drop + 'static,
    H: Threads + Wait + Clock + Clone + Send + Sync + Drop + 'static,
    R: Read,
    W: Write,
>(
    rt: &H,
    alloc: Global,
    given: StoreServer<'_, J>,
    reader: &mut R,
    writer: &mut W,
    its: &mut Option<StoreLeft<J>>,
) -> Result<(), ProgramFault>
    requires unrecorded { given.options.unrecorded ≡ true }
    ensures served { HasServedOf (IsLeftIn its.new) true given.entry.options.counts
        (view_with given.entry.store.config false) given.entry.names.now
        (W.contents writer.old) (W.contents writer.new) result }
    ensures port { TellsPortFirst (port_of (listener_of given.entry.server)) (W.contents writer.old)
        (W.contents writer.new) result }
{
    let StoreServer {
        store,
        names,
        server,
        status,
        options,
    } = given;
    let hub = open_hub::<J, (), H>(rt, alloc, store, ())?;
    let reporting = Reporting {
        port: status.as_ref(),
        known: None,
    };
    let told = serve_all(rt, alloc, &hub, names, &server, reporting, reader, writer);
    let (left, answers) = server.left_and_answers();
    let before = fault_of(&left, names, options);
    let (left_here, _seen) = close_store(rt, hub, left.kept);
    told?;
    let tenants = left_here.closed().config.limits.len();
    let ended = tell_served(alloc, &answers, tenants, names, writer);
    *its = Some(StoreLeft::Whole(left_here, left.faults));
    ended_after(before, ended)
}

// What kept a server from some of its connections, if anything did. Its sessions were answered by the names and options that are asked for.
fn fault_of<G: Naming>(
    left: &Left<G, &[Name]>,
    _names: &[Name],
    _options: ServerOptions,
) -> Result<(), ProgramFault>
    requires asked { IsAskedFor _names.now _options left.now.tenants.now left.now.options }
    ensures before { IsFaultBefore result }
    ensures exact { result ≡ fault_before left.now.faults }
{
    if left.faults.has_refused() {
        return Err(ProgramFault::OutOfMemory);
    }
    if left.faults.has_failed() {
        return Err(ProgramFault::Device);
    }
    Ok(())
}

// Writes what `tell_judged` does behind verdicts that came to this, where that is asked for and all of their lines were written. Of two
// faults it returns the greater.
fn tell_behind<W: Write>(
    alloc: Global,
    verdicts: Result<(), ProgramFault>,
    amounts: &[Amount],
    asked: bool,
    with_operations: bool,
    names: &[Name],
    writer: &mut W,
) -> Result<(), ProgramFault>
    ensures { ComesBehind (is_told verdicts && asked)
        (TellsLines (judged_line with_operations)
        (λ tenant amount. slice_get amounts.now tenant ≡ Some amount) (length amounts.now)
        names.now) (W.contents writer.old) (W.contents writer.new) verdicts result }
{
    if !comes_behind(&verdicts, asked) {
        return verdicts;
    }
    let counted = tell_judged(alloc, amounts, with_operations, names, writer);
    ended_after(verdicts, counted)
}

// Whether more comes behind verdicts that came to this: where it is asked for, and all of their lines were written.
fn comes_behind(verdicts: &Result<(), ProgramFault>, asked: bool) -> bool
    ensures { result ≡ (is_told verdicts.now && asked) }
{
    match verdicts {
        Ok(()) | Err(ProgramFault::Settle) => asked,
        Err(_) => false,
    }
}

// What a server comes to that had this fault, or none, before its last lines, which came to this: the greater fault is reported.
fn ended_after(
    before: Result<(), ProgramFault>,
    ended: Result<(), ProgramFault>,
) -> Result<(), ProgramFault>
    ensures { result ≡ greater_fault before ended }
{
    let Err(before) = before else {
        return ended;
    };
    let Err(told) = ended else {
        return Err(before);
    };
    if told.status() < before.status() {
        Err(told)
    } else {
        Err(before)
    }
}

// Opens a hub that nobody watches, whose epochs are checked.
fn open_checked<
    J: Naming + Send + Sync + Drop + 'static,
    H: Threads + Wait + Clone + Send + Sync + Drop + 'static,
>(rt: &H, alloc: Global, store: NewStore) -> Result<(OpenHub<J>, Checking), ProgramFault>
    requires { store.history.seen.book ≡ J.book }
    ensures { DoneOrRefused (λ r. r.0 ≡ view_with store.config store.journals) result }
{
    let limits = store.config.limits.as_slice();
    let (checking, checker) = match Checking::start(rt, alloc, store.config.parts, limits) {
        Ok(started) => started,
        Err(HubFault::OutOfMemory) => return Err(ProgramFault::OutOfMemory),
        Err(HubFault::Thread) => return Err(ProgramFault::Device),
    };
    let opened: Result<OpenHub<J>, ProgramFault> = open_hub(rt, alloc, store, checker);
    match opened {
        Ok(hub) => Ok((hub, checking)),
        Err(fault) => {
            let _ = checking.end(rt, alloc);
            Err(fault)
        }
    }
}

// Reports the port, and serves the connections, and the status port beside them.
fn serve_all<J: Naming + Send + Sync, H: Threads + Wait + Clock + Sync, R: Read, W: Write>(
    rt: &H,
    alloc: Global,
    hub: &OpenHub<J>,
    names: &[Name],
    server: &Server<Listener, Named<J, Open>, &[Name]>,
    reporting: Reporting<'_>,
    reader: &mut R,
    writer: &mut W,
) -> Result<(), ProgramFault>
    ensures { TellsOfPort (port_of (listener_of server.now))
        (W.contents writer.old) (W.contents writer.new) result }
{
    tell_port(alloc, server.listener().port(), writer)?;
    let Some(port) = reporting.port else {
        serve_connections(rt, alloc, hub, server, reader);
        return Ok(());
    };
    let watched = Watched {
        hub,
        names,
        server,
        known: reporting.known,
        started: seconds_now(rt),
        version: VERSION,
    };
    serve_and_report(rt, alloc, &watched, port, reader);
    Ok(())
}

// The number by which clients tell the store of a server from that of another run: the microseconds since 1970 at its start, or 0 where
// the clock can't be read.
fn store_number<H: Clock>(rt: &H) -> u64 {
    let Ok(now) = SystemTime::now(rt) else {
        return 0;
    };
    match now.duration_since(UNIX_EPOCH) {
        Ok(since) => u64::try_from(since.as_micros()).unwrap_or(0),
        Err(_) => 0,
    }
}

// The seconds since 1970, or 0 where the clock can't be read.
fn seconds_now<H: Clock>(rt: &H) -> u64 {
    let Ok(now) = SystemTime::now(rt) else {
        return 0;
    };
    match now.duration_since(UNIX_EPOCH) {
        Ok(since) => since.as_secs(),
        Err(_) => 0,
    }
}

// Whoever waits for the port gets it at once.
fn tell_port<W: Write>(alloc: Global, port: u16, writer: &mut W) -> Result<(), ProgramFault>
    ensures { TellsOfPort port (W.contents writer.old) (W.contents writer.new) result }
{
    let line = listening_line(alloc, port)?;
    let Ok(()) = write_text(writer, line.as_bytes()) else {
        return Err(ProgramFault::Device);
    };
    match writer.flush() {
        Ok(()) => Ok(()),
        Err(_) => Err(ProgramFault::Device),
    }
}

fn listening_line(alloc: Global, port: u16) -> Result<String, AllocError>
    ensures { IfOk result (λ line. string_bytes line ≡ listening_line port) }
{
    format!(in alloc; "listening {port}\n")
}
