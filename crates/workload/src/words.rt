//! The program as its words ask for it.
ghost use Rattle.std.specs.Prelude.{◌≡◌, ◌<◌, ◌≤◌, ◌⊎◌, Result, IfOk, map, string_bytes};
ghost use Rattle.std.specs.Io.KnownBytes.{Keeps};
ghost use Rattle.line_runs.specs.declared.fault.ProgramFault.{ProgramFault as Fault};
ghost use Rattle.workload.specs.Program.{Runs, RunsLoad, ended_as, load_view};
ghost use Rattle.load.specs.Loading.{HasLoaded};
ghost use Rattle.workload.specs.Serving.{IsAskedStore, IsPace, RunsServer, ServesAndTells, TellsPortFor, server_epoch, server_view, store_view};
ghost use Rattle.line_runs.specs.Statuses.{IsHelpStatus, exit_status};
ghost use Rattle.command_line.specs.Words.{AsksForHelp, AsksForVersion};
ghost use Rattle.hub.specs.Hubs.{config_view};

use crate::serve::run_server;
use command_line::{Asked, LoadOptions, ServerOptions, StoreOptions, explain, read_words};
use hub::Config;
use line_protocol::Name;
use line_runs::{End, ProgramFault, run_cell, run_sim, write_text};
use load::run_load;
use stamps::Limits;
use std::alloc::{AllocError, Global};
use std::io::{Read, Write};
use std::net::{Net, TcpListener, TcpStream};
use std::sync::Wait;
use std::thread::Threads;
use std::time::Clock;

/// The whole program, over its command-line arguments, of which the first is the program's name, and its three streams.
///
/// The next one is a command, and the others are its options and tenants. With `--help` it prints how the program is
/// used, and with `--version` which one it is.
///
/// - `ramp cell [--slots N] [--items N] [--clients N]` answers the calls of one cell, as [`line_runs::run_cell`] says.
/// - `ramp sim [--parts P] [--slots N] [--items N] [--clients N] [--keep K] TENANT..` answers the steps of these tenants, none
///   named twice, which have the same limits.
/// - `ramp serve` takes what `ramp sim` takes, and `[--port N] [--sessions N] [--stay] [--strict] [--newest] [--unrecorded] [--counts] [--queue N]
///   [--every N] [--epoch N] [--status N]`, and serves sessions of the tenants over TCP, as [`run_server`] says. With `--stay` the number of sessions
///   is of those at a time. With `--unrecorded` it keeps no record and has no verdict. With `--strict` a line that can't be read ends a connection that has no seat. With `--newest` each put is
///   above what was done before it, by the clock of its tenant.
/// - `ramp load` takes what `ramp sim` takes, `--queue`, `--every` and `--epoch`, and `[--seats N] [--rounds N] [--seed N] [--keys N]`, and
///   runs seats of the tenants, as [`run_load`] says: no more of a tenant than it has clients.
///
/// The range and the default of each option stand in its row of `command_line/src/options.rt`, and in the help.
///
/// The result is the exit status: 0, or that of a fault of which `errors` got one line. Wrong words are explained before it. A write to
/// `errors` that fails changes nothing.
pub fn run_words<
    H: Threads
        + Wait
        + Clock
        + Net<Listener = TcpListener, Stream = TcpStream>
        + Clone
        + Send
        + Sync
        + Drop
        + 'static,
    R: Read,
    W: Write,
    E: Write,
>(rt: &H, alloc: Global, words: &[String], reader: &mut R, writer: &mut W, errors: &mut E) -> u8
    ensures ran { (ended : Result (Unit {0}) Fault) × (result ≡ exit_status ended)
        × (Runs (map string_bytes words.now) (R.remaining reader.old) (W.contents writer.old)
        (W.contents writer.new) ended
        ⊎ (RunsServer (map string_bytes words.now) (W.contents writer.old)
        (W.contents writer.new) ended
        ⊎ RunsLoad (map string_bytes words.now) (W.contents writer.old)
        (W.contents writer.new) ended)) }
    // Words that ask for help end the program with 0, unless an allocation failed or a write failed.
    ensures help { AsksForHelp (map string_bytes words.now) → IsHelpStatus result }
    // And so do words that ask for the version.
    ensures version { AsksForVersion (map string_bytes words.now) → IsHelpStatus result }
    ensures quiet { result ≡ 0 → Keeps (E.contents errors.old) (E.contents errors.new) }
{
    match run_program(rt, alloc, words, reader, writer) {
        Ok(()) => 0,
        Err(fault) => {
            explain_wrong(alloc, words, &fault, errors);
            fault.report(errors)
        }
    }
}

// Explains words that ask for nothing; any other fault needs none.
fn explain_wrong<E: Write>(alloc: Global, words: &[String], fault: &ProgramFault, errors: &mut E) {
    if matches!(fault, ProgramFault::Options) {
        explain(alloc, words, errors);
    }
}

fn run_program<
    H: Threads
        + Wait
        + Clock
        + Net<Listener = TcpListener, Stream = TcpStream>
        + Clone
        + Send
        + Sync
        + Drop
        + 'static,
    R: Read,
    W: Write,
>(
    rt: &H,
    alloc: Global,
    words: &[String],
    reader: &mut R,
    writer: &mut W,
) -> Result<(), ProgramFault>
    ensures { Runs (map string_bytes words.now) (R.remaining reader.old) (W.contents writer.old)
        (W.contents writer.new) result
        ⊎ (RunsServer (map string_bytes words.now) (W.contents writer.old)
        (W.contents writer.new) result
        ⊎ RunsLoad (map string_bytes words.now) (W.contents writer.old)
        (W.contents writer.new) result) }
{
    match read_words(alloc, words)? {
        Asked::Text(text) => Ok(write_text(writer, text.as_bytes())?),
        Asked::Cell {
            slots,
            items,
            clients,
        } => outcome_of(run_cell(alloc, slots, items, clients, reader, writer)?),
        Asked::Sim(store) => {
            let each = limits_of_each(alloc, store.limits, &store.names)?;
            outcome_of(run_sim(alloc, store.parts, &each, &store.names, reader, writer)?)
        }
        Asked::Serve(store, options) => serve_store(rt, alloc, &store, options, reader, writer),
        Asked::Load(store, options) => load_store(rt, alloc, &store, options, writer),
    }
}

// Opens the store that the options ask for, and serves its sessions.
fn serve_store<
    H: Threads
        + Wait
        + Clock
        + Net<Listener = TcpListener, Stream = TcpStream>
        + Clone
        + Send
        + Sync
        + Drop
        + 'static,
    R: Read,
    W: Write,
>(
    rt: &H,
    alloc: Global,
    store: &StoreOptions,
    options: ServerOptions,
    reader: &mut R,
    writer: &mut W,
) -> Result<(), ProgramFault>
    requires { IsAskedStore store.now }
    ensures { let names = store.now.names.items in
        ServesAndTells options.unrecorded options.counts
        (server_view store.now.parts store.now.limits names options) names
        (TellsPortFor options.port) (W.contents writer.old) (W.contents writer.new) result }
{
    let epoch = epoch_of(options);
    let config = config_of(alloc, store, options.queue, options.every, epoch)?;
    let names = store.names.as_slice();
    run_server(rt, alloc, config, names, options, reader, writer)
}

/// A server that records nothing has no journal to cut. Its seats keep no transcript, as where journals are cut, and this number says so
/// to them.
const UNRECORDED_EPOCH: u32 = 1;

// After how many events a journal is cut.
fn epoch_of(options: ServerOptions) -> u32
    ensures epoch { result ≡ server_epoch options }
    ensures few { result ≤ 1048576 }
{
    if options.unrecorded {
        UNRECORDED_EPOCH
    } else {
        options.epoch
    }
}

// Opens the store that the options ask for, and has its tenants' seats do their rounds.
fn load_store<H: Threads + Wait + Clone + Send + Sync + Drop + 'static, W: Write>(
    rt: &H,
    alloc: Global,
    store: &StoreOptions,
    options: LoadOptions,
    writer: &mut W,
) -> Result<(), ProgramFault>
    requires { IsAskedStore store.now }
    ensures { let names = store.now.names.items in
        HasLoaded (store_view store.now.parts store.now.limits names
        options.queue options.every options.epoch) (load_view options) names
        (W.contents writer.old) (W.contents writer.new) result }
{
    let config = config_of(alloc, store, options.queue, options.every, options.epoch)?;
    let names = store.names.as_slice();
    run_load(
        rt,
        alloc,
        config,
        names,
        options.seats as u16,
        options.rounds,
        options.seed,
        options.keys,
        writer,
    )
}

// A running store as the options ask for it: so many calls may wait at a partition, it is collected after so many, and a
// journal is cut after so many events, or never.
fn config_of(
    alloc: Global,
    store: &StoreOptions,
    queue: u32,
    every: u32,
    epoch: u32,
) -> Result<Config, AllocError>
    requires store { IsAskedStore store.now }
    requires pace { IsPace queue every epoch }
    ensures { IfOk result (λ config. config_view config
        ≡ store_view store.now.parts store.now.limits store.now.names.items queue every epoch) }
{
    Ok(Config {
        parts: store.parts,
        limits: limits_of_each(alloc, store.limits, &store.names)?,
        queue,
        every,
        epoch,
    })
}

// The limits, once for each name.
fn limits_of_each(alloc: Global, limits: Limits, names: &[Name]) -> Result<Vec<Limits>, AllocError>
    ensures { IfOk result (λ each. each.items ≡ map (λ name. limits) names.now) }
{
    names.iter().map(|_| limits).collect(alloc)
}

// What a program comes to whose run ended so.
fn outcome_of(end: End) -> Result<(), ProgramFault>
    ensures { result ≡ ended_as end }
{
    match end {
        End::Whole => Ok(()),
        End::TooLong => Err(ProgramFault::LineTooLong),
        End::Cut => Err(ProgramFault::Cut),
    }
}
