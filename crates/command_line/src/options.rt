//! What the options ask for, as clap has found them.
ghost use Rattle.std.specs.Prelude.{◌≡◌, ◌≢◌, ◌⊎◌, All, Contains, IfSome, IfNone, IfOk, IfErr, codes, map};
ghost use Rattle.clap.specs.Words.{found_of, rows_of, subcommand_rows_of};
ghost use Rattle.line_protocol.specs.StepSpelling.{IsName};
ghost use Rattle.command_line.specs.Asked.{GivesCell, GivesServe, GivesSim, GivesLoad, GivesNoKeep, GivesNoLimits, GivesNoLoad, GivesNoMix, GivesNoOptions, GivesNoParts, GivesNoPort, GivesNoRoom, GivesNoServer, GivesNoStore, HasNoFlag, HasNoNumber, HasNoNumberWithin, IsMet, IsNothingMet, IsWordsFault};
ghost use Rattle.command_line.specs.Words.{AreTenants, GivesLimits, GivesMix, GivesOptions, GivesParts, GivesStore, IsOptionFlag, IsOptionNumber, IsNumberWithin};

use crate::load_options::LoadOptions;
use crate::server_options::ServerOptions;
use clap::ArgMatches;
use line_protocol::Name;
use line_runs::ProgramFault;
use stamps::{Keep, Limits, limits};
use std::alloc::{AllocError, Global};

/// How many tenants a store has at most.
const MAX_TENANTS: usize = limits::MAX_TENANTS as usize;

/// An option that takes a number.
#[derive(Clone, Copy)]
pub(crate) struct NumberOption {
    pub(crate) name: &'static str,
    /// The number where the option is not given.
    pub(crate) default: &'static str,
    /// The least number.
    pub(crate) least: u32,
    /// The greatest number.
    pub(crate) most: u32,
    /// What the number is, and its range.
    pub(crate) help: &'static str,
}

/// How many partitions the store has.
pub(crate) const PARTS: NumberOption = NumberOption {
    name: "parts",
    default: "2",
    least: 1,
    most: limits::MAX_PARTS,
    help: "How many partitions the store has, 1 to 64",
};

/// How many versions a tenant's cell keeps.
pub(crate) const SLOTS: NumberOption = NumberOption {
    name: "slots",
    default: "1024",
    least: 1,
    most: limits::MAX_ROOM,
    help: "How many versions each tenant keeps at a partition, 1 to 65536",
};

/// How many items a tenant's cell knows.
pub(crate) const ITEMS: NumberOption = NumberOption {
    name: "items",
    default: "256",
    least: 1,
    most: limits::MAX_ROOM,
    help: "How many items each tenant has at a partition, 1 to 65536",
};

/// How many clients a tenant has.
pub(crate) const CLIENTS: NumberOption = NumberOption {
    name: "clients",
    default: "16",
    least: 1,
    most: limits::MAX_CLIENTS,
    help: "How many clients each tenant has, 1 to 1024",
};

/// How many versions a collection keeps.
pub(crate) const KEEP: NumberOption = NumberOption {
    name: "keep",
    default: "2",
    least: 1,
    most: limits::MAX_KEEP as u32,
    help: "How many committed versions of an item a collection keeps, 1 to 255",
};

/// The option of the port at which a server listens.
pub(crate) const PORT: &str = "port";

/// How many connections a server serves.
pub(crate) const SESSIONS: NumberOption = NumberOption {
    name: "sessions",
    default: "1",
    least: 1,
    most: 1024,
    help: "How many connections are served before the server ends, or at a time with --stay, 1 to 1024",
};

/// The option of a server that stays.
pub(crate) const STAY: &str = "stay";

/// The option of a server whose sessions are strict.
pub(crate) const STRICT: &str = "strict";

/// The option of a server whose puts take their counters from their tenant's clock.
pub(crate) const NEWEST: &str = "newest";

/// The option of a server that records nothing.
pub(crate) const UNRECORDED: &str = "unrecorded";

/// The option of a server that reports of how much its verdicts are.
pub(crate) const COUNTS: &str = "counts";

/// How many calls may wait at a partition for the cut of a full journal. Without epochs no journal is full.
pub(crate) const QUEUE: NumberOption = NumberOption {
    name: "queue",
    default: "64",
    least: 1,
    most: 1024,
    help: "How many calls may wait at a partition for the cut of a full journal, 1 to 1024; without epochs none does",
};

/// After how many calls a partition is collected.
pub(crate) const EVERY: NumberOption = NumberOption {
    name: "every",
    default: "64",
    least: 1,
    most: 65536,
    help: "After how many calls a partition is collected, 1 to 65536",
};

/// After how many events a journal is cut.
pub(crate) const EPOCH: NumberOption = NumberOption {
    name: "epoch",
    default: "0",
    least: 0,
    most: 1_048_576,
    help: "After how many events a journal is cut, 0 to 1048576; 0 is never",
};

/// The port that reports how a server stands.
pub(crate) const STATUS: NumberOption = NumberOption {
    name: "status",
    default: "0",
    least: 0,
    most: 65535,
    help: "The port of 127.0.0.1 that has metrics and health over HTTP, 0 to 65535; 0 is none",
};

/// How many seats each tenant of a load has.
pub(crate) const SEATS: NumberOption = NumberOption {
    name: "seats",
    default: "4",
    least: 1,
    most: limits::MAX_SEATS,
    help: "How many clients of each tenant have a seat, 1 to 16",
};

/// How many rounds each seat does.
pub(crate) const ROUNDS: NumberOption = NumberOption {
    name: "rounds",
    default: "100",
    least: 1,
    most: 10000,
    help: "How many rounds each seat does, 1 to 10000",
};

/// What the seats' draws begin with.
pub(crate) const SEED: NumberOption = NumberOption {
    name: "seed",
    default: "1",
    least: 0,
    most: u32::MAX,
    help: "The seed of the random workload, 0 to 4294967295",
};

/// From how many keys the seats choose at random.
pub(crate) const KEYS: NumberOption = NumberOption {
    name: "keys",
    default: "16",
    least: 4,
    most: 256,
    help: "From how many keys the seats choose, 4 to 256",
};

/// A store of so many partitions and tenants of these names, with these limits each.
#[derive(Drop)]
pub struct StoreOptions {
    /// How many partitions it has, 1 to `MAX_PARTS`.
    pub parts: u32,
    /// What each tenant has room for.
    pub limits: Limits,
    /// The names of its 1 to `MAX_TENANTS` tenants, none twice.
    pub names: Vec<Name>,
}

/// What the words ask for.
#[derive(Drop)]
pub enum Asked {
    /// This text: help, or the version.
    Text(String),
    /// A run of a cell of this room.
    Cell {
        slots: u32,
        items: u32,
        clients: u32,
    },
    /// A run of such a store.
    Sim(StoreOptions),
    /// A server of such a store.
    Serve(StoreOptions, ServerOptions),
    /// A load of such a store.
    Load(StoreOptions, LoadOptions),
}

/// What the command asks for that clap met.
pub(crate) fn read_matches(alloc: Global, matches: &ArgMatches<'_>) -> Result<Asked, ProgramFault>
    ensures asked { IfOk result (IsMet (subcommand_rows_of matches.now)) }
    ensures error { IfErr result (IsWordsFault (IsNothingMet (subcommand_rows_of matches.now))) }
{
    if let Some(cell) = matches.subcommand_matches("cell") {
        return read_cell(cell);
    }
    if let Some(sim) = matches.subcommand_matches("sim") {
        return read_sim(alloc, sim);
    }
    if let Some(serve) = matches.subcommand_matches("serve") {
        return read_serve(alloc, serve);
    }
    if let Some(load) = matches.subcommand_matches("load") {
        return read_load(alloc, load);
    }
    Err(ProgramFault::Options)
}

fn read_cell(cell: &ArgMatches<'_>) -> Result<Asked, ProgramFault>
    ensures asked { IfOk result (GivesCell (rows_of (found_of cell.now))) }
    ensures error { IfErr result (IsWordsFault (GivesNoRoom (rows_of (found_of cell.now)))) }
{
    let Some(slots) = read_number(cell, SLOTS.name) else {
        return Err(ProgramFault::Options);
    };
    let Some(items) = read_number(cell, ITEMS.name) else {
        return Err(ProgramFault::Options);
    };
    let Some(clients) = read_number(cell, CLIENTS.name) else {
        return Err(ProgramFault::Options);
    };
    Ok(Asked::Cell {
        slots,
        items,
        clients,
    })
}

fn read_sim(alloc: Global, sim: &ArgMatches<'_>) -> Result<Asked, ProgramFault>
    ensures asked { IfOk result (GivesSim (rows_of (found_of sim.now))) }
    ensures error { IfErr result (IsWordsFault (GivesNoStore (rows_of (found_of sim.now)))) }
{
    Ok(Asked::Sim(read_store(alloc, sim)?))
}

fn read_serve(alloc: Global, serve: &ArgMatches<'_>) -> Result<Asked, ProgramFault>
    ensures asked { IfOk result (GivesServe (rows_of (found_of serve.now))) }
    ensures error { IfErr result (IsWordsFault (GivesNoServer (rows_of (found_of serve.now)))) }
{
    let Some(options) = read_server(serve) else {
        return Err(ProgramFault::Options);
    };
    Ok(Asked::Serve(read_store(alloc, serve)?, options))
}

fn read_load(alloc: Global, load: &ArgMatches<'_>) -> Result<Asked, ProgramFault>
    ensures asked { IfOk result (GivesLoad (rows_of (found_of load.now))) }
    ensures error { IfErr result (IsWordsFault (GivesNoLoad (rows_of (found_of load.now)))) }
{
    let Some(options) = read_mix(load) else {
        return Err(ProgramFault::Options);
    };
    let store = read_store(alloc, load)?;
    if options.seats > store.limits.clients {
        return Err(ProgramFault::Options);
    }
    Ok(Asked::Load(store, options))
}

fn read_store(alloc: Global, sim: &ArgMatches<'_>) -> Result<StoreOptions, ProgramFault>
    ensures store { IfOk result
        (λ store.
        GivesStore (rows_of (found_of sim.now)) store.parts store.limits store.names.items) }
    ensures error { IfErr result (IsWordsFault (GivesNoStore (rows_of (found_of sim.now)))) }
{
    let Some(parts) = read_parts(sim) else {
        return Err(ProgramFault::Options);
    };
    let Some(limits) = read_limits(sim) else {
        return Err(ProgramFault::Options);
    };
    let Some(words) = sim.get_raw("tenant") else {
        return Err(ProgramFault::Options);
    };
    let Some(names) = read_names(alloc, words)? else {
        return Err(ProgramFault::Options);
    };
    Ok(StoreOptions {
        parts,
        limits,
        names,
    })
}

// Where a server listens, which connections it serves, and how its store is paced. None where it is to record nothing and to
// have epochs checked.
fn read_server(serve: &ArgMatches<'_>) -> Option<ServerOptions>
    ensures options { IfSome result (GivesOptions (rows_of (found_of serve.now))) }
    ensures none { IfNone result (GivesNoOptions (rows_of (found_of serve.now))) }
{
    let port = read_port(serve)?;
    let sessions = read_within(serve, &SESSIONS)?;
    let stay = read_flag(serve, STAY)?;
    let strict = read_flag(serve, STRICT)?;
    let newest = read_flag(serve, NEWEST)?;
    let unrecorded = read_flag(serve, UNRECORDED)?;
    let counts = read_flag(serve, COUNTS)?;
    let queue = read_within(serve, &QUEUE)?;
    let every = read_within(serve, &EVERY)?;
    let epoch = read_within(serve, &EPOCH)?;
    let status = read_within(serve, &STATUS)?;
    if unrecorded && epoch > 0 {
        return None;
    }
    Some(ServerOptions {
        port,
        sessions,
        stay,
        strict,
        newest,
        unrecorded,
        counts,
        queue,
        every,
        epoch,
        status,
    })
}

// How many seats a load has, what they do, and how its store is paced.
fn read_mix(load: &ArgMatches<'_>) -> Option<LoadOptions>
    ensures options { IfSome result (GivesMix (rows_of (found_of load.now))) }
    ensures none { IfNone result (GivesNoMix (rows_of (found_of load.now))) }
{
    let seats = read_within(load, &SEATS)?;
    let rounds = read_within(load, &ROUNDS)?;
    let seed = read_number(load, SEED.name)?;
    let keys = read_within(load, &KEYS)?;
    let queue = read_within(load, &QUEUE)?;
    let every = read_within(load, &EVERY)?;
    let epoch = read_within(load, &EPOCH)?;
    Some(LoadOptions {
        seats,
        rounds,
        seed,
        keys,
        queue,
        every,
        epoch,
    })
}

fn read_port(serve: &ArgMatches<'_>) -> Option<u16>
    ensures port { IfSome result (IsOptionNumber (codes "port") (rows_of (found_of serve.now))) }
    ensures none { IfNone result (GivesNoPort (rows_of (found_of serve.now))) }
{
    let port = read_number(serve, PORT)?;
    u16::try_from(port).ok()
}

// The number of an option, from its least to its most.
fn read_within(matches: &ArgMatches<'_>, option: &NumberOption) -> Option<u32>
    ensures number { IfSome result
        (IsNumberWithin option.now.least option.now.most option.now.name.now
        (rows_of (found_of matches.now))) }
    ensures none { IfNone result
        (HasNoNumberWithin option.now.least option.now.most option.now.name.now
        (rows_of (found_of matches.now))) }
{
    let number = read_number(matches, option.name)?;
    if number < option.least || number > option.most {
        return None;
    }
    Some(number)
}

// How many partitions the store has, 1 to `MAX_PARTS`.
fn read_parts(sim: &ArgMatches<'_>) -> Option<u32>
    ensures parts { IfSome result (GivesParts (rows_of (found_of sim.now))) }
    ensures none { IfNone result (GivesNoParts (rows_of (found_of sim.now))) }
{
    let parts = read_number(sim, PARTS.name)?;
    if parts == 0 || parts > PARTS.most {
        return None;
    }
    Some(parts)
}

fn read_limits(sim: &ArgMatches<'_>) -> Option<Limits>
    ensures limits { IfSome result (GivesLimits (rows_of (found_of sim.now))) }
    ensures none { IfNone result (GivesNoLimits (rows_of (found_of sim.now))) }
{
    let slots = read_number(sim, SLOTS.name)?;
    let items = read_number(sim, ITEMS.name)?;
    let clients = read_number(sim, CLIENTS.name)?;
    let keep = read_keep(sim)?;
    Limits::new(slots, items, keep, clients)
}

// How many versions a collection keeps, 1 to 255.
fn read_keep(sim: &ArgMatches<'_>) -> Option<Keep>
    ensures keep { IfSome result (IsOptionNumber (codes "keep") (rows_of (found_of sim.now))) }
    ensures none { IfNone result (GivesNoKeep (rows_of (found_of sim.now))) }
{
    let keep = read_number(sim, KEEP.name)?;
    Keep::new(u8::try_from(keep).ok()?)
}

fn read_number(matches: &ArgMatches<'_>, name: &str) -> Option<u32>
    ensures number { IfSome result (IsOptionNumber name.now (rows_of (found_of matches.now))) }
    ensures none { IfNone result (HasNoNumber name.now (rows_of (found_of matches.now))) }
{
    matches.get_one(name)
}

// Whether an option without a value is given.
fn read_flag(matches: &ArgMatches<'_>, name: &str) -> Option<bool>
    ensures flag { IfSome result (IsOptionFlag name.now (rows_of (found_of matches.now))) }
    ensures none { IfNone result (HasNoFlag name.now (rows_of (found_of matches.now))) }
{
    matches.get_one(name)
}

// The names that the words are, if they are those of 1 to `MAX_TENANTS` tenants.
fn read_names(alloc: Global, words: &[&str]) -> Result<Option<Vec<Name>>, AllocError>
    ensures names { IfOk result
        (λ names. IfSome names (λ list. list.items ≡ map (λ word. word.now) words.now)) }
    ensures tenants { IfOk result (λ names. IfSome names (λ list. AreTenants list.items)) }
    ensures none { IfOk result
        (λ names. IfNone names (AreTenants (map (λ word. word.now) words.now) → ⊥)) }
{
    if words.is_empty() || words.len() > MAX_TENANTS {
        return Ok(None);
    }
    let mut names = Vec::new(alloc);
    for word in words {
        let Some(name) = read_new_name(word, &names) else {
            return Ok(None);
        };
        names.push(name)?;
    }
    Ok(Some(names))
}

// The name that the word is, unless it is one of these.
fn read_new_name(word: &str, names: &[Name]) -> Option<Name>
    ensures name { IfSome result (λ name. (name ≡ word.now) × IsName word.now
        × All (λ known. known ≢ word.now) names.now) }
    ensures none { IfNone result ((IsName word.now → ⊥) ⊎ Contains names.now word.now) }
{
    let name = Name::read(word.as_bytes())?;
    if names.iter().any(|known| *known == name) {
        return None;
    }
    Some(name)
}

// The words of a command's tenants; none where it has no tenants.
pub(crate) fn tenant_words<'a>(matches: &'a ArgMatches<'_>) -> &'a [&'a str] {
    for command in ["sim", "serve", "load"] {
        if let Some(its) = matches.subcommand_matches(command) {
            return its.get_raw("tenant").unwrap_or(&[]);
        }
    }
    &[]
}

// The first word that is no tenant's name.
pub(crate) fn wrong_name<'a>(words: &[&'a str]) -> Option<&'a str>
    ensures { IfSome result (λ word. IsName word.now → ⊥) }
{
    for word in words {
        if Name::read(word.as_bytes()).is_none() {
            return Some(word);
        }
    }
    None
}

// The first word that stands before, too.
pub(crate) fn named_twice<'a>(words: &[&'a str]) -> Option<&'a str> {
    for at in 1..words.len() {
        if words[..at].contains(&words[at]) {
            return Some(words[at]);
        }
    }
    None
}
