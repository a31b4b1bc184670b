//! The words that the program knows.
ghost use Rattle.std.specs.Prelude.{◌≡◌, IfOk, false, pos};
ghost use Rattle.clap.specs.Words.{app_of};
ghost use Rattle.clap.specs.declared.builder.command.Command.TheViews.{out-Command as fields_of};
ghost use Rattle.command_line.specs.Words.{IsOwnOption, Knows, cell_command, counts_rule, load_command, mix_rules, newest_rule, pace_rules, port_rule, program, ranged_rule, rules_of, serve_command, sim_command, stay_rule, store_rules, strict_rule, tenants_rule, unrecorded_rule, with_rules};

use crate::options::{
    CLIENTS, COUNTS, EPOCH, EVERY, ITEMS, KEEP, KEYS, NEWEST, NumberOption, PARTS, PORT, QUEUE,
    ROUNDS, SEATS, SEED, SESSIONS, SLOTS, STATUS, STAY, STRICT, UNRECORDED,
};
use clap::builder::ValueParser;
use clap::{Arg, ArgAction, Command};
use line_protocol::VERSION;
use std::alloc::{AllocError, Global};

const ABOUT: &str = "A key-value store of many tenants with read atomic transactions.";

const EXAMPLES: &str = "Examples:
  printf 'prepare x@1.1=a x\\ncommit 1.1\\nget x\\n' | ramp cell --slots 16 --items 4
  printf 't hello 1\\nt get 1 x\\nt deliver 1\\nt deliver 2\\n' | ramp sim t
  ramp serve --port 7000 t
  ramp load --seats 2 --rounds 10 t u

The forms of the lines: ramp cell --help, ramp sim --help, ramp serve --help, ramp load --help";

const CELL_ABOUT: &str = "Answers the calls of one cell, a line each, until the input ends";

const CELL_LINES: &str = "Lines:
  prepare KEY@STAMP=VALUE KEYS      keep a version; with a tag KEY@STAMP#TAG=VALUE
  commit STAMP                      commit the versions of this stamp
  get KEY                           the latest committed version
  get KEY STAMP                     the version of this stamp, committed or not
  found TAG                         the items that stand under the tag
  collect K                         drop versions below the K-th latest committed one of each item
  discard STAMP                     drop this stamp's uncommitted versions, and refuse it from then on

KEY is 1 to 32 bytes of a-z 0-9 _ . / -, TAG 1 to 16 of these, and VALUE up to 128 bytes
that are no space. STAMP is COUNTER.CLIENT, as 2.1. KEYS are the keys that the transaction
writes, in byte order, separated by commas; KEY is one of them. K is 1 to 255.

Example, in which client 1 writes a key that is then read:
  printf 'prepare x@1.1=a x\\ncommit 1.1\\nget x\\n' | ramp cell --slots 16 --items 4";

const SIM_ABOUT: &str = "Answers the steps of a store's tenants, a line each, until the input ends";

const SIM_LINES: &str = "Lines:
  TENANT hello CLIENT               open the client's session; hello CLIENT BASE sets its counter
  TENANT put CLIENT KEY=VALUE ..    begin a write; with a tag KEY#TAG=VALUE
  TENANT get CLIENT KEY ..          begin a read
  TENANT find CLIENT TAG            begin a search
  TENANT deliver ROW                deliver the message of this row
  TENANT lose ROW                   lose it: it can be delivered no more
  TENANT retry CLIENT               send each call again that no reply was taken to
  TENANT stop CLIENT                close the session, and end its transaction
  TENANT collect PART               drop old versions at this partition
  TENANT keep K                     from now on a collection keeps K committed versions of an item

CLIENT is 1 to 65535, and PART counts from 0. KEY is 1 to 32 bytes of a-z 0-9 _ . / -,
TAG 1 to 16 of these, and VALUE up to 128 bytes that are no space. The answer to
a step names the messages that it sends by their rows.

Example, in which client 1 of tenant t reads a key that no one wrote:
  printf 't hello 1\\nt get 1 x\\nt deliver 1\\nt deliver 2\\n' | ramp sim --parts 2 t";

const SERVE_ABOUT: &str = "Serves sessions over TCP, each connection by a thread of its own";

const SERVE_LINES: &str = "Lines of a connection:
  hello TENANT CLIENT               open the client's session; hello TENANT CLIENT BASE sets its counter
  hello TENANT any                  open that of a client whose number is free; ready COUNTER as CLIENT names it
  info                              the server's version, the number of its store, and whether its puts are newest
  put KEY=VALUE ..                  write 1 to 16 items, all or none; with a tag KEY#TAG=VALUE
  get KEY ..                        read 1 to 16 items
  find TAG                          read the items that stand under the tag
  keep K                            from now on a collection keeps K committed versions of an item
  bye                               end the session

CLIENT is 1 to 65535, and K 1 to 255. KEY is 1 to 32 bytes of a-z 0-9 _ . / -, TAG 1 to 16 of these, and
VALUE up to 128 bytes that are no space.

After the last connection, and with --stay once standard input has ended, a line is printed for each tenant:
  settled TENANT yes                some one-at-a-time order of its requests gives the same answers, or
  settled TENANT no                 no such order was found, and the status is 1
With --epoch it is instead:
  checked TENANT yes                each reply was the one after the calls before it, at each partition, or
  checked TENANT no                 one was not, and the status is 1
With --unrecorded it is what was answered, and no verdict:
  served TENANT puts N gets N finds N refusals N restarts N
With --counts a line of how much was judged follows for each tenant:
  judged TENANT calls N operations N    calls at partitions, collections too; puts, gets and finds
  judged TENANT calls N                 with --epoch

With --status N, GET http://127.0.0.1:N/metrics has numbers for each tenant and partition, in the text format
of Prometheus. GET http://127.0.0.1:N/health answers 200, or 507 where a limit is used up, or 503 where an
epoch was not right or not checked, or a partition is missing.

Example, and then, in another terminal, nc 127.0.0.1 7000:
  ramp serve --port 7000 --sessions 2 t
or, until Ctrl-D is typed:
  ramp serve --port 7000 --sessions 100 --stay --epoch 1000 t";

const LOAD_ABOUT: &str =
    "Runs a seeded random workload with several clients per tenant, then verifies the answers";

const LOAD_LINES: &str = "Lines that are printed, first the one for each tenant, and then the other:
  load TENANT puts N gets N finds N   how many operations its seats began
  settled TENANT yes                  some one-at-a-time order of its requests gives the same answers, or
  settled TENANT no                   no such order was found, and the status is 1

With --epoch all epochs are joined before they are settled; where they do not join, each line says no.

Each seat has a thread of its own. What it does depends on the seed, its tenant and its
client alone.

Example, in which two clients of each of two tenants do ten rounds:
  ramp load --seats 2 --rounds 10 t u";

/// The words as clap knows them.
pub(crate) fn command<'a>(alloc: Global) -> Result<Command<'a>, AllocError>
    ensures { IfOk result (λ command. app_of command ≡ program) }
{
    Command::new(alloc, "ramp")
        .version(VERSION)
        .about(ABOUT)
        .after_help(EXAMPLES)
        .subcommand_required(true)
        .subcommand(cell_command(alloc)?)?
        .subcommand(sim_command(alloc)?)?
        .subcommand(serve_command(alloc)?)?
        .subcommand(load_command(alloc)?)
}

fn cell_command<'a>(alloc: Global) -> Result<Command<'a>, AllocError>
    ensures { IfOk result (λ command. Knows command cell_command) }
{
    let cell = Command::new(alloc, "cell")
        .about(CELL_ABOUT)
        .after_help(CELL_LINES);
    with_numbers(alloc, cell, &OF_CELL)
}

fn sim_command<'a>(alloc: Global) -> Result<Command<'a>, AllocError>
    ensures { IfOk result (λ command. Knows command sim_command) }
{
    let sim = Command::new(alloc, "sim")
        .about(SIM_ABOUT)
        .after_help(SIM_LINES);
    with_store(alloc, sim)?.arg(tenants(alloc))
}

fn serve_command<'a>(alloc: Global) -> Result<Command<'a>, AllocError>
    ensures { IfOk result (λ command. Knows command serve_command) }
{
    let serve = Command::new(alloc, "serve")
        .about(SERVE_ABOUT)
        .after_help(SERVE_LINES);
    let serve = with_store(alloc, serve)?
        .arg(port(alloc))?
        .arg(number(alloc, &SESSIONS))?
        .arg(stay(alloc))?
        .arg(strict(alloc))?
        .arg(newest(alloc))?
        .arg(unrecorded(alloc))?
        .arg(counts(alloc))?;
    with_pace(alloc, serve)?
        .arg(number(alloc, &STATUS))?
        .arg(tenants(alloc))
}

fn load_command<'a>(alloc: Global) -> Result<Command<'a>, AllocError>
    ensures { IfOk result (λ command. Knows command load_command) }
{
    let load = Command::new(alloc, "load")
        .about(LOAD_ABOUT)
        .after_help(LOAD_LINES);
    let load = with_mix(alloc, with_store(alloc, load)?)?;
    with_pace(alloc, load)?.arg(tenants(alloc))
}

// The options of a cell: its room.
const OF_CELL: [NumberOption; 3] = [SLOTS, ITEMS, CLIENTS];

// The options of a store: its partitions, and the room of each tenant.
const OF_STORE: [NumberOption; 5] = [PARTS, SLOTS, ITEMS, CLIENTS, KEEP];

// The options of what the seats of a load do.
const OF_MIX: [NumberOption; 4] = [SEATS, ROUNDS, SEED, KEYS];

// The options of how a running store is paced.
const OF_PACE: [NumberOption; 3] = [QUEUE, EVERY, EPOCH];

// The options of a store.
fn with_store<'a>(alloc: Global, command: Command<'a>) -> Result<Command<'a>, AllocError>
    requires { (fields_of command).has_globals ≡ false }
    ensures { IfOk result (λ made. Knows made (with_rules (app_of command.entry) store_rules)) }
{
    with_numbers(alloc, command, &OF_STORE)
}

// The options of what the seats of a load do.
fn with_mix<'a>(alloc: Global, command: Command<'a>) -> Result<Command<'a>, AllocError>
    requires { (fields_of command).has_globals ≡ false }
    ensures { IfOk result (λ made. Knows made (with_rules (app_of command.entry) mix_rules)) }
{
    with_numbers(alloc, command, &OF_MIX)
}

// The options of how a running store is paced.
fn with_pace<'a>(alloc: Global, command: Command<'a>) -> Result<Command<'a>, AllocError>
    requires { (fields_of command).has_globals ≡ false }
    ensures { IfOk result (λ made. Knows made (with_rules (app_of command.entry) pace_rules)) }
{
    with_numbers(alloc, command, &OF_PACE)
}

// The options that take these numbers, in their order.
fn with_numbers<'a>(
    alloc: Global,
    command: Command<'a>,
    options: &[NumberOption],
) -> Result<Command<'a>, AllocError>
    requires { (fields_of command).has_globals ≡ false }
    ensures { IfOk result
        (λ made. Knows made (with_rules (app_of command.entry) (rules_of options.now))) }
{
    let mut made = command;
    for option in options {
        made = made.arg(number(alloc, option))?;
    }
    Ok(made)
}

// An option that takes a number.
fn number<'a>(alloc: Global, option: &NumberOption) -> Arg<'a>
    ensures { IsOwnOption result
        (ranged_rule option.now.name.now option.now.default.now (pos option.now.least)
        (pos option.now.most)) }
{
    Arg::new(alloc, option.name)
        .long(option.name)
        .value_name("N")
        .value_parser(ValueParser::signed(i64::from(option.least), i64::from(option.most)))
        .default_value(option.default)
        .help(option.help)
}

// The port, which may be 0.
fn port<'a>(alloc: Global) -> Arg<'a>
    ensures { IsOwnOption result port_rule }
{
    Arg::new(alloc, PORT)
        .long(PORT)
        .value_name("N")
        .value_parser(ValueParser::signed(0, 65535))
        .default_value("0")
        .help("The port of 127.0.0.1 to listen at, 0 to 65535; 0 is one that is free")
}

// Whether the server stays.
fn stay<'a>(alloc: Global) -> Arg<'a>
    ensures { IsOwnOption result stay_rule }
{
    Arg::new(alloc, STAY)
        .long(STAY)
        .action(ArgAction::SetTrue)
        .help("Serve whoever connects for as long as standard input is open")
}

// Whether its sessions are strict.
fn strict<'a>(alloc: Global) -> Arg<'a>
    ensures { IsOwnOption result strict_rule }
{
    Arg::new(alloc, STRICT)
        .long(STRICT)
        .action(ArgAction::SetTrue)
        .help("End a connection at a line that can't be read, while it has no session")
}

// Whether its puts are newest.
fn newest<'a>(alloc: Global) -> Arg<'a>
    ensures { IsOwnOption result newest_rule }
{
    Arg::new(alloc, NEWEST)
        .long(NEWEST)
        .action(ArgAction::SetTrue)
        .help(
            "Have each put be newer than any that was done before; without it, a put of keys not read may be lost",
        )
}

// Whether it records nothing.
fn unrecorded<'a>(alloc: Global) -> Arg<'a>
    ensures { IsOwnOption result unrecorded_rule }
{
    Arg::new(alloc, UNRECORDED)
        .long(UNRECORDED)
        .action(ArgAction::SetTrue)
        .help("Record nothing and tell no verdict; excludes an --epoch above 0")
}

// Whether it reports of how much its verdicts are.
fn counts<'a>(alloc: Global) -> Arg<'a>
    ensures { IsOwnOption result counts_rule }
{
    Arg::new(alloc, COUNTS)
        .long(COUNTS)
        .action(ArgAction::SetTrue)
        .help("After the verdicts, print how much was judged; with --unrecorded nothing more")
}

// The names of the tenants.
fn tenants<'a>(alloc: Global) -> Arg<'a>
    ensures { IsOwnOption result tenants_rule }
{
    Arg::new(alloc, "tenant")
        .value_name("TENANT")
        .action(ArgAction::Append)
        .required(true)
        .help("The names of 1 to 64 tenants, each 1 to 16 bytes of a-z, 0-9 and _, none twice")
}
