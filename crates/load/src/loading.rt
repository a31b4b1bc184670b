//! A load: seats that put, get and search as they draw it, and the verdict over what they were answered.
ghost use Rattle.std.specs.Prelude.{◌≡◌, ◌≤◌, ◌<◌, length, true};
ghost use Rattle.stamps.specs.Limits.{max_seats};
ghost use Rattle.load.specs.Rounds.{AreOfSeats, seats_of};
ghost use Rattle.hub.specs.Hubs.{config_view};
ghost use Rattle.load.specs.Loading.{HasLoaded, IsToldOfLoad};
ghost use Rattle.load.specs.Stores.{DoneOrRefused, IsClosed};

use crate::joined::tell_kept;
use crate::kept::KeptEpochs;
use crate::seats::{Orders, run_seats};
use crate::store::{close_store, open_hub};
use crate::tally::tell_begun;
use hub::{Closed, Config, Named, Naming, NewStore, Sink};
use line_protocol::Name;
use line_runs::ProgramFault;
use server_sessions::Open;
use server_verdicts::tell_verdicts;
use std::alloc::Global;
use std::io::Write;
use std::marker::Brand;
use std::sync::Wait;
use std::thread::Threads;

/// Opens a store, has `seats` clients of each tenant do `rounds` rounds among `keys` keys, each in a thread of its own, and
/// closes it. Then it writes for each tenant, in the order of the names, `load`, its name, and how many puts, gets and
/// finds its seats began; and then the lines of `tell_verdicts`. The tenants go by these names, in the order of their limits.
///
/// Where the config has journals cut, each epoch is kept; where one is missing once the store is closed, nothing is written.
/// Once the lines of `load` are written, the epochs are joined with what was left, and the lines of `tell_verdicts` are
/// those of what they join to; where they do not join, each says `no`.
///
/// What a seat does depends on the seed and on its tenant's and its client's numbers alone. What it is answered does not
/// change what it does next.
///
/// It is `Settle` where a line says `no`, `Device` where a thread can't be started or a write failed, and `OutOfMemory` where
/// the store, a seat, the sink of the epochs, `join`, `settle` or a line found no memory (so where an epoch is missing), or a
/// tenant may not have so many clients: then the lines break off. However it ends, each thread has ended.
pub fn run_load<H: Threads + Wait + Clone + Send + Sync + Drop + 'static, W: Write>(
    rt: &H,
    alloc: Global,
    config: Config,
    names: &[Name],
    seats: u16,
    rounds: u32,
    seed: u32,
    keys: u32,
    writer: &mut W,
) -> Result<(), ProgramFault>
    requires seats { seats ≤ max_seats }
    requires keys { 0 < keys }
    ensures { HasLoaded (config_view config)
        (record { seats = seats; rounds = rounds; seed = seed; keys = keys }) names.now
        (W.contents writer.old) (W.contents writer.new) result }
{
    let orders = Orders { seed, rounds, keys };
    let is_cut = config.epoch > 0;
    let store = NewStore::of(config);
    if is_cut {
        load_and_join::<Brand, H, W>(rt, alloc, store, names, seats, orders, writer)
    } else {
        load_and_settle::<Brand, H, W>(rt, alloc, store, names, seats, orders, writer)
    }
}

/// A load of a store whose journals are kept, and whose history J names.
fn load_and_settle<
    J: Naming + Send + Sync + Drop + 'static,
    H: Threads + Wait + Clone + Send + Sync + Drop + 'static,
    W: Write,
>(
    rt: &H,
    alloc: Global,
    store: NewStore,
    names: &[Name],
    seats: u16,
    orders: Orders,
    writer: &mut W,
) -> Result<(), ProgramFault>
    requires seats { seats ≤ max_seats }
    requires journals { store.journals ≡ true }
    requires name { store.history.seen.book ≡ J.book }
    requires never { store.config.epoch ≡ 0 }
    ensures { HasLoaded (config_view store.config)
        (record { seats = seats; rounds = orders.rounds; seed = orders.seed; keys = orders.keys })
        names.now (W.contents writer.old) (W.contents writer.new) result }
{
    let closed = run_new::<J, (), H>(rt, alloc, store, (), seats, orders)?;
    tell_load(alloc, &closed, names, writer)
}

/// A load of a store whose journals are cut, all epochs of which are kept, and whose history J names.
fn load_and_join<
    J: Naming + Send + Sync + Drop + 'static,
    H: Threads + Wait + Clone + Send + Sync + Drop + 'static,
    W: Write,
>(
    rt: &H,
    alloc: Global,
    store: NewStore,
    names: &[Name],
    seats: u16,
    orders: Orders,
    writer: &mut W,
) -> Result<(), ProgramFault>
    requires seats { seats ≤ max_seats }
    requires journals { store.journals ≡ true }
    requires name { store.history.seen.book ≡ J.book }
    requires cut { 0 < store.config.epoch }
    ensures { HasLoaded (config_view store.config)
        (record { seats = seats; rounds = orders.rounds; seed = orders.seed; keys = orders.keys })
        names.now (W.contents writer.old) (W.contents writer.new) result }
{
    let (kept, sink) = KeptEpochs::open_both(alloc, rt.clone()?, rt.clone()?)?;
    let closed = run_new::<J, KeptEpochs<H>, H>(rt, alloc, store, sink, seats, orders)?;
    let epochs = kept.epochs(&closed)?;
    tell_kept(alloc, closed, epochs, names, writer)
}

/// Opens a store whose history J names and the epochs of which go to this sink, has the seats of its tenants run, and closes it.
fn run_new<
    J: Naming + Send + Sync + Drop + 'static,
    S: Sink<Named<J, Open>> + Send + Sync + Drop + 'static,
    H: Threads + Wait + Clone + Send + Sync + Drop + 'static,
>(
    rt: &H,
    alloc: Global,
    store: NewStore,
    sink: S,
    seats: u16,
    orders: Orders,
) -> Result<Closed, ProgramFault>
    requires seats { seats ≤ max_seats }
    requires journals { store.journals ≡ true }
    requires name { store.history.seen.book ≡ J.book }
    ensures { DoneOrRefused (λ closed. IsClosed (config_view store.config) closed
        × AreOfSeats orders.seed orders.rounds orders.keys
        (seats_of (length store.config.limits.items) seats) closed.transcripts.items) result }
{
    let tenants = store.config.limits.len() as u32;
    let hub = open_hub::<J, S, H>(rt, alloc, store, sink)?;
    match run_seats(rt, alloc, &hub, tenants, seats, orders) {
        Ok(kept) => {
            let (closed, _seen) = close_store(rt, hub, kept);
            Ok(closed.into_closed())
        }
        Err(fault) => {
            let _ = hub.close(rt, Vec::new(alloc));
            Err(fault)
        }
    }
}

/// Writes the lines of a load whose store was closed.
fn tell_load<W: Write>(
    alloc: Global,
    closed: &Closed,
    names: &[Name],
    writer: &mut W,
) -> Result<(), ProgramFault>
    ensures { IsToldOfLoad closed.now names.now (W.contents writer.old)
        (W.contents writer.new) result }
{
    tell_begun(alloc, closed, names, writer)?;
    tell_verdicts(alloc, closed, names, writer)
}
