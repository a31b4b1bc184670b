//! The store inside of another program, which writes two items in one transaction and reads both. README.md shows it.
#![tactic(auto)]

ghost use Rattle.std.specs.Prelude.{◌≡◌};

use hub::{Config, Gate, Hub, Named, Naming, NewStore, Transcript};
use plain_store::Answer;
use stamps::{Client, Counter, Item, Keep, Key, Limits, Tag, Value};
use std::alloc::Global;
use std::io::{self, ErrorKind};
use std::marker::Brand;
use std::sync::Wait;
use std::thread::Threads;

/// Two partitions and one tenant, with room for 1024 versions and 256 items at each, and for 16 clients.
fn config(alloc: Global) -> Option<Config> {
    let limits = Limits::new(1024, 256, Keep::new(2)?, 16)?;
    match vec![in alloc; limits] {
        Ok(limits) => Some(Config {
            parts: 2,
            limits,
            queue: 64,
            every: 1024,
            epoch: 0,
        }),
        Err(_) => None,
    }
}

/// The stock of a shop, and what it sold.
fn items() -> Option<[Item; 2]> {
    let tag = Tag::read(b"shop")?;
    let [stock, sold] = [Key::read(b"stock")?, Key::read(b"sold")?];
    let [seven, three] = [Value::read(b"7")?, Value::read(b"3")?];
    Some([
        Item {
            key: stock,
            tag,
            value: seven,
        },
        Item {
            key: sold,
            tag,
            value: three,
        },
    ])
}

/// A session of client 1: what its write and its read are answered. What it did goes to the transcripts.
fn put_and_get<G: Gate + Naming, R: Wait>(
    rt: &R,
    hub: &Hub<G>,
    items: &[Item; 2],
    transcripts: &mut Vec<Transcript>,
) -> Option<[Answer; 2]> {
    let [stock, sold] = items;
    let mut seat = hub.seat(rt, 0, Client::new(1)?, Counter::new(0)?).ok()?;
    let written = seat.put_all(rt, items);
    let read = seat.get_all(rt, &[stock.key, sold.key]);
    transcripts.push(seat.end(rt)).ok()?;
    Some([written, read])
}

/// What the session is answered in this store, whose history J names, and how many transcripts are left.
fn run<J: Naming + Send + Sync + Drop + 'static, R: Threads + Wait + Clone + Send + Drop + 'static>(
    rt: &R,
    alloc: Global,
    store: NewStore,
    items: &[Item; 2],
) -> Option<([Answer; 2], usize)>
    requires { store.history.seen.book ≡ J.book }
{
    let hub = Hub::open(rt, alloc, store, Named::<J, ()>::new(()), ()).ok()?;
    let mut transcripts = Vec::new(alloc);
    let answers = put_and_get(rt, &hub, items, &mut transcripts);
    let closed = hub.close(rt, transcripts);
    Some((answers?, closed.transcripts.len()))
}

fn main(rt: HostRuntime) -> io::Result<()> {
    let alloc = rt.alloc();
    let items = items().ok_or(ErrorKind::Other)?;
    let store = NewStore::of(config(alloc).ok_or(ErrorKind::OutOfMemory)?);
    let told = run::<Brand, _>(&rt, alloc, store, &items);
    let ([written, read], count) = told.ok_or(ErrorKind::OutOfMemory)?;
    print(&rt, &written)?;
    print(&rt, &read)?;
    println!(rt; "{count} transcript")
}

/// Prints a write's stamp, and what a read gave.
fn print(rt: &impl Print, answer: &Answer) -> io::Result<()> {
    match answer {
        Answer::Done(stamp) => println!(rt; "written at {stamp}"),
        Answer::Read(readings) => {
            for reading in readings.as_slice() {
                let (stamp, item) = (&reading.stamp, &reading.item);
                println!(rt; "{} at {stamp}: {}", item.key, item.value)?;
            }
            Ok(())
        }
        other => println!(rt; "{other:?}"),
    }
}
