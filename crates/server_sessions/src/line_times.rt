//! How long the lines of sessions take, from the read that brought them to the write of their answers.
ghost use Rattle.std.specs.Prelude.{◌≡◌, ◌==◌, count_by, nat_lt};
ghost use Rattle.server_sessions.specs.LineTiming.{edges, line_feed};

use memchr::memchr_iter;
use std::alloc::{AllocError, Global};
use std::cell::Cell;
use std::sync::atomic::{AtomicU64, Ordering};
use std::time::{Clock, Duration, Instant};

/// The edges of the classes in nanoseconds: a time is of the first class whose edge it does not pass, or of one behind them all.
const EDGES: [u64; 14] = [
    50_000,
    100_000,
    250_000,
    500_000,
    1_000_000,
    2_500_000,
    5_000_000,
    10_000_000,
    25_000_000,
    50_000_000,
    100_000_000,
    250_000_000,
    500_000_000,
    1_000_000_000,
];

/// The same edges in seconds, as text, and that of the last class.
const NAMES: [&str; 15] = [
    "0.00005", "0.0001", "0.00025", "0.0005", "0.001", "0.0025", "0.005", "0.01", "0.025", "0.05",
    "0.1", "0.25", "0.5", "1", "+Inf",
];

/// How long the lines of a server took. Any thread may note and read.
#[derive(Drop)]
pub struct LineTimes {
    /// How many lines each class has; and behind them the microseconds of all. They are apart from what is read for each line.
    counts: Vec<AtomicU64>,
}

/// When the last bytes of a connection came, as its reads and its writes share it, and where its lines' times are noted.
#[derive(Drop)]
pub(crate) struct LineClock<'s, H> {
    rt: &'s H,
    times: &'s LineTimes,
    came: Cell<Option<Instant>>,
}

impl LineTimes {
    /// How many classes of times there are.
    pub const CLASSES: usize = 15;

    /// No line was answered yet. The one error is that an allocation failed.
    pub(crate) fn new(alloc: Global) -> Result<LineTimes, AllocError> {
        let mut counts = Vec::with_capacity(alloc, LineTimes::CLASSES + 1)?;
        for _count in 0..=LineTimes::CLASSES {
            counts.push(AtomicU64::new(0))?;
        }
        Ok(LineTimes { counts })
    }

    /// Up to how many seconds a line of this class takes, as text.
    pub fn edge(class: usize) -> &'static str {
        match NAMES.get(class) {
            Some(name) => name,
            None => "+Inf",
        }
    }

    /// How many lines are of this class.
    pub fn lines(&self, class: usize) -> u64 {
        if class >= LineTimes::CLASSES {
            return 0;
        }
        self.count(class)
    }

    /// How many microseconds all lines took together.
    pub fn micros(&self) -> u64 {
        self.count(LineTimes::CLASSES)
    }

    fn count(&self, place: usize) -> u64 {
        match self.counts.get(place) {
            Some(count) => count.load(Ordering::SeqCst),
            None => 0,
        }
    }

    fn add(&self, place: usize, number: u64) {
        if let Some(count) = self.counts.get(place) {
            count.fetch_add(number, Ordering::SeqCst);
        }
    }

    /// Notes that so many lines took so long, each.
    fn note(&self, time: Duration, lines: u64) {
        let nanos = u64::try_from(time.as_nanos()).unwrap_or(u64::MAX);
        self.add(class_of(nanos), lines);
        self.add(LineTimes::CLASSES, nanos.saturating_mul(lines) / 1000);
    }
}

impl<'s, H: Clock> LineClock<'s, H> {
    /// Nothing came yet.
    pub(crate) fn new(rt: &'s H, times: &'s LineTimes) -> LineClock<'s, H> {
        LineClock {
            rt,
            times,
            came: Cell::new(None),
        }
    }

    /// Bytes came now.
    pub(crate) fn came(&self) {
        self.came.set(Instant::now(self.rt).ok());
    }

    /// These answers were written now. What they answer came last: no more is read before they are written.
    pub(crate) fn wrote(&self, answers: &[u8]) {
        let (Some(came), Some(now)) = (self.came.get(), Instant::now(self.rt).ok()) else {
            return;
        };
        self.times
            .note(now.duration_since(came), lines_in(answers) as u64);
    }
}

// The class of a time of so many nanoseconds: before it stand those whose edge the time passes.
fn class_of(nanos: u64) -> usize
    ensures { result ≡ count_by (λ edge. nat_lt edge nanos) edges }
{
    EDGES.iter().filter(|edge| **edge < nanos).count()
}

// How many lines end in these bytes.
fn lines_in(bytes: &[u8]) -> usize
    ensures { result ≡ count_by (λ byte. byte == line_feed) bytes.now }
{
    let mut lines = 0;
    for _end in memchr_iter(b'\n', bytes) {
        lines += 1;
    }
    lines
}
