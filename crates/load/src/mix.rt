//! What the seats of a load do, as each draws it.
ghost use Rattle.std.specs.Prelude.{◌≡◌, ◌+◌, ◌*◌, ◌/◌, ◌%◌, ◌^◌, ◌<◌, ◌≤◌, decimal, map};
ghost use Rattle.load.specs.Rounds.{drawn, first_state, four_keys, item_of_round, key_of, kind_of, next_state, round_from, tag_of};

use itoa::Buffer;
use stamps::{Item, Key, Tag, Value};

const FACTOR: u64 = 6364136223846793005;

const SUMMAND: u64 = 1442695040888963407;

/// The numbers that a seat draws, one after the other.
#[derive(Drop)]
pub(crate) struct Draws {
    state: u64,
}

/// What a seat does in a round.
#[derive(Clone, Copy, PartialEq, Eq)]
pub(crate) enum RoundKind {
    Put,
    Get,
    Find,
}

/// A round of a seat, as it was drawn.
#[derive(Clone, Copy, PartialEq, Eq)]
pub(crate) struct DrawnRound {
    pub(crate) kind: RoundKind,
    /// The number of its first key.
    pub(crate) first: u32,
    /// How many keys it has, 1 to 4.
    pub(crate) count: u32,
    /// Whether it searches the tag `even`, if it searches.
    pub(crate) searches_even: bool,
}

impl Draws {
    /// What the seat of a client of a tenant draws.
    pub(crate) fn new(seed: u32, tenant: u32, client: u16) -> Draws
        ensures { result.state ≡ first_state seed tenant client }
    {
        Draws {
            state: u64::from(seed) * 65536 + u64::from(tenant) * 1024 + u64::from(client),
        }
    }

    /// The next number, below 2^32.
    fn draw(&mut self) -> u64
        ensures state { self.new.state ≡ next_state self.old.state }
        ensures number { result ≡ drawn self.new.state }
    {
        self.state = self.state.wrapping_mul(FACTOR).wrapping_add(SUMMAND);
        self.state >> 32
    }

    /// The next round, among so many keys. Each takes three numbers.
    pub(crate) fn round(&mut self, keys: u32) -> DrawnRound
        requires { 0 < keys }
        ensures round { result ≡ round_from keys self.old.state }
        ensures state { self.new.state ≡ next_state (next_state (next_state self.old.state)) }
    {
        let one = self.draw();
        let two = self.draw();
        let three = self.draw();
        DrawnRound {
            kind: kind_of(one),
            first: (two % u64::from(keys)) as u32,
            count: 1 + (three % 4) as u32,
            searches_even: two % 2 == 0,
        }
    }
}

/// Five of ten rounds put, four get, and one searches.
fn kind_of(number: u64) -> RoundKind
    ensures { result ≡ kind_of number }
{
    match number % 10 {
        0..=4 => RoundKind::Put,
        5..=8 => RoundKind::Get,
        _ => RoundKind::Find,
    }
}

/// The key of a number: `k` and its decimal.
pub(crate) fn key_of(number: u64) -> Key
    ensures { result ≡ key_of number }
{
    let mut buffer = Buffer::new();
    let digits = buffer.format(number).as_bytes();
    let mut text = [b'k'; 41];
    text[1..1 + digits.len()].copy_from_slice(digits);
    let Some(key) = Key::read(&text[..1 + digits.len()]) else {
        unreachable!();
    };
    key
}

/// The tag `even` or `odd`.
pub(crate) fn tag_of(even: bool) -> Tag
    ensures { result ≡ tag_of even }
{
    let word: &[u8] = if even { b"even" } else { b"odd" };
    let Some(tag) = Tag::read(word) else {
        unreachable!();
    };
    tag
}

/// The value of a round: its decimal.
fn value_of(nth: u32) -> Value
    ensures { result ≡ decimal nth }
{
    let mut buffer = Buffer::new();
    let Some(value) = Value::read(buffer.format(nth).as_bytes()) else {
        unreachable!();
    };
    value
}

/// The keys of four numbers, from one on; behind the greatest comes 0. There are so many keys.
pub(crate) fn four_keys(first: u32, keys: u32) -> [Key; 4]
    requires { 0 < keys }
    ensures { result ≡ four_keys first keys }
{
    let (first, keys) = (u64::from(first), u64::from(keys));
    [
        key_of(first % keys),
        key_of((first + 1) % keys),
        key_of((first + 2) % keys),
        key_of((first + 3) % keys),
    ]
}

/// The items of keys in a round: the value is the round's decimal, and the tag says whether it is even or odd.
pub(crate) fn items_of(all: &[Key; 4], nth: u32) -> [Item; 4]
    ensures { result ≡ map (item_of_round nth) all.now }
{
    let value = value_of(nth);
    let tag = tag_of(nth % 2 == 0);
    all.map(|key| Item { key, tag, value })
}
