//! What the seats of a load do, and how its store is paced.
ghost use Rattle.std.specs.Prelude.{◌<◌, ◌≤◌, ◌^◌};
ghost use Rattle.stamps.specs.Limits.{max_seats};

/// How many seats a load has, what they do, and how its store is paced.
#[derive(Clone, Copy)]
pub struct LoadOptions {
    /// How many seats each tenant has, 1 to `MAX_SEATS`.
    pub seats: u32,
    /// How many rounds each seat does, 1 to 10000.
    pub rounds: u32,
    /// What the seats' draws begin with, any number.
    pub seed: u32,
    /// From how many keys they choose at random, 4 to 256.
    pub keys: u32,
    /// How many calls may wait at a partition, 1 to 1024.
    pub queue: u32,
    /// After how many calls a partition is collected, 1 to 65536.
    pub every: u32,
    /// After how many events of a journal it is cut, 0 to 1048576; 0 is never.
    pub epoch: u32,
    pub ghost some_seats: { 0 < seats },
    pub ghost few_seats: { seats ≤ max_seats },
    pub ghost some_rounds: { 0 < rounds },
    pub ghost few_rounds: { rounds ≤ 10000 },
    pub ghost is_seed: { seed < 2 ^ 32 },
    pub ghost some_keys: { 4 ≤ keys },
    pub ghost few_keys: { keys ≤ 256 },
    pub ghost some_room: { 0 < queue },
    pub ghost little_room: { queue ≤ 1024 },
    pub ghost some_calls: { 0 < every },
    pub ghost few_calls: { every ≤ 65536 },
    pub ghost few_events: { epoch ≤ 1048576 },
}
