//! How a hub is made.
ghost use Rattle.std.specs.Prelude.{◌≤◌, ◌<◌, vec_len};
ghost use Rattle.stamps.specs.Bounds.{IsParts};
ghost use Rattle.stamps.specs.Limits.{max_tenants};

use stamps::Limits;

/// Partitions, tenants and limits.
#[derive(Drop)]
pub struct Config {
    /// How many partitions there are, 1 to `MAX_PARTS`.
    pub parts: u32,
    /// The limits of each tenant, 1 to `MAX_TENANTS` of them. The n-th are those of tenant n.
    pub limits: Vec<Limits>,
    /// How many jobs each partition's queue has room for, 1 to 1024.
    pub queue: u32,
    /// After how many events of seats a partition is collected, 1 to 65536.
    pub every: u32,
    /// After how many events of a journal its partition's worker cuts it, up to 1048576; 0 never.
    pub epoch: u32,
    pub ghost parts_in_range: { IsParts parts },
    pub ghost some_tenants: { 0 < vec_len limits },
    pub ghost few_tenants: { vec_len limits ≤ max_tenants },
    pub ghost some_room: { 0 < queue },
    pub ghost little_room: { queue ≤ 1024 },
    pub ghost some_events: { 0 < every },
    pub ghost few_events: { every ≤ 65536 },
    pub ghost few_in_an_epoch: { epoch ≤ 1048576 },
}
