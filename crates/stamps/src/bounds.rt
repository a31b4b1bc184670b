//! The bounded numbers of the store's configuration.
ghost use Rattle.std.specs.Prelude.{◌≡◌, ◌↔◌, IsSome, IfSome};
ghost use Rattle.stamps.specs.Bounds.{IsClient, IsCounter, IsKeep, IsRoom, IsClients};

use crate::{Stamp, limits};
use std::fmt;
use std::marker::Model;

/// The number of a client, 1 to 65535. A contract sees it as that number.
#[derive(Clone, Copy, Debug, PartialEq, Eq, PartialOrd, Ord)]
pub struct Client {
    number: u16,
}

impl Model for Client {
    ghost use Rattle.std.specs.Prelude.{ℕ};

    ghost Value = { ℕ };

    ghost use Rattle.stamps.specs.Bounds.{IsClient};

    ghost view = { λ c. c.number };

    ghost invariant = { λ c. IsClient c.number };

    ghost inverse = { λ n. record { number = n } };
}

impl Client {
    /// The client of this number. `None` where it is 0.
    pub fn new(number: u16) -> Option<Client>
        ensures exact { IsSome result ↔ IsClient number }
        ensures value { IfSome result (λ client. client ≡ number) }
    {
        if number == 0 {
            return None;
        }
        Some(Client { number })
    }

    /// The number, 1 to 65535.
    pub fn get(self) -> u16
        ensures value { result ≡ self }
        ensures valid { IsClient result }
    {
        self.number
    }
}

impl fmt::Display for Client {
    ghost use Rattle.std.specs.Prelude.{Some, decimal};

    ghost output = { λ c. Some (decimal c) };

    fn fmt<W: fmt::Write>(&self, f: &mut fmt::Formatter<W>) -> fmt::Result {
        fmt::Display::fmt(&self.get(), f)
    }
}

/// A base for a session's counter, 0 to 2^40 - 1. A contract sees it as that number.
#[derive(Clone, Copy, Debug, PartialEq, Eq, PartialOrd, Ord)]
pub struct Counter {
    number: u64,
}

impl Model for Counter {
    ghost use Rattle.std.specs.Prelude.{ℕ};

    ghost Value = { ℕ };

    ghost use Rattle.stamps.specs.Bounds.{IsCounter};

    ghost view = { λ c. c.number };

    ghost invariant = { λ c. IsCounter c.number };

    ghost inverse = { λ n. record { number = n } };
}

impl Counter {
    /// The base of this number. `None` where it is above `Stamp::MAX_COUNTER`.
    pub fn new(number: u64) -> Option<Counter>
        ensures exact { IsSome result ↔ IsCounter number }
        ensures value { IfSome result (λ counter. counter ≡ number) }
    {
        if number > Stamp::MAX_COUNTER {
            return None;
        }
        Some(Counter { number })
    }

    /// The number, 0 to 2^40 - 1.
    pub fn get(self) -> u64
        ensures value { result ≡ self }
        ensures valid { IsCounter result }
    {
        self.number
    }
}

/// How many committed versions of an item a collection keeps, 1 to 255. A contract sees it as that number.
#[derive(Clone, Copy, Debug, PartialEq, Eq, PartialOrd, Ord)]
pub struct Keep {
    number: u8,
}

impl Model for Keep {
    ghost use Rattle.std.specs.Prelude.{ℕ};

    ghost Value = { ℕ };

    ghost use Rattle.stamps.specs.Bounds.{IsKeep};

    ghost view = { λ k. k.number };

    ghost invariant = { λ k. IsKeep k.number };

    ghost inverse = { λ n. record { number = n } };
}

impl Keep {
    /// This number of versions. `None` where it is 0.
    pub fn new(number: u8) -> Option<Keep>
        ensures exact { IsSome result ↔ IsKeep number }
        ensures value { IfSome result (λ keep. keep ≡ number) }
    {
        if number == 0 {
            return None;
        }
        Some(Keep { number })
    }

    /// The number, 1 to 255.
    pub fn get(self) -> u8
        ensures value { result ≡ self }
        ensures valid { IsKeep result }
    {
        self.number
    }
}

/// What one tenant may have at each partition, and how many clients.
#[derive(Clone, Copy, Debug, PartialEq, Eq)]
pub struct Limits {
    /// How many versions it keeps at a partition, 1 to 65536.
    pub slots: u32,
    /// How many items have an entry there, 1 to 65536.
    pub items: u32,
    /// How many committed versions of an item a collection keeps.
    pub keep: Keep,
    /// How many clients it has, 1 to 1024.
    pub clients: u32,
    pub ghost slots_in_range: { IsRoom slots },
    pub ghost items_in_range: { IsRoom items },
    pub ghost keep_in_range: { IsKeep keep },
    pub ghost clients_in_range: { IsClients clients },
}

impl Limits {
    /// The most slots, and the most items, of a tenant at a partition.
    pub const MAX_ROOM: u32 = limits::MAX_ROOM;

    /// The most clients of a tenant.
    pub const MAX_CLIENTS: u32 = limits::MAX_CLIENTS;

    /// These limits. `None` where `slots`, `items` or `clients` is not in its range.
    pub fn new(slots: u32, items: u32, keep: Keep, clients: u32) -> Option<Limits>
        ensures exact { IsSome result ↔ (IsRoom slots × IsRoom items × IsClients clients) }
        ensures slots { IfSome result (λ limits. limits.slots ≡ slots) }
        ensures items { IfSome result (λ limits. limits.items ≡ items) }
        ensures keep { IfSome result (λ limits. limits.keep ≡ keep) }
        ensures clients { IfSome result (λ limits. limits.clients ≡ clients) }
    {
        let rooms = 1..=Limits::MAX_ROOM;
        if !rooms.contains(&slots) || !rooms.contains(&items) {
            return None;
        }
        if clients == 0 || clients > Limits::MAX_CLIENTS {
            return None;
        }
        let _keep = keep.get();
        Some(Limits {
            slots,
            items,
            keep,
            clients,
        })
    }
}
