//! The clients of all tenants: who has a session, and what is kept of it.
ghost use Rattle.std.specs.Prelude.{◌≡◌, ◌<◌, ◌^◌, IfOk, IfErr, OnOk, IsSomeAnd, Some, None, Err, slice_get};
ghost use Rattle.indexmap.specs.IndexMap.{spare};
ghost use Rattle.std.specs.Option.{option_map};
ghost use Rattle.plain_store.specs.declared.refusal.Refusal.{Refusal as Why};
ghost use Rattle.hub.specs.Registered.{known_of, clients_of, tickets_of, admission_test, next_session, after_session, HasNoClients, HasRoomFor, KeepsClients, KeepsOf, opened_row};

use indexmap::IndexMap;
use plain_store::Refusal;
use stamps::{Client, Counter, Limits};
use std::alloc::{AllocError, Global};

/// The last number of a seat, and the last ticket of a client that may have another.
const LAST: u64 = 1 << 62;

/// What is kept of a client that had a session.
#[derive(Clone, Copy)]
pub(crate) struct KnownClient {
    is_open: bool,
    counter: Counter,
    /// How many transactions it began.
    ticket: u64,
    /// How many sessions it had.
    turn: u64,
}

impl KnownClient {
    /// Ends its session of this turn. A later one goes on.
    fn leave(&mut self, turn: u64, counter: Counter, ticket: u64)
        ensures { self.new ≡ after_session turn counter ticket self.old }
    {
        if self.turn == turn {
            self.is_open = false;
            self.counter = self.counter.max(counter);
            self.ticket = ticket;
        }
    }
}

/// Stands behind one lock.
#[derive(Drop)]
pub struct Register {
    /// The rows of each tenant's clients, by their numbers.
    tenants: Vec<IndexMap<u16, KnownClient>>,
    /// How many sessions began.
    pub(crate) seats: u64,
}

/// The next session of a client.
#[derive(Clone, Copy)]
pub struct Admission {
    pub seat: u64,
    pub turn: u64,
    pub counter: Counter,
    pub ticket: u64,
}

/// How many transactions a client of which this is kept began.
fn tickets(known: &Option<KnownClient>) -> u64
    ensures { result ≡ tickets_of known.now }
{
    match known {
        Some(row) => row.ticket,
        None => 0,
    }
}

impl Register {
    /// A register of no client, for so many tenants.
    pub fn new(alloc: Global, tenants: usize) -> Result<Register, AllocError>
        ensures { IfOk result (HasNoClients tenants) }
    {
        let mut rows = Vec::with_capacity(alloc, tenants)?;
        for _tenant in 0..tenants {
            rows.push(IndexMap::new(alloc))?;
        }
        Ok(Register {
            tenants: rows,
            seats: 0,
        })
    }

    /// The next session of a client, with room for its row. It does not begin yet.
    ///
    /// It fails where the client has a session (12), where it is new and there are as many as the tenant may have (24), where
    /// the numbers of seats or its tickets are used up (26), and where the room was refused (30).
    pub fn offer(
        &mut self,
        tenant: u32,
        client: Client,
        base: Counter,
        limits: &Limits,
    ) -> Result<Admission, Refusal>
        ensures keeps { KeepsClients self.old self.new }
        ensures next { IfOk result (λ admission. HasRoomFor self.new tenant client × (admission
            ≡ next_session self.old.seats (known_of self.old tenant client) base)) }
        // It is refused exactly by the first of the tests that it does not pass, or else for an allocation failure.
        ensures refused { (refusal : Why) → admission_test self.old.seats
            (clients_of self.old tenant) (known_of self.old tenant client) limits.now.clients
            ≡ Some refusal → result ≡ Err refusal }
        ensures passed { admission_test self.old.seats
            (clients_of self.old tenant) (known_of self.old tenant client) limits.now.clients
            ≡ None → IfErr result (λ e. e ≡ Refusal.OutOfMemory) }
    {
        let known = self.known(tenant, client);
        if let Some(refusal) = self.refuses(tenant, &known, limits) {
            return Err(refusal);
        }
        let admission = self.next(&known, base);
        match self.make_room(tenant) {
            Ok(()) => Ok(admission),
            Err(_) => Err(Refusal::OutOfMemory),
        }
    }

    /// What is kept of a client, if it had a session.
    pub(crate) fn known(&self, tenant: u32, client: Client) -> Option<KnownClient>
        ensures { result ≡ known_of self.now tenant client }
    {
        let rows = self.tenants.get(tenant as usize)?;
        rows.get(&client.get()).copied()
    }

    /// Why a client of which this is kept may have no session, if it may not.
    fn refuses(&self, tenant: u32, known: &Option<KnownClient>, limits: &Limits) -> Option<Refusal>
        ensures { result ≡ admission_test self.now.seats
            (clients_of self.now tenant) known.now limits.now.clients }
    {
        match known {
            Some(row) if row.is_open => return Some(Refusal::Busy),
            Some(_) => {}
            None => {
                if self.clients(tenant) >= limits.clients as usize {
                    return Some(Refusal::ClientsFull);
                }
            }
        }
        if self.seats >= LAST || tickets(known) > LAST {
            return Some(Refusal::RowsUsed);
        }
        None
    }

    /// How many clients of a tenant had a session.
    pub fn clients(&self, tenant: u32) -> usize
        ensures { result ≡ clients_of self.now tenant }
    {
        match self.tenants.get(tenant as usize) {
            Some(rows) => rows.len(),
            None => 0,
        }
    }

    /// The next session of a client of which this is kept.
    fn next(&self, known: &Option<KnownClient>, base: Counter) -> Admission
        requires { self.now.seats < 2 ^ 62 }
        ensures { result ≡ next_session self.now.seats known.now base }
    {
        let seat = self.seats + 1;
        match known {
            Some(row) => Admission {
                seat,
                turn: row.turn.saturating_add(1),
                counter: row.counter.max(base),
                ticket: row.ticket,
            },
            None => Admission {
                seat,
                turn: 1,
                counter: base,
                ticket: 0,
            },
        }
    }

    /// Makes room for one client more of a tenant.
    fn make_room(&mut self, tenant: u32) -> Result<(), AllocError>
        ensures keeps { KeepsClients self.old self.new }
        ensures room { OnOk result
            (IsSomeAnd (slice_get self.new.tenants.items tenant) (λ rows. 0 < spare rows)) }
    {
        let Some(rows) = self.tenants.get_mut(tenant as usize) else {
            return Err(AllocError);
        };
        match rows.reserve(1) {
            Ok(()) => Ok(()),
            Err(_) => Err(AllocError),
        }
    }

    /// Begins the session that was offered, for which there is room.
    pub fn admit(&mut self, tenant: u32, client: Client, admission: &Admission)
        requires room { HasRoomFor self.old tenant client }
        ensures known { KeepsOf tenant client (Some (opened_row admission.now)) self.old self.new }
        ensures seats { self.new.seats ≡ admission.now.seat }
    {
        if let Some(rows) = self.tenants.get_mut(tenant as usize) {
            let row = KnownClient {
                is_open: true,
                counter: admission.counter,
                ticket: admission.ticket,
                turn: admission.turn,
            };
            let _ = rows.insert(client.get(), row);
            self.seats = admission.seat;
        }
    }

    /// Ends the session of a client that had this turn, with its counter and its last ticket. A later one of that client goes on.
    pub fn leave(&mut self, tenant: u32, client: Client, turn: u64, counter: Counter, ticket: u64)
        ensures known { KeepsOf tenant client
            (option_map (after_session turn counter ticket) (known_of self.old tenant client))
            self.old self.new }
        ensures seats { self.new.seats ≡ self.old.seats }
    {
        if let Some(rows) = self.tenants.get_mut(tenant as usize)
            && let Some(row) = rows.get_mut(&client.get())
        {
            row.leave(turn, counter, ticket);
        }
    }
}
