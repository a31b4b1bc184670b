//! The clients of all tenants: who has a session, and the words of those that have none.
ghost use Rattle.std.specs.Prelude.{◌≡◌, ◌↔◌, Ok, Some, IfErr, IfOk, IfSome, OnErr, OnOk, is_some, true};
ghost use Rattle.std.specs.Option.{option_map};
ghost use Rattle.history.specs.Rules.{is_opening};
ghost use Rattle.plain_store.specs.declared.refusal.Refusal.TheVariants.{Busy as IsTaken};
ghost use Rattle.traced_client.specs.Clients.{ClientTrace, HasRow, LiesThere, is_of_word};
ghost use Rattle.hub.specs.Registered.{HasNoClients, HasRoomFor, IsDeparture, KeepsOf, SetsFree, after_session, check_of, known_of, opened_row};

use crate::register::{Admission, KnownClient, Register};
use history::{Front, Naming, Tally};
use plain_store::Refusal;
use shard::SeatName;
use stamps::{Client, Counter};
use std::alloc::{AllocError, Global};
use traced_client::{ClientWords, TracedClient};

/// By what a client that asked for a session got one or none: what was kept of it, how many clients its tenant had, and how many seats there
/// were, behind the hub's lock at that moment. `Clients::check` alone makes one.
#[derive(Clone, Copy)]
pub struct AdmissionCheck {
    tenant: u32,
    client: Client,
    known: Option<KnownClient>,
    clients: usize,
    seats: u64,
    /// Whether its word was found to be with another seat.
    is_taken: bool,
}

/// That a session of a client ended, which had this turn, with its counter and its last ticket, and whether the client's word came back
/// with it. `Clients::leave` alone makes one.
#[derive(Clone, Copy)]
pub struct Departure {
    tenant: u32,
    client: Client,
    turn: u64,
    counter: Counter,
    ticket: u64,
    has_word: bool,
}

/// Stands behind one lock. A session begins by `offer` of the register and then `admit`, and ends by `leave`.
#[derive(Drop)]
pub(crate) struct Clients<G: Naming> {
    pub(crate) register: Register,
    pub(crate) words: ClientWords<G>,
}

impl<G: Naming> Clients<G> {
    /// Those of a store of so many tenants, none of whose clients had a session yet, with the word that counts them. The one error is that
    /// an allocation failed.
    pub(crate) fn of(
        alloc: Global,
        tenants: usize,
        word: Tally<G>,
        seen: &Front<G>,
    ) -> Result<Clients<G>, AllocError>
        requires word { word.key ≡ 0 }
        requires opening { is_opening seen.now ≡ true }
        ensures { IfOk result (λ its. HasNoClients tenants its.register) }
    {
        Ok(Clients {
            register: Register::new(alloc, tenants)?,
            words: ClientWords::new(alloc, word, seen),
        })
    }

    /// What is there as a client asks for a session.
    pub(crate) fn check(&self, tenant: u32, client: Client) -> AdmissionCheck
        ensures { result ≡ check_of self.now.register tenant client }
    {
        AdmissionCheck {
            tenant,
            client,
            known: self.register.known(tenant, client),
            clients: self.register.clients(tenant),
            seats: self.register.seats,
            is_taken: false,
        }
    }

    /// Begins the session that was offered, for which there is room, and returns the client's word.
    ///
    /// It fails where the word is taken (12), which the check has from then on, where the history has other clients than were seen, or
    /// 2^62 (26), and where an allocation failed (30). Then the register is as it was. A word that came back is returned again.
    pub(crate) fn admit(
        &mut self,
        tenant: u32,
        client: Client,
        admission: &Admission,
        check: &mut AdmissionCheck,
    ) -> Result<TracedClient<G>, Refusal>
        requires room { HasRoomFor self.old.register tenant client }
        ensures whose { IfOk result (λ its. (its.tenant ≡ tenant) × (its.client ≡ client)) }
        ensures begun { OnOk result (KeepsOf tenant client (Some (opened_row admission.now))
            self.old.register self.new.register × (self.new.register.seats ≡ admission.now.seat)) }
        ensures lies { (its : ClientTrace) → LiesThere self.old.words.rows its
            → its.tenant ≡ tenant → its.client ≡ client → result ≡ Ok its }
        ensures refused { IfErr result (λ e. (is_of_word e ≡ true)
            × ((e ≡ IsTaken) ↔ HasRow self.old.words.rows tenant client)
            × ((e ≡ IsTaken) ↔ (check.new.is_taken ≡ true))) }
        ensures unchanged { OnErr result (self.new.register ≡ self.old.register)
            × (check.new ≡ record check.old { is_taken = check.new.is_taken }) }
    {
        match self.words.take(tenant, client) {
            Ok(word) => {
                self.register.admit(tenant, client, admission);
                Ok(word)
            }
            Err(refusal) => {
                check.is_taken = matches!(refusal, Refusal::Busy);
                Err(refusal)
            }
        }
    }

    /// Ends this session of a client, and takes its word back, if the seat still had it. From then on the client has no session, and its
    /// next one goes on at this counter or above it.
    pub(crate) fn leave(
        &mut self,
        name: &SeatName,
        counter: Counter,
        ticket: u64,
        word: Option<TracedClient<G>>,
    ) -> Departure
        ensures told { IsDeparture name.now counter ticket (is_some word) result }
        ensures row { KeepsOf name.now.tenant name.now.client
            (option_map (after_session name.now.turn counter ticket)
            (known_of self.old.register name.now.tenant name.now.client))
            self.old.register self.new.register }
        ensures free { SetsFree name.now.turn counter
            (known_of self.old.register name.now.tenant name.now.client)
            (known_of self.new.register name.now.tenant name.now.client) }
        ensures word { IfSome word (λ its. HasRow self.old.words.rows its.tenant its.client
            → LiesThere self.new.words.rows its) }
    {
        let has_word = word.is_some();
        take_back(&mut self.words, word);
        self.register
            .leave(name.tenant, name.client, name.turn, counter, ticket);
        Departure {
            tenant: name.tenant,
            client: name.client,
            turn: name.turn,
            counter,
            ticket,
            has_word,
        }
    }
}

/// Takes a client's word back, if there is one.
fn take_back<G: Naming>(words: &mut ClientWords<G>, word: Option<TracedClient<G>>)
    ensures { IfSome word (λ its. HasRow words.old.rows its.tenant its.client
        → LiesThere words.new.rows its) }
{
    if let Some(its) = word {
        words.give_back(its);
    }
}
