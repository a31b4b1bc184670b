//! The words of all clients that came.
ghost use Rattle.std.specs.Prelude.{◌≡◌, ◌≢◌, ◌↔◌, None, Ok, nat_eq, true, IfOk, IfErr};
ghost use Rattle.indexmap.specs.IndexMap.{IsEmpty, get};
ghost use Rattle.history.specs.Entries.{count};
ghost use Rattle.history.specs.Rules.{is_opening};
ghost use Rattle.plain_store.specs.declared.refusal.Refusal.TheVariants.{Busy as IsTaken};
ghost use Rattle.traced_client.specs.Clients.{ClientTrace, HasRow, HaveRows, LiesThere, is_of_word, row_of};

use crate::client_word::TracedClient;
use history::{Front, Naming, Tally};
use indexmap::IndexMap;
use plain_store::Refusal;
use stamps::Client;
use std::alloc::Global;

/// The most clients that may come.
const MOST: u64 = 1 << 62;

/// The words of all tenants' clients, of which each came once. A client's word lies here while nobody has taken it.
#[derive(Drop)]
pub struct ClientWords<J: Naming> {
    register: Tally<J>,
    joined: u64,
    seen: Front<J>,
    /// By the tenant's and the client's number. None where the word is taken.
    rows: IndexMap<u64, Option<TracedClient<J>>>,
    ghost register_is: { register.key ≡ 0 },
    ghost counted: { count 0 seen ≡ joined },
    ghost have_rows: { HaveRows seen rows },
}

impl<J: Naming> ClientWords<J> {
    /// Those of a store to which no client has come, with the word that counts them, and its opening.
    pub fn new(alloc: Global, register: Tally<J>, opening: &Front<J>) -> ClientWords<J>
        requires register { register.key ≡ 0 }
        requires opening { is_opening opening.now ≡ true }
        ensures { IsEmpty result.rows }
    {
        ClientWords {
            register,
            joined: 0,
            seen: opening.again(),
            rows: IndexMap::new(alloc),
        }
    }

    /// The word of this client, which comes for the first time if it has none yet. Nobody has it then but the caller, until
    /// `give_back`.
    ///
    /// It fails where the word is taken (12), where the history has other clients than were seen here, or 2^62 (26), and where an
    /// allocation failed (30). Then nothing has changed.
    pub fn take(&mut self, tenant: u32, client: Client) -> Result<TracedClient<J>, Refusal>
        ensures whose { IfOk result (λ its. (its.tenant ≡ tenant) × (its.client ≡ client)) }
        ensures lies { (its : ClientTrace) → LiesThere self.old.rows its → its.tenant ≡ tenant
            → its.client ≡ client → result ≡ Ok its }
        ensures refusals { IfErr result (λ refusal. is_of_word refusal ≡ true) }
        ensures taken { IfErr result (λ refusal. (refusal ≡ IsTaken)
            ↔ HasRow self.old.rows tenant client) }
    {
        let row = row_number(tenant, client);
        if !self.rows.contains_key(&row) {
            return self.join(row, tenant, client);
        }
        let Ok(Some(Some(its))) = self.rows.insert(row, None) else {
            return Err(Refusal::Busy);
        };
        if !its.is_of(tenant, client) {
            return Err(Refusal::Busy);
        }
        Ok(its)
    }

    /// The word of a client that has no row yet.
    fn join(&mut self, row: u64, tenant: u32, client: Client) -> Result<TracedClient<J>, Refusal>
        requires row { row ≡ row_of tenant client }
        requires new { get nat_eq self.old.rows row ≡ None }
        ensures whose { IfOk result (λ its. (its.tenant ≡ tenant) × (its.client ≡ client)) }
        ensures refusals { IfErr result (λ refusal. is_of_word refusal ≡ true) }
        ensures free { IfErr result (λ refusal. refusal ≢ IsTaken) }
    {
        if self.joined >= MOST {
            return Err(Refusal::RowsUsed);
        }
        if self.rows.reserve(1).is_err() {
            return Err(Refusal::OutOfMemory);
        }
        let mut seen = self.seen.again();
        let Some(tally) = seen.join(&self.register, self.joined, tenant, client) else {
            return Err(Refusal::RowsUsed);
        };
        if self.rows.insert(row, None).is_err() {
            return Err(Refusal::OutOfMemory);
        }
        self.seen = seen.again();
        self.joined += 1;
        Ok(TracedClient::new(tenant, client, tally, seen))
    }

    /// Takes back a client's word. It lies there from now on if the client has come.
    pub fn give_back(&mut self, its: TracedClient<J>)
        ensures { HasRow self.old.rows its.tenant its.client → LiesThere self.new.rows its }
    {
        let row = row_number(its.tenant, its.client);
        let _ = self.rows.insert(row, Some(its));
    }
}

/// A number for each client of each tenant, under which its word is kept.
fn row_number(tenant: u32, client: Client) -> u64
    ensures { result ≡ row_of tenant client }
{
    u64::from(tenant) * 65536 + u64::from(client.get())
}
