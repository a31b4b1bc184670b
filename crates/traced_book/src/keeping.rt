//! What a partition keeps of the calls that it served.
ghost use Rattle.std.specs.Prelude.{◌≡◌, ◌⊎◌, ◌<◌, ◌↔◌, None, Some, false, true, slice_get, length, IfOk, IfErr, IfSome, OnErr, IsErrOf};
ghost use Rattle.partition.specs.Accounts.{Account, events_at, IsCut, IsPastAt};
ghost use Rattle.partition.specs.Used.{IsUsageOf};
ghost use Rattle.traced_book.specs.Kept.{accounts_in, has_journals};

use crate::bare_shelf::BareShelf;
use partition::{Book, Epoch, Usage};
use plain_store::Refusal;

/// The cells of a partition, with journals of what they served, or without. Contracts see the tenants' accounts.
#[derive(Drop)]
pub(crate) enum Keeping {
    Journals(Book),
    CellsAlone(BareShelf),
}

impl Keeping {
    /// Whether journals are kept.
    pub fn has_journals(&self) -> bool
        ensures { result ≡ has_journals self.now }
    {
        matches!(self, Keeping::Journals(_))
    }

    /// The number of tenants.
    pub fn tenants(&self) -> u32
        ensures { result ≡ length (accounts_in self.now) }
    {
        match self {
            Keeping::Journals(book) => book.tenants(),
            Keeping::CellsAlone(shelf) => shelf.tenants(),
        }
    }

    /// How many events a tenant's epoch has: none where no journal is kept.
    pub fn events(&self, tenant: u32) -> u64
        requires { tenant < length (accounts_in self.now) }
        ensures { result ≡ length (events_at (accounts_in self.now) tenant) }
    {
        match self {
            Keeping::Journals(book) => book.events(tenant),
            Keeping::CellsAlone(shelf) => shelf.events(tenant),
        }
    }

    /// How much a tenant uses now. It visits none of what the tenant's cell holds.
    pub fn usage(&self, tenant: u32) -> Usage
        requires { tenant < length (accounts_in self.now) }
        ensures { (account : Account) → slice_get (accounts_in self.now) tenant ≡ Some account
            → IsUsageOf account result }
    {
        match self {
            Keeping::Journals(book) => book.usage(tenant),
            Keeping::CellsAlone(shelf) => shelf.usage(tenant),
        }
    }

    /// The book, where journals are kept.
    pub fn into_book(self) -> Option<Book>
        ensures book { IfSome result (λ book. book ≡ accounts_in self) }
        ensures none { result ≡ None → has_journals self ≡ false }
    {
        match self {
            Keeping::Journals(book) => Some(book),
            Keeping::CellsAlone(_) => None,
        }
    }

    /// Hands out what a tenant's journal has, as `Book::cut` reports; 10 where there is none.
    pub fn cut(&mut self, tenant: u32) -> Result<Epoch, Refusal>
        requires { tenant < length (accounts_in self.old) }

        ensures cut { IfOk result
            (λ epoch. IsCut (accounts_in self.old) (accounts_in self.new) tenant epoch) }
        ensures journals { has_journals self.new ≡ has_journals self.old }
        ensures past { has_journals self.old ≡ true
            → (IsErrOf result Refusal.RowsUsed ↔ IsPastAt (accounts_in self.old) tenant) }
        ensures none { has_journals self.old ≡ false → IsErrOf result Refusal.NoTenant }
        ensures refusals { IfErr result (λ e. (e ≡ Refusal.RowsUsed)
            ⊎ ((e ≡ Refusal.OutOfMemory)
            ⊎ ((e ≡ Refusal.NoTenant) × (has_journals self.old ≡ false)))) }
        ensures unchanged { OnErr result (self.new ≡ self.old) }
    {
        match self {
            Keeping::Journals(book) => book.cut(tenant),
            Keeping::CellsAlone(_) => Err(Refusal::NoTenant),
        }
    }
}
