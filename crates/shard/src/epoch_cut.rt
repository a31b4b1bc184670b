//! Epochs that a worker cuts.
ghost use Rattle.std.specs.Prelude.{◌≡◌, ◌<◌, ◌≤◌, ◌+◌, ◌-◌, ◌*◌, false, true, length, IfOk, IfSome, IfNone, IsErrOf, OnErr};
ghost use Rattle.partition.specs.Accounts.{events_at};
ghost use Rattle.traced_book.specs.Traced.{IsLatestEpoch};
ghost use Rattle.shard.specs.Journals.{WasCut};
ghost use Rattle.shard.specs.Cutting.{GoesOn, IsCutOff, IsOver};
ghost use Rattle.shard.specs.Held.{StaysAt};

use crate::shard::{ShardState, is_full};
use crate::sink::Sink;
use history::{Front, Naming};
use partition::Epoch;

/// An epoch that was cut, with its journal's partition and tenant. It cannot be dropped: `hand_over` alone takes it.
pub struct CutEpoch<J: Naming> {
    partition: u32,
    tenant: u32,
    epoch: Epoch,
    /// What was seen of the history: it has the epoch's events.
    seen: Front<J>,
    ghost was_cut: { WasCut partition tenant epoch },
    ghost some: { 0 < length epoch.events.items },
    ghost latest: { ∥ IsLatestEpoch seen partition tenant epoch ∥₁ },
}

/// Why a journal was not cut.
#[derive(Clone, Copy)]
pub enum Uncut {
    /// It has too few events.
    Short,
    /// Memory was refused, or the numbers of its epochs or places are used up.
    Refused,
}

/// A search for journals to be cut, at one partition. `cut_next` alone takes it further.
#[derive(Drop)]
pub struct Search {
    /// The tenant from which on it goes on.
    from: u32,
    /// No journal from there on is to be cut.
    is_over: bool,
    /// How many journals that are long enough could not be cut, of those that the last step passed over.
    refused: u32,
}

/// Cuts a tenant's journal, and answers its epoch, where it has at least so many events and can be cut now. It stays as it is
/// where not.
fn cut_long<J: Naming>(
    state: &mut ShardState<J>,
    tenant: u32,
    least: u32,
) -> Result<CutEpoch<J>, Uncut>
    requires tenant { tenant < length state.old.book.accounts }
    requires some { 0 < least }
    ensures cut { IfOk result
        (λ cut. IsCutOff state.old.book.accounts state.new.book.accounts state.old.partition tenant
        least cut.partition cut.tenant cut.epoch) }
    ensures short { IsErrOf result Uncut.Short
        → length (events_at state.old.book.accounts tenant) < least }
    ensures refused { IsErrOf result Uncut.Refused
        → least ≤ length (events_at state.old.book.accounts tenant) }
    ensures unchanged { OnErr result (state.new.book.accounts ≡ state.old.book.accounts) }
    ensures stays { StaysAt state.old state.new }
{
    if state.book.events(tenant) < least as u64 {
        return Err(Uncut::Short);
    }
    match state.book.cut(tenant) {
        Ok(epoch) => Ok(CutEpoch {
            partition: state.partition,
            tenant,
            epoch,
            seen: state.book.seen(),
        }),
        Err(_) => Err(Uncut::Refused),
    }
}

/// Cuts a tenant's journal, and answers its epoch, where it is full and can be cut now. It stays as it is where not.
pub fn cut_full<J: Naming>(
    state: &mut ShardState<J>,
    tenant: u32,
    epoch: u32,
) -> Result<CutEpoch<J>, Uncut>
    ensures cut { IfOk result
        (λ cut. (0 < epoch)
        × IsCutOff state.old.book.accounts state.new.book.accounts state.old.partition tenant
        (2 * epoch) cut.partition cut.tenant cut.epoch) }
    ensures short { IsErrOf result Uncut.Short → 0 < epoch
        → length (events_at state.old.book.accounts tenant) < 2 * epoch }
    ensures refused { IsErrOf result Uncut.Refused
        → (0 < epoch) × (2 * epoch ≤ length (events_at state.old.book.accounts tenant)) }
    ensures unchanged { OnErr result (state.new.book.accounts ≡ state.old.book.accounts) }
    ensures stays { StaysAt state.old state.new }
{
    if is_full(&state.book, epoch, tenant) {
        cut_long(state, tenant, epoch)
    } else {
        Err(Uncut::Short)
    }
}

impl Search {
    /// One from the first tenant on.
    pub(crate) fn new() -> Search
        ensures { (result.from ≡ 0) × (result.is_over ≡ false) × (result.refused ≡ 0) }
    {
        Search {
            from: 0,
            is_over: false,
            refused: 0,
        }
    }

    /// Cuts the first journal, from where the search stands, that has at least so many events and can be cut now, and answers its
    /// epoch. The search goes on behind it, or is over.
    #[tactic(auto, using(crate::proofs::LongAmong::long_short, crate::proofs::LongAmong::long_refused))]
    pub(crate) fn cut_next<J: Naming>(
        &mut self,
        state: &mut ShardState<J>,
        least: u32,
    ) -> Option<CutEpoch<J>>
        requires { 0 < least }
        ensures cut { IfSome result
            (λ cut. IsCutOff state.old.book.accounts state.new.book.accounts state.old.partition
            cut.tenant least cut.partition cut.tenant cut.epoch) }
        ensures going { IfSome result
            (λ cut. GoesOn least state.old.book.accounts cut.tenant self.old self.new) }
        ensures over { IfNone result (IsOver least state.old.book.accounts self.old self.new) }
        ensures unchanged { IfNone result (state.new.book.accounts ≡ state.old.book.accounts) }
        ensures stays { StaysAt state.old state.new }
    {
        let mut refused = 0;
        for tenant in self.from..state.book.tenants() {
            match cut_long(state, tenant, least) {
                Ok(cut) => {
                    self.from = tenant + 1;
                    self.refused = refused;
                    return Some(cut);
                }
                Err(Uncut::Short) => {}
                Err(Uncut::Refused) => refused += 1,
            }
        }
        self.is_over = true;
        self.refused = refused;
        None
    }
}

/// Hands an epoch that was cut to the sink.
pub fn hand_over<J: Naming, S: Sink<J>>(sink: &S, cut: CutEpoch<J>)
    ensures { S.has_taken sink.now cut.partition cut.tenant cut.epoch }
{
    let CutEpoch {
        partition,
        tenant,
        epoch,
        seen,
    } = cut;
    sink.epoch(partition, tenant, epoch, &seen);
}
