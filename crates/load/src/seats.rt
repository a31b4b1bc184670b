//! The seats of a load, each of which does its rounds in a thread of its own.
ghost use Rattle.std.specs.Prelude.{◌≡◌, ◌≤◌, ◌<◌, ◌++◌, ◌∷◌, [], All, IfOk, IfErr, IfSome, false, map, true};
ghost use Rattle.std.specs.List.{filter_map};
ghost use Rattle.stamps.specs.Limits.{max_tenants, max_seats};
ghost use Rattle.line_runs.specs.declared.fault.ProgramFault.TheVariants.{Device, OutOfMemory as NoMemory};
ghost use Rattle.closed_store.specs.declared.transcript.Transcript.{Transcript as Left};
ghost use Rattle.hub.specs.Seats.{IsNamed, is_unrecorded};
ghost use Rattle.hub.specs.Operations.{IsOperation};
ghost use Rattle.server_sessions.specs.Histories.{IsGivenIn};
ghost use Rattle.server_sessions.specs.Ports.{transcripts_of};
ghost use Rattle.load.specs.Stores.{DoneOrRefused};
ghost use Rattle.load.specs.Rounds.{AreOfSeats, IsGivenBack, IsOfSeat, act_in, act_of_round, acts_drawn, seats_of};

use crate::mix::{DrawnRound, Draws, RoundKind, four_keys, items_of, tag_of};
use hub::{Departure, Named, Naming};
use line_runs::ProgramFault;
use plain_store::{Answer, Refusal};
use server_sessions::{KeptTranscripts, Open, OpenHub, OpenSeat, SessionLeft};
use stamps::{Client, Counter};
use std::alloc::Global;
use std::sync::Wait;
use std::thread;
use std::thread::{Promise, PromisedHandle, Threads};

/// How many keys a round has at most.
const MOST_KEYS: usize = 4;

/// What each seat of a load does.
#[derive(Clone, Copy)]
pub(crate) struct Orders {
    pub(crate) seed: u32,
    pub(crate) rounds: u32,
    pub(crate) keys: u32,
    pub ghost some_keys: { 0 < keys },
}

/// What the seat of a client left, of a store whose history J names: nothing where it, or a worker that served it, found no memory. And that
/// its session has ended at the hub.
type SeatEnd<J> = (Option<SessionLeft<Named<J, Open>>>, Departure);

/// The seat of a client of a load. Its thread promises its transcript, and what the seat has seen of the store's history, if there was memory
/// for that; and that its client's number was given back, if it was taken.
#[derive(Clone, Copy)]
struct LoadSeat {
    tenant: u32,
    number: u16,
    orders: Orders,
}

impl<J: Naming> Promise<Option<SeatEnd<J>>> for LoadSeat {
    ghost use Rattle.std.specs.Prelude.{IfSome};
    ghost use Rattle.server_sessions.specs.Histories.{IsGivenIn};
    ghost use Rattle.load.specs.Rounds.{IsGivenBack, IsOfSeat};

    ghost kept_by = { λ p r. IfSome r (λ its. IsGivenBack p.tenant p.number its.1 × IfSome its.0 (λ left. IsOfSeat p.orders.seed p.orders.rounds p.orders.keys p.tenant p.number left.0 × IsGivenIn left.1 left.0)) };
}

/// Has the seats of each tenant run, each in a thread of its own, and answers their transcripts, with what these seats have seen. When it returns,
/// these threads have ended. It is `Device` where a thread can't be started, once those that were begun by then have run to their
/// end, and `OutOfMemory` where a seat or a transcript found no memory.
pub(crate) fn run_seats<J: Naming + Send + Sync, H: Threads + Wait + Sync>(
    rt: &H,
    alloc: Global,
    hub: &OpenHub<J>,
    tenants: u32,
    seats: u16,
    orders: Orders,
) -> Result<KeptTranscripts<Named<J, Open>>, ProgramFault>
    requires tenants { tenants ≤ max_tenants }
    requires seats { seats ≤ max_seats }
    ensures { DoneOrRefused
        (λ kept. AreOfSeats orders.seed orders.rounds orders.keys (seats_of tenants seats)
        (transcripts_of kept)) result }
{
    thread::scope(
        thread::scope_env(),
        rt,
        |scope| -> Result<KeptTranscripts<Named<J, Open>>, ProgramFault>
            requires tenants { tenants ≤ max_tenants }
            requires seats { seats ≤ max_seats }
            ensures { DoneOrRefused
                (λ kept. AreOfSeats orders.seed orders.rounds orders.keys
                (seats_of tenants seats) (transcripts_of kept)) result }
        {
            let Ok(mut handles) = Vec::with_capacity(alloc, tenants as usize * usize::from(seats))
            else {
                return Err(ProgramFault::OutOfMemory);
            };
            for tenant in 0..tenants {
                for nth in 0..seats {
                    let seat = LoadSeat {
                        tenant,
                        number: nth + 1,
                        orders,
                    };
                    let started = scope.spawn_with(seat, move || run_seat(rt, hub, seat));
                    let Ok(handle) = started else {
                        let _ = join_seats(rt, alloc, handles, orders);
                        return Err(ProgramFault::Device);
                    };
                    handles.push_reserved(handle);
                }
            }
            join_seats(rt, alloc, handles, orders)
        },
    )
}

/// Waits until these seats have done their rounds, and answers their transcripts.
fn join_seats<J: Naming, H: Threads>(
    rt: &H,
    alloc: Global,
    handles: Vec<PromisedHandle<Option<SeatEnd<J>>, LoadSeat>>,
    orders: Orders,
) -> Result<KeptTranscripts<Named<J, Open>>, ProgramFault>
    requires { All (λ h. h.promise.orders ≡ orders) handles.items }
    ensures all { IfOk result
        (λ kept.
        AreOfSeats orders.seed orders.rounds orders.keys
        (map (λ h. (h.promise.tenant, h.promise.number)) handles.items) (transcripts_of kept)) }
    ensures refused { IfErr result (λ fault. fault ≡ NoMemory) }
{
    let mut kept = KeptTranscripts::new(Vec::new(alloc));
    let mut lacks_memory = false;
    for handle in handles {
        if !join_seat(rt, handle, &mut kept) {
            lacks_memory = true;
        }
    }
    if lacks_memory {
        return Err(ProgramFault::OutOfMemory);
    }
    Ok(kept)
}

/// Waits until a seat has done its rounds, and answers whether its transcript could be kept.
fn join_seat<J: Naming, H: Threads>(
    rt: &H,
    handle: PromisedHandle<Option<SeatEnd<J>>, LoadSeat>,
    kept: &mut KeptTranscripts<Named<J, Open>>,
) -> bool
    ensures kept { result ≡ true
        → (let promise = handle.promise in
        let orders = promise.orders in
        (t : Left)
        × IsOfSeat orders.seed orders.rounds orders.keys promise.tenant promise.number t
        × (transcripts_of kept.new ≡ transcripts_of kept.old ++ t ∷ [])) }
    ensures same { result ≡ false
        → transcripts_of kept.new ≡ transcripts_of kept.old }
{
    let Some((left, _departure)) = handle.join(rt) else {
        return false;
    };
    match left {
        Some(left) => kept.keep(left),
        None => false,
    }
}

/// Does the rounds of one client. It answers what its seat left, or nothing where it got no seat: where there was no memory, or the tenant
/// may not have so many clients.
fn run_seat<J: Naming, H: Wait>(rt: &H, hub: &OpenHub<J>, of: LoadSeat) -> Option<SeatEnd<J>>
    ensures { IfSome result (λ its. IsGivenBack of.tenant of.number its.1 × IfSome its.0
        (λ left. IsOfSeat of.orders.seed of.orders.rounds of.orders.keys of.tenant of.number left.0
        × IsGivenIn left.1 left.0)) }
{
    let client = Client::new(of.number)?;
    let base = Counter::new(0)?;
    match hub.seat(rt, of.tenant, client, base) {
        Ok(seat) => {
            let draws = Draws::new(of.orders.seed, of.tenant, of.number);
            Some(run_rounds(rt, seat, draws, of.orders))
        }
        Err(_) => None,
    }
}

/// Does so many rounds, and ends the seat, which gives its client's number back. Where a round is refused as no transcript has it, since memory
/// was refused to the seat or to a worker, it does no more of them, and leaves no transcript.
fn run_rounds<J: Naming, H: Wait>(
    rt: &H,
    seat: OpenSeat<'_, J>,
    draws: Draws,
    orders: Orders,
) -> SeatEnd<J>
    requires { seat.name.is_recorded ≡ true }
    ensures name { IsGivenBack seat.entry.name.tenant seat.entry.name.client result.1
        × IfSome result.0 (λ left. IsNamed left.0 seat.entry.name) }
    // Each reply that it was given has its place in what its seat has seen.
    ensures given { seat.entry.entries ≡ [] → IfSome result.0 (λ left. IsGivenIn left.1 left.0) }
    // What it began are just the acts that it drew, in their order.
    ensures began { seat.entry.entries ≡ []
        → IfSome result.0
        (λ left. filter_map act_in left.0.entries.items
        ≡ acts_drawn seat.entry.name.client orders.keys orders.rounds draws.state) }
{
    let mut seat = seat;
    let mut draws = draws;
    for done in 0..orders.rounds {
        let round = draws.round(orders.keys);
        let answer = run_round(rt, &mut seat, done + 1, &round, orders.keys);
        if is_left_out(&answer) {
            let (_transcript, departure) = seat.end_with_departure(rt);
            return (None, departure);
        }
    }
    let seen = seat.seen();
    let (transcript, departure) = seat.end_with_departure(rt);
    (Some((transcript, seen)), departure)
}

/// Whether no transcript has this answer, since memory or rows were refused.
fn is_left_out(answer: &Answer) -> bool
    ensures { result ≡ is_unrecorded answer.now }
{
    matches!(
        answer,
        Answer::Refused(
            Refusal::NoTenant
                | Refusal::Stopped
                | Refusal::Late
                | Refusal::RowsUsed
                | Refusal::OutOfMemory
        )
    )
}

/// Does a round, just as it was drawn.
fn run_round<J: Naming, H: Wait>(
    rt: &H,
    seat: &mut OpenSeat<'_, J>,
    nth: u32,
    round: &DrawnRound,
    keys: u32,
) -> Answer
    requires { 0 < keys }
    ensures operated { IsOperation
        (act_of_round seat.old.name.client keys nth round.now) seat.old result seat.new }
    ensures name { seat.new.name ≡ seat.old.name }
{
    let count = (round.count as usize).min(MOST_KEYS);
    let all = four_keys(round.first, keys);
    match round.kind {
        RoundKind::Put => seat.put_all(rt, &items_of(&all, nth)[..count]),
        RoundKind::Get => seat.get_all(rt, &all[..count]),
        RoundKind::Find => seat.find(rt, tag_of(round.searches_even)),
    }
}
