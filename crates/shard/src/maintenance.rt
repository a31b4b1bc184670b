//! What is done at a partition between its calls: each tenant is collected, and each journal that is long enough is cut. What says
//! how far that has come is made where its steps are, so that what is answered here was done.
ghost use Rattle.std.specs.Prelude.{◌≡◌, ◌<◌, true};

use crate::epoch_cut::{Search, hand_over};
use crate::round::Round;
use crate::shard::Shard;
use crate::sink::Sink;
use history::Naming;
use std::sync::Wait;

/// Collects for each tenant in turn, one lock for each: it keeps as many versions as are set when its turn comes.
pub fn collect_at<J: Naming, R: Wait>(rt: &R, shard: &Shard<J>) -> Round
    ensures each { result.next ≡ shard.now.config.tenants }
{
    let mut round = Round::new();
    for tenant in 0..shard.config.tenants {
        let its = shard.collector.keep_of(rt, tenant);
        let mut guard = shard.lock_soon(rt);
        let state = &mut *guard;
        let _ = round.collect_next(state, &shard.config, &shard.collector, &its);
    }
    round
}

/// Cuts each journal that has so many events, and hands its epoch to the sink once the lock is released. What could not be cut
/// is tried again after the next task.
pub fn cut_all<J: Naming, S: Sink<J>, R: Wait>(rt: &R, shard: &Shard<J>, sink: &S) -> Search
    requires { 0 < shard.now.config.epoch }
    ensures over { result.is_over ≡ true }
{
    let mut search = Search::new();
    for _ in rt.forever() {
        let found = search.cut_next(&mut *shard.lock(rt), shard.config.epoch);
        match found {
            Some(cut) => hand_over(sink, cut),
            None => return search,
        }
    }
    unreachable!()
}
