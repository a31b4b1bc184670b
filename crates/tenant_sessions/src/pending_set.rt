//! The places of calls that have no reply taken.
ghost use Rattle.std.specs.Prelude.{◌≡◌, ◌<◌, ◌≤◌, drop, length, min, slice_get, slice_set, take};
ghost use Rattle.stamps.specs.Limits.{max_parts};
ghost use Rattle.plain_store.specs.Finding.{below};

use lists::SmallList;
use stamps::limits;
use std::marker::Model;

const MOST_PLACES: usize = limits::MAX_PARTS as usize;

/// Places in a part's list of calls, up to `MAX_PARTS`. Replies mostly come in the order of the calls, so the first place is
/// taken out in one step: the list begins behind it from then on.
#[derive(Drop)]
pub(crate) struct PendingSet {
    places: SmallList<u8, { MOST_PLACES }>,
    /// How many at the front are taken out.
    from: usize,
}

impl Model for PendingSet {
    ghost use Rattle.std.specs.Prelude.{ℕ, List, ◌≤◌, drop, length};
    ghost use Rattle.stamps.specs.Limits.{max_parts};

    ghost Value = { List ℕ };

    ghost view = { λ p. drop p.from p.places };

    ghost invariant = { λ p. (p.from ≤ length p.places) × (length p.places ≤ max_parts) };
}

/// Makes of them the first so many places, up to `MAX_PARTS`.
fn fill(places: &mut SmallList<u8, { MOST_PLACES }>, count: usize)
    ensures { places.new ≡ below (min count max_parts) }
{
    places.clear();
    for place in 0..count.min(MOST_PLACES) {
        places.push(place as u8);
    }
}

impl PendingSet {
    ghost use Rattle.std.specs.Prelude.{[]};

    /// No places.
    pub(crate) fn none() -> PendingSet
        ensures { result ≡ [] }
    {
        PendingSet {
            places: SmallList::empty(0),
            from: 0,
        }
    }

    /// Makes of them the first so many places, up to `MAX_PARTS`.
    pub(crate) fn fill(&mut self, count: usize)
        ensures { self.new ≡ below (min count max_parts) }
    {
        self.from = 0;
        fill(&mut self.places, count);
    }

    /// The places in their order.
    pub(crate) fn as_slice(&self) -> &[u8]
        ensures value { result.now ≡ self.now }
        ensures few { length result.now ≤ max_parts }
    {
        &self.places.as_slice()[self.from..]
    }

    /// The place at an index, if there is one.
    pub(crate) fn get(&self, nth: u32) -> Option<u8>
        ensures { result ≡ slice_get self.now nth }
    {
        self.places
            .as_slice()
            .get(self.from + nth as usize)
            .copied()
    }

    /// Writes over the place at an index.
    pub(crate) fn set(&mut self, index: usize, place: u8)
        requires { index < length self.old }
        ensures { self.new ≡ slice_set self.old index place }
    {
        self.places.set(self.from + index, place);
    }

    /// Keeps the first so many places, and takes the others out.
    pub(crate) fn truncate(&mut self, count: usize)
        requires { count ≤ length self.old }
        ensures { self.new ≡ take count self.old }
    {
        self.places.truncate(self.from + count);
    }

    /// Takes the first place out.
    pub(crate) fn drop_first(&mut self)
        requires { 0 < length self.old }
        ensures { self.new ≡ drop 1 self.old }
    {
        self.from += 1;
    }
}
