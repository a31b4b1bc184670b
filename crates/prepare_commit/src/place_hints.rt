//! Where the items of a cell were last found.

use stamps::Key;
use std::alloc::{AllocError, Global};
use std::sync::atomic::{AtomicU64, Ordering};

/// How many marks there are for each item, so that few items have the same.
const MARKS: usize = 2;

/// At which places the items of a cell were last found: by their chains, and by marks that are computed of their keys. A place is a guess:
/// items move, some may have one mark, and no place from 65,536 on is noted. Who takes it looks whether the item stands there.
///
/// Only `open` takes memory. What it takes is touched as items come.
#[derive(Drop)]
pub(crate) struct PlaceHints {
    // By mark. There are a power of two of them.
    places: Vec<AtomicU64>,
    // By chain.
    chains: Vec<u16>,
}

impl PlaceHints {
    /// For as many items as these. The one error is that the allocation failed.
    pub(crate) fn open(alloc: Global, items: u32) -> Result<PlaceHints, AllocError> {
        let room = (items as usize).saturating_mul(2 * MARKS);
        let mut places = Vec::with_capacity(alloc, room)?;
        if room > 0 {
            places.push_reserved(AtomicU64::new(0));
        }
        Ok(PlaceHints {
            places,
            chains: Vec::with_capacity(alloc, items as usize)?,
        })
    }

    /// Where the item that has a chain may stand.
    pub(crate) fn of_chain(&self, chain: u32) -> usize {
        match self.chains.get(chain as usize) {
            Some(place) => *place as usize,
            None => 0,
        }
    }

    /// Notes where the item that has a chain stands. Chains are given from 0, as items come.
    pub(crate) fn note_chain(&mut self, chain: u32, place: usize) {
        let Ok(place) = u16::try_from(place) else {
            return;
        };
        let chain = chain as usize;
        if chain < self.chains.len() {
            self.chains[chain] = place;
        } else if chain == self.chains.len() && chain < self.chains.capacity() {
            self.chains.push_reserved(place);
        }
    }

    /// Where the item of this key may stand.
    #[inline(always)]
    pub(crate) fn of(&self, key: &Key) -> Guesses {
        match self.places.get(self.slot(key)) {
            Some(last) => Guesses {
                places: last.load(Ordering::Relaxed),
            },
            None => Guesses { places: 0 },
        }
    }

    /// Notes where the item of this key stands, in front of the places at which others with its mark were found.
    pub(crate) fn note(&self, key: &Key, place: usize) {
        let Ok(place) = u16::try_from(place) else {
            return;
        };
        if let Some(last) = self.places.get(self.slot(key)) {
            let others = last.load(Ordering::Relaxed) << 16;
            last.store(others | u64::from(place), Ordering::Relaxed);
        }
    }

    /// Makes marks for one more item than these.
    pub(crate) fn widen(&mut self, items: usize) {
        let len = self.places.len();
        if items <= len / MARKS {
            return;
        }
        for _place in 0..len {
            if self.places.len() == self.places.capacity() {
                return;
            }
            self.places.push_reserved(AtomicU64::new(0));
        }
    }

    // Which mark is this key's.
    #[inline(always)]
    fn slot(&self, key: &Key) -> usize {
        mark_of(key) as usize & self.places.len().wrapping_sub(1)
    }
}

/// The four places at which items with one mark were found last.
#[derive(Clone, Copy)]
pub(crate) struct Guesses {
    // The last one in the lowest bits.
    places: u64,
}

impl Guesses {
    /// How many places they are.
    pub(crate) const COUNT: usize = 4;

    /// The one that was found last.
    #[inline(always)]
    pub(crate) fn first(self) -> usize {
        (self.places & 0xFFFF) as usize
    }

    /// The others, with that one at their end.
    #[inline(always)]
    pub(crate) fn rest(self) -> Guesses {
        Guesses {
            places: self.places.rotate_right(16),
        }
    }
}

// A number that is mixed of all bytes of a key. Each of its lowest bits is.
#[inline(always)]
fn mark_of(key: &Key) -> u64 {
    let mut mark = 0u64;
    let mut left = key.padded().as_slice();
    while let Some((word, rest)) = left.split_first_chunk::<8>() {
        mark = mark
            .wrapping_add(u64::from_le_bytes(*word))
            .wrapping_mul(0x9E37_79B9_7F4A_7C15);
        left = rest;
    }
    mark.swap_bytes()
}
