//! version_arena: cells of memory in one block.
use std::alloc::{AllocError, Global};
use version_arena::{Arena, Slot};

// Only a value that may go to another thread passes.
fn may_be_sent<T: Send>(_value: &T) -> bool {
    true
}

/// Whether a full arena hands a value back, and takes it once another is gone.
fn gives_and_takes(alloc: Global) -> Option<bool> {
    let opened: Result<Arena<char>, AllocError> = Arena::with_cells(alloc, 2);
    let mut arena = opened.ok()?;
    let put: Result<Slot, char> = arena.put('a', None);
    let first = put.ok()?;
    let second: Slot = arena.put('b', Some(first)).ok()?;
    let back: Result<Slot, char> = arena.put('c', None);
    let (live, cap): (u32, u32) = (arena.live(), arena.cap());
    let taken: char = arena.take(first);
    let is_live: bool = arena.is_live(first);
    let is_full = back == Err('c') && live == 2 && cap == 2 && first != second;
    Some(is_full && taken == 'a' && !is_live && may_be_sent(&arena))
}

/// Whether a value and the slot after it stay as they were written.
fn keeps_what_is_written(alloc: Global) -> Option<bool> {
    let mut arena: Arena<u64> = Arena::with_cells(alloc, 2).ok()?;
    let first = arena.put(1, None).ok()?;
    let second = arena.put(2, None).ok()?;
    arena.set_next(first, Some(second));
    let place: &mut u64 = arena.get_mut(second);
    *place = 3;
    let next: Option<Slot> = arena.next(first);
    let value: &u64 = arena.get(second);
    Some(next == Some(second) && *value == 3)
}

#[test]
fn version_arena_has_its_calls(rt: HostRuntime) {
    let yes = Some(true);
    assert!(rt; gives_and_takes(rt.alloc()) == yes && keeps_what_is_written(rt.alloc()) == yes);
}
