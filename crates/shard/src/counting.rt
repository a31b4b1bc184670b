//! Numbers that several threads draw.
ghost use Rattle.std.specs.Prelude.{◌<◌, ◌≤◌, ◌^◌, IfSome};

use std::sync::atomic::{AtomicU64, Ordering};

/// The last number that is drawn.
pub const LAST: u64 = 1 << 62;

/// The next number, from 1. None once 2^62 was drawn.
pub fn next_number(count: &AtomicU64) -> Option<u64>
    ensures { IfSome result (λ number. (0 < number) × (number ≤ 2 ^ 62)) }
{
    if count.load(Ordering::SeqCst) >= LAST {
        return None;
    }
    let before = count.fetch_add(1, Ordering::SeqCst);
    if before < LAST {
        Some(before + 1)
    } else {
        None
    }
}
