//! A request that is read, and the page that answers it, over any reader and writer.
ghost use Rattle.std.specs.Prelude.{◌≡◌, ◌≤◌, ◌<◌, ◌+◌, ℕ, List, IfSome, IsTrue, take, drop, length};
ghost use Rattle.std.specs.Io.KnownBytes.{Appends, Consumes, IsAtEnd};
ghost use Rattle.server_metrics.specs.Exchanges.{IsHeardOf};

use crate::answer::Status;
use crate::request::{PageRequest, read_request};
use std::io::{Read, Write};
use std::sync::atomic::{AtomicBool, Ordering};

// How many bytes of a request are read: its head has to be among them.
const MOST_BYTES: usize = 8192;

// How many reads the end of a client takes.
const MOST_READS: u32 = 8;

// How many writes a page takes.
const MOST_WRITES: u32 = 64;

/// Reads the head of a request, in whatever pieces it comes, and says what it asks for: one that the input cuts is refused 400, and one
/// of more than 8 KiB 431. `None` where nothing came, a read failed, or it is over.
pub fn hear<R: Read>(reader: &mut R, is_over: &AtomicBool) -> Option<PageRequest>
    ensures { IfSome result (IsHeardOf (R.remaining reader.old) (R.remaining reader.new)) }
{
    let mut bytes = [0; MOST_BYTES];
    let mut len = 0;
    // Each read takes a byte or more.
    for _ in 0..MOST_BYTES {
        if is_over.load(Ordering::SeqCst) {
            return None;
        }
        let taken = read_more(reader, &mut bytes, len)?;
        if taken == 0 {
            return if len == 0 {
                None
            } else {
                Some(PageRequest::Refused(Status::BadRequest))
            };
        }
        len += taken;
        if let Some(asked) = read_request(&bytes[..len]) {
            return Some(asked);
        }
        if len == MOST_BYTES {
            return Some(PageRequest::Refused(Status::TooLarge));
        }
    }
    None
}

// Reads bytes behind the first ones, for which there is room, and says how many; `None` where the read failed.
fn read_more<R: Read>(reader: &mut R, bytes: &mut [u8], len: usize) -> Option<usize>
    requires { len < length bytes.old }
    ensures fits { IfSome result (λ taken. len + taken ≤ length bytes.new) }
    ensures front { IfSome result (λ taken. take len bytes.new ≡ take len bytes.old) }
    ensures taken { IfSome result
        (λ taken.
        Consumes (R.remaining reader.old) (R.remaining reader.new)
        (take taken (drop len bytes.new))) }
    ensures end { IfSome result (λ taken. taken ≡ 0 → IsAtEnd (R.remaining reader.new)) }
{
    reader.read(&mut bytes[len..]).ok()
}

/// Writes a page, in 64 writes at most. Says whether all of it was written: not where a write failed or took nothing, the writes
/// did not do, or it is over.
pub fn write_page<W: Write>(writer: &mut W, page: &[u8], is_over: &AtomicBool) -> bool
    ensures front { (n : ℕ)
        × Appends (W.contents writer.old) (W.contents writer.new) (take n page.now) }
    ensures whole { IsTrue result
        → Appends (W.contents writer.old) (W.contents writer.new) page.now }
{
    let mut written = 0;
    for _ in 0..MOST_WRITES {
        if written == page.len() {
            return true;
        }
        if is_over.load(Ordering::SeqCst) {
            return false;
        }
        match writer.write(&page[written..]) {
            Ok(taken) if taken > 0 => written += taken,
            _ => return false,
        }
    }
    written == page.len()
}

/// Passes over what a client still sends, in 8 reads at most. It ends where nothing more comes, a read failed, or it is over.
pub fn pass_over<R: Read>(reader: &mut R, is_over: &AtomicBool)
    ensures { (bytes : List ℕ) × Consumes (R.remaining reader.old) (R.remaining reader.new) bytes }
{
    let mut piece = [0; 512];
    for _ in 0..MOST_READS {
        if is_over.load(Ordering::SeqCst) {
            return;
        }
        match reader.read(&mut piece) {
            Ok(taken) if taken > 0 => {}
            _ => return,
        }
    }
}
