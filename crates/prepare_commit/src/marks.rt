//! The marks of clients whose writes were discarded: of each, the greatest stamp that was. They stand in the order of the
//! clients.
ghost use Rattle.std.specs.Prelude.{◌≡◌, ◌≤◌, ◌&&◌, nat_le, not, is_some, MatchResult, IsTrue, false, vec_len, vec_capacity};
ghost use Rattle.std.specs.FinMap as map;
ghost use Rattle.std.specs.Ordering.{nat_cmp};
ghost use Rattle.stamps.specs.Stamp.{client_of};
ghost use Rattle.secondary_index.specs.Ordered.{IsInOrder, StandsAt, BelongsAt};
ghost use Rattle.prepare_commit.specs.Marks.{mark_row, marks_of, mark_in, raised_mark};

use crate::items::insert_within;
use stamps::Stamp;

/// Where the mark of a client stands, or else where it would go in.
fn search(marks: &[Stamp], client: u16) -> Result<usize, usize>
    requires { IsInOrder nat_cmp mark_row marks.now }
    ensures { MatchResult result (StandsAt nat_cmp mark_row client marks.now)
        (BelongsAt nat_cmp mark_row client marks.now) }
{
    marks.binary_search_by(|mark| mark.client().cmp(&client))
}

/// The mark of a client, `0.0` where it has none.
fn mark_of(marks: &[Stamp], client: u16) -> Stamp
    requires { IsInOrder nat_cmp mark_row marks.now }
    ensures { result ≡ mark_in (marks_of marks.now) client }
{
    match search(marks, client) {
        Ok(place) => marks[place],
        Err(_) => Stamp::ZERO,
    }
}

/// Whether this stamp, or a greater one of its client, was discarded.
pub(crate) fn is_discarded(marks: &[Stamp], stamp: Stamp) -> bool
    requires { IsInOrder nat_cmp mark_row marks.now }
    ensures { result ≡ nat_le stamp (mark_in (marks_of marks.now) (client_of stamp)) }
{
    stamp <= mark_of(marks, stamp.client())
}

/// Raises the mark of the stamp's client to the stamp, unless the client has none and as many have one as may. The
/// answer is whether it did.
pub(crate) fn raise(marks: &mut Vec<Stamp>, clients: u32, stamp: Stamp) -> bool
    requires order { IsInOrder nat_cmp mark_row marks.old.items }
    requires room { clients ≤ vec_capacity marks.old }
    requires few { vec_len marks.old ≤ clients }
    ensures order { IsInOrder nat_cmp mark_row marks.new.items }
    ensures room { clients ≤ vec_capacity marks.new }
    ensures few { vec_len marks.new ≤ clients }
    ensures full { result
        ≡ not (not (is_some (map.get (marks_of marks.old.items) (client_of stamp)))
        && nat_le clients (map.len (marks_of marks.old.items))) }
    ensures raised { IsTrue result
        → marks_of marks.new.items ≡ raised_mark (marks_of marks.old.items) stamp }
    ensures refused { result ≡ false → marks.new ≡ marks.old }
{
    match search(marks, stamp.client()) {
        Ok(place) => {
            marks[place] = stamp.max(marks[place]);
            true
        }
        Err(place) => {
            if marks.len() >= clients as usize {
                return false;
            }
            insert_within(marks, place, stamp);
            true
        }
    }
}
