//! Puts the entries that seats returned before those of their transcripts.
ghost use Rattle.std.specs.Prelude.{◌≡◌, ◌+◌, ◌<◌, ℕ, [], Some, IfOk, OnOk, length, slice_get};
ghost use Rattle.closed_store.specs.Filling.{AreFilled, IsFilled, AreFirstPlaces, AreGathered, IsAppended, ArePut, AreEmpty};

use crate::transcript::Transcript;
use entry_list::EntryList;
use indexmap::IndexMap;
use std::alloc::{AllocError, Global};
use std::mem;

/// The place of the first transcript of each seat.
type TranscriptIndex = IndexMap<u64, usize>;

/// Puts what seats returned before the entries of their transcripts: the lists of a seat stand in the order given, before
/// the entries that its transcript has. Of two transcripts of a seat the first takes them all. The lists of a seat without a
/// transcript are released.
///
/// It goes once over the lists, whose seats it looks up in a table, and once over the transcripts, so its time grows with the
/// number of lists, transcripts and entries that are moved. A transcript before which nothing is put stays where it lies. The
/// one error is that an allocation failed.
pub(crate) fn put_before(
    alloc: Global,
    transcripts: Vec<Transcript>,
    entries: Vec<(u64, EntryList)>,
) -> Result<Vec<Transcript>, AllocError>
    ensures { IfOk result (λ filled. AreFilled entries.items transcripts.items filled.items) }
{
    let mut filled = transcripts;
    let places = places_of(alloc, filled.as_slice())?;
    let lists = gather(alloc, &places, filled.len(), entries)?;
    put_all(alloc, filled.as_mut_slice(), lists)?;
    Ok(filled)
}

/// The place of each seat's first transcript.
fn places_of(alloc: Global, transcripts: &[Transcript]) -> Result<TranscriptIndex, AllocError>
    ensures { IfOk result
        (λ places. AreFirstPlaces transcripts.now (length transcripts.now) places) }
{
    let mut places = IndexMap::new(alloc);
    for place in 0..transcripts.len() {
        note_seat(&mut places, transcripts, place)?;
    }
    Ok(places)
}

/// Notes the seat of a transcript, if it is the first of the seat.
fn note_seat(
    places: &mut TranscriptIndex,
    transcripts: &[Transcript],
    place: usize,
) -> Result<(), AllocError>
    requires place { place < length transcripts.now }
    requires places { AreFirstPlaces transcripts.now place places.old }
    ensures { OnOk result (AreFirstPlaces transcripts.now (place + 1) places.new) }
{
    let transcript = &transcripts[place];
    if places.contains_key(&transcript.seat) {
        return Ok(());
    }
    if places.insert(transcript.seat, place).is_err() {
        return Err(AllocError);
    }
    Ok(())
}

/// For each of so many places the lists of the seat that has it, one behind the other.
fn gather(
    alloc: Global,
    places: &TranscriptIndex,
    count: usize,
    entries: Vec<(u64, EntryList)>,
) -> Result<Vec<EntryList>, AllocError>
    ensures { IfOk result (λ lists. AreGathered places.now entries.items count lists.items) }
{
    let mut lists = empty_lists(alloc, count)?;
    for (seat, list) in entries {
        if let Some(place) = places.get(&seat) {
            append_at(&mut lists, *place, list)?;
        }
    }
    Ok(lists)
}

/// So many empty lists.
fn empty_lists(alloc: Global, count: usize) -> Result<Vec<EntryList>, AllocError>
    ensures empty { IfOk result (λ lists. AreEmpty lists.items) }
    ensures as_many { IfOk result (λ lists. length lists.items ≡ count) }
{
    let mut lists = Vec::with_capacity(alloc, count)?;
    for _nth in 0..count {
        lists.push_reserved(EntryList::new(alloc));
    }
    Ok(lists)
}

/// Moves a list behind what is at a place, if the place is there.
fn append_at(lists: &mut Vec<EntryList>, place: usize, list: EntryList) -> Result<(), AllocError>
    ensures { OnOk result (IsAppended lists.old.items lists.new.items place list.items) }
{
    if place >= lists.len() {
        return Ok(());
    }
    lists[place].append(&list)?;
    Ok(())
}

/// Puts each list before the entries of the transcript at its place.
fn put_all(
    alloc: Global,
    transcripts: &mut [Transcript],
    mut lists: Vec<EntryList>,
) -> Result<(), AllocError>
    requires { length lists.items ≡ length transcripts.old }
    ensures { OnOk result (ArePut lists.items transcripts.old transcripts.new) }
{
    for place in 0..transcripts.len() {
        let list = mem::replace(&mut lists[place], EntryList::new(alloc));
        put_first(&mut transcripts[place], list)?;
    }
    Ok(())
}

/// Puts a list before a transcript's entries.
fn put_first(transcript: &mut Transcript, mut list: EntryList) -> Result<(), AllocError>
    ensures { OnOk result (IsFilled list.items transcript.old transcript.new) }
{
    if list.is_empty() {
        return Ok(());
    }
    list.append(&transcript.entries)?;
    transcript.entries = list;
    Ok(())
}
