//! The calls that were packed, from the front of the bytes, and the bytes behind each.
ghost use Rattle.std.specs.Prelude.{◌≡◌};
ghost use Rattle.std.specs.Option.{option_map};
ghost use Rattle.plain_store.specs.declared.calls.Call.TheVariants.{Prepare};
ghost use Rattle.packed.specs.Packing.{IsReadAgain};
ghost use Rattle.packed_steps.specs.PackedCalls.{IsStoreCall, packed_call};
ghost use Rattle.packed_steps.specs.PackedCalls.{prepare_at, commit_at, get_at, get_version_at, find_at, collect_at, discard_at, call_by, call_at};

use packed::{read_byte, read_key, read_record, read_record_into, read_stamp, read_tag};
use plain_store::Call;
use stamps::{Keep, Record, Stamp};

// A PREPARE is written over another one where that lies.
#[tactic(auto, unfolding(crate::specs::PackedCalls::prepare_at))]
fn prepare_into<'a>(bytes: &'a [u8], place: &mut Call) -> Option<&'a [u8]>
    ensures { option_map (λ rest. (place.new, rest.now)) result ≡ prepare_at bytes.now }
{
    if let Call::Prepare(version) = place {
        return version_into(bytes, version);
    }
    let Some((version, rest)) = read_record(bytes) else {
        return None;
    };
    *place = Call::Prepare(version);
    Some(rest)
}

#[tactic(auto, unfolding(crate::specs::PackedCalls::prepare_at))]
fn version_into<'a>(bytes: &'a [u8], place: &mut Record) -> Option<&'a [u8]>
    ensures { option_map (λ rest. (Prepare place.new, rest.now)) result ≡ prepare_at bytes.now }
{
    read_record_into(bytes, place)
}

#[tactic(auto, unfolding(crate::specs::PackedCalls::commit_at))]
fn commit_into<'a>(bytes: &'a [u8], place: &mut Call) -> Option<&'a [u8]>
    ensures { option_map (λ rest. (place.new, rest.now)) result ≡ commit_at bytes.now }
{
    let Some((stamp, rest)) = read_stamp(bytes) else {
        return None;
    };
    *place = Call::Commit(stamp);
    Some(rest)
}

#[tactic(auto, unfolding(crate::specs::PackedCalls::get_at))]
fn get_into<'a>(bytes: &'a [u8], place: &mut Call) -> Option<&'a [u8]>
    ensures { option_map (λ rest. (place.new, rest.now)) result ≡ get_at bytes.now }
{
    let Some((key, rest)) = read_key(bytes) else {
        return None;
    };
    *place = Call::Get(key, None);
    Some(rest)
}

#[tactic(auto, unfolding(crate::specs::PackedCalls::get_version_at))]
fn get_version_into<'a>(bytes: &'a [u8], place: &mut Call) -> Option<&'a [u8]>
    ensures { option_map (λ rest. (place.new, rest.now)) result ≡ get_version_at bytes.now }
{
    let Some((key, rest)) = read_key(bytes) else {
        return None;
    };
    let Some((stamp, rest)) = read_stamp(rest) else {
        return None;
    };
    *place = Call::Get(key, Some(stamp));
    Some(rest)
}

#[tactic(auto, unfolding(crate::specs::PackedCalls::find_at))]
fn find_into<'a>(bytes: &'a [u8], place: &mut Call) -> Option<&'a [u8]>
    ensures { option_map (λ rest. (place.new, rest.now)) result ≡ find_at bytes.now }
{
    let Some((tag, rest)) = read_tag(bytes) else {
        return None;
    };
    *place = Call::Found(tag);
    Some(rest)
}

#[tactic(auto, unfolding(crate::specs::PackedCalls::collect_at))]
fn collect_into<'a>(bytes: &'a [u8], place: &mut Call) -> Option<&'a [u8]>
    ensures { option_map (λ rest. (place.new, rest.now)) result ≡ collect_at bytes.now }
{
    let (number, rest) = read_byte(bytes)?;
    let keep = Keep::new(number)?;
    *place = Call::Collect(keep);
    Some(rest)
}

#[tactic(auto, unfolding(crate::specs::PackedCalls::discard_at))]
fn discard_into<'a>(bytes: &'a [u8], place: &mut Call) -> Option<&'a [u8]>
    ensures { option_map (λ rest. (place.new, rest.now)) result ≡ discard_at bytes.now }
{
    let Some((stamp, rest)) = read_stamp(bytes) else {
        return None;
    };
    *place = Call::Discard(stamp);
    Some(rest)
}

/// Writes the call of this form, whose parts are at the front, into the caller's buffer, and answers the bytes behind them. Where
/// there is none, what lay there may be lost.
#[tactic(auto, unfolding(crate::specs::PackedCalls::call_by))]
pub(crate) fn call_by_into<'a>(form: u8, bytes: &'a [u8], place: &mut Call) -> Option<&'a [u8]>
    ensures { option_map (λ rest. (place.new, rest.now)) result ≡ call_by form bytes.now }
{
    match form {
        0 => prepare_into(bytes, place),
        1 => commit_into(bytes, place),
        2 => get_into(bytes, place),
        3 => get_version_into(bytes, place),
        4 => find_into(bytes, place),
        5 => collect_into(bytes, place),
        6 => discard_into(bytes, place),
        _ => None,
    }
}

#[tactic(auto, unfolding(crate::specs::PackedCalls::call_at))]
fn call_at(bytes: &[u8]) -> Option<(Call, &[u8])>
    ensures { option_map (λ p. (p.0, p.1.now)) result ≡ call_at bytes.now }
{
    let (form, rest) = read_byte(bytes)?;
    let mut place = Call::Commit(Stamp::ZERO);
    let rest = call_by_into(form, rest, &mut place)?;
    Some((place, rest))
}

/// The call at the front. Where the bytes begin with a packed call, it is that one.
pub fn read_call(bytes: &[u8]) -> Option<(Call, &[u8])>
    ensures exact { option_map (λ p. (p.0, p.1.now)) result ≡ call_at bytes.now }
    ensures again { IsReadAgain packed_call IsStoreCall
        (option_map (λ p. (p.0, p.1.now)) result) bytes.now }
{
    call_at(bytes)
}
