//! Readers.
ghost use Rattle.std.specs.Prelude.{◌≡◌, bytes_eq};

use crate::LateKeys;
use crate::found_keys::filler;
use crate::read_progress::ReadProgress;
use plain_store::{ReadReply, Readings};
use stamps::{Key, Record, Stamp, WriteSet};

/// What a reader does when a reply comes.
#[derive(Debug, Drop)]
pub enum ReadMove {
    /// The reply was taken, and more are needed.
    Wait,
    /// Round one is complete, and these versions are needed: round two asks for each by its stamp.
    Ask(LateKeys),
    /// What is read, in the order given.
    Read(Readings),
    /// The version that was asked for lies below this floor of its key: a new read may find a later one.
    Restart(Key, Stamp),
    /// The reply was inconsistent.
    Torn,
    /// Nobody waited for the reply.
    Ignored,
}

/// What a reader does when a reply comes, without what it asks for or read: `Reader::late_keys` and `Reader::readings` tell
/// that.
#[derive(Clone, Copy, Debug, PartialEq, Eq)]
pub enum ReadMoveKind {
    /// The reply was taken, and more are needed.
    Wait,
    /// Round one is complete, and later versions are needed of some keys.
    Ask,
    /// Every key is read.
    Read,
    /// The version that was asked for lies below this floor of its key: a new read may find a later one.
    Restart(Key, Stamp),
    /// The reply was inconsistent.
    Torn,
    /// Nobody waited for the reply.
    Ignored,
}

/// The client's side of GET_ALL, the read transaction of RAMP-Fast (Bailis and others, "Scalable Atomic
/// Visibility with RAMP Transactions"): round one reads the latest version of each key, and round two, by its
/// exact stamp, each later version that a transaction seen in round one wrote. The first reply counts, for
/// each key and round.
#[derive(Drop)]
pub struct Reader {
    slots: ReadProgress,
    has_ended: bool,
}

/// Whether this is a record of the key.
fn is_of(version: &Record, key: &Key) -> bool
    ensures { result ≡ bytes_eq version.now.key key.now }
{
    version.key == *key
}

impl Reader {
    ghost use Rattle.std.specs.Prelude.{◌≡◌, ◌+◌, ◌≤◌, true, false, ◌&&◌, ◌==◌, ◌↔◌, List, map, length, position, Some, bytes_eq, option_copied, if◌then◌else◌, IsTrue, IsNone, IfSome};
    ghost use Rattle.std.specs.List.{list_any, list_all};
    ghost use Rattle.plain_store.specs.declared.message.Message.{Message};
    ghost use Rattle.plain_store.specs.Run.{are_bad};
    ghost use Rattle.plain_store.specs.Words.{Key};
    ghost use Rattle.get_all.specs.Reading.{IsFirst, IsSecond};
    ghost use Rattle.get_all.specs.ReadProgress.{with_first, with_second, awaits_first, first_shows, has_first, is_answered_by, is_whole, readings_by, late_by};
    ghost use Rattle.get_all.specs.Reader.{StandsFor, TakesInRound, TakesRead, is_no_read, told_by, calls_left, calls_asked};

    /// A reader of these keys which took no reply yet. None exactly for no key, more than `MAX_KEYS`, or one twice.
    pub fn new(keys: &[Key]) -> Option<Reader>
        ensures refused { IsNone result ↔ IsTrue (are_bad keys.now) }
        ensures stands { IfSome result (λ reader. (taken : List Message)
            → IsTrue (list_all is_no_read taken) → StandsFor keys.now reader taken) }
    {
        if !WriteSet::are_keys(keys) {
            return None;
        }
        Some(Reader {
            slots: ReadProgress::of(keys),
            has_ended: false,
        })
    }

    /// A reader that waits for no reply until it is given keys.
    pub fn idle() -> Reader
        ensures { result.has_ended ≡ true }
    {
        let key = filler();
        Reader {
            slots: ReadProgress::of(&[key]),
            has_ended: true,
        }
    }

    /// Makes of it a reader of these keys which took no reply yet, and says whether it could. It could not exactly for
    /// no key, more than `MAX_KEYS`, or one twice; then nothing has changed.
    pub fn reset(&mut self, keys: &[Key]) -> bool
        ensures refused { result ≡ false ↔ IsTrue (are_bad keys.now) }
        ensures unchanged { result ≡ false → self.new ≡ self.old }
        ensures stands { result ≡ true → (taken : List Message) → IsTrue (list_all is_no_read taken)
            → StandsFor keys.now self.new taken }
        ensures few { result ≡ true → calls_left self.new ≤ length keys.now }
    {
        if !WriteSet::are_keys(keys) {
            return false;
        }
        self.slots.reset(keys);
        self.has_ended = false;
        true
    }

    /// Takes the reply to the GET of this key in round 1 or 2. Ignored where that GET was answered before or was
    /// not asked, in any other round, and once the read has ended.
    pub fn take(&mut self, key: &Key, round: u8, reply: &ReadReply) -> ReadMove
        ensures { TakesInRound key.now round reply.now self.old result self.new }
    {
        let mut kind = ReadMoveKind::Ignored;
        self.take_kind(key, round, reply, &mut kind);
        self.told(kind)
    }

    /// Does what `take` does, leaves out what is asked for or read, and writes the move into the caller's buffer.
    #[inline(always)]
    pub fn take_kind(&mut self, key: &Key, round: u8, reply: &ReadReply, kind: &mut ReadMoveKind)
        ensures { TakesInRound key.now round reply.now
            self.old (told_by self.new kind.new) self.new }
    {
        if self.has_ended {
            *kind = ReadMoveKind::Ignored;
            return;
        }
        match round {
            1 => self.take_first(key, reply, kind),
            2 => *kind = self.take_second(key, reply),
            _ => *kind = ReadMoveKind::Ignored,
        }
    }

    /// The versions that round two asks for, each by its stamp, once round one is complete.
    pub fn late_keys(&self) -> LateKeys
        ensures { result ≡ late_by self.now.slots }
    {
        self.slots.late_keys()
    }

    /// What is read, in the order given, once every key is.
    pub fn readings(&self) -> Readings
        ensures { result ≡ readings_by self.now.slots }
    {
        let nothing = [];
        let mut readings = Readings::of(&nothing).unwrap();
        self.readings_into(&mut readings);
        readings
    }

    /// Does what `readings` does, and writes it into the caller's buffer.
    pub fn readings_into(&self, place: &mut Readings)
        ensures { place.new ≡ readings_by self.now.slots }
    {
        self.slots.readings_into(place);
    }

    /// The move, with what is asked for or read.
    fn told(&self, kind: ReadMoveKind) -> ReadMove
        ensures { result ≡ told_by self.now kind }
    {
        match kind {
            ReadMoveKind::Wait => ReadMove::Wait,
            ReadMoveKind::Ask => ReadMove::Ask(self.late_keys()),
            ReadMoveKind::Read => ReadMove::Read(self.readings()),
            ReadMoveKind::Restart(key, floor) => ReadMove::Restart(key, floor),
            ReadMoveKind::Torn => ReadMove::Torn,
            ReadMoveKind::Ignored => ReadMove::Ignored,
        }
    }

    /// Takes the reply to a GET of round one, and writes the move into the caller's buffer.
    fn take_first(&mut self, key: &Key, reply: &ReadReply, kind: &mut ReadMoveKind)
        requires { self.old.has_ended ≡ false }
        ensures takes { (keys : List Key) (taken : List Message) (message : Message)
            → StandsFor keys self.old taken
            → IsFirst key.now reply.now message
            → TakesRead keys taken message (told_by self.new kind.new) self.new }
        ensures few { calls_asked (told_by self.new kind.new) + calls_left self.new
            ≤ calls_left self.old }
    {
        let Some(at) = self.slots.first_place(key) else {
            *kind = ReadMoveKind::Ignored;
            return;
        };
        match reply {
            ReadReply::Version(version) => {
                if is_of(version, key) {
                    self.show_first(at, key, Some(version), kind);
                } else {
                    self.end();
                    *kind = ReadMoveKind::Torn;
                }
            }
            ReadReply::Initial => self.show_first(at, key, None, kind),
            ReadReply::Collected(_) => {
                self.end();
                *kind = ReadMoveKind::Torn;
            }
            ReadReply::Unknown => {
                self.end();
                *kind = ReadMoveKind::Torn;
            }
        }
    }

    /// Takes what round one showed of the key, whose slot, at this place, waits for it.
    #[inline(always)]
    fn show_first(&mut self, at: usize, key: &Key, shown: Option<&Record>, kind: &mut ReadMoveKind)
        requires open { self.old.has_ended ≡ false }
        requires first { position (awaits_first key.now) self.old.slots ≡ Some at }
        ensures slots { self.new.slots
            ≡ map (with_first key.now (option_copied shown.entry)) self.old.slots }
        ensures ended { self.new.has_ended ≡ is_whole self.new.slots }
        ensures answer { told_by self.new kind.new ≡ (if list_all has_first self.new.slots
            then (if list_all (is_answered_by self.new.slots) self.new.slots
            then ReadMove.Read (readings_by self.new.slots)
            else ReadMove.Ask (late_by self.new.slots))
            else ReadMove.Wait) }
    {
        if !self.slots.mark_first(at, key, shown) {
            *kind = ReadMoveKind::Wait;
            return;
        }
        if self.slots.are_answered() {
            self.end();
            *kind = ReadMoveKind::Read;
            return;
        }
        *kind = ReadMoveKind::Ask;
    }

    #[cold]
    #[inline(never)]
    fn take_second(&mut self, key: &Key, reply: &ReadReply) -> ReadMoveKind
        requires { self.old.has_ended ≡ false }
        ensures takes { (keys : List Key) (taken : List Message) (message : Message)
            → StandsFor keys self.old taken
            → IsSecond keys taken key.now reply.now message
            → TakesRead keys taken message (told_by self.new result) self.new }
        ensures few { calls_asked (told_by self.new result) + calls_left self.new
            ≤ calls_left self.old }
    {
        if !self.slots.are_shown() || !self.slots.await_second(key) {
            return ReadMoveKind::Ignored;
        }
        let needed = self.slots.needed(key);
        match reply {
            ReadReply::Version(version) => {
                if self.is_needed(key, needed, version) {
                    self.show_second(key, version)
                } else {
                    self.end();
                    ReadMoveKind::Torn
                }
            }
            ReadReply::Collected(floor) => {
                if needed < *floor {
                    self.end();
                    ReadMoveKind::Restart(*key, *floor)
                } else {
                    self.end();
                    ReadMoveKind::Torn
                }
            }
            ReadReply::Initial => {
                self.end();
                ReadMoveKind::Torn
            }
            ReadReply::Unknown => {
                self.end();
                ReadMoveKind::Torn
            }
        }
    }

    /// Whether this is the record that was asked for: of this key and stamp, with a write set that round one
    /// showed with that stamp.
    fn is_needed(&self, key: &Key, needed: Stamp, version: &Record) -> bool
        ensures { result ≡ (bytes_eq version.now.key key.now && ((version.now.stamp == needed)
            && list_any (λ slot. first_shows needed version.now.writes slot.first)
            self.now.slots)) }
    {
        is_of(version, key) && version.stamp == needed && self.slots.show(needed, &version.writes)
    }

    /// Takes what round two showed of the key.
    fn show_second(&mut self, key: &Key, version: &Record) -> ReadMoveKind
        requires { self.old.has_ended ≡ false }
        ensures slots { self.new.slots ≡ map (with_second key.now version.now) self.old.slots }
        ensures ended { self.new.has_ended
            ≡ list_all (is_answered_by self.new.slots) self.new.slots }
        ensures answer { told_by self.new result
            ≡ (if list_all (is_answered_by self.new.slots) self.new.slots
            then ReadMove.Read (readings_by self.new.slots) else ReadMove.Wait) }
    {
        self.slots.mark_second(key, version);
        if !self.slots.are_answered() {
            return ReadMoveKind::Wait;
        }
        self.end();
        ReadMoveKind::Read
    }

    fn end(&mut self)
        ensures ended { self.new ≡ record self.old { has_ended = true } }
    {
        self.has_ended = true;
    }
}
