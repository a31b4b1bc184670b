//! Places for records, which are written where they stay.
ghost use Rattle.std.specs.Prelude.{◌≡◌, not, Some, None, is_some, option_copied};
ghost use Rattle.plain_store.specs.Rounds.{flat};

use stamps::Record;
use std::marker::Model;

/// A place for a record. One that is forgotten lies there until the next is written over it: a record has some 740 bytes. Contracts
/// see the record, if there is one.
#[derive(Drop)]
pub(crate) struct RecordPlace {
    is_there: bool,
    version: Option<Record>,
}

impl Model for RecordPlace {
    ghost use Rattle.std.specs.Prelude.{Option, None, cond};
    ghost use Rattle.stamps.specs.Record.{Record as Fields};

    ghost Value = { Option Fields };

    ghost view = { λ p. cond p.is_there p.version None };
}

impl RecordPlace {
    /// A place without a record.
    pub(crate) fn empty() -> RecordPlace
        ensures { result ≡ None }
    {
        RecordPlace {
            is_there: false,
            version: None,
        }
    }

    /// Forgets the record.
    pub(crate) fn clear(&mut self)
        ensures { self.new ≡ None }
    {
        self.is_there = false;
    }

    /// Writes a record there.
    pub(crate) fn put(&mut self, version: &Record)
        ensures { self.new ≡ Some version.now }
    {
        self.is_there = true;
        if let Some(old) = &mut self.version {
            old.copy_from(version);
            return;
        }
        self.version = Some(*version);
    }

    /// The record, if there is one.
    pub(crate) fn get(&self) -> Option<&Record>
        ensures { option_copied result ≡ self.now }
    {
        if self.is_there {
            self.version.as_ref()
        } else {
            None
        }
    }

    /// Whether there is no record.
    pub(crate) fn is_none(&self) -> bool
        ensures { is_some self.now ≡ not result }
    {
        self.get().is_none()
    }
}

/// What round one showed of a key: nothing yet, the initial version, or a record, which lies where it stays. Contracts see just this.
#[derive(Drop)]
pub(crate) struct FirstShown {
    is_told: bool,
    version: RecordPlace,
}

impl Model for FirstShown {
    ghost use Rattle.std.specs.Prelude.{Option, Some, None, cond};
    ghost use Rattle.stamps.specs.Record.{Record as Fields};

    ghost Value = { Option (Option Fields) };

    ghost view = { λ s. cond s.is_told (Some s.version) None };
}

impl FirstShown {
    /// Nothing yet.
    pub(crate) fn nothing() -> FirstShown
        ensures { result ≡ None }
    {
        FirstShown {
            is_told: false,
            version: RecordPlace::empty(),
        }
    }

    /// Forgets what was shown.
    pub(crate) fn clear(&mut self)
        ensures { self.new ≡ None }
    {
        self.is_told = false;
    }

    /// Takes what was shown.
    pub(crate) fn put(&mut self, shown: Option<&Record>)
        ensures { self.new ≡ Some (option_copied shown.entry) }
    {
        self.is_told = true;
        match shown {
            Some(version) => self.version.put(version),
            None => self.version.clear(),
        }
    }

    /// The record that was shown, if one was.
    pub(crate) fn version(&self) -> Option<&Record>
        ensures { option_copied result ≡ flat self.now }
    {
        if self.is_told {
            self.version.get()
        } else {
            None
        }
    }

    /// Whether nothing was shown yet.
    pub(crate) fn is_none(&self) -> bool
        ensures { is_some self.now ≡ not result }
    {
        !self.is_told
    }
}
