//! What holds of every legal history. Each law is the contract of a function that does nothing.
ghost use Rattle.std.specs.Prelude.{List};
ghost use Rattle.history.specs.declared.entry.HistoryEntry.{HistoryEntry};
ghost use Rattle.history.specs.Clock.{DrawsRise, SeesTold};
ghost use Rattle.history.specs.Fresh.{CommitsKeys};
ghost use Rattle.history.specs.Legal.{IsLegal, HasOneWrite, AreOfTheirWrites, AreAtHome, KeepsDecided, ShowsWrites, ShowsDecided};

/// In a legal history a stamp of a tenant is that of one put: it has one client, and one write set.
pub fn a_stamp_has_one_write()
    ensures { (log : List HistoryEntry) → IsLegal log → HasOneWrite log }
{}

/// In a legal history a version of a write is one of the put that has its stamp: it has that put's write set.
pub fn versions_are_of_their_writes()
    ensures { (log : List HistoryEntry) → IsLegal log → AreOfTheirWrites log }
{}

/// In a legal history each version that a GET is reported was written, to the key that was asked, by a put that began.
pub fn gets_show_writes()
    ensures { (log : List HistoryEntry) → IsLegal log → ShowsWrites log }
{}

/// In a legal history each version that a GET without a stamp is reported is that of a put that was decided.
pub fn first_gets_show_decided_writes()
    ensures { (log : List HistoryEntry) → IsLegal log → ShowsDecided log }
{}

/// In a legal history each PREPARE and each GET was served at the home of its key.
pub fn calls_are_at_home()
    ensures { (log : List HistoryEntry) → IsLegal log → AreAtHome log }
{}

/// In a legal history no DISCARD of a put that was decided is served.
pub fn decided_puts_are_not_discarded()
    ensures { (log : List HistoryEntry) → IsLegal log → KeepsDecided log }
{}

/// In a legal history a COMMIT of a put that was served at the home of a key commits what the put wrote there.
pub fn commits_are_of_each_key()
    ensures { (log : List HistoryEntry) → IsLegal log → CommitsKeys log }
{}

/// In a legal history each draw is above all that was drawn of its clock before.
pub fn draws_rise()
    ensures { (log : List HistoryEntry) → IsLegal log → DrawsRise log }
{}

/// Who looked at a clock, and found as many entries as it had after a report, has seen what the reporter had seen.
pub fn clocks_are_seen()
    ensures { (log : List HistoryEntry) → SeesTold log }
{}
