//! A store that is to be opened.
ghost use Rattle.std.specs.Prelude.{◌≡◌, false, true};
ghost use Rattle.hub.specs.Shards.{IsOpeningOf};

use closed_store::Config;
use history::NewHistory;

/// What a hub is opened with: how it is made, whether its partitions keep journals, and its history, which begins here and has no name
/// yet.
#[derive(Drop)]
pub struct NewStore {
    pub config: Config,
    pub journals: bool,
    pub history: NewHistory,
    ghost opening: { IsOpeningOf config history.seen.log },
}

impl NewStore {
    /// A store that is made so and keeps journals, with a history of its own.
    pub fn of(config: Config) -> NewStore
        ensures config { result.config ≡ config }
        ensures journals { result.journals ≡ true }
    {
        let history = NewHistory::new(config.parts, config.limits.as_slice());
        NewStore {
            config,
            journals: true,
            history,
        }
    }

    /// The same store, whose partitions keep no journal: of the calls that they serve they keep what their cells hold, and no epoch is
    /// cut.
    pub fn without_journals(self) -> NewStore
        ensures config { result.config ≡ self.config }
        ensures journals { result.journals ≡ false }
        ensures history { result.history ≡ self.history }
    {
        let mut store = self;
        store.journals = false;
        store
    }
}
