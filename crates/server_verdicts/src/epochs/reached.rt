//! Where the epochs of a journal led.
ghost use Rattle.std.specs.Prelude.{◌≡◌, ◌↔◌, false, IfOk, IsTrue};
ghost use Rattle.partition.specs.Journals.{IsEnd, IsSoundFrom};
ghost use Rattle.server_verdicts.specs.Reaching.{content_at};

use partition::Epoch;
use plain_store::OutOfMemory;
use prepare_commit::{Base, Replica};
use settle::play_epoch;
use std::alloc::Global;
use std::marker::Model;

/// A base, or a replica, which calls can be played on.
#[derive(Drop)]
pub(crate) enum ReachedContent {
    Base(Base),
    Replica(Replica),
}

/// The content to which the epochs of a journal led. Contracts see it as a base.
#[derive(Drop)]
pub(crate) struct Reached {
    place: ReachedContent,
}

impl Model for Reached {
    ghost use Rattle.prepare_commit.specs.Bases.{Frozen};
    ghost use Rattle.server_verdicts.specs.Reaching.{content_at};

    ghost Value = { Frozen };

    ghost view = { λ r. content_at r.place };
}

impl Reached {
    /// What a base holds. It takes no memory.
    pub(crate) fn at(base: Base) -> Reached
        ensures { result ≡ base }
    {
        Reached {
            place: ReachedContent::Base(base),
        }
    }

    /// Whether it is what a base holds. The one fault is that an allocation failed.
    pub(crate) fn is(&self, base: &Base) -> Result<bool, OutOfMemory>
        ensures { IfOk result (λ yes. IsTrue yes ↔ (self.now ≡ base.now)) }
    {
        match &self.place {
            ReachedContent::Base(own) => Ok(own.is(base)),
            ReachedContent::Replica(replica) => Ok(replica.is(base)?),
        }
    }

    /// Whether it is what a base holds, as `is` reports. Where it is, a replica shares the base's parts then.
    pub(crate) fn begins_at(&mut self, base: &Base) -> Result<bool, OutOfMemory>
        ensures exact { IfOk result (λ yes. IsTrue yes ↔ (self.old ≡ base.now)) }
        ensures same { self.new ≡ self.old }
    {
        match &mut self.place {
            ReachedContent::Base(own) => Ok(own.is(base)),
            ReachedContent::Replica(replica) => Ok(replica.begins_at(base)?),
        }
    }

    /// Whether an epoch is sound that begins there. Where it is, what it leads to is reached then; where it is not, the same
    /// as before is. The one fault is that an allocation failed.
    pub(crate) fn play(&mut self, alloc: Global, epoch: &Epoch) -> Result<bool, OutOfMemory>
        requires { epoch.now.base ≡ self.old }
        ensures exact { IfOk result (λ yes. IsTrue yes
            ↔ IsSoundFrom epoch.now.base epoch.now.events.items) }
        ensures led { IfOk result (λ yes. IsTrue yes
            → IsEnd epoch.now.base epoch.now.events.items self.new) }
        ensures stays { IfOk result (λ yes. yes ≡ false → self.new ≡ self.old) }
    {
        let is_sound = play_at(alloc, &mut self.place, epoch)?;
        if !is_sound {
            self.place = ReachedContent::Base(epoch.base.copied(alloc)?);
        }
        Ok(is_sound)
    }
}

/// Whether an epoch is sound that begins at what is held in a place, which leads on then, in a replica that is opened where
/// there was none. Where it is not, the place holds what some of its calls left. The one fault is that an allocation failed.
fn play_at(alloc: Global, place: &mut ReachedContent, epoch: &Epoch) -> Result<bool, OutOfMemory>
    requires { epoch.now.base ≡ content_at place.old }
    ensures exact { IfOk result (λ yes. IsTrue yes
        ↔ IsSoundFrom epoch.now.base epoch.now.events.items) }
    ensures led { IfOk result (λ yes. IsTrue yes
        → IsEnd epoch.now.base epoch.now.events.items (content_at place.new)) }
{
    if let ReachedContent::Replica(replica) = place {
        return play_epoch(alloc, replica, epoch);
    }
    let mut replica = Replica::at(alloc, &epoch.base)?;
    let is_sound = play_epoch(alloc, &mut replica, epoch)?;
    *place = ReachedContent::Replica(replica);
    Ok(is_sound)
}
