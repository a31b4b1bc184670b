//! The store that takes the steps anew.
ghost use Rattle.std.specs.Prelude.{Some, None, true, false, IsTrue, ◌↔◌, ◌≡◌, ◌++◌, ◌∷◌, [], List, IfOk, OnOk};
ghost use Rattle.std.specs.Option.{option_copied};
ghost use Rattle.stamps.specs.Bounds.{IsParts};
ghost use Rattle.plain_store.specs.History.{History, message_at, keep_in};
ghost use Rattle.plain_store.specs.Run.{answer_to};
ghost use Rattle.settle.specs.Words.{Act as Acted};
ghost use Rattle.settle.specs.Input.{Input, setup_for};
ghost use Rattle.settle.specs.Trace.{with_act};
ghost use Rattle.settle.specs.Losing.{StillHas, is_delivered};
ghost use Rattle.settle.specs.Replaying.{HasSettings, KeepsSettings, Plays, PlaysOn};
ghost use Rattle.settle.specs.Fronts.{reply_in, reply_delivered};
ghost use Rattle.settle.specs.Standing.{call_in, call_coming};

use crate::same::no_reply;
use partition::Event;
use plain_store::{Act, Answer, Call, Message, OutOfMemory, Reply, Step};
use stamps::{Keep, Limits};
use std::alloc::Global;
use world::World;

/// A store of one tenant.
#[derive(Drop)]
pub struct Replay {
    pub limits: Limits,
    /// Whether a message is lost as soon as it was delivered. Then memory goes by the messages that are in flight.
    pub loses: bool,
    pub world: World,
    // Where the store answers that it lost a message, which nobody reads.
    lost: Answer,
}

impl Replay {
    /// The store that has taken no step. It loses messages once they were delivered, or keeps all.
    pub fn open(
        alloc: Global,
        parts: u32,
        limits: &Limits,
        loses: bool,
    ) -> Result<Replay, OutOfMemory>
        requires { IsParts parts }
        ensures settings { IfOk result (HasSettings limits.now loses) }
        ensures stands { IfOk result (λ replay. (input : Input) → input.limits ≡ limits.now
            → input.closed.config.parts ≡ parts → Plays input [] [] replay) }
    {
        Ok(Replay {
            limits: *limits,
            loses,
            world: World::open(alloc, parts, &[*limits])?,
            lost: Answer::Ignored,
        })
    }

    /// Takes a step of its tenant, which has the number 0, and loses the message that was delivered, unless it keeps all. The
    /// answer, which is written into the caller's buffer, is that of a plain store that lost nothing. Where an allocation
    /// failed, what is left there reports nothing.
    pub fn step_into(&mut self, step: &Step, answer: &mut Answer) -> Result<(), OutOfMemory>
        requires { step.now.tenant ≡ 0 }
        ensures answer { OnOk result ((input : Input) (acts : List Acted) (history : History)
            (plays : Plays input acts history self.old)
            → StillHas plays.own history step.now.act
            → answer.new ≡ answer_to (setup_for input) history step.now.act) }
        ensures stands { OnOk result ((input : Input) (acts : List Acted) (history : History)
            (plays : Plays input acts history self.old)
            → StillHas plays.own history step.now.act
            → PlaysOn input acts
            step.now.act (with_act (setup_for input) step.now.act history) self.new) }
        ensures settings { KeepsSettings self.old self.new }
    {
        let _named = no_reply();
        self.take_into(step, answer)?;
        self.lose_delivered(&step.act)
    }

    /// Takes a step of its tenant.
    fn take_into(&mut self, step: &Step, answer: &mut Answer) -> Result<(), OutOfMemory>
        requires { step.now.tenant ≡ 0 }
        ensures answer { OnOk result ((input : Input) (acts : List Acted) (history : History)
            (plays : Plays input acts history self.old)
            → StillHas plays.own history step.now.act
            → answer.new ≡ answer_to (setup_for input) history step.now.act) }
        ensures stands { OnOk result ((input : Input) (acts : List Acted) (history : History)
            (plays : Plays input acts history self.old)
            → StillHas plays.own history step.now.act
            → Plays input (acts
            ++ step.now.act ∷ []) (with_act (setup_for input) step.now.act history) self.new) }
        ensures settings { KeepsSettings self.old self.new }
    {
        self.world.step_into(step, answer)
    }

    /// Loses the message that an act delivered which was taken last, unless all are kept. What was taken stays the same.
    fn lose_delivered(&mut self, act: &Act) -> Result<(), OutOfMemory>
        ensures stands { OnOk result ((input : Input) (acts : List Acted) (history : History)
            → Plays input (acts ++ act.now ∷ []) history self.old
            → PlaysOn input acts act.now history self.new) }
        ensures settings { KeepsSettings self.old self.new }
    {
        if !self.loses {
            return Ok(());
        }
        match act {
            Act::Deliver(row) => self.lose(*row),
            _ => Ok(()),
        }
    }

    /// Loses the message of a row that was delivered.
    fn lose(&mut self, row: u64) -> Result<(), OutOfMemory>
        requires { self.old.loses ≡ true }
        ensures stands { OnOk result ((input : Input) (acts : List Acted) (history : History)
            → Plays input acts history self.old → is_delivered acts row ≡ true
            → (plays : Plays input acts history self.new)
            × (message_at plays.own row ≡ None)) }
        ensures settings { KeepsSettings self.old self.new }
    {
        let _named = no_reply();
        let step = Step {
            tenant: 0,
            act: Act::Lose(row),
        };
        self.world.step_into(&step, &mut self.lost)
    }

    /// Whether the message of which an act is may have been lost. Such a step is not one to take here.
    pub fn may_have_lost(&self, act: &Act) -> bool
        ensures loses { IsTrue result → self.now.loses ≡ true }
        ensures has { (input : Input) (acts : List Acted) (history : History)
            (plays : Plays input acts history self.now) → result ≡ false
            → StillHas plays.own history act.now }
    {
        match act {
            Act::Deliver(row) | Act::Lose(row) => self.is_missing(*row),
            _ => false,
        }
    }

    /// Whether the message of a row is not there, though one that loses none may have it.
    fn is_missing(&self, row: u64) -> bool
        ensures loses { IsTrue result → self.now.loses ≡ true }
        ensures has { (input : Input) (acts : List Acted) (history : History)
            (plays : Plays input acts history self.now) → result ≡ false
            → message_at plays.own row ≡ message_at history row }
    {
        if !self.loses {
            return false;
        }
        self.message(row).is_none()
    }

    /// The message of a row, unless it was never sent or was lost.
    pub fn message(&self, row: u64) -> Option<&Message>
        ensures { (input : Input) (acts : List Acted) (history : History)
            (plays : Plays input acts history self.now)
            → option_copied result ≡ message_at plays.own row }
    {
        self.world.message(0, row)
    }

    /// How many committed versions of an item a collection keeps now.
    pub fn keep(&self) -> Keep
        ensures { (input : Input) (acts : List Acted) (history : History)
            → Plays input acts history self.now → result ≡ keep_in (setup_for input) history }
    {
        match self.world.keep(0) {
            Some(keep) => keep,
            None => self.limits.keep,
        }
    }

    /// The reply that a step delivers.
    pub fn reply_delivered(&self, act: &Act) -> Option<Reply>
        ensures { (input : Input) (acts : List Acted) (history : History)
            (plays : Plays input acts history self.now)
            → StillHas plays.own history act.now → result ≡ reply_delivered history act.now }
    {
        match act {
            Act::Deliver(row) => self.reply_at(*row),
            _ => None,
        }
    }

    /// The reply that the message of a row brings.
    fn reply_at(&self, row: u64) -> Option<Reply>
        ensures { (input : Input) (acts : List Acted) (history : History)
            (plays : Plays input acts history self.now)
            → result ≡ reply_in (message_at plays.own row) }
    {
        match self.message(row) {
            Some(message) => message.reply,
            None => None,
        }
    }

    /// Whether a step brings the event's call to the partition.
    pub fn brings(&self, partition: usize, event: &Event, act: &Act) -> bool
        ensures { (input : Input) (acts : List Acted) (history : History)
            (plays : Plays input acts history self.now)
            → StillHas plays.own history act.now
            → IsTrue result
            ↔ (call_coming (setup_for input) history partition act.now ≡ Some event.now.call) }
    {
        match act {
            Act::Deliver(row) => self.brings_at(partition, event, *row),
            Act::Collect(place) => *place as usize == partition
                && event.has_call(&Call::Collect(self.keep())),
            _ => false,
        }
    }

    /// Whether the message of a row is the event's call to the partition, or its reply.
    fn brings_at(&self, partition: usize, event: &Event, row: u64) -> bool
        ensures { (input : Input) (acts : List Acted) (history : History)
            (plays : Plays input acts history self.now)
            → IsTrue result
            ↔ (call_in partition (message_at plays.own row) ≡ Some event.now.call) }
    {
        match self.message(row) {
            Some(message) => message.partition as usize == partition
                && event.has_call(&message.call),
            None => false,
        }
    }
}
