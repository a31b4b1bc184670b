//! world: the whole store, step by step.
use crate::values::{client, limits, no_parts};
use plain_store::{Act, Answer, OutOfMemory, Step};
use stamps::{Client, Counter};
use std::alloc::Global;
use world::World;

/// Whether steps are answered one by one and as a list.
fn are_answered(alloc: Global) -> Option<bool> {
    let _named = no_parts();
    let (client, base): (Client, Counter) = (client(1)?, Counter::new(7)?);
    let limits = [limits(4)?];
    let opened: Result<World, OutOfMemory> = World::open(alloc, 2, &limits);
    let mut world = opened.ok()?;
    let hello = Step {
        tenant: 0,
        act: Act::Hello(client, base),
    };
    let answer: Result<Answer, OutOfMemory> = world.step(&hello);
    let mut steps: Vec<Step> = Vec::new(alloc);
    steps
        .push(Step {
            tenant: 0,
            act: Act::Stop(client),
        })
        .ok()?;
    let mut answers: Vec<Answer> = Vec::new(alloc);
    let ran: Result<(), OutOfMemory> = world.run(&steps, &mut answers);
    let is_ready = answer == Ok(Answer::Ready(base));
    Some(is_ready && ran.is_ok() && answers.as_slice() == [Answer::Stopped].as_slice())
}

#[test]
fn world_has_its_calls(rt: HostRuntime) {
    assert!(rt; are_answered(rt.alloc()) == Some(true));
}
