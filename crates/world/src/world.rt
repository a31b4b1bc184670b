//! The world.
ghost use Rattle.std.specs.Prelude.{Some, slice_get, All, map, length, ◌≡◌, ◌<◌, vec_len, vec_capacity, ◌++◌, [], ◌∷◌, List, IfOk, OnOk, OnErr, is_ok};
ghost use Rattle.std.specs.Option.{option_copied};
ghost use Rattle.stamps.specs.Bounds.{IsParts};
ghost use Rattle.stamps.specs.declared.bounds.Limits.{Limits as Limited};
ghost use Rattle.plain_store.specs.History.{message_at, keep_in};
ghost use Rattle.plain_store.specs.Words.{setup_of};
ghost use Rattle.plain_store.specs.Tenants.{store_answer};
ghost use Rattle.plain_store.specs.declared.step.Step.{Step as Stepped};
ghost use Rattle.world.specs.Content.{parts_of, limits_of};
ghost use Rattle.world.specs.Standing.{StandsFor, history_of, answered_in_place};
ghost use Rattle.world.specs.Opening.{IsOpenedShelf, IsFresh};
ghost use Rattle.world.specs.Promises.{IsPromisedAfter};
ghost use Rattle.world.specs.Stepping.{IsOpenedWorld, RunsOn, StepsOn};
ghost use Rattle.world.specs.declared.tenant.Tenant.{Tenant as Owned};

use crate::tenant::Tenant;
use partition::Shelf;
use plain_store::{Answer, Message, OutOfMemory, ReadReply, Refusal, Reply, Step};
use stamps::{Keep, Limits};
use std::alloc::Global;
use std::marker::Model;

/// The store of all tenants: a shelf for each partition, on which each tenant has a cell, and for each tenant its
/// messages and sessions. It is asked for one step after another, and answers each step; nothing else moves it.
///
/// Contracts see the shelves and the tenants. What they stand for is a list of steps.
pub struct World {
    shelves: Vec<Shelf>,
    tenants: Vec<Tenant>,
}

// What lies in it is released here, so that no crate above proves it anew.
impl Drop for World {
    fn drop(self) {
        let World {
            shelves: _,
            tenants: _,
        } = self;
    }
}

impl Model for World {
    ghost use Rattle.world.specs.Content.{WorldContent, world_code};

    ghost Value = { WorldContent };

    ghost coded = { world_code };

    ghost use Rattle.world.specs.Standing.{IsWorld};

    ghost view = { λ w. record { shelves = w.shelves.items; tenants = w.tenants.items } };

    ghost invariant = { λ w. IsWorld w.shelves.items w.tenants.items };
}

impl World {
    /// A world of `parts` partitions, 1 to `MAX_PARTS`, with a tenant for each of the limits: the tenant's number is its place
    /// among them. The one error is that an allocation failed.
    pub fn open(alloc: Global, parts: u32, limits: &[Limits]) -> Result<World, OutOfMemory>
        requires { IsParts parts }
        ensures { IfOk result (IsOpenedWorld parts limits.now) }
    {
        let shelves = open_shelves(alloc, parts, limits)?;
        let tenants = open_tenants(alloc, parts, limits)?;
        Ok(World { shelves, tenants })
    }

    /// Takes one step, and answers it. A step that is refused changes nothing.
    ///
    /// The one error is that an allocation failed; then nothing has changed but the room that is reserved for messages. A
    /// step asks for memory after all its tests, so a step that would be refused asks for none; nor does the loss of a
    /// message, a stop, a collection or a step that sets what collections keep.
    pub fn step(&mut self, step: &Step) -> Result<Answer, OutOfMemory>
        ensures { StepsOn step.now self.old self.new result }
    {
        let mut answer = Answer::Ignored;
        match self.step_into(step, &mut answer) {
            Ok(()) => Ok(answer),
            Err(refused) => Err(refused),
        }
    }

    /// Does what `step` does, and writes the answer into the caller's buffer. Where an allocation failed, what is left there
    /// reports nothing.
    pub fn step_into(&mut self, step: &Step, answer: &mut Answer) -> Result<(), OutOfMemory>
        ensures { StepsOn step.now self.old self.new (answered_in_place result answer.new) }
    {
        step.act.read_client();
        let place = step.tenant as usize;
        if place >= self.tenants.len() {
            *answer = Answer::Refused(Refusal::NoTenant);
            return Ok(());
        }
        let tenant = &mut self.tenants[place];
        tenant.step(step.tenant, &mut self.shelves, &step.act, answer)
    }

    /// The message of a tenant's row, 1, 2 and so on in the order of sending; none where that row was never sent or was
    /// lost, or where there is no such tenant.
    pub fn message(&self, tenant: u32, row: u64) -> Option<&Message>
        ensures { (before : List Stepped) (its : Limited) → StandsFor self.now before
            → slice_get (limits_of self.now) tenant ≡ Some its
            → option_copied result
            ≡ message_at (history_of (setup_of (parts_of self.now) its) tenant before) row }
    {
        self.tenants.get(tenant as usize)?.table.get(row)
    }

    /// How many committed versions of an item a tenant's collections keep now; none where there is no such tenant.
    pub fn keep(&self, tenant: u32) -> Option<Keep>
        ensures { (before : List Stepped) (its : Limited) → StandsFor self.now before
            → slice_get (limits_of self.now) tenant ≡ Some its
            → result
            ≡ Some
            (keep_in (setup_of (parts_of self.now) its)
            (history_of (setup_of (parts_of self.now) its) tenant before)) }
    {
        Some(self.tenants.get(tenant as usize)?.keep)
    }

    /// Takes the steps in order, and adds the answer of each. Where an allocation fails it stops before the step that met
    /// this, and the answers are those to the steps before it.
    pub fn run(&mut self, steps: &[Step], answers: &mut Vec<Answer>) -> Result<(), OutOfMemory>
        ensures { RunsOn steps.now answers.old.items answers.new.items self.old self.new
            (is_ok result) }
    {
        for step in steps {
            self.answer(step, answers)?;
        }
        Ok(())
    }

    /// Takes one step, and adds its answer, for which it makes room first.
    fn answer(&mut self, step: &Step, answers: &mut Vec<Answer>) -> Result<(), OutOfMemory>
        ensures ok { OnOk result ((before : List Stepped) → StandsFor self.old before
            → (answers.new.items
            ≡ answers.old.items
            ++ store_answer (parts_of self.old) (limits_of self.old) before step.now ∷ [])
            × StandsFor self.new (before ++ step.now ∷ [])) }
        ensures promised { OnOk result ((before : List Stepped) → StandsFor self.old before
            → IsPromisedAfter (parts_of self.old) (limits_of self.old) before step.now
            (store_answer (parts_of self.old) (limits_of self.old) before step.now)) }
        ensures err { OnErr result ((before : List Stepped) → StandsFor self.old before
            → StandsFor self.new before) }
        ensures kept { OnErr result (answers.new.items ≡ answers.old.items) }
        ensures parts { parts_of self.new ≡ parts_of self.old }
        ensures limits { limits_of self.new ≡ limits_of self.old }
    {
        let _named = no_reply();
        reserve_one(answers)?;
        push_ok(answers, self.step(step))
    }
}

/// A shelf for each partition.
fn open_shelves(alloc: Global, parts: u32, limits: &[Limits]) -> Result<Vec<Shelf>, OutOfMemory>
    ensures count { IfOk result (λ shelves. length shelves.items ≡ parts) }
    ensures opened { IfOk result (λ shelves. All (IsOpenedShelf limits.now) shelves.items) }
{
    let mut shelves = Vec::with_capacity(alloc, parts as usize)?;
    for place in 0..parts {
        let _place = place;
        shelves.push_reserved(Shelf::open(alloc, limits)?);
    }
    Ok(shelves)
}

/// A tenant for each of the limits.
fn open_tenants(alloc: Global, parts: u32, limits: &[Limits]) -> Result<Vec<Tenant>, OutOfMemory>
    requires { IsParts parts }
    ensures limits { IfOk result (λ tenants. map (λ (tenant : Owned). tenant.limits) tenants.items
        ≡ limits.now) }
    ensures fresh { IfOk result (λ tenants. All (IsFresh parts) tenants.items) }
{
    let mut tenants = Vec::with_capacity(alloc, limits.len())?;
    for its in limits {
        tenants.push_reserved(Tenant::open(alloc, parts, its)?);
    }
    Ok(tenants)
}

/// Makes room for one more.
fn reserve_one<T>(list: &mut Vec<T>) -> Result<(), OutOfMemory>
    ensures items { list.new.items ≡ list.old.items }
    ensures room { OnOk result (vec_len list.new < vec_capacity list.new) }
{
    Ok(list.reserve(1)?)
}

/// Adds what an `Ok` holds, for which there is room.
fn push_ok<T, E>(list: &mut Vec<T>, made: Result<T, E>) -> Result<(), E>
    requires { vec_len list.old < vec_capacity list.old }
    ensures ok { IfOk made (λ item. OnOk result (list.new.items ≡ list.old.items ++ item ∷ [])) }
    ensures err { OnErr result (list.new.items ≡ list.old.items) }
    ensures same { is_ok result ≡ is_ok made }
{
    list.push_reserved(made?);
    Ok(())
}

/// No reply. A function that keeps an answer names the types of replies by it, which the checker does not find in the answer's.
fn no_reply() -> Option<(Reply, ReadReply)> {
    None
}
