//! The answers of a store of many tenants: each is run alone, over its own steps.
ghost use Rattle.std.specs.Prelude.{◌≡◌, ◌+◌, ◌<◌, ◌==◌, ◌∷◌, if◌then◌else◌, IfOk, length, map, slice_index_or, take};
ghost use Rattle.stamps.specs.Bounds.{IsParts};
ghost use Rattle.oracle.specs.Words.{LogsAreSound, ReadersAreFew};
ghost use Rattle.plain_store.specs.Run.{answer_to, moment_of};
ghost use Rattle.plain_store.specs.Tenants.{IsIsolated, store_answers};
ghost use Rattle.plain_store.specs.declared.step.Step.{Step as Stepped};
ghost use Rattle.plain_store.specs.Words.{setup_of};

use super::history::{Moment, Setup};
use super::replies::Room;
use super::{lists, run};
use plain_store::{Answer, OutOfMemory, Refusal, Step};
use stamps::Limits;
use std::alloc::{AllocError, Global};

/// What the store of a tenant with these limits is opened with.
fn setup_of(partitions: u32, limits: &Limits) -> Setup
    requires { IsParts partitions }
    ensures { result ≡ setup_of partitions limits.now }
{
    Setup {
        partitions,
        room: Room {
            slots: limits.slots,
            items: limits.items,
            clients: limits.clients,
        },
        keep: limits.keep,
    }
}

/// The tenant's history after a step, and the answer to the step: another tenant's has this other answer.
#[tactic(auto, unfolding(plain_store::specs::Run::answer_to))]
fn answer_step<'a>(
    alloc: Global,
    setup: &Setup,
    tenant: usize,
    history: Vec<Moment<'a>>,
    step: &'a Step,
    other: Answer,
) -> Result<(Vec<Moment<'a>>, Answer), OutOfMemory>
    requires sound { LogsAreSound setup.now history.items }
    requires few { ReadersAreFew history.items }
    ensures history { IfOk result (λ made. made.0.items
        ≡ (if step.now.tenant == tenant then moment_of setup.now history.entry.items step.now.act
        ∷ history.entry.items else history.entry.items)) }
    ensures answer { IfOk result (λ made. made.1
        ≡ (if step.now.tenant == tenant
        then answer_to setup.now history.entry.items step.now.act else other)) }
{
    if step.tenant as usize != tenant {
        return Ok((history, other));
    }
    let moment = run::moment_of(alloc, setup, &history, &step.act)?;
    let answer = moment.answer;
    Ok((lists::prepend(moment, history)?, answer))
}

/// The answer to the step of this number, from 0.
fn answer_at(answers: &[Answer], place: usize) -> Answer
    requires { place < length answers.now }
    ensures { result ≡ slice_index_or answers.now place result }
{
    answers[place]
}

/// The answers to the steps, with those of one tenant more than before.
fn answer_tenant(
    alloc: Global,
    partitions: u32,
    limits: &[Limits],
    tenant: usize,
    steps: &[Step],
    others: &[Answer],
) -> Result<Vec<Answer>, OutOfMemory>
    requires partitions { IsParts partitions }
    requires tenant { tenant < length limits.now }
    requires others { others.now ≡ store_answers partitions (take tenant limits.now) steps.now }
    ensures { IfOk result (λ list. list.items
        ≡ store_answers partitions (take (tenant + 1) limits.now) steps.now) }
{
    let setup = setup_of(partitions, &limits[tenant]);
    let mut history = Vec::new(alloc);
    let mut answers = Vec::new(alloc);
    for (place, step) in steps.iter().enumerate() {
        step.act.read_client();
        let other = answer_at(others, place);
        let (after, answer) = answer_step(alloc, &setup, tenant, history, step, other)?;
        answers = lists::append(answers, answer)?;
        history = after;
    }
    Ok(answers)
}

/// The answers where no tenant is there.
fn no_answers(alloc: Global, steps: &[Step]) -> Result<Vec<Answer>, AllocError>
    ensures { IfOk result (λ list. list.items
        ≡ map (λ (step : Stepped). Answer.Refused Refusal.NoTenant) steps.now) }
{
    steps
        .iter()
        .map(|_| Answer::Refused(Refusal::NoTenant))
        .collect(alloc)
}

/// The answers of a store of so many partitions, 1 to `MAX_PARTS`, to these steps, in their order. Each of the limits is a
/// tenant's, and each tenant is run alone, by the definitions: what another crate's store answers is compared with it in
/// tests. It goes over all earlier steps again at each step, and is for some hundred steps.
pub fn oracle_run(
    alloc: Global,
    partitions: u32,
    limits: &[Limits],
    steps: &[Step],
) -> Result<Vec<Answer>, OutOfMemory>
    requires { IsParts partitions }
    ensures answers { IfOk result (λ list. list.items
        ≡ store_answers partitions limits.now steps.now) }
    ensures isolated { IfOk result (λ list. IsIsolated partitions limits.now steps.now list.items) }
{
    let mut answers = no_answers(alloc, steps)?;
    for tenant in 0..limits.len() {
        answers = answer_tenant(alloc, partitions, limits, tenant, steps, &answers)?;
    }
    Ok(answers)
}
