ghost use Rattle.std.specs.Prelude.{◌≡◌, ◌+◌, ◌++◌, ◌<◌, IfOk, OnOk, replicate};
ghost use Rattle.schedule.specs.declared.item.Item2.{Item2};
ghost use Rattle.drawn_runs.specs.Drawing.{reached};
ghost use Rattle.drawn_runs.specs.Rounds as rounds;

use crate::drawing::Drawing;
use crate::message::{KINDS, message};
use schedule::{Item2, Schedule};
use std::alloc::Global;
use zbase::Memory;

/// How many rounds a run has.
const ROUNDS: u64 = 20;

/// How many workers take part, from worker 0 on. Each is given a request in each round.
const DRAWN_WORKERS: u32 = 8;

/// How many steps one worker makes ahead of the others.
const STEPS_AHEAD: u32 = 100;

/// How often each worker has a step after that.
const TURNS: u32 = 80;

// Each worker is given a message that is drawn.
fn put_requests(
    alloc: Global,
    round: u64,
    drawing: &mut Drawing,
    items: &mut Schedule,
) -> Result<(), Memory>
    requires { round < ROUNDS }
    ensures items { OnOk result (items.new ≡ items.old ++ rounds.requests drawing.old round) }
    ensures after { OnOk result (drawing.new ≡ reached drawing.old DRAWN_WORKERS) }
{
    for worker in 0..DRAWN_WORKERS {
        let number = DRAWN_WORKERS as u64 * round + worker as u64 + 1;
        let bytes = message(alloc, drawing.below(KINDS), number)?;
        items.push(Item2::Request(worker, bytes))?;
    }
    Ok(())
}

// One worker makes its steps ahead of the others.
fn put_steps_ahead(worker: u32, items: &mut Schedule) -> Result<(), Memory>
    ensures { OnOk result (items.new ≡ items.old ++ replicate STEPS_AHEAD (Item2.Step worker)) }
{
    for _step in 0..STEPS_AHEAD {
        items.push(Item2::Step(worker))?;
    }
    Ok(())
}

// Each worker has a step.
fn put_turn(items: &mut Schedule) -> Result<(), Memory>
    ensures { OnOk result (items.new ≡ items.old ++ rounds.turn) }
{
    for worker in 0..DRAWN_WORKERS {
        items.push(Item2::Step(worker))?;
    }
    Ok(())
}

// Each worker has a step, again and again.
fn put_turns(items: &mut Schedule) -> Result<(), Memory>
    ensures { OnOk result (items.new ≡ items.old ++ rounds.turns) }
{
    for _turn in 0..TURNS {
        put_turn(items)?;
    }
    Ok(())
}

// A whole round.
fn put_round(
    alloc: Global,
    round: u64,
    drawing: &mut Drawing,
    items: &mut Schedule,
) -> Result<(), Memory>
    requires { round < ROUNDS }
    ensures items { OnOk result (items.new ≡ items.old ++ rounds.round_from drawing.old round) }
    ensures after { OnOk result (drawing.new ≡ reached drawing.old (DRAWN_WORKERS + 1)) }
{
    put_requests(alloc, round, drawing, items)?;
    put_steps_ahead(drawing.below(DRAWN_WORKERS as u64) as u32, items)?;
    put_turns(items)
}

/// The run that a number draws: twenty rounds, in each of which eight workers are given a request each, then one of them
/// makes a hundred steps, and then each of them eighty, in turns.
#[tactic(auto, unfolding(crate::specs::Rounds::drawn_run))]
pub fn drawn_run(alloc: Global, number: u64) -> Result<Schedule, Memory>
    ensures { IfOk result (λ items. items ≡ rounds.drawn_run number) }
{
    let mut items = Schedule::new(alloc);
    let mut drawing = Drawing::new(number);
    for round in 0..ROUNDS {
        put_round(alloc, round, &mut drawing, &mut items)?;
    }
    Ok(items)
}
