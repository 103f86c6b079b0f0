ghost use Rattle.std.specs.Prelude.{◌≡◌, ◌++◌, ◌<◌, List, [], None, Some, IfOk, OnErr, OnOk, flat_map, length};
ghost use Rattle.schedule.specs.Items.{item_text};
ghost use Rattle.schedule.specs.declared.item.Item2.{Item2};
ghost use Rattle.txn_core.specs.declared.step_line.StepLine.{StepLine};
ghost use Rattle.zserve.specs.Going.{Went};
ghost use Rattle.zserve.specs.Happened.{Happening, items};
ghost use Rattle.txn_core.specs.Replying.{final};
ghost use Rattle.zserve.specs.Rounds.{TurnedSoFar};
ghost use Rattle.zserve.specs.Sweeping.{Filed, Turned, Waits};
ghost use Rattle.zserve.specs.Turns.{all_in};
ghost use Rattle.zserve.specs.Waiting.{Stepped};

use evaluator::Evaluator;
use schedule::{Item2, WORKERS, write_item};
use std::alloc::Global;
use txn_core::{Core, reply_of};
use zbase::{Bytes, Memory, Tid};
use zdisk::Disk;

// One step of a worker, which the tape has before it is made: the reply, where it ended the request.
fn step<D: Disk + Drop, E: Evaluator>(
    alloc: Global,
    core: &mut Core<D, E>,
    worker: u32,
    now: Tid,
    text: &mut Bytes,
) -> Result<Option<Bytes>, Memory>
    requires worker { worker < WORKERS }
    ensures stepped { IfOk result (λ reply. (line : StepLine) × Stepped E.takes E.meaning core.old core.new worker now line × (reply ≡ final line)) }
    ensures went { OnErr result (Went E.takes E.meaning core.old now core.new) }
    ensures text { OnOk result (text.new ≡ text.old ++ item_text (Item2.Step worker)) }
{
    core.is_sound();
    write_item(&Item2::Step(worker), text)?;
    let line = core.step(worker, now);
    core.is_sound();
    reply_of(alloc, &line)
}

// One step of a worker whose reply is waited for: it is filed, or the worker waits still.
fn step_and_file<D: Disk + Drop, E: Evaluator>(
    alloc: Global,
    core: &mut Core<D, E>,
    worker: u32,
    now: Tid,
    replies: &mut Vec<Option<Bytes>>,
    still: &mut Vec<u32>,
    text: &mut Bytes,
) -> Result<(), Memory>
    requires worker { worker < WORKERS }
    requires within { worker < length replies.old.items }
    ensures stepped { OnOk result ((line : StepLine) × Stepped E.takes E.meaning core.old core.new worker now line
        × Filed line worker replies.old.items replies.new.items still.old.items still.new.items) }
    ensures went { OnErr result (Went E.takes E.meaning core.old now core.new) }
    ensures text { OnOk result (text.new ≡ text.old ++ item_text (Item2.Step worker)) }
{
    match step(alloc, core, worker, now, text)? {
        Some(reply) => replies[worker as usize] = Some(reply),
        None => still.push(worker)?,
    }
    Ok(())
}

// One turn: each of the workers that wait takes a step. Those that wait still.
fn turn<D: Disk + Drop, E: Evaluator>(
    alloc: Global,
    core: &mut Core<D, E>,
    now: Tid,
    waiting: &[u32],
    replies: &mut Vec<Option<Bytes>>,
    text: &mut Bytes,
) -> Result<Vec<u32>, Memory>
    requires waits { Waits core.old waiting.now }
    requires sixteen { length replies.old.items ≡ WORKERS }
    ensures turned { IfOk result (λ still. (turn : List Happening)
        × Turned E.takes E.meaning core.old core.new now waiting.now still.items turn replies.old.items replies.new.items
        × (text.new ≡ text.old ++ flat_map item_text (items turn))) }
    ensures went { OnErr result (Went E.takes E.meaning core.old now core.new) }
{
    core.is_sound();
    let mut still = Vec::new(alloc);
    for worker in waiting {
        step_and_file(alloc, core, *worker, now, replies, &mut still, text)?;
    }
    Ok(still)
}

/// Steps the workers that wait in turns, until each has its reply.
pub(crate) fn take_turns<D: Disk + Drop, E: Evaluator>(
    alloc: Global,
    core: &mut Core<D, E>,
    now: Tid,
    waiting: Vec<u32>,
    replies: &mut Vec<Option<Bytes>>,
    text: &mut Bytes,
) -> Result<(), Memory>
    requires waits { Waits core.old waiting.items }
    requires sixteen { length replies.old.items ≡ WORKERS }
    ensures turned { OnOk result ((turns : List (List Happening))
        × TurnedSoFar E.takes E.meaning core.old core.new now waiting.items [] turns replies.old.items replies.new.items
        × (text.new ≡ text.old ++ flat_map item_text (items (all_in turns)))) }
    ensures went { OnErr result (Went E.takes E.meaning core.old now core.new) }
{
    let mut waiting = waiting;
    'taking: while !waiting.is_empty() {
        waiting = turn(alloc, core, now, waiting.as_slice(), replies, text)?;
    }
    Ok(())
}
