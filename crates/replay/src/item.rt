ghost use Rattle.std.specs.Prelude.{◌≡◌, ◌≢◌, ◌⊎◌, ◌∷◌, ◌<◌, ◌≤◌, ℕ, [], Err, None, false, true, IfErr, IfOk, IsErrOf, slice_get};
ghost use Rattle.zbase.specs.Faults.{Counts};
ghost use Rattle.zio.specs.Sinks.{due};
ghost use Rattle.packing.specs.Reachable.{Linking};
ghost use Rattle.schedule.specs.Follows.{Follows};
ghost use Rattle.schedule.specs.Moments.{clocked};
ghost use Rattle.schedule.specs.declared.item.Item2.{Item2};
ghost use Rattle.fs_store.specs.Stores.{IsTold, most_length};
ghost use Rattle.txn_core.specs.Cores.{IsIdle, MayBe};
ghost use Rattle.txn_core.specs.Slots.{moment_of};
ghost use Rattle.replay.specs.BrokenOff.{CannotRun};
ghost use Rattle.replay.specs.Kept.{GoesOn};
ghost use Rattle.replay.specs.Printed.{terms_of};
ghost use Rattle.replay.specs.Refusals.{IsOfItems, IsOfPrinting};

use crate::pack::run_pack;
use crate::printing::put_step;
use crate::refusal::RunRefusal;
use crate::restarting::restart;
use evaluator::Evaluator;
use packing::Links;
use schedule::{Item2, WORKERS};
use std::alloc::Global;
use txn_core::Core;
use zbase::{Bytes, Memory, Tid};
use zdisk::MemoryDisk;
use zio::{Pending, Sink};

/// A run between two items: its core, how many bytes its file may have, and the last stamp of its clock.
pub(crate) struct Run<E: Evaluator> {
    pub(crate) core: Core<MemoryDisk, E>,
    pub(crate) limit: u64,
    pub(crate) clock: Tid,
}

/// Ends a core whose run is broken off.
pub(crate) fn broken_off<T, E: Evaluator>(
    core: Core<MemoryDisk, E>,
    refusal: RunRefusal,
) -> Result<T, RunRefusal>
    ensures { result ≡ Err refusal }
{
    let _closed = core.close();
    Err(refusal)
}

/// Gives a worker a request; false where it isn't free, or the bytes aren't one message.
pub(crate) fn give<E: Evaluator>(
    core: &mut Core<MemoryDisk, E>,
    worker: u32,
    bytes: &Bytes,
) -> Result<bool, Memory>
    ensures store { core.new.store ≡ core.old.store }
    ensures refused { IfOk result (λ given. given ≡ false → (E.takes bytes.now ≡ None) ⊎ (IsIdle core.old worker → ⊥)) }
    ensures same { IfOk result (λ given. given ≡ false → core.new ≡ core.old) }
    ensures some { IfOk result (λ given. given ≡ true → worker < WORKERS) }
    ensures others { (v : ℕ) → v ≢ worker → slice_get core.new.slots v ≡ slice_get core.old.slots v }
    ensures given { IfOk result (λ given. given ≡ true → (links : Linking) (now limit end : ℕ)
        → Follows (terms_of E.takes E.meaning links limit end) (MayBe E.meaning core.old) now (MayBe E.meaning core.new) now
        (Item2.Request worker bytes.now) []) }
{
    core.is_sound();
    if worker >= WORKERS as u32 {
        return Ok(false);
    }
    let Some(request) = core.take(bytes.as_slice())? else {
        return Ok(false);
    };
    match core.give(worker, request) {
        Ok(()) => Ok(true),
        Err(_) => Ok(false),
    }
}

// Runs a step of a worker, and writes what it printed. Where the disk stopped in it, the core is made anew over what the
// stop left.
fn run_step<E: Evaluator, K: Sink>(
    alloc: Global,
    run: Run<E>,
    worker: u32,
    held: &mut Pending,
    out: &mut K,
) -> Result<Run<E>, RunRefusal>
    requires worker { worker < WORKERS }
    requires told { IsTold run.core.store }
    requires limit { (run.limit ≡ run.core.store.limit) × (run.limit ≤ most_length) }
    ensures limit { IfOk result (λ new. (new.limit ≡ run.limit) × (new.core.store.limit ≡ run.limit)) }
    ensures ok { IfOk result (λ new. (links : Linking)
        → GoesOn E.takes E.meaning links run.limit run.core run.clock (Item2.Step worker ∷ []) new.core new.clock
        (due (K.written out.old) held.old) (due (K.written out.new) held.new)) }
    ensures refused { IfErr result IsOfPrinting }
    ensures counts { Counts (K.counter out.old) (K.counter out.new) (IsErrOf result RunRefusal.Output) }
{
    let Run {
        mut core,
        limit,
        clock,
    } = run;
    core.is_sound();
    // Where nothing waits in the queue, the step can't fail.
    let _running = core.stopped();
    let line = core.step(worker, clock);
    core.is_sound();
    core.store().is_sound();
    if core.stopped() {
        let core = restart(alloc, core, limit, Some(worker), held, out)?;
        return Ok(Run { core, limit, clock });
    }
    match put_step(alloc, worker, line, held, out) {
        Ok(()) => Ok(Run { core, limit, clock }),
        Err(refusal) => broken_off(core, RunRefusal::from(refusal)),
    }
}

/// Runs the item with this line number. What a refusal leaves of the core is closed.
pub(crate) fn run_item<E: Evaluator, L: Links, K: Sink>(
    alloc: Global,
    run: Run<E>,
    number: u64,
    item: &Item2,
    links: &L,
    held: &mut Pending,
    out: &mut K,
) -> Result<Run<E>, RunRefusal>
    requires told { IsTold run.core.store }
    requires running { run.core.store.disk.counter.arms.stopped ≡ false }
    requires limit { (run.limit ≡ run.core.store.limit) × (run.limit ≤ most_length) }
    ensures limit { IfOk result (λ new. (new.limit ≡ run.limit) × (new.core.store.limit ≡ run.limit)) }
    ensures ok { IfOk result (λ new. GoesOn E.takes E.meaning L.linked run.limit run.core run.clock (item.now ∷ []) new.core new.clock
        (due (K.written out.old) held.old) (due (K.written out.new) held.new)) }
    ensures bad_line { (n end : ℕ) → IsErrOf result (RunRefusal.BadLine n)
        → (n ≡ number) × CannotRun (terms_of E.takes E.meaning L.linked run.limit end)
        (clocked (moment_of E.meaning run.core.store run.core.slots) run.clock) item.now
        × (due (K.written out.new) held.new ≡ due (K.written out.old) held.old) }
    ensures refused { IfErr result IsOfItems }
    ensures counts { Counts (K.counter out.old) (K.counter out.new) (IsErrOf result RunRefusal.Output) }
{
    let Run {
        mut core,
        limit,
        clock,
    } = run;
    match item {
        Item2::Request(worker, bytes) => match give(&mut core, *worker, bytes) {
            Ok(true) => Ok(Run { core, limit, clock }),
            Ok(false) => broken_off(core, RunRefusal::BadLine(number)),
            Err(_) => broken_off(core, RunRefusal::Memory),
        },
        Item2::Step(worker) => {
            if *worker >= WORKERS as u32 {
                return broken_off(core, RunRefusal::BadLine(number));
            }
            run_step(alloc, Run { core, limit, clock }, *worker, held, out)
        }
        Item2::Clock(stamp) => Ok(Run {
            core,
            limit,
            clock: *stamp,
        }),
        Item2::Stop(calls, seed) => {
            if *calls == 0 {
                return broken_off(core, RunRefusal::BadLine(number));
            }
            match core.arm_stop(*calls, *seed) {
                Ok(()) => Ok(Run { core, limit, clock }),
                Err(_) => broken_off(core, RunRefusal::Memory),
            }
        }
        Item2::Fail(calls, seed) => {
            if *calls == 0 {
                return broken_off(core, RunRefusal::BadLine(number));
            }
            match core.arm_fail(*calls, *seed) {
                Ok(()) => Ok(Run { core, limit, clock }),
                Err(_) => broken_off(core, RunRefusal::Memory),
            }
        }
        Item2::Pack(before) => {
            run_pack(alloc, Run { core, limit, clock }, *before, links, held, out)
        }
        Item2::End => broken_off(core, RunRefusal::BadLine(number)),
    }
}
