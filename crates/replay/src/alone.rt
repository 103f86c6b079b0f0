ghost use Rattle.std.specs.Prelude.{◌≡◌, ◌≢◌, ◌≤◌, ◌<◌, ◌++◌, ◌∷◌, ℕ, List, [], false, IfErr, IfOk, IsErrOf, length, replicate};
ghost use Rattle.std.specs.List.{AllByRecursion};
ghost use Rattle.zbase.specs.Faults.{Counts};
ghost use Rattle.fs_record.specs.declared.damage.Damage.{Damage as Kind};
ghost use Rattle.fs_record.specs.Opening.{Damaged};
ghost use Rattle.packing.specs.Reachable.{Linking};
ghost use Rattle.zio.specs.Sinks.{due};
ghost use Rattle.schedule.specs.declared.item.Item2.{Item2};
ghost use Rattle.schedule.specs.declared.line.Line.{Line};
ghost use Rattle.schedule.specs.Alone.{IsNoIdle, IsSerial};
ghost use Rattle.schedule.specs.Moments.{clocked};
ghost use Rattle.fs_store.specs.Stores.{IsTold, most_length};
ghost use Rattle.txn_core.specs.Cores.{IsAtRest, IsIdle};
ghost use Rattle.txn_core.specs.Slots.{moment_of};
ghost use Rattle.replay.specs.BrokenOff.{CannotRun};
ghost use Rattle.replay.specs.Kept.{GoesNeeded, IsOpened, IsUnarmed, Kept};
ghost use Rattle.replay.specs.Printed.{Prints, opening, terms_of};
ghost use Rattle.replay.specs.Refusals.{IsOfItems, IsOfPrinting};
ghost use Rattle.replay.specs.Replayed.{AreOpened, Runs};
ghost use Rattle.replay.specs.Serials.{BreaksAlone, BrokenAlone, Serials};

use crate::ending::end_run;
use crate::item::{Run, broken_off, give};
use crate::pack::run_pack;
use crate::printing::put_step;
use crate::refusal::RunRefusal;
use crate::running::{open_bytes, put_opening};
use evaluator::Evaluator;
use fs_store::Store;
use packing::Links;
use schedule::{Item2, Schedule, WORKERS, runs_are_serial};
use std::alloc::Global;
use txn_core::Core;
use zbase::{Bytes, Tid};
use zdisk::{Disk, MemoryDisk};
use zio::{Pending, Sink};

// Steps of a worker, until its request has its reply. No other has a request, and nothing is armed.
fn run_to_reply<E: Evaluator, K: Sink>(
    alloc: Global,
    run: Run<E>,
    worker: u32,
    held: &mut Pending,
    out: &mut K,
) -> Result<Run<E>, RunRefusal>
    requires worker { worker < WORKERS }
    requires told { IsTold run.core.store }
    requires unarmed { IsUnarmed run.core.store }
    requires limit { (run.limit ≡ run.core.store.limit) × (run.limit ≤ most_length) }
    requires alone { (v : ℕ) → v < WORKERS → v ≢ worker → IsIdle run.core v }
    ensures told { IfOk result (λ new. IsTold new.core.store) }
    ensures unarmed { IfOk result (λ new. IsUnarmed new.core.store) }
    ensures limit { IfOk result (λ new. (new.limit ≡ run.limit) × (new.core.store.limit ≡ run.limit)) }
    ensures rest { IfOk result (λ new. IsAtRest E.meaning new.core) }
    ensures ok { IfOk result (λ new. (n : ℕ) × ((links : Linking)
        → GoesNeeded E.takes E.meaning links run.limit run.core run.clock (replicate n (Item2.Step worker)) new.core new.clock
        (due (K.written out.old) held.old) (due (K.written out.new) held.new))) }
    ensures refused { IfErr result IsOfPrinting }
    ensures counts { Counts (K.counter out.old) (K.counter out.new) (IsErrOf result RunRefusal.Output) }
{
    let Run {
        mut core,
        limit,
        clock,
    } = run;
    'steps: while !core.is_free(worker) {
        core.is_sound();
        // Nothing waits in the queue, so the step can't fail.
        let _running = core.stopped();
        let line = core.step(worker, clock);
        core.is_sound();
        core.store().is_sound();
        let _goes = core.stopped();
        match put_step(alloc, worker, line, held, out) {
            Ok(()) => {}
            Err(refusal) => return broken_off(core, RunRefusal::from(refusal)),
        }
    }
    // No worker has a request now.
    core.is_sound();
    let _rests = core.is_idle();
    Ok(Run { core, limit, clock })
}

// Gives a worker a request, and runs it alone.
fn run_request<E: Evaluator, K: Sink>(
    alloc: Global,
    run: Run<E>,
    number: u64,
    worker: u32,
    bytes: &Bytes,
    held: &mut Pending,
    out: &mut K,
) -> Result<Run<E>, RunRefusal>
    requires told { IsTold run.core.store }
    requires unarmed { IsUnarmed run.core.store }
    requires limit { (run.limit ≡ run.core.store.limit) × (run.limit ≤ most_length) }
    requires rest { IsAtRest E.meaning run.core }
    ensures told { IfOk result (λ new. IsTold new.core.store) }
    ensures unarmed { IfOk result (λ new. IsUnarmed new.core.store) }
    ensures limit { IfOk result (λ new. (new.limit ≡ run.limit) × (new.core.store.limit ≡ run.limit)) }
    ensures rest { IfOk result (λ new. IsAtRest E.meaning new.core) }
    ensures ok { IfOk result (λ new. (n : ℕ) × ((links : Linking) → GoesNeeded E.takes E.meaning links run.limit run.core run.clock
        (Item2.Request worker bytes.now ∷ replicate n (Item2.Step worker)) new.core new.clock
        (due (K.written out.old) held.old) (due (K.written out.new) held.new))) }
    ensures bad_line { (n : ℕ) (links : Linking) (end : ℕ) → IsErrOf result (RunRefusal.BadLine n)
        → (n ≡ number) × CannotRun (terms_of E.takes E.meaning links run.limit end) (clocked (moment_of E.meaning run.core.store run.core.slots) run.clock)
        (Item2.Request worker bytes.now) × (due (K.written out.new) held.new ≡ due (K.written out.old) held.old) }
    ensures refused { IfErr result IsOfItems }
    ensures counts { Counts (K.counter out.old) (K.counter out.new) (IsErrOf result RunRefusal.Output) }
{
    let Run {
        mut core,
        limit,
        clock,
    } = run;
    match give(&mut core, worker, bytes) {
        Ok(true) => run_to_reply(alloc, Run { core, limit, clock }, worker, held, out),
        Ok(false) => broken_off(core, RunRefusal::BadLine(number)),
        Err(_) => broken_off(core, RunRefusal::Memory),
    }
}

// Runs what is run of an item: a request alone, a clock or a pack where it stands.
fn run_alone<E: Evaluator, L: Links, K: Sink>(
    alloc: Global,
    run: Run<E>,
    number: u64,
    item: &Item2,
    links: &L,
    held: &mut Pending,
    out: &mut K,
) -> Result<Run<E>, RunRefusal>
    requires told { IsTold run.core.store }
    requires unarmed { IsUnarmed run.core.store }
    requires limit { (run.limit ≡ run.core.store.limit) × (run.limit ≤ most_length) }
    requires rest { IsAtRest E.meaning run.core }
    ensures told { IfOk result (λ new. IsTold new.core.store) }
    ensures unarmed { IfOk result (λ new. IsUnarmed new.core.store) }
    ensures limit { IfOk result (λ new. (new.limit ≡ run.limit) × (new.core.store.limit ≡ run.limit)) }
    ensures rest { IfOk result (λ new. IsAtRest E.meaning new.core) }
    ensures ok { IfOk result (λ new. (ran : List Item2) × (IsSerial (item.now ∷ []) ran
        × GoesNeeded E.takes E.meaning L.linked run.limit run.core run.clock ran new.core new.clock
        (due (K.written out.old) held.old) (due (K.written out.new) held.new))) }
    ensures bad_line { (n : ℕ) (end : ℕ) → IsErrOf result (RunRefusal.BadLine n)
        → (n ≡ number) × CannotRun (terms_of E.takes E.meaning L.linked run.limit end)
        (clocked (moment_of E.meaning run.core.store run.core.slots) run.clock) item.now
        × (due (K.written out.new) held.new ≡ due (K.written out.old) held.old) }
    ensures refused { IfErr result IsOfItems }
    ensures counts { Counts (K.counter out.old) (K.counter out.new) (IsErrOf result RunRefusal.Output) }
{
    match item {
        Item2::Request(worker, bytes) => run_request(alloc, run, number, *worker, bytes, held, out),
        Item2::Clock(stamp) => {
            let Run {
                core,
                limit,
                clock: _,
            } = run;
            Ok(Run {
                core,
                limit,
                clock: *stamp,
            })
        }
        Item2::Pack(before) => run_pack(alloc, run, *before, links, held, out),
        // What goes wrong is no part of a run alone, nor are steps that weren't asked for.
        Item2::Step(_) => Ok(run),
        Item2::Stop(_, _) => Ok(run),
        Item2::Fail(_, _) => Ok(run),
        Item2::End => {
            let Run {
                core,
                limit: _,
                clock: _,
            } = run;
            broken_off(core, RunRefusal::BadLine(number))
        }
    }
}

// Runs the items alone from the first on, behind what opens a report.
fn run_each<E: Evaluator, L: Links, K: Sink>(
    alloc: Global,
    core: Core<MemoryDisk, E>,
    limit: u64,
    items: &[Item2],
    links: &L,
    held: &mut Pending,
    out: &mut K,
) -> Result<Core<MemoryDisk, E>, RunRefusal>
    requires limit { (limit ≡ core.store.limit) × (limit ≤ most_length) }
    requires fresh { core.store.stale ≡ false }
    requires opened { (given : List ℕ) × IsOpened E.meaning given core }
    ensures rest { IfOk result (λ new. IsAtRest E.meaning new) }
    ensures ran { IfOk result (λ new. (given : List ℕ) → IsOpened E.meaning given core
        → (now : ℕ) × (run : List Item2) × (lines : List Line) × IsSerial items.now run × Kept E.meaning
        (terms_of E.takes E.meaning L.linked limit core.store.end) given core.store.history run lines new now
        × Prints (due (K.written out.old) held.old) (due (K.written out.new) held.new) (opening core.store.history ++ lines)
        × AllByRecursion IsNoIdle lines) }
    ensures bad_line { (n : ℕ) → IsErrOf result (RunRefusal.BadLine n)
        → BrokenAlone (terms_of E.takes E.meaning L.linked limit core.store.end) core.store.history items.now n
        (due (K.written out.old) held.old) (due (K.written out.new) held.new) }
    ensures refused { IfErr result IsOfItems }
    ensures counts { Counts (K.counter out.old) (K.counter out.new) (IsErrOf result RunRefusal.Output) }
{
    runs_are_serial::<E>();
    core.is_sound();
    core.store().is_sound();
    match put_opening(alloc, core.store(), held, out) {
        Ok(()) => {}
        Err(refusal) => return broken_off(core, RunRefusal::from(refusal)),
    }
    let mut run = Run {
        core,
        limit,
        clock: Tid(0),
    };
    let mut number: u64 = 2;
    for item in items {
        run = run_alone(alloc, run, number, item, links, held, out)?;
        number = number.saturating_add(1);
    }
    let Run {
        core,
        limit: _,
        clock: _,
    } = run;
    Ok(core)
}

// Runs a schedule's requests alone over the store of some bytes and closes the report. What is pending at the end is still
// to be flushed.
fn run_each_over<E: Evaluator, L: Links, K: Sink>(
    alloc: Global,
    store: Store<MemoryDisk>,
    limit: u64,
    items: &[Item2],
    evaluator: E,
    links: &L,
    held: &mut Pending,
    out: &mut K,
) -> Result<MemoryDisk, RunRefusal>
    requires limit { limit ≤ most_length }
    requires opened { (bytes : List ℕ) × Runs bytes limit store }
    ensures serial { IfOk result (λ disk. (bytes : List ℕ) → Runs bytes limit store
        → Serials E.takes E.meaning L.linked limit bytes items.now (⟦<MemoryDisk as Disk>⟧.told disk)
        (due (K.written out.old) held.old) (due (K.written out.new) held.new)) }
    ensures bad_line { (n : ℕ) → IsErrOf result (RunRefusal.BadLine n) → (bytes : List ℕ) → Runs bytes limit store
        → BreaksAlone E.takes E.meaning L.linked limit bytes items.now n (due (K.written out.old) held.old) (due (K.written out.new) held.new) }
    ensures refused { IfErr result IsOfItems }
    ensures counts { Counts (K.counter out.old) (K.counter out.new) (IsErrOf result RunRefusal.Output) }
{
    runs_are_serial::<E>();
    store.is_sound();
    let Ok(core) = Core::new(alloc, store, evaluator) else {
        return Err(RunRefusal::Memory);
    };
    let core = run_each(alloc, core, limit, items, links, held, out)?;
    end_run(alloc, core, held, out)
}

/// Runs each request of a schedule alone, over the file that these bytes are, which may have `limit` bytes, by an evaluator, and
/// writes the report of that: behind each request come the steps of its worker until its reply. Clocks and packs stand where they
/// stood; steps, stops and failures are passed over, so no call of the device fails. With `Ok` the disk comes back, whose one
/// image is a file of the history that the report prints last.
///
/// Where an item can't be run, the items before it are run and printed.
pub fn serial<E: Evaluator, L: Links, K: Sink>(
    alloc: Global,
    bytes: Bytes,
    limit: u64,
    schedule: &Schedule,
    evaluator: E,
    links: &L,
    out: &mut K,
) -> Result<MemoryDisk, RunRefusal>
    requires limit { limit ≤ most_length }
    requires size { length bytes ≤ most_length }
    ensures serial { IfOk result (λ disk. Serials E.takes E.meaning L.linked limit bytes schedule.now (⟦<MemoryDisk as Disk>⟧.told disk)
        (K.written out.old) (K.written out.new)) }
    ensures damaged { (kind : Kind) (place : ℕ) → IsErrOf result (RunRefusal.Damaged kind place)
        → Damaged bytes place kind × (K.written out.new ≡ K.written out.old) }
    ensures bad_line { (n : ℕ) → IsErrOf result (RunRefusal.BadLine n)
        → BreaksAlone E.takes E.meaning L.linked limit bytes schedule.now n (K.written out.old) (K.written out.new) }
    ensures output { IsErrOf result RunRefusal.Output → AreOpened bytes }
    ensures counts { Counts (K.counter out.old) (K.counter out.new) (IsErrOf result RunRefusal.Output) }
{
    let store = open_bytes(alloc, bytes, limit)?;
    let Ok(mut held) = Pending::new(alloc) else {
        return Err(RunRefusal::Memory);
    };
    let items = schedule.as_slice();
    match run_each_over(alloc, store, limit, items, evaluator, links, &mut held, out) {
        Ok(disk) => {
            held.flush(out)?;
            Ok(disk)
        }
        Err(RunRefusal::BadLine(number)) => {
            held.flush(out)?;
            Err(RunRefusal::BadLine(number))
        }
        Err(RunRefusal::Memory) => {
            held.flush(out)?;
            Err(RunRefusal::Memory)
        }
        Err(RunRefusal::Output) => Err(RunRefusal::Output),
        // The bytes were opened.
        Err(RunRefusal::Damaged(_, _)) => unreachable!(),
    }
}
