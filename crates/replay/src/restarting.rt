ghost use Rattle.std.specs.Prelude.{◌≡◌, ◌<◌, ◌≤◌, ◌∷◌, ℕ, List, [], None, false, true, IfErr, IfOk, IfSome, IsErrOf, OnOk, length, map};
ghost use Rattle.zbase.specs.Faults.{Counts};
ghost use Rattle.zbase.specs.History.{History};
ghost use Rattle.zbase.specs.Values.{last};
ghost use Rattle.zio.specs.Sinks.{due};
ghost use Rattle.schedule.specs.declared.line.Line.{Line};
ghost use Rattle.schedule.specs.Openings.{OpeningsOf};
ghost use Rattle.schedule.specs.Stepping.{Opening, opening_line};
ghost use Rattle.fs_store.specs.Stores.{IsTold, most_length};
ghost use Rattle.txn_core.specs.Cores.{is_taken};
ghost use Rattle.replay.specs.Losing.{lost_marks, with_worker};
ghost use Rattle.replay.specs.Printed.{Prints};
ghost use Rattle.replay.specs.Refusals.{IsOfPrinting};
ghost use Rattle.replay.specs.Restarts.{GoesOnBy, OpensAnew, Restarts, restart_lines};

use crate::losing::put_lost;
use crate::printing::put_line;
use crate::refusal::RunRefusal;
use evaluator::Evaluator;
use fs_store::{OpenRefusal, Store};
use schedule::{Line, WORKERS};
use std::alloc::Global;
use txn_core::Core;
use zdisk::{Disk, MemoryDisk};
use zio::{OutsideRefusal, Pending, Sink};

// Writes what an opening met that failed, and lets the disk go on that was stopped by it.
fn go_on<K: Sink>(
    alloc: Global,
    disk: MemoryDisk,
    held: &mut Pending,
    out: &mut K,
) -> Result<MemoryDisk, OutsideRefusal>
    ensures went { IfOk result (λ next. (opening : Opening)
        × GoesOnBy opening (⟦<MemoryDisk as Disk>⟧.counter disk).arms (⟦<MemoryDisk as Disk>⟧.counter next).arms
        × Prints (due (K.written out.old) held.old) (due (K.written out.new) held.new) (opening_line opening ∷ [])) }
    ensures anew { (h : History) (end : ℕ) → OpensAnew h end (⟦<MemoryDisk as Disk>⟧.told disk)
        → IfOk result (λ next. OpensAnew h end (⟦<MemoryDisk as Disk>⟧.told next)) }
    ensures counts { Counts (K.counter out.old) (K.counter out.new) (IsErrOf result OutsideRefusal.Failed) }
{
    if disk.stopped() {
        put_line(alloc, &Line::Stop, held, out)?;
        return Ok(disk.after_stop());
    }
    put_line(alloc, &Line::OpenFault, held, out)?;
    Ok(disk)
}

// Opens the disk that a stop left, again and again until no armed entry is met, and writes a line of each opening that
// failed. Each of them takes an entry out of the queue.
fn reopen<K: Sink>(
    alloc: Global,
    disk: MemoryDisk,
    limit: u64,
    held: &mut Pending,
    out: &mut K,
) -> Result<Store<MemoryDisk>, RunRefusal>
    requires limit { limit ≤ most_length }
    requires running { (⟦<MemoryDisk as Disk>⟧.counter disk).arms.stopped ≡ false }
    requires anew { (h : History) × (end : ℕ) × OpensAnew h end (⟦<MemoryDisk as Disk>⟧.told disk) }
    ensures opened { IfOk result (λ store. (openings : List Opening)
        × OpeningsOf (⟦<MemoryDisk as Disk>⟧.counter disk).arms openings store.disk.counter.arms
        × Prints (due (K.written out.old) held.old) (due (K.written out.new) held.new) (map opening_line openings)) }
    ensures running { IfOk result (λ store. store.disk.counter.arms.stopped ≡ false) }
    ensures fresh { IfOk result (λ store. (store.out ≡ None) × (store.stale ≡ false) × (store.limit ≡ limit) × IsTold store) }
    ensures anew { (h : History) (end : ℕ) → OpensAnew h end (⟦<MemoryDisk as Disk>⟧.told disk)
        → IfOk result (λ store. (store.history ≡ h) × (store.end ≡ end) × OpensAnew h end store.disk.told) }
    ensures refused { IfErr result IsOfPrinting }
    ensures counts { Counts (K.counter out.old) (K.counter out.new) (IsErrOf result RunRefusal.Output) }
{
    let mut disk = disk;
    'opening: loop {
        // Where nothing waits in the queue, the opening can't fail.
        let _running = disk.stopped();
        match Store::open(alloc, disk, limit) {
            Ok(store) => return Ok(store),
            Err((OpenRefusal::Memory, _)) => return Err(RunRefusal::Memory),
            Err((OpenRefusal::Disk, back)) => disk = go_on(alloc, back, held, out)?,
            // What a stop leaves opens.
            Err((OpenRefusal::Damaged(_, _), _)) => unreachable!(),
            Err((OpenRefusal::TooLong(_), _)) => unreachable!(),
        }
    }
}

// Writes what the last opening found.
fn put_restart<K: Sink>(
    alloc: Global,
    store: &Store<MemoryDisk>,
    held: &mut Pending,
    out: &mut K,
) -> Result<(), OutsideRefusal>
    requires fresh { store.now.stale ≡ false }
    requires told { IsTold store.now }
    ensures ok { OnOk result (Prints (due (K.written out.old) held.old) (due (K.written out.new) held.new)
        (Line.Restart (last store.now.history) (length store.now.history.transactions) ∷ [])) }
    ensures counts { Counts (K.counter out.old) (K.counter out.new) (IsErrOf result OutsideRefusal.Failed) }
{
    put_line(alloc, &Line::Restart(store.last(), store.len()), held, out)
}

// Which requests a stop cut off: those that are left, and that of the worker whose step it was.
fn cut_off(left: [bool; WORKERS], worker: Option<u32>) -> [bool; WORKERS]
    requires { IfSome worker (λ w. w < WORKERS) }
    ensures { result ≡ with_worker left worker }
{
    let mut marks = left;
    if let Some(worker) = worker {
        marks[worker as usize] = true;
    }
    marks
}

/// Makes a core anew after a stop, in a step of that worker or in a pack: what the stop left of the disk is opened, no worker has a
/// request any more, and the lines of that are written.
pub(crate) fn restart<E: Evaluator, K: Sink>(
    alloc: Global,
    core: Core<MemoryDisk, E>,
    limit: u64,
    worker: Option<u32>,
    held: &mut Pending,
    out: &mut K,
) -> Result<Core<MemoryDisk, E>, RunRefusal>
    requires stopped { core.store.disk.counter.arms.stopped ≡ true }
    requires told { IsTold core.store }
    requires limit { (limit ≡ core.store.limit) × (limit ≤ most_length) }
    requires worker { IfSome worker (λ w. w < WORKERS) }
    ensures restarted { IfOk result (λ new. (openings : List Opening) × Restarts E.meaning core new openings
        × Prints (due (K.written out.old) held.old) (due (K.written out.new) held.new)
        (restart_lines (lost_marks (with_worker (map is_taken core.slots) worker)) openings new.store.history)) }
    ensures refused { IfErr result IsOfPrinting }
    ensures counts { Counts (K.counter out.old) (K.counter out.new) (IsErrOf result RunRefusal.Output) }
{
    let (disk, evaluator, left) = core.lose();
    // The step that was cut off had a request, which isn't printed as anything but lost.
    let lost = cut_off(left, worker);
    put_line(alloc, &Line::Stop, held, out)?;
    put_lost(alloc, lost.as_slice(), held, out)?;
    let store = reopen(alloc, disk.after_stop(), limit, held, out)?;
    store.is_sound();
    put_restart(alloc, &store, held, out)?;
    match Core::new(alloc, store, evaluator) {
        Ok(core) => Ok(core),
        Err(_) => Err(RunRefusal::Memory),
    }
}
