ghost use Rattle.std.specs.Prelude.{◌≡◌, ◌++◌, ◌≤◌, ℕ, List, false, IfOk, IfErr, OnOk, IsErrOf, length};
ghost use Rattle.zbase.specs.Faults.{Counts};
ghost use Rattle.fs_record.specs.declared.damage.Damage.{Damage as Kind};
ghost use Rattle.fs_record.specs.Opening.{Damaged};
ghost use Rattle.zio.specs.Sinks.{due};
ghost use Rattle.schedule.specs.declared.line.Line.{Line};
ghost use Rattle.fs_store.specs.Stores.{IsTold, most_length};
ghost use Rattle.replay.specs.BrokenOff.{BrokenOff};
ghost use Rattle.replay.specs.Kept.{IsOpened, Kept};
ghost use Rattle.replay.specs.Printed.{Prints, opening, terms_of};
ghost use Rattle.replay.specs.Refusals.{IsOfItems, IsOfOpening};
ghost use Rattle.replay.specs.Replayed.{AreOpened, Breaks, Replays, Runs};

use crate::ending::end_run;
use crate::item::{Run, broken_off, run_item};
use crate::printing::put_line;
use crate::refusal::RunRefusal;
use evaluator::Evaluator;
use fs_store::{OpenRefusal, Store};
use packing::Links;
use schedule::{Item2, Line, Schedule, runs_are_serial};
use std::alloc::Global;
use txn_core::Core;
use zbase::{Bytes, Tid};
use zdisk::{Disk, MemoryDisk};
use zio::{OutsideRefusal, Pending, Sink};

/// The store of the history to which the bytes open, on a disk in memory on which nothing is armed.
pub(crate) fn open_bytes(
    alloc: Global,
    bytes: Bytes,
    limit: u64,
) -> Result<Store<MemoryDisk>, RunRefusal>
    requires limit { limit ≤ most_length }
    requires size { length bytes ≤ most_length }
    ensures opened { IfOk result (Runs bytes limit) }
    ensures damaged { (kind : Kind) (place : ℕ) → IsErrOf result (RunRefusal.Damaged kind place) → Damaged bytes place kind }
    ensures others { IfErr result IsOfOpening }
{
    match Store::open(alloc, MemoryDisk::new(alloc, bytes), limit) {
        Ok(store) => Ok(store),
        Err((OpenRefusal::Damaged(kind, place), _)) => Err(RunRefusal::Damaged(kind, place)),
        Err((OpenRefusal::Memory, _)) => Err(RunRefusal::Memory),
        // Nothing is armed, so the disk doesn't fail.
        Err((OpenRefusal::Disk, _)) => unreachable!(),
        // There aren't so many bytes.
        Err((OpenRefusal::TooLong(_), _)) => unreachable!(),
    }
}

/// Writes what opens a report.
pub(crate) fn put_opening<K: Sink>(
    alloc: Global,
    store: &Store<MemoryDisk>,
    held: &mut Pending,
    out: &mut K,
) -> Result<(), OutsideRefusal>
    requires fresh { store.now.stale ≡ false }
    requires told { IsTold store.now }
    ensures ok { OnOk result (Prints (due (K.written out.old) held.old) (due (K.written out.new) held.new) (opening store.now.history)) }
    ensures counts { Counts (K.counter out.old) (K.counter out.new) (IsErrOf result OutsideRefusal.Failed) }
{
    put_line(alloc, &Line::Head, held, out)?;
    put_line(alloc, &Line::Opened(store.last(), store.len()), held, out)
}

// Runs the items from the first on, behind what opens a report.
fn run_items<E: Evaluator, L: Links, K: Sink>(
    alloc: Global,
    core: Core<MemoryDisk, E>,
    limit: u64,
    items: &[Item2],
    links: &L,
    held: &mut Pending,
    out: &mut K,
) -> Result<Core<MemoryDisk, E>, RunRefusal>
    requires limit { (limit ≡ core.store.limit) × (limit ≤ most_length) }
    requires fresh { core.store.stale ≡ false }
    requires opened { (given : List ℕ) × IsOpened E.meaning given core }
    ensures ran { IfOk result (λ new. (given : List ℕ) → IsOpened E.meaning given core
        → (now : ℕ) × (lines : List Line) × Kept E.meaning
        (terms_of E.takes E.meaning L.linked limit core.store.end) given core.store.history items.now lines new now
        × Prints (due (K.written out.old) held.old) (due (K.written out.new) held.new) (opening core.store.history ++ lines)) }
    ensures bad_line { (n : ℕ) → IsErrOf result (RunRefusal.BadLine n)
        → BrokenOff (terms_of E.takes E.meaning L.linked limit core.store.end) core.store.history items.now n (due (K.written out.old) held.old)
        (due (K.written out.new) held.new) }
    ensures refused { IfErr result IsOfItems }
    ensures counts { Counts (K.counter out.old) (K.counter out.new) (IsErrOf result RunRefusal.Output) }
{
    runs_are_serial::<E>();
    core.is_sound();
    core.store().is_sound();
    match put_opening(alloc, core.store(), held, out) {
        Ok(()) => {}
        Err(refusal) => return broken_off(core, RunRefusal::from(refusal)),
    }
    let mut run = Run {
        core,
        limit,
        clock: Tid(0),
    };
    let mut number: u64 = 2;
    for item in items {
        run = run_item(alloc, run, number, item, links, held, out)?;
        number = number.saturating_add(1);
    }
    let Run {
        core,
        limit: _,
        clock: _,
    } = run;
    Ok(core)
}

// Runs a schedule over the store of some bytes and closes the report. What is pending at the end is still to be flushed.
fn run_over<E: Evaluator, L: Links, K: Sink>(
    alloc: Global,
    store: Store<MemoryDisk>,
    limit: u64,
    items: &[Item2],
    evaluator: E,
    links: &L,
    held: &mut Pending,
    out: &mut K,
) -> Result<MemoryDisk, RunRefusal>
    requires limit { limit ≤ most_length }
    requires opened { (bytes : List ℕ) × Runs bytes limit store }
    ensures replays { IfOk result (λ disk. (bytes : List ℕ) → Runs bytes limit store
        → Replays E.takes E.meaning L.linked limit bytes items.now (⟦<MemoryDisk as Disk>⟧.told disk) (⟦<MemoryDisk as Disk>⟧.counter disk).arms
        (due (K.written out.old) held.old) (due (K.written out.new) held.new)) }
    ensures bad_line { (n : ℕ) → IsErrOf result (RunRefusal.BadLine n) → (bytes : List ℕ) → Runs bytes limit store
        → Breaks E.takes E.meaning L.linked limit bytes items.now n (due (K.written out.old) held.old) (due (K.written out.new) held.new) }
    ensures refused { IfErr result IsOfItems }
    ensures counts { Counts (K.counter out.old) (K.counter out.new) (IsErrOf result RunRefusal.Output) }
{
    runs_are_serial::<E>();
    store.is_sound();
    let Ok(core) = Core::new(alloc, store, evaluator) else {
        return Err(RunRefusal::Memory);
    };
    let core = run_items(alloc, core, limit, items, links, held, out)?;
    end_run(alloc, core, held, out)
}

/// Runs a schedule over the file that these bytes are, which may have `limit` bytes, by an evaluator, and writes the report. The device
/// is a disk in memory, made of the bytes, so a fault of the device comes only from an item that arms it. With `Ok` the disk comes
/// back, in which a vote that was out at the schedule's end doesn't stand: what it reads is its one image, a file of the
/// history that the report prints last.
///
/// The report is one that the schedule may have over the history to which the bytes open. Where an item can't be run, the items
/// before it are run and printed.
pub fn replay<E: Evaluator, L: Links, K: Sink>(
    alloc: Global,
    bytes: Bytes,
    limit: u64,
    schedule: &Schedule,
    evaluator: E,
    links: &L,
    out: &mut K,
) -> Result<MemoryDisk, RunRefusal>
    requires limit { limit ≤ most_length }
    requires size { length bytes ≤ most_length }
    ensures replays { IfOk result (λ disk. Replays E.takes E.meaning L.linked limit bytes schedule.now (⟦<MemoryDisk as Disk>⟧.told disk)
        (⟦<MemoryDisk as Disk>⟧.counter disk).arms (K.written out.old) (K.written out.new)) }
    ensures damaged { (kind : Kind) (place : ℕ) → IsErrOf result (RunRefusal.Damaged kind place)
        → Damaged bytes place kind × (K.written out.new ≡ K.written out.old) }
    ensures bad_line { (n : ℕ) → IsErrOf result (RunRefusal.BadLine n)
        → Breaks E.takes E.meaning L.linked limit bytes schedule.now n (K.written out.old) (K.written out.new) }
    ensures output { IsErrOf result RunRefusal.Output → AreOpened bytes }
    ensures counts { Counts (K.counter out.old) (K.counter out.new) (IsErrOf result RunRefusal.Output) }
{
    let store = open_bytes(alloc, bytes, limit)?;
    let Ok(mut held) = Pending::new(alloc) else {
        return Err(RunRefusal::Memory);
    };
    let items = schedule.as_slice();
    match run_over(alloc, store, limit, items, evaluator, links, &mut held, out) {
        Ok(disk) => {
            held.flush(out)?;
            Ok(disk)
        }
        Err(RunRefusal::BadLine(number)) => {
            held.flush(out)?;
            Err(RunRefusal::BadLine(number))
        }
        Err(RunRefusal::Memory) => {
            held.flush(out)?;
            Err(RunRefusal::Memory)
        }
        Err(RunRefusal::Output) => Err(RunRefusal::Output),
        // The bytes were opened.
        Err(RunRefusal::Damaged(_, _)) => unreachable!(),
    }
}
