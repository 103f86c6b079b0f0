ghost use Rattle.std.specs.Prelude.{◌≡◌, ◌++◌, ◌∷◌, [], None, false, IfErr, IfOk, OnOk, IsErrOf};
ghost use Rattle.zbase.specs.Faults.{Counts};
ghost use Rattle.zbase.specs.History.{IsHistory};
ghost use Rattle.zio.specs.Sinks.{due};
ghost use Rattle.schedule.specs.declared.line.Line.{Line};
ghost use Rattle.schedule.specs.Explained.{history_lines};
ghost use Rattle.connection.specs.Telling.{TellsOn};
ghost use Rattle.fs_store.specs.Stores.{IsSteady, IsTold, StoreView};
ghost use Rattle.txn_core.specs.Slots.{Possible, moment_of};
ghost use Rattle.replay.specs.Held.{HoldsFile};
ghost use Rattle.replay.specs.Losing.{lost_marks};
ghost use Rattle.replay.specs.Printed.{Prints, closing};
ghost use Rattle.replay.specs.Refusals.{IsOfPrinting};

use crate::dumping::{DumpRefusal, dump};
use crate::losing::put_lost;
use crate::refusal::RunRefusal;
use evaluator::Evaluator;
use fs_store::{LoadRefusal, Store};
use schedule::WORKERS;
use std::alloc::Global;
use txn_core::Core;
use zdisk::{Disk, MemoryDisk};
use zio::{OutsideRefusal, Pending, Sink};

// Writes what closes a report: a line for each request that is cut off, and the history, by a walk over the disk
// under the store.
fn put_closing<D: Disk + Drop, K: Sink>(
    alloc: Global,
    store: Store<D>,
    taken: &[bool; WORKERS],
    held: &mut Pending,
    out: &mut K,
) -> Result<D, OutsideRefusal>
    requires idle { store.out ≡ None }
    requires steady { IsSteady store }
    ensures ok { OnOk result (Prints (due (K.written out.old) held.old) (due (K.written out.new) held.new)
        (lost_marks taken.now ++ history_lines store.history ++ Line.End ∷ [])) }
    ensures held { IfOk result (λ disk. HoldsFile (D.told disk) store.history) }
    ensures told { IfOk result (λ disk. D.told disk ≡ store.disk.told) }
    ensures hits { IfOk result (λ disk. (D.counter disk).arms.hits ≡ store.disk.counter.arms.hits) }
    ensures counts { Counts (K.counter out.old) (K.counter out.new) (IsErrOf result OutsideRefusal.Failed) }
{
    put_lost(alloc, taken.as_slice(), held, out)?;
    let mut disk = store.into_disk();
    match dump(alloc, &mut disk, held, out) {
        Ok(()) => Ok(disk),
        Err(DumpRefusal::Output) => Err(OutsideRefusal::Failed),
        Err(DumpRefusal::Memory) => Err(OutsideRefusal::Memory),
        // The disk can't fail.
        Err(DumpRefusal::Disk) => unreachable!(),
        // It holds a file, in which there is no damage.
        Err(DumpRefusal::Damaged(_, _)) => unreachable!(),
    }
}

/// Ends a run whose items are all run: no entry waits any more, a vote that is out is aborted, and a stale store is opened
/// again. Then come a line for each request that is cut off, and the history. The disk comes back with what was hit.
pub(crate) fn end_run<E: Evaluator, K: Sink>(
    alloc: Global,
    core: Core<MemoryDisk, E>,
    held: &mut Pending,
    out: &mut K,
) -> Result<MemoryDisk, RunRefusal>
    requires told { IsTold core.store }
    requires running { core.store.disk.counter.arms.stopped ≡ false }
    ensures closed { IfOk result (λ disk. (may : StoreView) × Possible core.store may × IsHistory may.history
        × HoldsFile (⟦<MemoryDisk as Disk>⟧.told disk) may.history
        × Prints (due (K.written out.old) held.old) (due (K.written out.new) held.new) (closing (moment_of E.meaning may core.slots))) }
    ensures tells { IfOk result (λ disk. TellsOn core.store.disk.told (⟦<MemoryDisk as Disk>⟧.told disk)) }
    ensures hits { IfOk result (λ disk. (⟦<MemoryDisk as Disk>⟧.counter disk).arms.hits ≡ core.store.disk.counter.arms.hits) }
    ensures refused { IfErr result IsOfPrinting }
    ensures counts { Counts (K.counter out.old) (K.counter out.new) (IsErrOf result RunRefusal.Output) }
{
    let mut core = core;
    core.disarm();
    // Nothing waits, so no call fails from here on.
    let _running = core.stopped();
    let closed = match core.close() {
        Ok(closed) => closed,
        Err(_) => unreachable!(),
    };
    let (mut store, taken) = closed;
    match store.refresh() {
        Ok(()) => {}
        Err(LoadRefusal::Memory) => return Err(RunRefusal::Memory),
        Err(LoadRefusal::Disk) => unreachable!(),
    }
    store.is_sound();
    Ok(put_closing(alloc, store, &taken, held, out)?)
}
