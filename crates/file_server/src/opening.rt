ghost use Rattle.std.specs.Prelude.{◌≡◌, IfErr, IfOk, None};
ghost use Rattle.zbase.specs.Faults.{Counts};
ghost use Rattle.fs_store.specs.Opened.{Opens};
ghost use Rattle.fs_store.specs.Stores.{most_length};
ghost use Rattle.txn_core.specs.Cores.{IsAtRest};
ghost use Rattle.file_server.specs.Opening.{OpeningRefused};
ghost use Rattle.file_server.specs.Refusals.{Comes};

use crate::FileRefusal;
use evaluator::Evaluator;
use fs_record::MAX_LENGTH;
use fs_store::Store;
use std::alloc::Global;
use txn_core::Core;
use zdisk::{Disk, one_image};

// A core over an open store. For want of memory the store's disk comes back.
fn core_over<D: Disk + Drop, E: Evaluator>(
    alloc: Global,
    store: Store<D>,
    evaluator: E,
) -> Result<Core<D, E>, D>
    requires idle { store.out ≡ None }
    ensures store { IfOk result (λ core. core.store ≡ store) }
    ensures rest { IfOk result (λ core. IsAtRest E.meaning core) }
    ensures told { IfErr result (λ back. D.told back ≡ store.disk.told) }
    ensures counter { IfErr result (λ back. D.counter back ≡ store.disk.counter) }
{
    match Core::new(alloc, store, evaluator) {
        Ok(core) => Ok(core),
        Err((_, store, _)) => Err(store.into_disk()),
    }
}

/// A core over the file that a disk holds, which may be as long as any file may be. With `Err` the disk comes back.
pub(crate) fn open_core<D: Disk + Drop, E: Evaluator>(
    alloc: Global,
    disk: D,
    evaluator: E,
) -> Result<Core<D, E>, (FileRefusal, D)>
    ensures opened { IfOk result (λ core. Opens (D.told disk) most_length core.store) }
    ensures rest { IfOk result (λ core. IsAtRest E.meaning core) }
    ensures calm { IfOk result (λ core. Counts (D.counter disk) core.store.disk.counter ⊥) }
    ensures refused { IfErr result (λ (refusal, back). Comes refusal ⊥ (OpeningRefused (D.told disk) (D.told back) refusal) ⊥) }
    ensures counts { IfErr result (λ (refusal, back). Counts (D.counter disk) (D.counter back) (refusal ≡ FileRefusal.Disk)) }
{
    one_image();
    match Store::open(alloc, disk, MAX_LENGTH) {
        Ok(store) => match core_over(alloc, store, evaluator) {
            Ok(core) => Ok(core),
            Err(disk) => Err((FileRefusal::Memory, disk)),
        },
        Err((refusal, disk)) => Err((FileRefusal::from(refusal), disk)),
    }
}
