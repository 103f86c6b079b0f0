ghost use Rattle.std.specs.Prelude.{◌≡◌, None, IfOk};
ghost use Rattle.fs_store.specs.Stores.{IsSteady};

use fs_store::Store;
use std::alloc::Global;
use std::test::Fail;
use zbase::Bytes;
use zdisk::MemoryDisk;

/// A store without transactions.
pub(crate) fn store_of(alloc: Global) -> Result<Store<MemoryDisk>, Fail>
    ensures idle { IfOk result (λ store. store.out ≡ None) }
    ensures steady { IfOk result IsSteady }
{
    let disk = MemoryDisk::new(alloc, Bytes::from_slice(alloc, b"FS21")?);
    match Store::open(alloc, disk, 1_000) {
        Ok(store) => Ok(store),
        Err((_refusal, _disk)) => Err(Fail::from("no store")),
    }
}
