ghost use Rattle.std.specs.Prelude.{◌≡◌, ◌<◌, None, IfOk, false};

use crate::stores::store_of;
use evaluator::{CellRequest, Cells};
use fs_store::Store;
use std::alloc::Global;
use std::test::Fail;
use txn_core::{Core, GiveRefusal};
use zbase::Tid;
use zdisk::MemoryDisk;

/// A copy of the first object to itself.
const COPY: &[u8] = b"copy 0000000000000001 0000000000000001";

const LOG: &[u8] = b"log";

/// A core over a store.
fn core_of(alloc: Global, store: Store<MemoryDisk>) -> Result<Core<MemoryDisk, Cells>, Fail>
    requires { store.out ≡ None }
{
    match Core::new(alloc, store, Cells::new(alloc)) {
        Ok(core) => Ok(core),
        Err((memory, _store, _cells)) => Err(Fail::from(memory)),
    }
}

/// The store of a core that is closed, opened anew where it has to be; and whether a request of worker 5 was cut off.
fn reopened(core: Core<MemoryDisk, Cells>) -> Result<(Store<MemoryDisk>, bool), Fail>
    ensures idle { IfOk result (λ (store, _). store.out ≡ None) }
    ensures fresh { IfOk result (λ (store, _). store.stale ≡ false) }
{
    let Ok(ended) = core.close() else {
        return Err(Fail::from("the disk failed"));
    };
    let (mut store, taken) = ended;
    let Ok(()) = store.refresh() else {
        return Err(Fail::from("not opened"));
    };
    Ok((store, taken[5]))
}

/// What a worker answers to the request that bytes are; none where they are no request.
fn given(
    core: &mut Core<MemoryDisk, Cells>,
    worker: u32,
    bytes: &[u8],
) -> Option<Result<(), (GiveRefusal, CellRequest)>>
    requires { worker < 16 }
{
    match core.take(bytes) {
        Ok(Some(request)) => Some(core.give(worker, request)),
        Ok(None) | Err(_) => None,
    }
}

/// Gives worker 5 a copy and steps it so often at a stamp. Whether it took the request.
fn copies(core: &mut Core<MemoryDisk, Cells>, stamp: u64, count: usize) -> bool {
    let is_given = given(core, 5, COPY) == Some(Ok(()));
    for _ in 0..count {
        let _line = core.step(5, Tid(stamp));
    }
    is_given
}

/// The store behind a core over it, in which worker 5 is given a copy and stepped so often at a stamp; and whether its
/// request was cut off.
fn closed(
    alloc: Global,
    store: Store<MemoryDisk>,
    stamp: u64,
    count: usize,
) -> Result<(Store<MemoryDisk>, bool), Fail>
    requires { store.out ≡ None }
    ensures idle { IfOk result (λ (store, _). store.out ≡ None) }
    ensures fresh { IfOk result (λ (store, _). store.stale ≡ false) }
{
    let mut core = core_of(alloc, store)?;
    let is_given = copies(&mut core, stamp, count);
    let ended = reopened(core)?;
    if is_given {
        Ok(ended)
    } else {
        Err(Fail::from("not given"))
    }
}

#[test]
fn a_vote_that_is_out_at_the_end_never_stands(rt: HostRuntime) -> Result<(), Fail> {
    let alloc = rt.alloc();
    let mut store = store_of(alloc)?;
    for (stamp, count, is_cut_off, last, len) in [
        (7, 4, true, 0, 0),
        (3, 5, false, 3, 1),
        (3, 4, true, 3, 1),
        (0, 5, false, 4, 2),
    ] {
        let (behind, is_taken) = closed(alloc, store, stamp, count)?;
        store = behind;
        assert_eq!(rt; is_taken, is_cut_off);
        assert_eq!(rt; (store.last(), store.len()), (Tid(last), len));
    }
    Ok(())
}

/// Whether worker 3 takes a request, no other until that has ended, and then one again.
fn takes_one_at_a_time(core: &mut Core<MemoryDisk, Cells>) -> bool {
    let refused = Some(Err((GiveRefusal::WorkerTaken, CellRequest::Log)));
    let mut is_so = given(core, 3, COPY) == Some(Ok(()));
    for _ in 0..5usize {
        is_so = given(core, 3, LOG) == refused && is_so;
        let _line = core.step(3, Tid(0));
    }
    given(core, 3, LOG) == Some(Ok(())) && is_so
}

#[test]
fn a_worker_with_a_request_takes_no_other(rt: HostRuntime) -> Result<(), Fail> {
    let alloc = rt.alloc();
    let mut core = core_of(alloc, store_of(alloc)?)?;
    let is_so = takes_one_at_a_time(&mut core);
    let (store, _taken) = reopened(core)?;
    assert!(rt; is_so && store.last() == Tid(1));
    Ok(())
}
