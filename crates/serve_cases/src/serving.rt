//! A server over objects in memory, from the opening of the site's file until its disk is handed back.
ghost use Rattle.std.specs.Prelude.{◌≡◌, ◌≤◌, IfOk, None, [], false};
ghost use Rattle.std.specs.Option.{ForSome};
ghost use Rattle.zdisk.specs.Disk.{content};
ghost use Rattle.fs_store.specs.Stores.{most_length};

use crate::arming::arm;
use crate::giving::{clock_of, hub_of, plan_of};
use cases::{Case, CasesRefusal};
use fs_record::MAX_LENGTH;
use fs_store::Store;
use publisher::Site;
use std::alloc::Global;
use txn_core::Core;
use zbase::Bytes;
use zdisk::{Disk, MemoryDisk};
use zio::{MemoryClock, MemoryHub};
use zserve::{ServePlan, ServeRefusal, Served, serve};

/// What came of serving.
#[derive(Drop)]
pub struct Came {
    /// What the server answered.
    pub answer: Result<Served, ServeRefusal>,
    /// The hub behind it.
    pub hub: MemoryHub,
    /// The disk of the tape behind it.
    pub tape: MemoryDisk,
    /// The disk of the site's file behind it.
    pub disk: MemoryDisk,
}

/// How many bytes the site's file may have.
pub fn limit_of(case: &Case) -> Result<u64, CasesRefusal>
    ensures most { IfOk result (λ limit. limit ≤ most_length) }
{
    Ok(case.number("limit", 100_000)?.min(MAX_LENGTH))
}

// How many calls a disk has had that isn't wanted any more.
fn calls_of(disk: MemoryDisk) -> u64 {
    disk.calls()
}

// How many device calls the opening of a file makes.
fn opening_calls(alloc: Global, file: &Bytes) -> Result<u64, CasesRefusal> {
    match Store::open(alloc, MemoryDisk::new(alloc, file.copy()?), MAX_LENGTH) {
        Ok(store) => Ok(calls_of(store.into_disk())),
        Err(_) => Err(CasesRefusal::Missing),
    }
}

// The disk of the case's file; what is armed on it counts the calls behind the file's opening.
fn disk_of(alloc: Global, case: &Case) -> Result<MemoryDisk, CasesRefusal> {
    let file = case.bytes(alloc, "file")?;
    let opening = opening_calls(alloc, &file)?;
    let mut disk = MemoryDisk::new(alloc, file);
    arm(&mut disk, case, "disk", opening)?;
    Ok(disk)
}

// The disk of a core that is closed.
fn closed(core: Core<MemoryDisk, Site>) -> MemoryDisk {
    match core.close() {
        Ok(closed) => {
            let (store, _lost) = closed;
            store.into_disk()
        }
        Err((_, store)) => {
            store.is_sound();
            store.into_disk()
        }
    }
}

// Serves over an open store, by the plan. What the server answered, and the store's disk.
fn serve_over(
    alloc: Global,
    store: Store<MemoryDisk>,
    plan: ServePlan,
    hub: &mut MemoryHub,
    clock: &mut MemoryClock,
    tape: &mut MemoryDisk,
) -> Result<(Result<Served, ServeRefusal>, MemoryDisk), CasesRefusal>
    requires idle { store.out ≡ None }
    requires fresh { store.stale ≡ false }
    requires clients { (1 ≤ plan.clients) × (plan.clients ≤ 16) }
    requires empty { ForSome (⟦<MemoryDisk as Disk>⟧.told tape.old) (λ told. content told ≡ []) }
{
    let Ok(core) = Core::new(alloc, store, Site::new(alloc)) else {
        return Err(CasesRefusal::Memory);
    };
    let mut core = core;
    let answer = serve(alloc, &mut core, plan, hub, clock, tape);
    Ok((answer, closed(core)))
}

/// Serves the connections of a case over its file.
pub fn serve_case(alloc: Global, case: &Case) -> Result<Came, CasesRefusal> {
    let plan = plan_of(case)?;
    let mut hub = hub_of(alloc, case)?;
    let mut clock = clock_of(alloc, case)?;
    let mut tape = MemoryDisk::new(alloc, Bytes::new(alloc));
    arm(&mut tape, case, "tape", 0)?;
    let limit = limit_of(case)?;
    let Ok(store) = Store::open(alloc, disk_of(alloc, case)?, limit) else {
        return Err(CasesRefusal::Missing);
    };
    let (answer, disk) = serve_over(alloc, store, plan, &mut hub, &mut clock, &mut tape)?;
    Ok(Came {
        answer,
        hub,
        tape,
        disk,
    })
}
