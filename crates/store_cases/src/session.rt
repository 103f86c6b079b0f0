//! What is done with a store from its opening on, until its disk is handed back.
ghost use Rattle.std.specs.Prelude.{◌≡◌, false, None};
ghost use Rattle.fs_store.specs.Stores.{IsTold};

use crate::answers::{put_line, put_open_refusal};
use crate::looking::{look, put_numbers};
use crate::script::next_step;
use crate::voting::vote;
use cases::{CasesRefusal, Part};
use fs_record::MAX_LENGTH;
use fs_store::Store;
use std::alloc::Global;
use zbase::Bytes;
use zdisk::MemoryDisk;

// The calls over a store that is open, up to `close` or the script's end.
fn run_calls(
    store: &mut Store<MemoryDisk>,
    steps: &[Part],
    taken: &mut usize,
    out: &mut Bytes,
) -> Result<(), CasesRefusal>
    requires told { IsTold store.old }
    requires idle { store.old.out ≡ None }
    ensures idle { store.new.out ≡ None }
{
    for _ in 0..steps.len() {
        let Some(step) = next_step(steps, taken) else {
            break;
        };
        match step.key() {
            "close" => return Ok(put_line(out, "closed", &[])?),
            "vote" => vote(store, step, steps, taken, out)?,
            _ => look(store, step, out)?,
        }
    }
    Ok(())
}

// What is done with a store that was just opened, until its disk is handed back.
fn run_open(
    store: Store<MemoryDisk>,
    steps: &[Part],
    taken: &mut usize,
    out: &mut Bytes,
) -> Result<MemoryDisk, CasesRefusal>
    requires fresh { store.stale ≡ false }
    requires told { IsTold store }
    requires idle { store.out ≡ None }
{
    let mut store = store;
    put_numbers(&store, "opened", out)?;
    run_calls(&mut store, steps, taken, out)?;
    Ok(store.into_disk())
}

// Opens a store over the disk, and makes the calls over it.
fn open(
    alloc: Global,
    disk: MemoryDisk,
    limit: u64,
    steps: &[Part],
    taken: &mut usize,
    out: &mut Bytes,
) -> Result<MemoryDisk, CasesRefusal> {
    match Store::open(alloc, disk, limit.min(MAX_LENGTH)) {
        Ok(store) => run_open(store, steps, taken, out),
        Err((refusal, disk)) => {
            put_open_refusal(out, refusal)?;
            Ok(disk)
        }
    }
}

/// Makes the calls of a script over a disk, whose file may have so many bytes, and hands it back. Adds the answers.
pub(crate) fn run_script(
    alloc: Global,
    disk: MemoryDisk,
    limit: u64,
    steps: &[Part],
    out: &mut Bytes,
) -> Result<MemoryDisk, CasesRefusal> {
    let mut disk = disk;
    let mut taken = 0;
    for _ in 0..steps.len() {
        let Some(step) = next_step(steps, &mut taken) else {
            break;
        };
        if step.key() == "open" {
            disk = open(alloc, disk, limit, steps, &mut taken, out)?;
        } else {
            put_line(out, "not open", &[])?;
        }
    }
    Ok(disk)
}
