//! Calls that read.
ghost use Rattle.std.specs.Prelude.{◌≡◌, false};
ghost use Rattle.fs_store.specs.Stores.{IsTold};

use crate::answers::{put_line, put_load_refusal, put_loaded, put_parts, put_rows};
use cases::{CasesRefusal, Part};
use fs_store::Store;
use zbase::{Bytes, Oid, Tid};
use zdisk::MemoryDisk;

// `load OID AT`.
fn load(store: &mut Store<MemoryDisk>, step: &Part, out: &mut Bytes) -> Result<(), CasesRefusal>
    requires told { IsTold store.old }
    ensures told { IsTold store.new }
    ensures out { store.new.out ≡ store.old.out }
{
    match store.load(Oid(step.number(1)?), Tid(step.number(2)?)) {
        Ok(loaded) => Ok(put_loaded(out, &loaded)?),
        Err(refusal) => Ok(put_load_refusal(out, refusal)?),
    }
}

// `parts TID AT`.
fn parts(store: &mut Store<MemoryDisk>, step: &Part, out: &mut Bytes) -> Result<(), CasesRefusal>
    requires told { IsTold store.old }
    ensures told { IsTold store.new }
    ensures out { store.new.out ≡ store.old.out }
{
    match store.transaction(Tid(step.number(1)?), Tid(step.number(2)?)) {
        Ok(Some(parts)) => Ok(put_parts(out, &parts)?),
        Ok(None) => Ok(put_line(out, "parts none", &[])?),
        Err(refusal) => Ok(put_load_refusal(out, refusal)?),
    }
}

// `log AT`.
fn log(store: &mut Store<MemoryDisk>, step: &Part, out: &mut Bytes) -> Result<(), CasesRefusal>
    requires told { IsTold store.old }
    ensures told { IsTold store.new }
    ensures out { store.new.out ≡ store.old.out }
{
    match store.log(Tid(step.number(1)?)) {
        Ok(rows) => Ok(put_rows(out, &rows)?),
        Err(refusal) => Ok(put_load_refusal(out, refusal)?),
    }
}

/// These words, and the store's numbers: `opened LAST COUNT`.
pub(crate) fn put_numbers(
    store: &Store<MemoryDisk>,
    words: &str,
    out: &mut Bytes,
) -> Result<(), CasesRefusal>
    requires fresh { store.now.stale ≡ false }
{
    Ok(put_line(out, words, &[store.last().0, store.len()])?)
}

// `last`, and the end of a vote that isn't out, which are asked of a stale store alone.
fn put_stale(step: &Part, out: &mut Bytes) -> Result<(), CasesRefusal> {
    match step.key() {
        "last" | "finish" | "abort" => Ok(put_line(out, "stale", &[])?),
        _ => Err(CasesRefusal::BadPart(step.line)),
    }
}

/// A call that changes nothing but that a stale store is opened again.
pub(crate) fn look(
    store: &mut Store<MemoryDisk>,
    step: &Part,
    out: &mut Bytes,
) -> Result<(), CasesRefusal>
    requires told { IsTold store.old }
    ensures told { IsTold store.new }
    ensures out { store.new.out ≡ store.old.out }
{
    match step.key() {
        "load" => load(store, step, out),
        "parts" => parts(store, step, out),
        "log" => log(store, step, out),
        "last" if !store.is_stale() => put_numbers(store, "last", out),
        _ if store.is_stale() => put_stale(step, out),
        _ => Err(CasesRefusal::BadPart(step.line)),
    }
}
