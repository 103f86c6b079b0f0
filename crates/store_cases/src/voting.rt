//! Votes, and what is done while one is out.
ghost use Rattle.std.specs.Prelude.{◌≡◌, All, false, true, None, Some, IfOk, IfSome, OnOk};
ghost use Rattle.fs_store.specs.Seeing.{IsSeen};
ghost use Rattle.fs_store.specs.Stores.{IsTold, IsVoteOf, Out};

use crate::answers::{put_finish_refusal, put_line, put_load_refusal, put_vote_refusal};
use crate::drafts::draft_of;
use crate::looking::look;
use crate::script::next_step;
use cases::{CasesRefusal, Part};
use fs_store::{LoadRefusal, Seen, Store, VoteRefusal, Voted};
use std::alloc::Global;
use zbase::{Bytes, Oid, Tid};
use zdisk::MemoryDisk;

// How a vote that is out ends.
#[derive(Clone, Copy, Drop)]
enum Ending {
    Finish,
    Abort,
}

// The clock's stamp, the word of number 2: a number, or `+N` for N more than the last transaction's id, which a stale store
// can't tell.
fn stamp_of(store: &Store<MemoryDisk>, step: &Part) -> Result<u64, CasesRefusal> {
    match step.word(2).unwrap_or("").strip_prefix("+") {
        Some(_) if store.is_stale() => Err(CasesRefusal::BadPart(step.line)),
        Some(more) => match more.parse::<u64>() {
            Ok(more) => Ok(store.last().0.saturating_add(more)),
            Err(_) => Err(CasesRefusal::BadPart(step.line)),
        },
        None => step.number(2),
    }
}

// The worker, the word of number 1.
fn holder_of(step: &Part) -> Result<u32, CasesRefusal> {
    match u32::try_from(step.number(1)?) {
        Ok(holder) => Ok(holder),
        Err(_) => Err(CasesRefusal::BadPart(step.line)),
    }
}

// Adds what is read of an object up to a transaction.
fn add_read(
    store: &mut Store<MemoryDisk>,
    reads: &mut Vec<Seen>,
    oid: u64,
    at: u64,
) -> Result<(), LoadRefusal>
    requires told { IsTold store.old }
    requires reads { All (IsSeen store.old) reads.old.items }
    ensures told { IsTold store.new }
    ensures out { store.new.out ≡ store.old.out }
    ensures reads { OnOk result (All (IsSeen store.new) reads.new.items) }
{
    let loaded = store.load(Oid(oid), Tid(at))?;
    reads.push(Seen {
        oid: Oid(oid),
        serial: loaded.serial,
        place: loaded.place,
    })?;
    Ok(())
}

// What is read at each `read OID AT` of a vote; none where the store refused it, with the answer.
fn reads_of(
    alloc: Global,
    store: &mut Store<MemoryDisk>,
    step: &Part,
    out: &mut Bytes,
) -> Result<Option<Vec<Seen>>, CasesRefusal>
    requires told { IsTold store.old }
    ensures told { IsTold store.new }
    ensures out { store.new.out ≡ store.old.out }
    ensures reads { IfOk result (λ reads. IfSome reads (λ reads. All (IsSeen store.new) reads.items)) }
{
    let mut reads = Vec::new(alloc);
    for at in 3..step.words.len() {
        if step.word(at) == Some("read") {
            let oid = step.number(at.saturating_add(1))?;
            let up_to = step.number(at.saturating_add(2))?;
            if let Err(refusal) = add_read(store, &mut reads, oid, up_to) {
                put_load_refusal(out, refusal)?;
                return Ok(None);
            }
        }
    }
    Ok(Some(reads))
}

// A vote while another is out.
fn vote_again(
    store: &mut Store<MemoryDisk>,
    step: &Part,
    out: &mut Bytes,
) -> Result<(), CasesRefusal>
    requires told { IsTold store.old }
    requires out { (o : Out) × (store.old.out ≡ Some o) }
    ensures told { IsTold store.new }
    ensures out { store.new.out ≡ store.old.out }
{
    let draft = draft_of(out.alloc(), step, stamp_of(store, step)?)?;
    match store.vote(holder_of(step)?, draft, &[], Tid(0)) {
        Ok(_) => unreachable!(),
        Err((VoteRefusal::Disk | VoteRefusal::Memory, _)) => unreachable!(),
        Err((refusal, _)) => Ok(put_vote_refusal(out, refusal)?),
    }
}

// The calls while a vote is out, up to `finish` or `abort`.
fn meanwhile(
    store: &mut Store<MemoryDisk>,
    steps: &[Part],
    taken: &mut usize,
    out: &mut Bytes,
) -> Result<Ending, CasesRefusal>
    requires told { IsTold store.old }
    requires out { (o : Out) × (store.old.out ≡ Some o) }
    ensures told { IsTold store.new }
    ensures out { store.new.out ≡ store.old.out }
{
    for _ in 0..steps.len() {
        let Some(step) = next_step(steps, taken) else {
            break;
        };
        match step.key() {
            "finish" => return Ok(Ending::Finish),
            "abort" => return Ok(Ending::Abort),
            "vote" => vote_again(store, step, out)?,
            _ => look(store, step, out)?,
        }
    }
    Err(CasesRefusal::Missing)
}

// Ends a vote that is out.
fn end(
    store: &mut Store<MemoryDisk>,
    voted: Voted,
    ending: Result<Ending, CasesRefusal>,
    out: &mut Bytes,
) -> Result<(), CasesRefusal>
    requires told { IsTold store.old }
    requires vote { IsVoteOf store.old voted }
    ensures idle { store.new.out ≡ None }
    ensures told { IsTold store.new }
{
    match ending {
        Ok(Ending::Finish) => match store.finish(voted) {
            Ok(tid) => Ok(put_line(out, "finished", &[tid.0])?),
            Err(refusal) => Ok(put_finish_refusal(out, refusal)?),
        },
        Ok(Ending::Abort) => match store.abort(voted) {
            Ok(()) => Ok(put_line(out, "aborted", &[])?),
            Err(_) => Ok(put_line(out, "not aborted", &[])?),
        },
        Err(refusal) => {
            match store.abort(voted) {
                Ok(()) => Err(refusal),
                Err(_) => Err(refusal),
            }
        }
    }
}

/// A vote, and what is done until it ends.
pub(crate) fn vote(
    store: &mut Store<MemoryDisk>,
    step: &Part,
    steps: &[Part],
    taken: &mut usize,
    out: &mut Bytes,
) -> Result<(), CasesRefusal>
    requires told { IsTold store.old }
    requires idle { store.old.out ≡ None }
    ensures idle { store.new.out ≡ None }
    ensures told { IsTold store.new }
{
    let alloc = out.alloc();
    let holder = holder_of(step)?;
    let now = stamp_of(store, step)?;
    let draft = draft_of(alloc, step, now)?;
    let Some(reads) = reads_of(alloc, store, step, out)? else {
        return Ok(());
    };
    match store.vote(holder, draft, reads.as_slice(), Tid(now)) {
        Ok(voted) => {
            let tid = voted.tid();
            let ending = match put_line(out, "voted", &[tid.0]) {
                Ok(()) => meanwhile(store, steps, taken, out),
                Err(memory) => Err(CasesRefusal::from(memory)),
            };
            end(store, voted, ending, out)
        }
        Err((refusal, _)) => Ok(put_vote_refusal(out, refusal)?),
    }
}
