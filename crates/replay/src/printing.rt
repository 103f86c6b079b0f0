ghost use Rattle.std.specs.Prelude.{◌≡◌, ◌≢◌, ◌∷◌, [], AllPairs, IfOk, OnOk, IsErrOf, map};
ghost use Rattle.zbase.specs.Faults.{Counts};
ghost use Rattle.zio.specs.Sinks.{due};
ghost use Rattle.http_out.specs.Replies.{answer};
ghost use Rattle.schedule.specs.Causes.{by_oid, denied_line};
ghost use Rattle.txn_core.specs.StepLines.{IsAnswered, spent_line, step_lines};
ghost use Rattle.replay.specs.Printed.{Prints};
ghost use Rattle.replay.specs.StepParts.{cause_line, cause_lines, last_conflict, reply_lines};
ghost use Rattle.std.specs.BTreeMap.{insert_entry};
ghost use Rattle.std.specs.Ordering.{nat_cmp};
ghost use Rattle.replay.specs.ShownInOrder.{entry_of, shown_line};

use evaluator::{Denial, Reply, Shown, ShownList};
use fs_store::Spent;
use schedule::{Line, line_bytes};
use std::alloc::Global;
use std::collections::BTreeMap;
use txn_core::{StepLine, latest, reply_of};
use zbase::{Bytes, Memory, Oid};
use zio::{OutsideRefusal, Pending, Sink};

/// Writes a line of the report.
pub(crate) fn put_line<K: Sink>(
    alloc: Global,
    line: &Line,
    held: &mut Pending,
    out: &mut K,
) -> Result<(), OutsideRefusal>
    ensures ok { OnOk result (Prints (due (K.written out.old) held.old) (due (K.written out.new) held.new) (line.now ∷ [])) }
    ensures counts { Counts (K.counter out.old) (K.counter out.new) (IsErrOf result OutsideRefusal.Failed) }
{
    match line_bytes(alloc, line) {
        Ok(text) => held.put(text.as_slice(), out),
        Err(_) => Err(OutsideRefusal::Memory),
    }
}

// Puts the line of a shown object in its place.
fn place(lines: &mut BTreeMap<u64, Line>, worker: u32, one: Shown) -> Result<(), Memory>
    ensures { OnOk result (lines.new.entries ≡ insert_entry nat_cmp lines.old.entries one.oid (shown_line worker one)) }
{
    let Shown { oid, role } = one;
    match lines.insert(oid.0, Line::Shown(worker, oid, role)) {
        Ok(_) => Ok(()),
        Err(_) => Err(Memory),
    }
}

// The lines of the objects that a reply shows, by rising id.
fn lines_by_oid(alloc: Global, worker: u32, shown: ShownList) -> Result<BTreeMap<u64, Line>, Memory>
    requires distinct { AllPairs (λ a b. a.oid ≢ b.oid) shown }
    ensures { IfOk result (λ lines. lines.entries ≡ map (entry_of worker) (by_oid shown)) }
{
    let mut lines = BTreeMap::new(alloc);
    let mut left = shown.into_vec();
    'placing: while let Some(one) = left.pop() {
        place(&mut lines, worker, one)?;
    }
    Ok(lines)
}

// Writes the objects that a reply shows.
fn put_shown<K: Sink>(
    alloc: Global,
    worker: u32,
    shown: ShownList,
    held: &mut Pending,
    out: &mut K,
) -> Result<(), OutsideRefusal>
    requires distinct { AllPairs (λ a b. a.oid ≢ b.oid) shown }
    ensures ok { OnOk result (Prints (due (K.written out.old) held.old) (due (K.written out.new) held.new) (map (shown_line worker) (by_oid shown))) }
    ensures counts { Counts (K.counter out.old) (K.counter out.new) (IsErrOf result OutsideRefusal.Failed) }
{
    let Ok(lines) = lines_by_oid(alloc, worker, shown) else {
        return Err(OutsideRefusal::Memory);
    };
    for entry in lines.iter() {
        put_line(alloc, entry.1, held, out)?;
    }
    Ok(())
}

// Writes what a reply was denied.
fn put_denied<K: Sink>(
    alloc: Global,
    worker: u32,
    denied: Option<Denial>,
    held: &mut Pending,
    out: &mut K,
) -> Result<(), OutsideRefusal>
    ensures ok { OnOk result (Prints (due (K.written out.old) held.old) (due (K.written out.new) held.new) (denied_line worker denied)) }
    ensures counts { Counts (K.counter out.old) (K.counter out.new) (IsErrOf result OutsideRefusal.Failed) }
{
    match denied {
        None => Ok(()),
        Some(denial) => put_line(
            alloc,
            &Line::Denied(worker, denial.oid, denial.permission),
            held,
            out,
        ),
    }
}

// The line that says what is spent.
fn spent_line(worker: u32, spent: Spent) -> Line
    ensures { result ≡ spent_line worker spent }
{
    match spent {
        Spent::Tids => Line::SpentTids(worker),
        Spent::Oids { greatest, new } => Line::SpentOids(worker, Oid(greatest), new),
        Spent::Full { need, limit } => Line::SpentFull(worker, need, limit),
    }
}

// The line that says what came of a step; none of an answer of its evaluation, which its reply says.
fn cause_line(worker: u32, line: &StepLine) -> Option<Line>
    ensures { result ≡ cause_line worker line.now }
{
    match line {
        StepLine::Idle => Some(Line::Idle(worker)),
        StepLine::Begun(tid) => Some(Line::Begin(worker, *tid)),
        StepLine::Fetched(ask) => Some(Line::Fetch(worker, *ask)),
        StepLine::Computed => Some(Line::Computed(worker)),
        StepLine::Busy(holder) => Some(Line::Busy(worker, *holder)),
        StepLine::Voted(tid) => Some(Line::Vote(worker, *tid)),
        StepLine::Conflict(clash) => Some(Line::Conflict(worker, *clash)),
        StepLine::GivenUp(clashes) => Some(Line::GivenUp(worker, *clashes)),
        StepLine::Spent(spent) => Some(spent_line(worker, *spent)),
        StepLine::DiskFault => Some(Line::DiskFault(worker)),
        StepLine::Memory => Some(Line::Memory(worker)),
        StepLine::Unknown(tid) => Some(Line::Unknown(worker, *tid)),
        StepLine::Read(_, _) | StepLine::Commit(_, _) => None,
    }
}

// Writes the conflict at which a request is given up.
fn put_last_conflict<K: Sink>(
    alloc: Global,
    worker: u32,
    line: &StepLine,
    held: &mut Pending,
    out: &mut K,
) -> Result<(), OutsideRefusal>
    ensures ok { OnOk result (Prints (due (K.written out.old) held.old) (due (K.written out.new) held.new) (last_conflict worker line.now)) }
    ensures counts { Counts (K.counter out.old) (K.counter out.new) (IsErrOf result OutsideRefusal.Failed) }
{
    match line {
        StepLine::GivenUp(clashes) => put_line(
            alloc,
            &Line::Conflict(worker, latest(clashes)),
            held,
            out,
        ),
        _ => Ok(()),
    }
}

// Writes what came of a step, before the reply where that ended its request.
fn put_cause<K: Sink>(
    alloc: Global,
    worker: u32,
    line: &StepLine,
    held: &mut Pending,
    out: &mut K,
) -> Result<(), OutsideRefusal>
    ensures ok { OnOk result (Prints (due (K.written out.old) held.old) (due (K.written out.new) held.new) (cause_lines worker line.now)) }
    ensures counts { Counts (K.counter out.old) (K.counter out.new) (IsErrOf result OutsideRefusal.Failed) }
{
    put_last_conflict(alloc, worker, line, held, out)?;
    match cause_line(worker, line) {
        Some(cause) => put_line(alloc, &cause, held, out),
        None => Ok(()),
    }
}

// Writes the reply by which a step ended its request, with the objects that it shows and what it was denied.
fn put_reply<K: Sink>(
    alloc: Global,
    worker: u32,
    line: StepLine,
    bytes: Bytes,
    held: &mut Pending,
    out: &mut K,
) -> Result<(), OutsideRefusal>
    requires { IsAnswered line }
    ensures ok { OnOk result (Prints (due (K.written out.old) held.old) (due (K.written out.new) held.new) (reply_lines worker line bytes)) }
    ensures counts { Counts (K.counter out.old) (K.counter out.new) (IsErrOf result OutsideRefusal.Failed) }
{
    match line {
        StepLine::Read(reply, tid) => {
            let Reply { shown, denied, .. } = reply;
            put_line(alloc, &Line::ReplyRead(worker, tid, bytes), held, out)?;
            put_shown(alloc, worker, shown, held, out)?;
            put_denied(alloc, worker, denied, held, out)
        }
        StepLine::Commit(reply, tid) => {
            put_line(alloc, &Line::ReplyCommit(worker, tid, bytes), held, out)?;
            put_shown(alloc, worker, reply.shown, held, out)
        }
        _ => put_line(alloc, &Line::ReplyNone(worker, bytes), held, out),
    }
}

/// Writes the lines of a step of a worker.
pub(crate) fn put_step<K: Sink>(
    alloc: Global,
    worker: u32,
    line: StepLine,
    held: &mut Pending,
    out: &mut K,
) -> Result<(), OutsideRefusal>
    requires { IsAnswered line }
    ensures ok { OnOk result (Prints (due (K.written out.old) held.old) (due (K.written out.new) held.new) (step_lines answer worker line)) }
    ensures counts { Counts (K.counter out.old) (K.counter out.new) (IsErrOf result OutsideRefusal.Failed) }
{
    let Ok(reply) = reply_of(alloc, &line) else {
        return Err(OutsideRefusal::Memory);
    };
    put_cause(alloc, worker, &line, held, out)?;
    match reply {
        Some(bytes) => put_reply(alloc, worker, line, bytes, held, out),
        None => Ok(()),
    }
}
