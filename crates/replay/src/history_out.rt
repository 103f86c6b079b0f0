ghost use Rattle.std.specs.Prelude.{◌∷◌, [], OnOk, IsErrOf, length, map};
ghost use Rattle.zbase.specs.Faults.{Counts};
ghost use Rattle.zio.specs.Sinks.{due};
ghost use Rattle.schedule.specs.Explained.{floor_lines, history_head, record_line, transaction_lines};
ghost use Rattle.schedule.specs.declared.line.Line.{Line};
ghost use Rattle.fs_scan.specs.Wholes.{records_in, transaction_in};
ghost use Rattle.replay.specs.Printed.{Prints};

use crate::printing::put_line;
use fs_scan::{OidValue, Whole};
use schedule::{Line, record_bytes, transaction_bytes};
use std::alloc::Global;
use zbase::Tid;
use zio::{OutsideRefusal, Pending, Sink};

// Writes the floor, where the file was packed.
fn put_floor<K: Sink>(
    alloc: Global,
    floor: Tid,
    held: &mut Pending,
    out: &mut K,
) -> Result<(), OutsideRefusal>
    ensures ok { OnOk result (Prints (due (K.written out.old) held.old) (due (K.written out.new) held.new) (floor_lines floor)) }
    ensures counts { Counts (K.counter out.old) (K.counter out.new) (IsErrOf result OutsideRefusal.Failed) }
{
    if 0 < floor.0 {
        return put_line(alloc, &Line::Floor(floor), held, out);
    }
    Ok(())
}

/// Writes how many transactions a history has, and its floor where the file was packed.
#[tactic(auto, using(crate::proofs::PrintSteps::prints_then_ok))]
pub(crate) fn put_heading<K: Sink>(
    alloc: Global,
    count: u64,
    floor: Tid,
    held: &mut Pending,
    out: &mut K,
) -> Result<(), OutsideRefusal>
    ensures ok { OnOk result (Prints (due (K.written out.old) held.old) (due (K.written out.new) held.new) (history_head count floor)) }
    ensures counts { Counts (K.counter out.old) (K.counter out.new) (IsErrOf result OutsideRefusal.Failed) }
{
    put_line(alloc, &Line::History(count), held, out)?;
    put_floor(alloc, floor, held, out)
}

// Writes the line of a value.
fn put_record<K: Sink>(
    alloc: Global,
    written: &OidValue,
    held: &mut Pending,
    out: &mut K,
) -> Result<(), OutsideRefusal>
    ensures ok { OnOk result (Prints (due (K.written out.old) held.old) (due (K.written out.new) held.new)
        (record_line (written.now.oid, written.now.value) ∷ [])) }
    ensures counts { Counts (K.counter out.old) (K.counter out.new) (IsErrOf result OutsideRefusal.Failed) }
{
    match record_bytes(alloc, written.oid, &written.value) {
        Ok(text) => held.put(text.as_slice(), out),
        Err(_) => Err(OutsideRefusal::Memory),
    }
}

fn put_records<K: Sink>(
    alloc: Global,
    values: &[OidValue],
    held: &mut Pending,
    out: &mut K,
) -> Result<(), OutsideRefusal>
    ensures ok { OnOk result (Prints (due (K.written out.old) held.old) (due (K.written out.new) held.new) (map record_line (records_in values.now))) }
    ensures counts { Counts (K.counter out.old) (K.counter out.new) (IsErrOf result OutsideRefusal.Failed) }
{
    for written in values {
        put_record(alloc, written, held, out)?;
    }
    Ok(())
}

// Writes the line of a transaction, which its records' lines follow.
fn put_head<K: Sink>(
    alloc: Global,
    transaction: &Whole,
    held: &mut Pending,
    out: &mut K,
) -> Result<(), OutsideRefusal>
    ensures ok { OnOk result (Prints (due (K.written out.old) held.old) (due (K.written out.new) held.new)
        (Line.Transaction transaction.now.tid transaction.now.texts.user transaction.now.texts.description transaction.now.texts.extension
        (length transaction.now.values) ∷ [])) }
    ensures counts { Counts (K.counter out.old) (K.counter out.new) (IsErrOf result OutsideRefusal.Failed) }
{
    let texts = &transaction.texts;
    let count = transaction.values.len() as u64;
    match transaction_bytes(
        alloc,
        transaction.tid,
        &texts.user,
        &texts.description,
        &texts.extension,
        count,
    ) {
        Ok(text) => held.put(text.as_slice(), out),
        Err(_) => Err(OutsideRefusal::Memory),
    }
}

pub(crate) fn put_transaction<K: Sink>(
    alloc: Global,
    transaction: &Whole,
    held: &mut Pending,
    out: &mut K,
) -> Result<(), OutsideRefusal>
    ensures ok { OnOk result (Prints (due (K.written out.old) held.old) (due (K.written out.new) held.new)
        (transaction_lines (transaction_in transaction.now))) }
    ensures counts { Counts (K.counter out.old) (K.counter out.new) (IsErrOf result OutsideRefusal.Failed) }
{
    put_head(alloc, transaction, held, out)?;
    put_records(alloc, transaction.values.as_slice(), held, out)
}
