ghost use Rattle.std.specs.Prelude.{◌≡◌, OnOk, IsErrOf, length};
ghost use Rattle.zbase.specs.Faults.{Counts};
ghost use Rattle.zio.specs.Sinks.{due};
ghost use Rattle.replay.specs.Losing.{lost_mark, lost_marks, mark_lines};
ghost use Rattle.replay.specs.Printed.{Prints};

use crate::printing::put_line;
use schedule::{Line, WORKERS};
use std::alloc::Global;
use zio::{OutsideRefusal, Pending, Sink};

// Writes the line of a worker that has a request.
fn put_mark<K: Sink>(
    alloc: Global,
    worker: u32,
    is_taken: &bool,
    held: &mut Pending,
    out: &mut K,
) -> Result<(), OutsideRefusal>
    ensures ok { OnOk result (Prints (due (K.written out.old) held.old) (due (K.written out.new) held.new) (mark_lines (lost_mark (worker, is_taken.now)))) }
    ensures counts { Counts (K.counter out.old) (K.counter out.new) (IsErrOf result OutsideRefusal.Failed) }
{
    if *is_taken {
        return put_line(alloc, &Line::Lost(worker), held, out);
    }
    Ok(())
}

/// Writes a line for each worker that has a request, rising.
pub(crate) fn put_lost<K: Sink>(
    alloc: Global,
    taken: &[bool],
    held: &mut Pending,
    out: &mut K,
) -> Result<(), OutsideRefusal>
    requires { length taken.now ≡ WORKERS }
    ensures ok { OnOk result (Prints (due (K.written out.old) held.old) (due (K.written out.new) held.new) (lost_marks taken.now)) }
    ensures counts { Counts (K.counter out.old) (K.counter out.new) (IsErrOf result OutsideRefusal.Failed) }
{
    for worker in 0..taken.len() {
        put_mark(alloc, worker as u32, &taken[worker], held, out)?;
    }
    Ok(())
}
