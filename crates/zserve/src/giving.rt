ghost use Rattle.std.specs.Prelude.{◌≡◌, ◌++◌, ◌<◌, ◌≤◌, ℕ, List, [], Some, IfOk, OnErr, OnOk, length};
ghost use Rattle.http_in.specs.Messages.{one_message};
ghost use Rattle.http_clients.specs.Arriving.{AreMessages, bytes_of};
ghost use Rattle.schedule.specs.Items.{HasLine, item_text};
ghost use Rattle.schedule.specs.declared.item.Item2.{Item2};
ghost use Rattle.txn_core.specs.Cores.{IsIdle};
ghost use Rattle.zserve.specs.Giving.{GivenTo};
ghost use Rattle.zserve.specs.Going.{Went};
ghost use Rattle.zserve.specs.Happened.{items};
ghost use Rattle.zserve.specs.Rounds.{AllGiven};
ghost use Rattle.zserve.specs.Sweeping.{Waits};
ghost use Rattle.zserve.specs.Tapes.{given_from, workers_from};
ghost use Rattle.zserve.specs.Taping.{Spelt};

use evaluator::Evaluator;
use http_clients::Asked;
use http_in::Message;
use schedule::{Item2, WORKERS, write_item};
use std::alloc::Global;
use txn_core::Core;
use zbase::{Bytes, Memory};
use zdisk::Disk;

// Gives a request to a worker that has none, and puts that into the text of the tape.
fn give<D: Disk + Drop, E: Evaluator>(
    core: &mut Core<D, E>,
    worker: u32,
    request: E::Request,
    bytes: Bytes,
    text: &mut Bytes,
) -> Result<(), Memory>
    requires worker { worker < WORKERS }
    requires idle { IsIdle core.old worker }
    requires takes { E.takes bytes ≡ Some request }
    ensures given { OnOk result (GivenTo E.takes E.meaning core.old core.new worker bytes) }
    ensures text { OnOk result (text.new ≡ text.old ++ item_text (Item2.Request worker bytes)) }
    ensures line { HasLine (Item2.Request worker bytes) }
    ensures err { OnErr result (core.new ≡ core.old) }
{
    // The length fits in the request's line.
    let _length = bytes.len();
    write_item(&Item2::Request(worker, bytes), text)?;
    match core.give(worker, request) {
        Ok(()) => Ok(()),
        // The worker has no request.
        Err(_) => unreachable!(),
    }
}

/// Gives the messages of a round to the workers from the first on, none of which has a request, and puts that into the text of the
/// tape. The workers that have one now.
pub(crate) fn give_all<D: Disk + Drop, E: Evaluator<Request = Message>>(
    alloc: Global,
    core: &mut Core<D, E>,
    asked: Vec<Asked>,
    text: &mut Bytes,
) -> Result<Vec<u32>, Memory>
    requires idle { Waits core.old [] }
    requires few { length asked.items ≤ WORKERS }
    requires takes { (bytes : List ℕ) → E.takes bytes ≡ one_message bytes }
    requires messages { AreMessages asked.items }
    ensures given { IfOk result (λ _. (now : ℕ) → AllGiven E.takes E.meaning core.old core.new now (bytes_of asked.items)) }
    ensures workers { IfOk result (λ workers. workers.items ≡ workers_from 0 (bytes_of asked.items)) }
    ensures text { IfOk result (λ _. Spelt text.old (items (given_from 0 (bytes_of asked.items))) text.new) }
    ensures went { OnErr result ((since : ℕ) → Went E.takes E.meaning core.old since core.new) }
{
    core.store().is_sound();
    let mut waiting = Vec::new(alloc);
    let mut worker: u32 = 0;
    for one in asked {
        let Asked { message, bytes } = one;
        give(core, worker, message, bytes, text)?;
        waiting.push(worker)?;
        worker += 1;
    }
    Ok(waiting)
}
