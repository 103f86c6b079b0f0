ghost use Rattle.std.specs.Prelude.{◌≡◌, ◌≤◌, ⊤, ℕ, List, [], Option, IfErr, IfOk, IsErrOf, length, is_some};
ghost use Rattle.zbase.specs.Faults.{Counts};
ghost use Rattle.http_in.specs.Messages.{one_message};
ghost use Rattle.http_clients.specs.Arriving.{AreMessages, bytes_of};
ghost use Rattle.http_clients.specs.Ending.{EndsAll, SendsReply, WereOpen};
ghost use Rattle.zserve.specs.Happened.{Happening};
ghost use Rattle.zserve.specs.Serving.{RoundLost, RoundTaped};
ghost use Rattle.zserve.specs.Sweeping.{Waits};
ghost use Rattle.zserve.specs.Taping.{IsLong};

use crate::running::run_round;
use crate::taping::put;
use evaluator::Evaluator;
use http_clients::{Asked, answer, close_all};
use http_in::Message;
use schedule::WORKERS;
use std::alloc::Global;
use txn_core::Core;
use zbase::Bytes;
use zdisk::Disk;
use zio::{Clock, Hub, OutsideRefusal};

// Runs a round of a core, and puts what happened at the end of the tape, which is so long. The replies, and the tape's new length.
fn tape_round<D: Disk + Drop, E: Evaluator<Request = Message>, C: Clock, R: Disk>(
    alloc: Global,
    core: &mut Core<D, E>,
    clock: &mut C,
    tape: &mut R,
    at: u64,
    asked: Vec<Asked>,
) -> Result<(Vec<Option<Bytes>>, u64), OutsideRefusal>
    requires idle { Waits core.old [] }
    requires few { length asked.items ≤ WORKERS }
    requires takes { (bytes : List ℕ) → E.takes bytes ≡ one_message bytes }
    requires messages { AreMessages asked.items }
    requires long { IsLong (R.told tape.old) at }
    ensures done { IfOk result (λ (replies, _). (stamp : ℕ) × (turns : List (List Happening))
        × RoundTaped E.takes E.meaning core.old core.new (C.ticks clock.old) (C.counter clock.old) (C.ticks clock.new) (C.counter clock.new)
        (R.told tape.old) (R.told tape.new) (bytes_of asked.items) stamp turns replies.items) }
    ensures lost { IfErr result (λ refusal. (since : ℕ) → RoundLost (refusal ≡ OutsideRefusal.Failed) E.takes E.meaning core.old since core.new
        (R.told tape.old) (R.told tape.new)) }
    ensures long { IfOk result (λ (_, end). IsLong (R.told tape.new) end) }
    ensures tells { is_some (R.told tape.new) ≡ is_some (R.told tape.old) }
    ensures disk { Counts (R.counter tape.old) (R.counter tape.new) (IsErrOf result OutsideRefusal.Failed) }
{
    let mut text = Bytes::new(alloc);
    let replies = run_round(alloc, core, clock, asked, &mut text)?;
    let end = put(tape, at, text.as_slice())?;
    Ok((replies, end))
}

/// Serves the connections that came: each has its reply once the tape has the round, and then all are closed, also where the round
/// is refused. The tape's new length.
pub(crate) fn answer_round<
    D: Disk + Drop,
    E: Evaluator<Request = Message>,
    H: Hub,
    C: Clock,
    R: Disk,
>(
    alloc: Global,
    core: &mut Core<D, E>,
    hub: &mut H,
    clock: &mut C,
    tape: &mut R,
    at: u64,
    numbers: &[u32],
    asked: Vec<Asked>,
) -> Result<u64, OutsideRefusal>
    requires idle { Waits core.old [] }
    requires few { length asked.items ≤ WORKERS }
    requires takes { (bytes : List ℕ) → E.takes bytes ≡ one_message bytes }
    requires messages { AreMessages asked.items }
    requires long { IsLong (R.told tape.old) at }
    requires open { WereOpen numbers.now (H.peers hub.old) }
    requires as_many { length numbers.now ≡ length asked.items }
    ensures done { IfOk result (λ _. (stamp : ℕ) × (turns : List (List Happening)) × (replies : List (Option (List ℕ)))
        × RoundTaped E.takes E.meaning core.old core.new (C.ticks clock.old) (C.counter clock.old) (C.ticks clock.new) (C.counter clock.new)
        (R.told tape.old) (R.told tape.new) (bytes_of asked.items) stamp turns replies
        × EndsAll (SendsReply replies) numbers.now (H.peers hub.old) (H.peers hub.new)) }
    ensures ended { EndsAll (λ w end. ⊤) numbers.now (H.peers hub.old) (H.peers hub.new) }
    ensures lost { IfErr result (λ refusal. (since : ℕ) → RoundLost (refusal ≡ OutsideRefusal.Failed) E.takes E.meaning core.old since core.new
        (R.told tape.old) (R.told tape.new)) }
    ensures long { IfOk result (λ end. IsLong (R.told tape.new) end) }
    ensures listening { H.listening hub.new ≡ H.listening hub.old }
    ensures tells { is_some (R.told tape.new) ≡ is_some (R.told tape.old) }
    ensures disk { Counts (R.counter tape.old) (R.counter tape.new) (IsErrOf result OutsideRefusal.Failed) }
{
    match tape_round(alloc, core, clock, tape, at, asked) {
        Ok((replies, end)) => {
            if answer(hub, numbers, replies.as_slice()) {
                return Err(OutsideRefusal::Memory);
            }
            Ok(end)
        }
        Err(refusal) => {
            close_all(hub, numbers);
            Err(refusal)
        }
    }
}
