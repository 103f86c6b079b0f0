ghost use Rattle.std.specs.Prelude.{◌≡◌, ◌≤◌, ◌<◌, ℕ, List, [], IfErr, IfOk, IfSome, IsErrOf, is_some};
ghost use Rattle.zbase.specs.Faults.{Counts};
ghost use Rattle.http_in.specs.Messages.{one_message};
ghost use Rattle.http_clients.specs.Arriving.{Tells};
ghost use Rattle.zserve.specs.Serving.{AllShut, ArrivesNone, RoundLost, RoundServed};
ghost use Rattle.zserve.specs.Sweeping.{Waits};
ghost use Rattle.zserve.specs.Taping.{IsLong};

use crate::ServeRefusal;
use crate::answering::answer_round;
use crate::refusal::{of_hub, of_tape};
use evaluator::Evaluator;
use http_clients::{arrive, close_all};
use http_in::Message;
use schedule::WORKERS;
use std::alloc::Global;
use txn_core::Core;
use zdisk::Disk;
use zio::{Clock, Hub};

/// How a round ended.
#[derive(Clone, Copy, Debug)]
pub(crate) struct RoundEnd {
    /// How many connections it accepted.
    pub(crate) accepted: u32,
    /// How many of them sent a message, and so have a reply.
    pub(crate) answered: u32,
    /// The length of the tape behind it.
    pub(crate) at: u64,
}

/// A round: connections are accepted, so many at most, and served. Where it accepted none, the hub has no further one, and nothing
/// happened.
///
/// All connections of the round are closed, also where it is refused.
pub(crate) fn serve_round<
    D: Disk + Drop,
    E: Evaluator<Request = Message>,
    H: Hub,
    C: Clock,
    R: Disk,
>(
    alloc: Global,
    core: &mut Core<D, E>,
    hub: &mut H,
    clock: &mut C,
    tape: &mut R,
    at: u64,
    most: u32,
) -> Result<RoundEnd, ServeRefusal>
    requires idle { Waits core.old [] }
    requires most { (1 ≤ most) × (most ≤ WORKERS) }
    requires takes { (bytes : List ℕ) → E.takes bytes ≡ one_message bytes }
    requires long { IsLong (R.told tape.old) at }
    ensures served { IfOk result (λ end. 1 ≤ end.accepted → RoundServed E.takes E.meaning core.old core.new (C.ticks clock.old)
        (C.counter clock.old) (C.ticks clock.new) (C.counter clock.new)
        (R.told tape.old) (R.told tape.new) (H.peers hub.old) (H.peers hub.new) end.accepted end.answered) }
    ensures none { IfOk result (λ end. end.accepted ≡ 0 → (core.new ≡ core.old) × (C.ticks clock.new ≡ C.ticks clock.old)
        × (C.counter clock.new ≡ C.counter clock.old) × (R.told tape.new ≡ R.told tape.old)
        × Tells (H.peers hub.old) (H.peers hub.new) ArrivesNone) }
    ensures most { IfOk result (λ end. (end.answered ≤ end.accepted) × (end.accepted ≤ most)) }
    ensures fewer { IfOk result (λ end. end.accepted < most → IfSome (H.peers hub.new) (λ q. q.coming ≡ [])) }
    ensures long { IfOk result (λ end. IsLong (R.told tape.new) end.at) }
    ensures refused { IfErr result (λ _. Tells (H.peers hub.old) (H.peers hub.new) AllShut) }
    ensures lost { IfErr result (λ refusal. (since : ℕ) → RoundLost (refusal ≡ ServeRefusal.Tape) E.takes E.meaning core.old since core.new
        (R.told tape.old) (R.told tape.new)) }
    ensures listening { Counts (H.listening hub.old) (H.listening hub.new) (IsErrOf result ServeRefusal.Hub) }
    ensures tells { is_some (R.told tape.new) ≡ is_some (R.told tape.old) }
    ensures disk { Counts (R.counter tape.old) (R.counter tape.new) (IsErrOf result ServeRefusal.Tape) }
{
    let mut numbers = Vec::new(alloc);
    let mut asked = Vec::new(alloc);
    let accepted = match arrive(alloc, hub, most, &mut numbers, &mut asked) {
        Ok(accepted) => accepted,
        Err(refusal) => {
            close_all(hub, numbers.as_slice());
            return Err(of_hub(refusal));
        }
    };
    let answered = numbers.len() as u32;
    if accepted == 0 {
        return Ok(RoundEnd {
            accepted,
            answered,
            at,
        });
    }
    match answer_round(alloc, core, hub, clock, tape, at, numbers.as_slice(), asked) {
        Ok(at) => Ok(RoundEnd {
            accepted,
            answered,
            at,
        }),
        Err(refusal) => Err(of_tape(refusal)),
    }
}
