ghost use Rattle.std.specs.Prelude.{◌≡◌, ◌⊎◌, ◌≤◌, ◌<◌, ◌+◌, ◌++◌, ℕ, List, [], false, flat_map, IfErr, IfOk, IfSome, IsErrOf, OnOk, Some, min, is_some};
ghost use Rattle.std.specs.List.{AllByRecursion};
ghost use Rattle.std.specs.Option.{ForSome};
ghost use Rattle.zdisk.specs.Crashes.{IsSynced};
ghost use Rattle.zdisk.specs.Disk.{content};
ghost use Rattle.http_clients.specs.Arriving.{Tells};
ghost use Rattle.packing.specs.Reachable.{Linking};
ghost use Rattle.schedule.specs.Items.{HasLine, IsSchedule, item_text};
ghost use Rattle.schedule.specs.declared.item.Item2.{Item2};
ghost use Rattle.fs_store.specs.Stores.{IsTold, StoreView};
ghost use Rattle.txn_core.specs.Cores.{IsAtRest};
ghost use Rattle.txn_core.specs.Replying.{terms_of};
ghost use Rattle.txn_core.specs.Slots.{Possible};
ghost use Rattle.zserve.specs.Going.{Goes};
ghost use Rattle.zserve.specs.Happened.{Happening, items};
ghost use Rattle.zserve.specs.Reports.{Reports};
ghost use Rattle.zserve.specs.Safety.{IsSafe};
ghost use Rattle.zbase.specs.Faults.{Counts};
ghost use Rattle.http_in.specs.Messages.{one_message};
ghost use Rattle.zserve.specs.Served.{RefusedRun, RoundsGone, RunTold};
ghost use Rattle.zserve.specs.Sweeping.{Waits};
ghost use Rattle.zserve.specs.Taping.{Grows, IsLong, Leaves, Taped};

use crate::refusal::{of_hub, of_tape};
use crate::serving::serve_round;
use crate::taping::{put, sync};
use crate::{ServePlan, ServeRefusal, Served};
use evaluator::Evaluator;
use http_in::Message;
use schedule::{WORKERS, served_runs_are_serial, served_runs_replay};
use std::alloc::Global;
use txn_core::Core;
use zdisk::Disk;
use zio::{Clock, Hub};

/// The first line of a tape.
const FIRST_LINE: &[u8] = b"zope schedule 1\n";

/// The last line of a tape.
const LAST_LINE: &[u8] = b"end\n";

// How many connections the next round accepts at most.
fn most_of(clients: u32, left: u64) -> u32
    ensures { result ≡ min clients left }
{
    if left < clients as u64 {
        left as u32
    } else {
        clients
    }
}

// Serves rounds until the plan is done, or no connection comes. What was served, and the tape's new length.
fn serve_rounds<D: Disk + Drop, E: Evaluator<Request = Message>, H: Hub, C: Clock, R: Disk>(
    alloc: Global,
    core: &mut Core<D, E>,
    plan: ServePlan,
    hub: &mut H,
    clock: &mut C,
    tape: &mut R,
    at: u64,
) -> Result<(Served, u64), ServeRefusal>
    requires idle { Waits core.old [] }
    requires plan { (1 ≤ plan.clients) × (plan.clients ≤ WORKERS) }
    requires takes { (bytes : List ℕ) → E.takes bytes ≡ one_message bytes }
    requires long { IsLong (R.told tape.old) at }
    requires listens { IfSome (H.peers hub.old) (λ p. p.port ≡ Some plan.port) }
    ensures served { IfOk result (λ (served, _). (left : ℕ) × RoundsGone E.takes E.meaning plan.connections plan.clients core.old core.new
        (C.ticks clock.old) (C.counter clock.old) (C.ticks clock.new) (C.counter clock.new)
        (R.told tape.old) (R.told tape.new) (H.peers hub.old) (H.peers hub.new) left served.replies × (served.connections + left ≡ plan.connections)
        × ((left ≡ 0) ⊎ IfSome (H.peers hub.new) (λ q. q.coming ≡ []))) }
    ensures refused { IfErr result (λ refusal. (gone : RefusedRun E.takes E.meaning plan.port plan.connections plan.clients core.old core.new
        (C.ticks clock.old) (C.counter clock.old) (H.peers hub.old) (H.peers hub.new)) × AllByRecursion HasLine (items gone.all)
        × Leaves (refusal ≡ ServeRefusal.Tape) (R.told tape.old) (flat_map item_text (items gone.all)) (flat_map item_text (items gone.more))
        (R.told tape.new)) }
    ensures long { IfOk result (λ (_, end). IsLong (R.told tape.new) end) }
    ensures listening { Counts (H.listening hub.old) (H.listening hub.new) (IsErrOf result ServeRefusal.Hub) }
    ensures tells { is_some (R.told tape.new) ≡ is_some (R.told tape.old) }
    ensures disk { Counts (R.counter tape.old) (R.counter tape.new) (IsErrOf result ServeRefusal.Tape) }
{
    let mut left = plan.connections;
    let mut replies: u64 = 0;
    let mut at = at;
    'serving: while left > 0 {
        let most = most_of(plan.clients, left);
        let round = serve_round(alloc, core, hub, clock, tape, at, most)?;
        if round.accepted == 0 {
            return Ok((
                Served {
                    connections: plan.connections - left,
                    replies,
                },
                at,
            ));
        }
        left -= round.accepted as u64;
        replies += round.answered as u64;
        at = round.at;
    }
    let served = Served {
        connections: plan.connections - left,
        replies,
    };
    Ok((served, at))
}

// Puts a text at the end of the tape, which is so long. The tape's new length.
fn put_on_tape<R: Disk>(tape: &mut R, at: u64, text: &[u8]) -> Result<u64, ServeRefusal>
    requires long { IsLong (R.told tape.old) at }
    ensures grows { OnOk result (Grows (R.told tape.old) text.now (R.told tape.new)) }
    ensures left { IfErr result (λ refusal. Leaves (refusal ≡ ServeRefusal.Tape) (R.told tape.old) [] text.now (R.told tape.new)) }
    ensures long { IfOk result (λ end. IsLong (R.told tape.new) end) }
    ensures cause { IsErrOf result ServeRefusal.Hub → ⊥ }
    ensures tells { is_some (R.told tape.new) ≡ is_some (R.told tape.old) }
    ensures disk { Counts (R.counter tape.old) (R.counter tape.new) (IsErrOf result ServeRefusal.Tape) }
{
    match put(tape, at, text) {
        Ok(end) => Ok(end),
        Err(refusal) => Err(of_tape(refusal)),
    }
}

// Puts the last line on the tape, and brings it to the device.
fn end_tape<R: Disk>(tape: &mut R, at: u64) -> Result<(), ServeRefusal>
    requires long { IsLong (R.told tape.old) at }
    ensures ended { OnOk result (Grows (R.told tape.old) (item_text Item2.End) (R.told tape.new) × ForSome (R.told tape.new) IsSynced) }
    ensures left { IfErr result (λ refusal. Leaves (refusal ≡ ServeRefusal.Tape) (R.told tape.old) [] (item_text Item2.End) (R.told tape.new)) }
    ensures cause { IsErrOf result ServeRefusal.Hub → ⊥ }
    ensures tells { is_some (R.told tape.new) ≡ is_some (R.told tape.old) }
    ensures disk { Counts (R.counter tape.old) (R.counter tape.new) (IsErrOf result ServeRefusal.Tape) }
{
    put_on_tape(tape, at, LAST_LINE)?;
    match sync(tape) {
        Ok(()) => Ok(()),
        Err(refusal) => Err(of_tape(refusal)),
    }
}

/// Serves connections of a hub in rounds, as the plan says, over a core at rest, and writes what happens to an empty tape: a
/// schedule, whose replay over the file as it was serves them again.
///
/// A round accepts its first connection in any case and each further one only where it waits. The tape's first line is written
/// once the hub listens, a round before the first of its replies, and the last line behind the last round; then the tape is
/// brought to the device. A connection that sends no message gets no reply, and all are closed at each end.
///
/// Refused for the hub where it can't listen or accept, for the tape where a write or the sync of it fails, and for want of memory.
pub fn serve<D: Disk + Drop, E: Evaluator<Request = Message>, H: Hub, C: Clock, R: Disk>(
    alloc: Global,
    core: &mut Core<D, E>,
    plan: ServePlan,
    hub: &mut H,
    clock: &mut C,
    tape: &mut R,
) -> Result<Served, ServeRefusal>
    requires rest { IsAtRest E.meaning core.old }
    requires fresh { core.old.store.stale ≡ false }
    requires plan { (1 ≤ plan.clients) × (plan.clients ≤ WORKERS) }
    requires empty { ForSome (R.told tape.old) (λ told. content told ≡ []) }
    requires takes { (bytes : List ℕ) → E.takes bytes ≡ one_message bytes }
    ensures tape { IfOk result (λ served. (all : List Happening) × (now : ℕ) × Goes E.takes E.meaning core.old 0 all core.new now
        × IfSome (R.told tape.new) (λ told. IsSynced told × IsSchedule (content told) (items all))
        × Tells (H.peers hub.old) (H.peers hub.new) (RunTold plan.port plan.connections plan.clients all (C.ticks clock.old) (C.counter clock.old)
        (C.ticks clock.new) (C.counter clock.new) served.connections served.replies)
        × (IsTold core.old.store → (links : Linking) (may : StoreView) → Possible core.new.store may
        → Reports (terms_of E.takes E.meaning links core.old.store.limit core.old.store.end) core.old.store.disk.counter.count
        core.new.store.disk.counter.count core.old.store.history all may)) }
    // Where it is refused, the rounds before are served, the tape has them, and the report has all that happened.
    ensures refused { IfErr result (λ refusal. (gone : RefusedRun E.takes E.meaning plan.port plan.connections plan.clients core.old core.new
        (C.ticks clock.old) (C.counter clock.old) (H.peers hub.old) (H.peers hub.new))
        × IfSome (R.told tape.new) (Taped (refusal ≡ ServeRefusal.Tape) gone.all gone.more)
        × (IsTold core.old.store → (links : Linking) (may : StoreView) → Possible core.new.store may
        → Reports (terms_of E.takes E.meaning links core.old.store.limit core.old.store.end) core.old.store.disk.counter.count
        core.new.store.disk.counter.count core.old.store.history (gone.all ++ gone.more) may)) }
    // However it ends, a stop at any moment leaves an image that opens to the history that stands then, or to that and one
    // transaction more.
    ensures safe { IsTold core.old.store → (all : List Happening)
        × IsSafe core.old.store.disk.told core.old.store.history all core.new.store.disk.told core.new.store.history }
    ensures hub { Counts (H.listening hub.old) (H.listening hub.new) (IsErrOf result ServeRefusal.Hub) }
    ensures tells { is_some (R.told tape.new) ≡ is_some (R.told tape.old) }
    ensures disk { Counts (R.counter tape.old) (R.counter tape.new) (IsErrOf result ServeRefusal.Tape) }
{
    served_runs_are_serial::<E>();
    served_runs_replay::<E>();
    core.is_sound();
    core.store().is_sound();
    if let Err(refusal) = hub.listen(plan.port) {
        return Err(of_hub(refusal));
    }
    let at = put_on_tape(tape, 0, FIRST_LINE)?;
    let (served, at) = serve_rounds(alloc, core, plan, hub, clock, tape, at)?;
    end_tape(tape, at)?;
    Ok(served)
}
