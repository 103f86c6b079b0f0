ghost use Rattle.std.specs.Prelude.{◌≡◌, false};
ghost use Rattle.zbase.specs.Faults.{Counts, Twice};
ghost use Rattle.connection.specs.Telling.{TellsOn};
ghost use Rattle.fs_store.specs.Stores.{IsTold};
ghost use Rattle.txn_core.specs.Crashing.{KeepsNearly};
ghost use Rattle.txn_core.specs.Slots.{ActiveStands, Advances, ChangeStands, ComputedStands, PendingStands, SlotStands};
ghost use Rattle.txn_core.specs.StepLines.{IsAnswered, IsCommitLine, IsFaultLine, IsVoteLine};
ghost use Rattle.txn_core.specs.declared.slot.Slot.{Slot};

use crate::StepLine;
use crate::slot::Slot;
use connection::{Active, BeginRefusal, CommitRefusal, Fresh, Pending, TurnRefusal, Turned};
use evaluator::Evaluator;
use fs_store::Store;
use zbase::Tid;
use zdisk::Disk;

#[tactic(auto, using(crate::proofs::Crashing::opening_nearly))]
fn begin<D: Disk + Drop, E: Evaluator>(
    store: &mut Store<D>,
    evaluator: &E,
    worker: u32,
    now: Tid,
    fresh: Fresh<E>,
) -> (Slot<E>, StepLine)
    ensures advances { Advances E.meaning worker now store.old store.new (Slot.Fresh fresh) result.0 result.1 }
    ensures limit { store.new.limit ≡ store.old.limit }
    ensures tells { TellsOn store.old.disk.told store.new.disk.told }
    ensures any_moment { KeepsNearly store.old store.new }
    ensures answered { IsAnswered result.1 }
    ensures counts { Counts store.old.disk.counter store.new.disk.counter (IsFaultLine result.1) }
    ensures fresh { IsCommitLine result.1 → store.new.stale ≡ false }
    ensures calm { IsTold store.old → (IsFaultLine result.1 → ⊥) → store.old.stale ≡ false → store.new.stale ≡ false }
    ensures twice { IsVoteLine result.1 → Twice store.old.disk.counter store.new.disk.counter }
{
    store.is_sound();
    match fresh.begin(store, evaluator) {
        Ok(active) => {
            let snapshot = active.snapshot();
            (Slot::Active(active), StepLine::Begun(snapshot))
        }
        Err((BeginRefusal::Disk, _fresh)) => (Slot::Idle, StepLine::DiskFault),
        Err((BeginRefusal::Memory, _fresh)) => (Slot::Idle, StepLine::Memory),
    }
}

#[tactic(auto, using(crate::proofs::Crashing::opening_nearly))]
fn turn<D: Disk + Drop, E: Evaluator>(
    store: &mut Store<D>,
    evaluator: &mut E,
    worker: u32,
    now: Tid,
    active: Active<E>,
) -> (Slot<E>, StepLine)
    requires stands { ActiveStands store.old active }
    ensures advances { Advances E.meaning worker now store.old store.new (Slot.Active active) result.0 result.1 }
    ensures limit { store.new.limit ≡ store.old.limit }
    ensures tells { TellsOn store.old.disk.told store.new.disk.told }
    ensures any_moment { KeepsNearly store.old store.new }
    ensures answered { IsAnswered result.1 }
    ensures counts { Counts store.old.disk.counter store.new.disk.counter (IsFaultLine result.1) }
    ensures fresh { IsCommitLine result.1 → store.new.stale ≡ false }
    ensures calm { IsTold store.old → (IsFaultLine result.1 → ⊥) → store.old.stale ≡ false → store.new.stale ≡ false }
    ensures twice { IsVoteLine result.1 → Twice store.old.disk.counter store.new.disk.counter }
{
    store.is_sound();
    match active.turn(store, evaluator) {
        Ok(Turned::Fetched(active, ask)) => {
            active.is_sound();
            (Slot::Active(active), StepLine::Fetched(ask))
        }
        Ok(Turned::Answered(reply, at)) => (Slot::Idle, StepLine::Read(reply, at)),
        Ok(Turned::Ready(active)) => (Slot::Computed(active), StepLine::Computed),
        Err((TurnRefusal::Disk, _active)) => (Slot::Idle, StepLine::DiskFault),
        Err((TurnRefusal::Memory, _active)) => (Slot::Idle, StepLine::Memory),
    }
}

#[tactic(auto, using(crate::proofs::Crashing::opening_nearly))]
fn vote<D: Disk + Drop, E: Evaluator>(
    store: &mut Store<D>,
    worker: u32,
    now: Tid,
    active: Active<E>,
) -> (Slot<E>, StepLine)
    requires stands { ComputedStands E.meaning store.old active }
    ensures advances { Advances E.meaning worker now store.old store.new (Slot.Computed active) result.0 result.1 }
    ensures limit { store.new.limit ≡ store.old.limit }
    ensures tells { TellsOn store.old.disk.told store.new.disk.told }
    ensures any_moment { KeepsNearly store.old store.new }
    ensures answered { IsAnswered result.1 }
    ensures counts { Counts store.old.disk.counter store.new.disk.counter (IsFaultLine result.1) }
    ensures fresh { IsCommitLine result.1 → store.new.stale ≡ false }
    ensures calm { IsTold store.old → (IsFaultLine result.1 → ⊥) → store.old.stale ≡ false → store.new.stale ≡ false }
    ensures twice { IsVoteLine result.1 → Twice store.old.disk.counter store.new.disk.counter }
{
    store.is_sound();
    active.is_sound();
    match active.vote(store, worker, now) {
        Ok(pending) => {
            let tid = pending.tid();
            (Slot::Pending(pending), StepLine::Voted(tid))
        }
        Err(CommitRefusal::Busy(holder, active)) => {
            (Slot::Computed(active), StepLine::Busy(holder))
        }
        Err(CommitRefusal::Conflict(clash, fresh)) => {
            (Slot::Fresh(fresh), StepLine::Conflict(clash))
        }
        Err(CommitRefusal::GivenUp(clashes)) => (Slot::Idle, StepLine::GivenUp(clashes)),
        Err(CommitRefusal::Spent(spent, _active)) => (Slot::Idle, StepLine::Spent(spent)),
        Err(CommitRefusal::Disk(_active)) => (Slot::Idle, StepLine::DiskFault),
        Err(CommitRefusal::Memory(_active)) => (Slot::Idle, StepLine::Memory),
    }
}

fn finish<D: Disk + Drop, E: Evaluator>(
    store: &mut Store<D>,
    worker: u32,
    now: Tid,
    pending: Pending<E>,
) -> (Slot<E>, StepLine)
    requires vote { PendingStands store.old worker pending }
    requires change { ChangeStands E.meaning store.old pending }
    ensures advances { Advances E.meaning worker now store.old store.new (Slot.Pending pending) result.0 result.1 }
    ensures limit { store.new.limit ≡ store.old.limit }
    ensures tells { TellsOn store.old.disk.told store.new.disk.told }
    ensures any_moment { KeepsNearly store.old store.new }
    ensures answered { IsAnswered result.1 }
    ensures counts { Counts store.old.disk.counter store.new.disk.counter (IsFaultLine result.1) }
    ensures fresh { IsCommitLine result.1 → store.new.stale ≡ false }
    ensures calm { IsTold store.old → (IsFaultLine result.1 → ⊥) → store.old.stale ≡ false → store.new.stale ≡ false }
    ensures twice { IsVoteLine result.1 → Twice store.old.disk.counter store.new.disk.counter }
{
    store.is_sound();
    pending.is_sound();
    let voted = pending.tid();
    match pending.finish(store) {
        Ok((reply, tid)) => (Slot::Idle, StepLine::Commit(reply, tid)),
        Err(_) => (Slot::Idle, StepLine::Unknown(voted)),
    }
}

/// One step of a worker, from what its slot holds to what it then holds.
pub(crate) fn advance<D: Disk + Drop, E: Evaluator>(
    store: &mut Store<D>,
    evaluator: &mut E,
    worker: u32,
    now: Tid,
    slot: Slot<E>,
) -> (Slot<E>, StepLine)
    requires { SlotStands E.meaning store.old worker slot }
    ensures advances { Advances E.meaning worker now store.old store.new slot result.0 result.1 }
    ensures limit { store.new.limit ≡ store.old.limit }
    ensures tells { TellsOn store.old.disk.told store.new.disk.told }
    ensures any_moment { KeepsNearly store.old store.new }
    ensures answered { IsAnswered result.1 }
    ensures counts { Counts store.old.disk.counter store.new.disk.counter (IsFaultLine result.1) }
    ensures fresh { IsCommitLine result.1 → store.new.stale ≡ false }
    ensures calm { IsTold store.old → (IsFaultLine result.1 → ⊥) → store.old.stale ≡ false → store.new.stale ≡ false }
    ensures twice { IsVoteLine result.1 → Twice store.old.disk.counter store.new.disk.counter }
{
    store.is_sound();
    match slot {
        Slot::Idle => (Slot::Idle, StepLine::Idle),
        Slot::Fresh(fresh) => begin(store, evaluator, worker, now, fresh),
        Slot::Active(active) => turn(store, evaluator, worker, now, active),
        Slot::Computed(active) => vote(store, worker, now, active),
        Slot::Pending(pending) => finish(store, worker, now, pending),
    }
}
