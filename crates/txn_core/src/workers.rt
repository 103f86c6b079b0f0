ghost use Rattle.std.specs.Prelude.{◌≡◌, ◌<◌, ◌≤◌, ◌≢◌, ◌↔◌, ⊤, false, true, ℕ, List, [], Some, None, IfOk, IfErr, IfSome, IsErrOf, OnOk, All, length, map, slice_get};
ghost use Rattle.std.specs.List.{list_any};
ghost use Rattle.zbase.specs.Faults.{Counts, Twice};
ghost use Rattle.schedule.specs.Follows.{Follows};
ghost use Rattle.schedule.specs.Moments.{Terms};
ghost use Rattle.schedule.specs.Stepping.{has_request};
ghost use Rattle.schedule.specs.declared.item.Item2.{Item2};
ghost use Rattle.zdisk.specs.Disk.{content};
ghost use Rattle.zdisk.specs.Images.{IsImage};
ghost use Rattle.fs_store.specs.Moments.{IsWhole, KeepsOpening, OpensAsKnown};
ghost use Rattle.fs_store.specs.Stores.{IsTold, Settles, Stands, Stays};
ghost use Rattle.fs_store.specs.declared.refusal.LoadRefusal.{LoadRefusal};
ghost use Rattle.connection.specs.States.{PendingView};
ghost use Rattle.connection.specs.Telling.{TellsOn};
ghost use Rattle.txn_core.specs.Counting.{IsFinishLine, IsOutcome, Lowers, Paces, left};
ghost use Rattle.connection.specs.Votes.{IsHeldBy};
ghost use Rattle.txn_core.specs.Passing.{Passes};
ghost use Rattle.txn_core.specs.StepLines.{IsAnswered, IsCommitLine, IsFaultLine, IsVoteLine, step_lines};
ghost use Rattle.txn_core.specs.Crashing.{KeepsNearly};
ghost use Rattle.txn_core.specs.Slots.{Closes, IsLeft, RestsOn, doing_of};
ghost use Rattle.txn_core.specs.declared.slot.Slot.{Slot};
ghost use Rattle.txn_core.specs.declared.step_line.StepLine.{StepLine};

use crate::advancing::advance;
use crate::closing::{end_slots, has_taken, is_taken, taken};
use crate::slot::Slot;
use crate::{GiveRefusal, StepLine};
use connection::Fresh;
use evaluator::Evaluator;
use fs_store::{AbortRefusal, LoadRefusal, Store};
use schedule::WORKERS;
use std::alloc::Global;
use std::marker::Model;
use std::mem;
use zbase::{Bytes, Memory, Tid};
use zdisk::Disk;

// Sixteen idle workers.
fn idle_slots<E: Evaluator>(alloc: Global) -> Result<Vec<Slot<E>>, Memory>
    ensures count { IfOk result (λ slots. length slots.items ≡ WORKERS) }
    ensures idle { IfOk result (λ slots. All (λ s. s ≡ Slot.Idle) slots.items) }
{
    let mut slots = Vec::with_capacity(alloc, WORKERS)?;
    for _ in 0..WORKERS {
        slots.push_reserved(Slot::Idle);
    }
    Ok(slots)
}

/// Sixteen workers over one store, numbered from 0 to 15. Its disk may fail, and may tell nothing.
pub struct Core<D: Disk + Drop, E: Evaluator> {
    alloc: Global,
    pub(crate) store: Store<D>,
    evaluator: E,
    slots: Vec<Slot<E>>,
}

impl<D: Disk + Drop, E: Evaluator> Model for Core<D, E> {
    ghost use Rattle.txn_core.specs.Cores.{CoreView};
    ghost use Rattle.txn_core.specs.Slots.{CoreStands};

    ghost Value = { CoreView E E.Request E.State };

    ghost view = { λ core. record { store = core.store; slots = core.slots.items } };

    ghost invariant = { λ core. CoreStands E.meaning core.store core.slots.items };
}

impl<D: Disk + Drop, E: Evaluator> Core<D, E> {
    ghost use Rattle.evaluator.specs.Exec.{WasTaken};
    ghost use Rattle.txn_core.specs.Cores.{HasVoted, IsAtRest, IsIdle, MayBe, is_taken};

    /// A core whose workers have no request. For want of memory the parts come back.
    pub fn new(
        alloc: Global,
        store: Store<D>,
        evaluator: E,
    ) -> Result<Core<D, E>, (Memory, Store<D>, E)>
        requires { store.out ≡ None }
        ensures store { IfOk result (λ core. core.store ≡ store) }
        ensures rest { IfOk result (λ core. IsAtRest E.meaning core) }
        ensures back { IfErr result (λ (_, store_back, evaluator_back). (store_back ≡ store) × (evaluator_back ≡ evaluator)) }
    {
        match idle_slots(alloc) {
            Ok(slots) => Ok(Core {
                alloc,
                store,
                evaluator,
                slots,
            }),
            Err(memory) => Err((memory, store, evaluator)),
        }
    }

    /// There are sixteen workers, and one has no step left exactly where it has no request. One at most stands between its
    /// vote and its finish, whatever the disk tells: the one that holds the store's vote.
    pub fn is_sound(&self)
        ensures workers { length self.now.slots ≡ WORKERS }
        ensures idle { (worker : ℕ) → worker < WORKERS → left self.now.slots worker ≡ 0 ↔ IsIdle self.now worker }
        ensures one_vote { (v w : ℕ) → HasVoted self.now v → HasVoted self.now w → v ≡ w }
        ensures voter { (worker : ℕ) → HasVoted self.now worker ↔ IsHeldBy self.now.store worker }
    {
        let _alloc = self.alloc;
    }

    /// The store under the workers.
    pub fn store(&self) -> &Store<D>
        ensures { result.now ≡ self.now.store }
    {
        &self.store
    }

    /// The request that bytes are, as the evaluator reads them.
    pub fn take(&self, bytes: &[u8]) -> Result<Option<E::Request>, Memory>
        ensures { IfOk result (λ request. request ≡ E.takes bytes.now) }
    {
        self.evaluator.take(bytes)
    }

    /// Gives a request that was taken to a worker, which is refused exactly where the worker has one; then the request
    /// comes back. Takes no memory.
    pub fn give(
        &mut self,
        worker: u32,
        request: E::Request,
    ) -> Result<(), (GiveRefusal, E::Request)>
        requires worker { worker < WORKERS }
        requires taken { WasTaken E.takes request }
        ensures idle { OnOk result (IsIdle self.old worker) }
        ensures taken { IfErr result (λ _. IsIdle self.old worker → ⊥) }
        ensures given { OnOk result ((terms : Terms E.Request) (now : ℕ) (bytes : List ℕ) → terms.takes bytes ≡ Some request →
            Follows terms (MayBe E.meaning self.old) now (MayBe E.meaning self.new) now (Item2.Request worker bytes) []) }
        ensures store { self.new.store ≡ self.old.store }
        ensures left { OnOk result (left self.new.slots worker ≤ 48020) }
        ensures others { (v : ℕ) → v ≢ worker → slice_get self.new.slots v ≡ slice_get self.old.slots v }
        ensures back { IfErr result (λ (_, back). (back ≡ request) × (self.new ≡ self.old)) }
    {
        let at = worker as usize;
        let Slot::Idle = &self.slots[at] else {
            return Err((GiveRefusal::WorkerTaken, request));
        };
        let fresh = Fresh::new(self.alloc, request);
        let idle = mem::replace(&mut self.slots[at], Slot::Fresh(fresh));
        let Slot::Idle = idle else { unreachable!() };
        Ok(())
    }

    /// Whether no worker has a request; then no vote is out.
    pub fn is_idle(&self) -> bool
        ensures idle { result ≡ true → list_any is_taken self.now.slots ≡ false }
        ensures rest { result ≡ true → IsAtRest E.meaning self.now }
        ensures busy { result ≡ false → list_any (λ d. has_request (Some d)) (map (doing_of E.meaning) self.now.slots) ≡ true }
    {
        !has_taken(self.slots.as_slice())
    }

    /// Whether a worker has no request.
    pub fn is_free(&self, worker: u32) -> bool
        requires { worker < WORKERS }
        ensures { result ≡ true ↔ IsIdle self.now worker }
    {
        !is_taken(&self.slots[worker as usize])
    }

    /// The bytes of the disk's file, where no vote is out: a file of the history, which is all that the disk reads. A stale store
    /// is opened again first; no worker is changed.
    pub fn bytes(&mut self) -> Result<Bytes, LoadRefusal>
        requires idle { self.old.store.out ≡ None }
        ensures content { IfOk result (λ bytes. IfSome self.new.store.disk.told (λ told. bytes ≡ content told)) }
        ensures whole { IfOk result (λ bytes. IsTold self.new.store → IsWhole self.new.store bytes) }
        ensures long { IfOk result (λ bytes. length bytes ≡ self.new.store.end) }
        ensures fresh { OnOk result (self.new.store.stale ≡ false) }
        ensures settled { OnOk result (IsTold self.old.store → Settles self.old.store self.new.store) }
        ensures stands { IsTold self.old.store → Stands self.old.store self.new.store }
        ensures same { self.old.store.stale ≡ false → Stays self.old.store self.new.store }
        ensures out { self.new.store.out ≡ self.old.store.out }
        ensures limit { self.new.store.limit ≡ self.old.store.limit }
        ensures tells { TellsOn self.old.store.disk.told self.new.store.disk.told }
        ensures any_moment { KeepsOpening self.old.store self.new.store }
        ensures slots { self.new.slots ≡ self.old.slots }
        ensures counts { Counts self.old.store.disk.counter self.new.store.disk.counter (IsErrOf result LoadRefusal.Disk) }
    {
        self.store.is_sound();
        self.store.bytes()
    }

    /// One event of a worker, at this stamp of the clock: a step of the table, whatever the other workers are
    /// doing, where the store tells. Where the outcome of a finish isn't known, the core is at one of two moments, and
    /// each moment at which it is behind the step is one that a step led to.
    ///
    /// Where the count of the disk's faults rose, the answer is `DiskFault`, or `Unknown` in a finish; neither comes
    /// elsewhere, and without them a store that tells and isn't stale stays so. Whatever a stop at any moment of the step
    /// leaves opens to the known history, with one transaction more at most. Each step but one that answers `Idle` or
    /// `Busy` lowers the worker's number `left`, and no other number is changed. A worker is idle exactly where it has no
    /// request, and waits only for one whose vote is out. An answer comes in the second step of its attempt beside those
    /// that fetch its facts, a commit in the fourth; the facts are those for which the evaluation of its request asks,
    /// each once.
    pub fn step(&mut self, worker: u32, now: Tid) -> StepLine
        requires { worker < WORKERS }
        ensures step { IsTold self.old.store → (terms : Terms E.Request) → terms.eval ≡ E.meaning → terms.limit ≡ self.old.store.limit →
            Follows terms (MayBe E.meaning self.old) now (MayBe E.meaning self.new) now (Item2.Step worker) (step_lines terms.answer worker result) }
        ensures limit { self.new.store.limit ≡ self.old.store.limit }
        ensures tells { TellsOn self.old.store.disk.told self.new.store.disk.told }
        ensures any_moment { KeepsNearly self.old.store self.new.store }
        ensures fresh { IsCommitLine result → self.new.store.stale ≡ false }
        ensures calm { IsTold self.old.store → (IsFaultLine result → ⊥) → self.old.store.stale ≡ false → self.new.store.stale ≡ false }
        ensures answered { IsAnswered result }
        ensures counts { Counts self.old.store.disk.counter self.new.store.disk.counter (IsFaultLine result) }
        ensures twice { IsVoteLine result → Twice self.old.store.disk.counter self.new.store.disk.counter }
        ensures passes { (old new : Slot E E.Request E.State) → slice_get self.old.slots worker ≡ Some old
            → slice_get self.new.slots worker ≡ Some new → Passes E.meaning result old new }
        ensures left { Lowers result (left self.old.slots worker) (left self.new.slots worker) }
        ensures paces { (old new : Slot E E.Request E.State) → slice_get self.old.slots worker ≡ Some old → slice_get self.new.slots worker ≡ Some new
            → Paces result old new }
        ensures asked { IsTold self.old.store → (old : Slot E E.Request E.State) → slice_get self.old.slots worker ≡ Some old
            → RestsOn E.meaning self.old.store result old }
        ensures waits { (v : ℕ) → result ≡ StepLine.Busy v → (p : PendingView E.Request) × (slice_get self.old.slots v ≡ Some (Slot.Pending p)) }
        ensures ends { (p : PendingView E.Request) → slice_get self.old.slots worker ≡ Some (Slot.Pending p) → IsIdle self.new worker × IsOutcome p result }
        ensures finishes { IsFinishLine result → (p : PendingView E.Request) × (slice_get self.old.slots worker ≡ Some (Slot.Pending p)) }
        ensures others { (v : ℕ) → v ≢ worker → slice_get self.new.slots v ≡ slice_get self.old.slots v }
    {
        let at = worker as usize;
        let slot = mem::replace(&mut self.slots[at], Slot::Idle);
        let (next, line) = advance(&mut self.store, &mut self.evaluator, worker, now, slot);
        let idle = mem::replace(&mut self.slots[at], next);
        let Slot::Idle = idle else { unreachable!() };
        line
    }

    /// Ends all requests: the store, in which a vote that was out never stands, and which workers had a request.
    /// Refused only where the disk failed in that; the store is stale then.
    pub fn close(self) -> Result<(Store<D>, [bool; WORKERS]), (AbortRefusal, Store<D>)>
        ensures store { IfOk result (λ (store, _). Closes self.store false store × TellsOn self.store.disk.told store.disk.told) }
        ensures taken { IfOk result (λ (_, taken). taken ≡ map is_taken self.slots) }
        ensures idle { IfOk result (λ (store, _). store.out ≡ None) }
        ensures stale { IfErr result (λ (_, store). Closes self.store true store × TellsOn self.store.disk.told store.disk.told) }
        ensures counts { IfOk result (λ (store, _). Counts self.store.disk.counter store.disk.counter ⊥) }
        ensures fault { IfErr result (λ (_, store). Counts self.store.disk.counter store.disk.counter ⊤) }
    {
        let Core {
            alloc: _,
            mut store,
            evaluator: _,
            mut slots,
        } = self;
        let lost = taken(slots.as_slice());
        let fault = end_slots(&mut store, &mut slots);
        slots.destroy_empty();
        if fault {
            Err((AbortRefusal::Disk, store))
        } else {
            Ok((store, lost))
        }
    }

    /// Ends all requests after a stop: the disk, the evaluator, and which workers had a request. A vote that was out
    /// never stands; whether the disk failed in that isn't told. Each image of the disk opens to what is known, or to that
    /// and the transaction of a finish whose outcome isn't known.
    pub fn lose(self) -> (D, E, [bool; WORKERS])
        ensures left { IsLeft self.store (D.told result.0) (D.counter result.0) }
        ensures images { IfSome (D.told result.0) (λ told. (image : List ℕ) → IsImage told.now image → OpensAsKnown self.store image) }
        ensures taken { result.2 ≡ map is_taken self.slots }
    {
        let Core {
            alloc: _,
            mut store,
            evaluator,
            mut slots,
        } = self;
        let lost = taken(slots.as_slice());
        let _fault = end_slots(&mut store, &mut slots);
        slots.destroy_empty();
        (store.into_disk(), evaluator, lost)
    }
}
