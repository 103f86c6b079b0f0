use crate::learning::learn;
use crate::{CommitRefusal, Conflicts, Fresh, Pending, TurnRefusal, Turned};
use evaluator::{Draft, Evaluator, Facts, Outcome, Reply};
use fs_store::{LoadRefusal, Seen, Store, VoteRefusal, Voted};
use std::alloc::Global;
use std::marker::Model;
use zbase::{Clash, Tid};
use zdisk::Disk;

/// An attempt under way: its request, the last transaction when it began, what the evaluator keeps for it, the
/// facts that it was told and the objects among them, and its reply and change once these are ready.
pub struct Active<E: Evaluator> {
    alloc: Global,
    request: E::Request,
    state: E::State,
    conflicts: Conflicts,
    snapshot: Tid,
    facts: Facts,
    reads: Vec<Seen>,
    ready: Option<(Reply, Draft)>,
}

impl<E: Evaluator> Model for Active<E> {
    ghost use Rattle.std.specs.Prelude.{◌≡◌};
    ghost use Rattle.evaluator.specs.Exec.{IsTrail, WasTaken};
    ghost use Rattle.evaluator.specs.Facts.{look};
    ghost use Rattle.connection.specs.States.{ActiveView, AreReads, clashes_of};

    ghost Value = { ActiveView E.Request };

    ghost view = { λ a. record {
      attempt = record { request = a.request; clashes = clashes_of a.conflicts; snapshot = a.snapshot; facts = a.facts };
      reads = a.reads.items;
      ready = a.ready;
    } };

    ghost invariant = { λ a. (E.fits a.state a.facts a.request) × AreReads a.reads.items a.facts
        × IsTrail (λ known. E.meaning (look known) a.request) a.facts × WasTaken E.takes a.request };
}

impl<E: Evaluator> Drop for Active<E> {
    fn drop(self) {
        let Active {
            alloc: _,
            request: _,
            state: _,
            conflicts: _,
            snapshot: _,
            facts: _,
            reads: _,
            ready: _,
        } = self;
    }
}

impl<E: Evaluator> Active<E> {
    ghost use Rattle.std.specs.Prelude.{◌≡◌, [], None};
    ghost use Rattle.evaluator.specs.Exec.{WasTaken};
    ghost use Rattle.connection.specs.States.{clashes_of};

    // An attempt that knows nothing yet.
    pub(crate) fn new(
        alloc: Global,
        request: E::Request,
        conflicts: Conflicts,
        snapshot: Tid,
        evaluator: &E,
    ) -> Active<E>
        requires { WasTaken E.takes request }
        ensures { result ≡ record {
          attempt = record { request = request; clashes = clashes_of conflicts; snapshot = snapshot; facts = [] };
          reads = [];
          ready = None;
        } }
    {
        Active {
            alloc,
            request,
            state: evaluator.fresh(),
            conflicts,
            snapshot,
            facts: Facts::new(alloc),
            reads: Vec::new(alloc),
            ready: None,
        }
    }
}

impl<E: Evaluator> Active<E> {
    ghost use Rattle.std.specs.Prelude.{◌≡◌, ◌≤◌, None, IfOk, IfErr, IsErrAnd, OnErr, length};
    ghost use Rattle.zbase.specs.Faults.{Counts};
    ghost use Rattle.evaluator.specs.Exec.{IsTrail, WasTaken, most_asks};
    ghost use Rattle.evaluator.specs.Facts.{look};
    ghost use Rattle.fs_store.specs.Moments.{KeepsOpening};
    ghost use Rattle.fs_store.specs.Seeing.{IsSeen};
    ghost use Rattle.fs_store.specs.Stores.{IsTold, Stands};
    ghost use Rattle.fs_store.specs.declared.reads.Seen.{Seen};
    ghost use Rattle.connection.specs.Asked.{Asked};
    ghost use Rattle.connection.specs.States.{AreSeen};
    ghost use Rattle.connection.specs.Telling.{TellsOn};
    ghost use Rattle.connection.specs.Turns.{IsTurn, ReadsStand, TurnsStore};
    ghost use Rattle.connection.specs.declared.refusal.TurnRefusal.{TurnRefusal};

    /// The last transaction when the attempt began.
    pub fn snapshot(&self) -> Tid
        ensures { result ≡ self.now.attempt.snapshot }
    {
        self.snapshot
    }

    /// The request was taken, and each fact was asked for, given those before it; so there are at most 12,000.
    pub fn is_sound(&self)
        ensures taken { WasTaken E.takes self.now.attempt.request }
        ensures trail { IsTrail (λ known. E.meaning (look known) self.now.attempt.request) self.now.attempt.facts }
        ensures few { length self.now.attempt.facts ≤ most_asks }
    {
        let _snapshot = self.snapshot;
    }

    /// Evaluates once: where a fact is wanted it is fetched, as the history up to the snapshot gives it, whatever
    /// was committed since. A stale store is opened again for it. With `Err` the attempt comes back.
    #[tactic(auto, using(crate::proofs::Telling::same_tells))]
    pub fn turn<D: Disk + Drop>(
        mut self,
        store: &mut Store<D>,
        evaluator: &mut E,
    ) -> Result<Turned<E>, (TurnRefusal, Active<E>)>
        requires unready { self.ready ≡ None }
        requires reads { AreSeen store.old self.reads }
        ensures turned { IfOk result (λ turned. IsTurn E.meaning store.new self turned) }
        ensures asked { IfOk result (λ turned. Asked E.meaning self.attempt turned) }
        ensures store { IfOk result (λ turned. TurnsStore store.old store.new turned) }
        ensures reads { IfOk result (ReadsStand store.new) }
        ensures stands { OnErr result (IsTold store.old → Stands store.old store.new) }
        ensures back { IfErr result (λ (_, back). back ≡ self) }
        ensures out { store.new.out ≡ store.old.out }
        ensures limit { store.new.limit ≡ store.old.limit }
        ensures tells { TellsOn store.old.disk.told store.new.disk.told }
        ensures seen { (seen : Seen) → IsSeen store.old seen → IsSeen store.new seen }
        ensures any_moment { KeepsOpening store.old store.new }
        ensures counts { Counts store.old.disk.counter store.new.disk.counter (IsErrAnd result (λ (refusal, _). refusal ≡ TurnRefusal.Disk)) }
    {
        store.is_sound();
        let Ok(outcome) = evaluator.eval(&mut self.state, &self.facts, &self.request) else {
            return Err((TurnRefusal::Memory, self));
        };
        match outcome {
            Outcome::Answer(reply) => Ok(Turned::Answered(reply, self.snapshot)),
            Outcome::Change(reply, draft) => {
                self.ready = Some((reply, draft));
                Ok(Turned::Ready(self))
            }
            Outcome::Need(ask) => {
                match learn(store, &ask, self.snapshot, &mut self.facts, &mut self.reads) {
                    Ok(()) => Ok(Turned::Fetched(self, ask)),
                    Err(LoadRefusal::Disk) => Err((TurnRefusal::Disk, self)),
                    Err(LoadRefusal::Memory) => Err((TurnRefusal::Memory, self)),
                }
            }
        }
    }
}

impl<E: Evaluator> Active<E> {
    ghost use Rattle.std.specs.Prelude.{◌≡◌, ◌↔◌, IfOk, IfErr, IsErrAnd, OnErr, OnOk, Some};
    ghost use Rattle.zbase.specs.Faults.{Counts, Twice};
    ghost use Rattle.evaluator.specs.declared.draft.Draft.{Draft};
    ghost use Rattle.evaluator.specs.declared.reply.Reply.{Reply};
    ghost use Rattle.fs_store.specs.Moments.{KeepsOpening};
    ghost use Rattle.fs_store.specs.Seeing.{IsSeen};
    ghost use Rattle.fs_store.specs.Stores.{IsDraft, IsTold, StoreView};
    ghost use Rattle.fs_store.specs.declared.reads.Seen.{Seen};
    ghost use Rattle.fs_store.specs.declared.refusal.VoteRefusal.{VoteRefusal};
    ghost use Rattle.connection.specs.States.{ActiveView, AreSeen};
    ghost use Rattle.connection.specs.Telling.{TellsOn};
    ghost use Rattle.connection.specs.Votes.{ComesBack, IsDiskRefusal, IsRefused, IsRuled, IsVoted, WasRefused};

    // The request begins anew, or is given up at its fourth conflict.
    fn again(self, clash: Clash) -> CommitRefusal<E>
        ensures refused { (old new : StoreView) (d : Draft) → IsRuled old new self.attempt d (VoteRefusal.Conflict clash) → IsRefused old new self d result }
        ensures disk { IsDiskRefusal result → ⊥ }
    {
        let Active {
            alloc,
            request,
            state: _,
            conflicts,
            snapshot: _,
            facts: _,
            reads: _,
            ready: _,
        } = self;
        let conflicts = match conflicts {
            Conflicts::None => Conflicts::One(clash),
            Conflicts::One(a) => Conflicts::Two(a, clash),
            Conflicts::Two(a, b) => Conflicts::Three(a, b, clash),
            Conflicts::Three(a, b, c) => return CommitRefusal::GivenUp([a, b, c, clash]),
        };
        CommitRefusal::Conflict(clash, Fresh::again(alloc, request, conflicts))
    }

    // The state that comes back with a refusal of the store.
    fn refused(self, refusal: VoteRefusal) -> CommitRefusal<E>
        ensures refused { (old new : StoreView) (a : ActiveView E.Request) (d : Draft) → ComesBack a refusal self
            → WasRefused old new a.attempt d refusal → IsRefused old new a d result }
        ensures disk { IsDiskRefusal result ↔ (refusal ≡ VoteRefusal.Disk) }
    {
        match refusal {
            VoteRefusal::Busy(holder) => CommitRefusal::Busy(holder, self),
            VoteRefusal::Conflict(clash) => self.again(clash),
            VoteRefusal::Spent(spent) => CommitRefusal::Spent(spent, self),
            VoteRefusal::Disk => CommitRefusal::Disk(self),
            VoteRefusal::Memory => CommitRefusal::Memory(self),
        }
    }

    // The attempt once its vote is out.
    fn voted(self, reply: Reply, voted: Voted) -> Pending<E>
        ensures { result ≡ record { attempt = self.attempt; reply = reply; tid = voted } }
    {
        let Active {
            alloc: _,
            request,
            state: _,
            conflicts,
            snapshot,
            facts,
            reads: _,
            ready: _,
        } = self;
        Pending {
            request,
            conflicts,
            snapshot,
            facts,
            reply,
            voted,
        }
    }

    /// Votes for the change, for a worker: it is refused where another vote is out, where an object that was
    /// fetched has a later serial, or where ids or the file's room are spent, in this order. A stale store is opened
    /// again first, and this is judged over what it then holds. The change is moved to its record: where memory is wanting or
    /// the disk fails in that, the attempt comes back without it.
    #[tactic(auto, using(crate::specs::Telling::opening_tells))]
    pub fn vote<D: Disk + Drop>(
        mut self,
        store: &mut Store<D>,
        holder: u32,
        now: Tid,
    ) -> Result<Pending<E>, CommitRefusal<E>>
        requires ready { (x : Reply) × (d : Draft) × (self.ready ≡ Some (x, d)) × IsDraft d }
        requires reads { AreSeen store.old self.reads }
        ensures voted { IfOk result (λ pending. (x : Reply) × (d : Draft) × (self.ready ≡ Some (x, d))
            × IsVoted store.old store.new holder now self.attempt x d pending) }
        ensures refused { IfErr result (λ refusal. (x : Reply) × (d : Draft) × (self.ready ≡ Some (x, d)) × IsRefused store.old store.new self d refusal) }
        ensures kept { OnErr result (store.new.out ≡ store.old.out) }
        ensures twice { OnOk result (Twice store.old.disk.counter store.new.disk.counter) }
        ensures limit { store.new.limit ≡ store.old.limit }
        ensures tells { TellsOn store.old.disk.told store.new.disk.told }
        ensures seen { (seen : Seen) → IsSeen store.old seen → IsSeen store.new seen }
        ensures any_moment { KeepsOpening store.old store.new }
        ensures counts { Counts store.old.disk.counter store.new.disk.counter (IsErrAnd result IsDiskRefusal) }
    {
        let Some((reply, draft)) = self.ready.take() else {
            unreachable!()
        };
        match store.vote(holder, draft, self.reads.as_slice(), now) {
            Ok(voted) => Ok(self.voted(reply, voted)),
            Err((refusal, Some(draft))) => {
                self.ready = Some((reply, draft));
                Err(self.refused(refusal))
            }
            // The change is used up: memory was wanting, or the disk failed.
            Err((refusal, None)) => Err(self.refused(refusal)),
        }
    }
}
