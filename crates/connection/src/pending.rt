use crate::Conflicts;
use evaluator::{Evaluator, Facts, Reply};
use fs_store::{AbortRefusal, FinishRefusal, Store, Voted};
use std::marker::Model;
use zbase::Tid;
use zdisk::Disk;

/// An attempt that has voted. It can't be dropped: it ends in `finish` or `abort`, which take no memory.
pub struct Pending<E: Evaluator> {
    pub(crate) request: E::Request,
    pub(crate) conflicts: Conflicts,
    pub(crate) snapshot: Tid,
    /// Kept, since they say what was voted for.
    pub(crate) facts: Facts,
    pub(crate) reply: Reply,
    pub(crate) voted: Voted,
}

impl<E: Evaluator> Model for Pending<E> {
    ghost use Rattle.evaluator.specs.Exec.{WasTaken};
    ghost use Rattle.connection.specs.States.{PendingView, clashes_of};

    ghost Value = { PendingView E.Request };

    ghost view = { λ p. record {
      attempt = record { request = p.request; clashes = clashes_of p.conflicts; snapshot = p.snapshot; facts = p.facts };
      reply = p.reply;
      tid = p.voted;
    } };

    ghost invariant = { λ p. WasTaken E.takes p.request };
}

impl<E: Evaluator> Pending<E> {
    ghost use Rattle.std.specs.Prelude.{◌≡◌, false, IfErr, IfOk, IsErr, None, OnErr, OnOk, Some};
    ghost use Rattle.zbase.specs.Faults.{Counts, Twice};
    ghost use Rattle.evaluator.specs.Exec.{WasTaken};
    ghost use Rattle.fs_store.specs.Moments.{KeepsOpening, OpensToEither};
    ghost use Rattle.fs_store.specs.Seeing.{IsSeen};
    ghost use Rattle.fs_store.specs.Stores.{IsTold, IsVoteOf, Out, finished, staled, unsettled, voting};
    ghost use Rattle.fs_store.specs.declared.reads.Seen.{Seen};
    ghost use Rattle.fs_store.specs.declared.refusal.FinishRefusal.{FinishRefusal};
    ghost use Rattle.connection.specs.Telling.{TellsOn};

    /// The request was taken.
    pub fn is_sound(&self)
        ensures { WasTaken E.takes self.now.attempt.request }
    {
        let _snapshot = self.snapshot;
    }

    /// The id that the transaction has once it is finished.
    pub fn tid(&self) -> Tid
        ensures { result ≡ self.now.tid }
    {
        self.voted.tid()
    }

    /// The transaction stands from now on: its reply, and its id. Takes no memory. Where the disk failed, whether it
    /// stands is known once the store is opened again.
    pub fn finish<D: Disk + Drop>(self, store: &mut Store<D>) -> Result<(Reply, Tid), FinishRefusal>
        requires vote { IsVoteOf store.old self.tid }
        ensures reply { IfOk result (λ (reply, tid). (reply ≡ self.reply) × (tid ≡ self.tid)) }
        ensures stands { OnOk result (IsTold store.old → store.new ≡ finished store.old store.old.out store.new.disk) }
        ensures done { OnOk result ((store.new.out ≡ None) × (store.new.stale ≡ false)) }
        ensures unknown { IfErr result (λ refusal. refusal ≡ FinishRefusal.Unknown self.tid) }
        ensures stale { OnErr result (store.new ≡ unsettled store.old store.new.disk) }
        ensures any_moment { (o : Out) → store.old.out ≡ Some o → OpensToEither store.old store.new o }
        ensures twice { OnOk result (Twice store.old.disk.counter store.new.disk.counter) }
        ensures limit { store.new.limit ≡ store.old.limit }
        ensures tells { TellsOn store.old.disk.told store.new.disk.told }
        ensures seen { (seen : Seen) → IsSeen store.old seen → IsSeen store.new seen }
        ensures counts { Counts store.old.disk.counter store.new.disk.counter (IsErr result) }
    {
        let Pending {
            request: _,
            conflicts: _,
            snapshot: _,
            facts: _,
            reply,
            voted,
        } = self;
        match store.finish(voted) {
            Ok(tid) => Ok((reply, tid)),
            Err(refusal) => Err(refusal),
        }
    }

    /// The transaction never stands. Takes no memory. Where the disk failed the store is stale.
    #[tactic(auto, using(crate::specs::Telling::opening_tells))]
    pub fn abort<D: Disk + Drop>(self, store: &mut Store<D>) -> Result<(), AbortRefusal>
        requires vote { IsVoteOf store.old self.tid }
        ensures gone { OnOk result (store.new ≡ voting store.old None store.new.disk) }
        ensures stale { OnErr result (store.new ≡ staled store.old store.new.disk) }
        ensures any_moment { KeepsOpening store.old store.new }
        ensures limit { store.new.limit ≡ store.old.limit }
        ensures tells { TellsOn store.old.disk.told store.new.disk.told }
        ensures seen { (seen : Seen) → IsSeen store.old seen → IsSeen store.new seen }
        ensures counts { Counts store.old.disk.counter store.new.disk.counter (IsErr result) }
    {
        let Pending {
            request: _,
            conflicts: _,
            snapshot: _,
            facts: _,
            reply: _,
            voted,
        } = self;
        store.abort(voted)
    }
}
