use crate::{Active, BeginRefusal, Conflicts};
use evaluator::Evaluator;
use fs_store::{LoadRefusal, Store};
use std::alloc::Global;
use std::marker::Model;
use zdisk::Disk;

/// A request with no attempt under way. It keeps the conflicts of the attempts before.
pub struct Fresh<E: Evaluator> {
    alloc: Global,
    request: E::Request,
    conflicts: Conflicts,
}

impl<E: Evaluator> Model for Fresh<E> {
    ghost use Rattle.evaluator.specs.Exec.{WasTaken};
    ghost use Rattle.connection.specs.States.{FreshView};

    ghost Value = { FreshView E.Request };

    ghost view = { λ fresh. record { request = fresh.request; conflicts = fresh.conflicts } };

    ghost invariant = { λ fresh. WasTaken E.takes fresh.request };
}

impl<E: Evaluator> Drop for Fresh<E> {
    fn drop(self) {
        let Fresh {
            alloc: _,
            request: _,
            conflicts: _,
        } = self;
    }
}

impl<E: Evaluator> Fresh<E> {
    ghost use Rattle.std.specs.Prelude.{◌≡◌, false, IfErr, IfOk, IsErrAnd, None, OnErr, OnOk};
    ghost use Rattle.zbase.specs.Faults.{Counts};
    ghost use Rattle.zbase.specs.Values.{last};
    ghost use Rattle.evaluator.specs.Exec.{WasTaken};
    ghost use Rattle.fs_store.specs.Moments.{KeepsOpening};
    ghost use Rattle.fs_store.specs.Seeing.{IsSeen};
    ghost use Rattle.fs_store.specs.Stores.{IsTold, Settles, on_disk};
    ghost use Rattle.fs_store.specs.declared.reads.Seen.{Seen};
    ghost use Rattle.connection.specs.declared.conflicts.Conflicts.{Conflicts};
    ghost use Rattle.connection.specs.declared.refusal.BeginRefusal.{BeginRefusal};
    ghost use Rattle.connection.specs.States.{begun};
    ghost use Rattle.connection.specs.Telling.{TellsOn};

    /// A request that was just taken, without conflicts. Takes no memory.
    pub fn new(alloc: Global, request: E::Request) -> Fresh<E>
        requires { WasTaken E.takes request }
        ensures { result ≡ record { request = request; conflicts = Conflicts.None } }
    {
        Fresh::again(alloc, request, Conflicts::None)
    }

    // A request that begins anew behind these conflicts.
    pub(crate) fn again(alloc: Global, request: E::Request, conflicts: Conflicts) -> Fresh<E>
        requires { WasTaken E.takes request }
        ensures { result ≡ record { request = request; conflicts = conflicts } }
    {
        Fresh {
            alloc,
            request,
            conflicts,
        }
    }

    /// Begins an attempt: its snapshot is the last transaction, and it knows nothing yet. A stale store is opened
    /// again first, and can't be told from a fresh one behind this. With `Err` the request comes back.
    #[tactic(auto, using(crate::specs::Telling::opening_tells))]
    pub fn begin<D: Disk + Drop>(
        self,
        store: &mut Store<D>,
        evaluator: &E,
    ) -> Result<Active<E>, (BeginRefusal, Fresh<E>)>
        ensures settled { OnOk result (IsTold store.old → Settles store.old store.new) }
        ensures fresh { OnOk result (store.new.stale ≡ false) }
        ensures began { IfOk result (λ active. active ≡ begun self active.attempt.snapshot) }
        ensures snapshot { IfOk result (λ active. IsTold store.old → active.attempt.snapshot ≡ last store.new.history) }
        ensures stands { OnErr result (store.new ≡ on_disk store.old store.new.disk) }
        ensures back { IfErr result (λ (_, back). back ≡ self) }
        ensures out { store.new.out ≡ store.old.out }
        ensures limit { store.new.limit ≡ store.old.limit }
        ensures tells { TellsOn store.old.disk.told store.new.disk.told }
        ensures seen { (seen : Seen) → IsSeen store.old seen → IsSeen store.new seen }
        ensures any_moment { KeepsOpening store.old store.new }
        ensures counts { Counts store.old.disk.counter store.new.disk.counter (IsErrAnd result (λ (refusal, _). refusal ≡ BeginRefusal.Disk)) }
    {
        match store.refresh() {
            Ok(()) => {}
            Err(LoadRefusal::Disk) => return Err((BeginRefusal::Disk, self)),
            Err(LoadRefusal::Memory) => return Err((BeginRefusal::Memory, self)),
        }
        let Fresh {
            alloc,
            request,
            conflicts,
        } = self;
        let snapshot = store.last();
        Ok(Active::new(alloc, request, conflicts, snapshot, evaluator))
    }
}
