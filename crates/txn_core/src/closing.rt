ghost use Rattle.std.specs.Prelude.{◌≡◌, [], None, length, map, true};
ghost use Rattle.std.specs.List.{list_any};
ghost use Rattle.zbase.specs.Faults.{Counts};
ghost use Rattle.connection.specs.Telling.{TellsOn};
ghost use Rattle.txn_core.specs.Cores.{is_taken};
ghost use Rattle.txn_core.specs.Slots.{CanEnd, Closes, Closing, Ended};

use crate::slot::Slot;
use evaluator::Evaluator;
use fs_store::Store;
use schedule::WORKERS;
use zdisk::Disk;

/// Whether a worker has a request.
pub(crate) fn is_taken<E: Evaluator>(slot: &Slot<E>) -> bool
    ensures { result ≡ is_taken slot.now }
{
    match slot {
        Slot::Idle => false,
        Slot::Fresh(_) => true,
        Slot::Active(_) => true,
        Slot::Computed(_) => true,
        Slot::Pending(_) => true,
    }
}

/// Whether some worker has a request.
pub(crate) fn has_taken<E: Evaluator>(slots: &[Slot<E>]) -> bool
    ensures { result ≡ list_any is_taken slots.now }
{
    slots.iter().any(|slot| is_taken(slot))
}

/// Which of the sixteen workers have a request.
pub(crate) fn taken<E: Evaluator>(slots: &[Slot<E>]) -> [bool; WORKERS]
    requires { length slots.now ≡ WORKERS }
    ensures { result ≡ map is_taken slots.now }
{
    let mut all = [false; WORKERS];
    for (i, slot) in slots.iter().enumerate() {
        all[i] = is_taken(slot);
    }
    all
}

// Ends what a slot holds: a vote that is out never stands. Whether the disk failed in it.
#[tactic(auto, using(connection::specs::Telling::tells_self))]
fn end_slot<D: Disk + Drop, E: Evaluator>(store: &mut Store<D>, slot: Slot<E>) -> bool
    requires { CanEnd store.old slot }
    ensures ended { Ended store.old slot result store.new }
    ensures tells { TellsOn store.old.disk.told store.new.disk.told }
    ensures counts { Counts store.old.disk.counter store.new.disk.counter (result ≡ true) }
{
    match slot {
        Slot::Idle => false,
        Slot::Fresh(_fresh) => false,
        Slot::Active(_active) => false,
        Slot::Computed(_active) => false,
        Slot::Pending(pending) => match pending.abort(store) {
            Ok(()) => false,
            Err(_) => true,
        },
    }
}

/// Ends all slots, from the last on. Whether the disk failed in it.
#[tactic(auto, using(connection::specs::Telling::tells_self))]
pub(crate) fn end_slots<D: Disk + Drop, E: Evaluator>(
    store: &mut Store<D>,
    slots: &mut Vec<Slot<E>>,
) -> bool
    requires { Closing store.old slots.old.items }
    ensures closes { Closes store.old result store.new }
    ensures idle { store.new.out ≡ None }
    ensures tells { TellsOn store.old.disk.told store.new.disk.told }
    ensures counts { Counts store.old.disk.counter store.new.disk.counter (result ≡ true) }
    ensures slots { slots.new.items ≡ [] }
{
    let mut fault = false;
    while let Some(slot) = slots.pop() {
        if end_slot(store, slot) {
            fault = true;
        }
    }
    fault
}
