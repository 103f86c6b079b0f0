ghost use Rattle.std.specs.Prelude.{◌≡◌, ◌∷◌, [], IfOk, IsErrOf, OnOk, OnErr, Some};
ghost use Rattle.zbase.specs.Faults.{Counts};
ghost use Rattle.evaluator.specs.declared.fact.Fact.{Fact};
ghost use Rattle.fs_store.specs.Seeing.{IsSeen};
ghost use Rattle.fs_store.specs.Moments.{KeepsOpening};
ghost use Rattle.fs_store.specs.Stores.{IsTold, Settles, Stands};
ghost use Rattle.fs_store.specs.declared.reads.Seen.{Seen};
ghost use Rattle.fs_store.specs.declared.refusal.LoadRefusal.{LoadRefusal};
ghost use Rattle.connection.specs.States.{AreReads, AreSeen, listed};
ghost use Rattle.connection.specs.Telling.{TellsOn};
ghost use Rattle.connection.specs.Turns.{IsFactOf, Learns};

use evaluator::{Ask, Fact, Facts};
use fs_store::{LoadRefusal, Loaded, Seen, Store};
use zbase::{Oid, Tid};
use zdisk::Disk;

// What was loaded of an object: the fact, and the object as it was read.
fn found_of(oid: Oid, loaded: Loaded) -> (Fact, Option<Seen>)
    ensures { result ≡ (Fact.Object oid loaded.value loaded.serial, Some (record { oid = oid; serial = loaded.serial; place = loaded.place })) }
{
    let Loaded {
        value,
        serial,
        place,
    } = loaded;
    let seen = Seen { oid, serial, place };
    (Fact::Object { oid, value, serial }, Some(seen))
}

// What the store's history up to the snapshot says to an ask, and the object that was read for it.
#[tactic(auto, using(crate::specs::Telling::opening_tells))]
fn fact_of<D: Disk + Drop>(
    store: &mut Store<D>,
    ask: &Ask,
    at: Tid,
) -> Result<(Fact, Option<Seen>), LoadRefusal>
    ensures fact { IfOk result (λ (found, _). IsFactOf store.new at ask.now found) }
    ensures read { IfOk result (λ (found, seen). AreReads (listed seen) (found ∷ []) × AreSeen store.new (listed seen)) }
    ensures settled { OnOk result (IsTold store.old → Settles store.old store.new) }
    ensures stands { OnErr result (IsTold store.old → Stands store.old store.new) }
    ensures out { store.new.out ≡ store.old.out }
    ensures limit { store.new.limit ≡ store.old.limit }
    ensures tells { TellsOn store.old.disk.told store.new.disk.told }
    ensures keeps { (seen_before : Seen) → IsSeen store.old seen_before → IsSeen store.new seen_before }
    ensures any_moment { KeepsOpening store.old store.new }
    ensures counts { Counts store.old.disk.counter store.new.disk.counter (IsErrOf result LoadRefusal.Disk) }
{
    match ask {
        Ask::Object(oid) => match store.load(*oid, at) {
            Ok(loaded) => Ok(found_of(*oid, loaded)),
            Err(refusal) => Err(refusal),
        },
        Ask::Transaction(tid) => match store.transaction(*tid, at) {
            Ok(parts) => Ok((Fact::Transaction { tid: *tid, parts }, None)),
            Err(refusal) => Err(refusal),
        },
        Ask::Log => match store.log(at) {
            Ok(rows) => Ok((Fact::Log(rows), None)),
            Err(refusal) => Err(refusal),
        },
    }
}

/// Fetches the fact that answers an ask, and keeps it behind the others, with its object among the reads. With `Err`
/// both lists stay as they were. What was read before is read so still.
#[tactic(auto, using(crate::proofs::SeenFacts::reads_push, crate::proofs::SeenFacts::reads_same, crate::proofs::SeenFacts::reads_more))]
pub(crate) fn learn<D: Disk + Drop>(
    store: &mut Store<D>,
    ask: &Ask,
    at: Tid,
    facts: &mut Facts,
    reads: &mut Vec<Seen>,
) -> Result<(), LoadRefusal>
    requires reads { AreReads reads.old.items facts.old }
    requires seen { AreSeen store.old reads.old.items }
    ensures ok { OnOk result (Learns store.new at ask.now facts.old facts.new) }
    ensures err { OnErr result (facts.new ≡ facts.old) }
    ensures reads { AreReads reads.new.items facts.new }
    ensures seen { AreSeen store.new reads.new.items }
    ensures kept { OnErr result (reads.new.items ≡ reads.old.items) }
    ensures settled { OnOk result (IsTold store.old → Settles store.old store.new) }
    ensures stands { OnErr result (IsTold store.old → Stands store.old store.new) }
    ensures out { store.new.out ≡ store.old.out }
    ensures limit { store.new.limit ≡ store.old.limit }
    ensures tells { TellsOn store.old.disk.told store.new.disk.told }
    ensures keeps { (seen_before : Seen) → IsSeen store.old seen_before → IsSeen store.new seen_before }
    ensures any_moment { KeepsOpening store.old store.new }
    ensures counts { Counts store.old.disk.counter store.new.disk.counter (IsErrOf result LoadRefusal.Disk) }
{
    let (found, seen) = fact_of(store, ask, at)?;
    match seen {
        None => facts.push(found)?,
        Some(seen) => {
            let Ok(()) = reads.reserve(1) else {
                return Err(LoadRefusal::Memory);
            };
            facts.push(found)?;
            reads.push_reserved(seen);
        }
    }
    Ok(())
}
