ghost use Rattle.std.specs.Prelude.{◌≡◌, IfOk, length, map};
ghost use Rattle.fs_undo.specs.Undo as spec;

use evaluator::{Part, Parts};
use std::alloc::Global;
use zbase::{Items, Memory, Oid, Tid, Value};

/// The value that an object has now.
#[derive(Debug, Drop)]
pub struct Present {
    pub oid: Oid,
    pub value: Value,
}

/// What objects have now.
pub type Presents = Items<Present>;

/// An object goes back to the value that it had in that transaction, to none for 0.
#[derive(Clone, Copy, Debug, PartialEq, Eq)]
pub struct Restore {
    pub oid: Oid,
    pub to: Tid,
}

/// What an undo puts back, in the order of the transaction's parts.
pub type Restores = Items<Restore>;

/// Why a transaction can't be undone.
#[derive(Debug, Drop)]
pub enum UndoRefusal {
    /// Want of memory.
    Memory,
    /// The first object that has another value now than the transaction gave it.
    Changed(Oid),
}

impl From<Memory> for UndoRefusal {
    ghost use Rattle.std.specs.Prelude.{◌≡◌};
    ghost use Rattle.fs_undo.specs.declared.planning.UndoRefusal.TheVariants as refusals;

    ghost from_gives = { λ _ e. e ≡ refusals.Memory };

    fn from(_: Memory) -> UndoRefusal {
        UndoRefusal::Memory
    }
}

#[tactic(auto, using(crate::proofs::Values::same_some))]
fn same_value(a: &Value, b: &Value) -> bool
    ensures { result ≡ spec.same_value a.now b.now }
{
    match (a, b) {
        (None, None) => true,
        (Some(a), Some(b)) => a.same(b),
        _ => false,
    }
}

// The first part whose object has another value now.
#[tactic(auto, using(crate::proofs::Loops::changed_stops, crate::proofs::Loops::changed_goes))]
fn first_changed(parts: &[Part], present: &[Present]) -> Option<Oid>
    requires { length present.now ≡ length parts.now }
    ensures { result ≡ spec.first_changed parts.now (spec.values_of present.now) }
{
    for at in 0..parts.len() {
        if !same_value(&parts[at].after, &present[at].value) {
            return Some(parts[at].oid);
        }
    }
    None
}

fn restores_of(alloc: Global, parts: &[Part]) -> Result<Restores, Memory>
    ensures { IfOk result (λ restores. restores ≡ map spec.restore_of parts.now) }
{
    let mut restores = Restores::new(alloc);
    for part in parts {
        restores.push(Restore {
            oid: part.oid,
            to: part.before_serial,
        })?;
    }
    Ok(restores)
}

/// What puts each object of a transaction back to the value that it had before, by the transaction's parts and the present
/// value of each of their objects, in their order. It is refused exactly where an object has another value now than the
/// transaction gave it; the first such is named. Nothing is merged.
pub fn plan(alloc: Global, parts: &Parts, present: &[Present]) -> Result<Restores, UndoRefusal>
    requires one_each { length present.now ≡ length parts.now }
    ensures planned { spec.Plans result (spec.undone parts.now (spec.values_of present.now)) }
{
    match first_changed(parts.as_slice(), present) {
        Some(oid) => Err(UndoRefusal::Changed(oid)),
        None => Ok(restores_of(alloc, parts.as_slice())?),
    }
}
