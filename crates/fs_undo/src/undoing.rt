ghost use Rattle.std.specs.Prelude.{◌≡◌, IfOk, None, is_some, map, take};
ghost use Rattle.std.specs.Option.{option_copied, option_map};
ghost use Rattle.zbase.specs.Query.{run, Answers};
ghost use Rattle.evaluator.specs.declared.ask.Ask.{Ask as AskValue};
ghost use Rattle.evaluator.specs.Facts.{EachOnce, ask_of, look, same_ask};
ghost use Rattle.fs_undo.specs.Undo as spec;
ghost use Rattle.fs_undo.specs.Undo.{IsFar};

use crate::planning::{Present, Presents, Restore, UndoRefusal, plan};
use evaluator::{Ask, Entries, Entry, Fact, Facts, Part, Parts, look};
use std::alloc::Global;
use std::collections::BTreeSet;
use std::marker::Model;
use zbase::{Memory, Oid, Tid, Value};

/// Why nothing is undone, or nothing yet.
#[derive(Debug, Drop)]
pub enum UndoHalt {
    /// Want of memory.
    Memory,
    /// The first ask that isn't known.
    Need(Ask),
    /// No transaction that can be undone has this id.
    NoTransaction(Tid),
    /// The first object that has another value now than the transaction gave it.
    Changed(Oid),
}

impl From<UndoRefusal> for UndoHalt {
    ghost from_gives = { λ refusal e. e ≡ spec.halt_of refusal };

    fn from(refusal: UndoRefusal) -> UndoHalt {
        match refusal {
            UndoRefusal::Memory => UndoHalt::Memory,
            UndoRefusal::Changed(oid) => UndoHalt::Changed(oid),
        }
    }
}

impl From<Memory> for UndoHalt {
    ghost use Rattle.std.specs.Prelude.{◌≡◌};
    ghost use Rattle.fs_undo.specs.declared.undoing.UndoHalt.TheVariants as halts;

    ghost from_gives = { λ _ e. e ≡ halts.Memory };

    fn from(_: Memory) -> UndoHalt {
        UndoHalt::Memory
    }
}

fn is_of(fact: &Fact, oid: Oid) -> bool
    ensures { result ≡ same_ask (ask_of fact.now) (AskValue.Object oid) }
{
    match fact {
        Fact::Object { oid: told, .. } => told.0 == oid.0,
        Fact::Transaction { .. } | Fact::Log(_) => false,
    }
}

/// How far an undo came: how many of its transaction's parts have objects that are known.
#[derive(Debug, Drop)]
pub struct Far {
    parts: usize,
    // Where the fact of the next part's object likely stands.
    likely: usize,
}

impl Model for Far {
    ghost use Rattle.std.specs.Prelude.{ℕ};

    ghost Value = { ℕ };

    ghost view = { λ far. far.parts };
}

impl Far {
    /// Nothing of it is known. Takes no memory.
    pub fn new() -> Far
        ensures { result ≡ 0 }
    {
        Far {
            parts: 0,
            likely: 0,
        }
    }
}

// The fact of an object. It is looked for first where it likely stands; behind that the next one likely does.
#[tactic(auto, using(evaluator::specs::FactLaws::look_there))]
fn look_near<'a>(facts: &'a Facts, likely: &mut usize, oid: Oid) -> Option<&'a Fact>
    requires once { EachOnce facts.now }
    ensures { option_copied result ≡ look facts.now (AskValue.Object oid) }
{
    let all = facts.as_slice();
    if *likely < all.len() {
        let fact = &all[*likely];
        if is_of(fact, oid) {
            *likely += 1;
            return Some(fact);
        }
    }
    look(facts, Ask::Object(oid))
}

fn value_in(fact: &Fact) -> Option<&Value>
    ensures { option_map (λ value. value.now) result ≡ spec.object_value fact.now }
{
    match fact {
        Fact::Object { value, .. } => Some(value),
        Fact::Transaction { .. } | Fact::Log(_) => None,
    }
}

// The value that an object has now, where that is known.
#[tactic(auto, using(crate::proofs::Values::by_fact))]
fn value_near<'a>(facts: &'a Facts, likely: &mut usize, oid: Oid) -> Option<&'a Value>
    requires once { EachOnce facts.now }
    ensures { option_map (λ value. value.now) result ≡ spec.value_known (look facts.now) oid }
{
    match look_near(facts, likely, oid) {
        Some(fact) => value_in(fact),
        None => None,
    }
}

fn is_known(facts: &Facts, likely: &mut usize, oid: Oid) -> bool
    requires once { EachOnce facts.now }
    ensures { result ≡ is_some (spec.value_known (look facts.now) oid) }
{
    value_near(facts, likely, oid).is_some()
}

// The first object of the parts that isn't known. Those before the place that the undo came to are not looked at again.
#[tactic(auto, using(crate::proofs::Parts::known_further, crate::proofs::Parts::unknown_there, crate::proofs::Parts::all_are_known))]
fn first_unknown(facts: &Facts, parts: &[Part], far: &mut Far) -> Option<Oid>
    requires once { EachOnce facts.now }
    requires known { spec.first_unknown (look facts.now) (take far.old parts.now) ≡ None }
    ensures is { result ≡ spec.first_unknown (look facts.now) parts.now }
    ensures known { spec.first_unknown (look facts.now) (take far.new parts.now) ≡ None }
{
    while far.parts < parts.len() {
        let oid = parts[far.parts].oid;
        if !is_known(facts, &mut far.likely, oid) {
            return Some(oid);
        }
        far.parts += 1;
    }
    None
}

// The value that an object has now; none where it isn't known.
fn copy_near(facts: &Facts, likely: &mut usize, oid: Oid) -> Result<Value, Memory>
    requires once { EachOnce facts.now }
    ensures { IfOk result (λ copy. copy ≡ spec.or_none (spec.value_known (look facts.now) oid)) }
{
    match value_near(facts, likely, oid) {
        Some(value) => copy_of(value),
        None => Ok(None),
    }
}

fn copy_of(value: &Value) -> Result<Value, Memory>
    ensures { IfOk result (λ copy. copy ≡ value.now) }
{
    match value {
        Some(bytes) => Ok(Some(bytes.copy()?)),
        None => Ok(None),
    }
}

// The present values of the parts' objects, in their order.
fn present_of(alloc: Global, facts: &Facts, from: usize, parts: &[Part]) -> Result<Presents, Memory>
    requires once { EachOnce facts.now }
    ensures { IfOk result (λ rows. spec.values_of rows ≡ map (spec.value_now (look facts.now)) parts.now) }
{
    let mut present = Presents::new(alloc);
    let mut likely = from;
    for part in parts {
        present.push(Present {
            oid: part.oid,
            value: copy_near(facts, &mut likely, part.oid)?,
        })?;
    }
    Ok(present)
}

// An entry for each restore; of two of an object the first counts.
fn entries_of(alloc: Global, restores: &[Restore]) -> Result<Entries, Memory>
    ensures { IfOk result (λ entries. entries ≡ spec.entries_of restores.now) }
{
    let mut entries = Entries::new(alloc);
    let mut seen = BTreeSet::new(alloc);
    for restore in restores {
        if seen.insert(restore.oid.0)? {
            entries.push(Entry::Restore {
                oid: restore.oid,
                to: restore.to,
            })?;
        }
    }
    Ok(entries)
}

#[tactic(auto, using(crate::proofs::Values::one_each, crate::proofs::Values::writes_so, crate::proofs::Values::refuses_so))]
fn undo_known(alloc: Global, facts: &Facts, from: usize, parts: &Parts) -> Result<Entries, UndoHalt>
    requires once { EachOnce facts.now }
    ensures { Answers spec.told (λ entries. entries) result
        (run (look facts.now) (spec.planned (spec.undone parts.now (map (spec.value_now (look facts.now)) parts.now)))) }
{
    let present = present_of(alloc, facts, from, parts.as_slice())?;
    let restores = plan(alloc, parts, present.as_slice())?;
    Ok(entries_of(alloc, restores.as_slice())?)
}

// Where the facts begin that were asked for behind that of the transaction.
fn behind(facts: &Facts, tid: Tid) -> usize {
    let asked =
        |fact: &Fact| matches!(fact, Fact::Transaction { tid: told, .. } if told.0 == tid.0);
    match facts.as_slice().iter().position(asked) {
        Some(at) => at.saturating_add(1),
        None => 0,
    }
}

#[tactic(auto, using(crate::proofs::Values::needs_first, crate::proofs::Values::all_known), unfolding(crate::specs::Undo::undo_parts))]
fn undo_parts(
    alloc: Global,
    facts: &Facts,
    tid: Tid,
    parts: &Parts,
    far: &mut Far,
) -> Result<Entries, UndoHalt>
    requires once { EachOnce facts.now }
    requires known { spec.first_unknown (look facts.now) (take far.old parts.now) ≡ None }
    ensures entries { Answers spec.told (λ entries. entries) result (run (look facts.now) (spec.undo_parts tid (Some parts.now))) }
    ensures known { spec.first_unknown (look facts.now) (take far.new parts.now) ≡ None }
{
    let from = behind(facts, tid);
    if far.parts == 0 {
        far.likely = from;
    }
    match first_unknown(facts, parts.as_slice(), far) {
        Some(oid) => Err(UndoHalt::Need(Ask::Object(oid))),
        None => undo_known(alloc, facts, from, parts),
    }
}

/// The entries that undo a transaction, by what is known of it and of the present values of its objects. The transaction is
/// asked for first, then the value of each of its objects that isn't known, in their order; only then are they compared.
///
/// It goes on from where it came to over fewer facts, and keeps how far it came now. Each object is looked for first behind
/// the one before it, where a trail of facts has it. So over all evaluations this costs as many steps as the transaction has
/// parts.
#[tactic(auto, using(crate::proofs::Values::needs_transaction, crate::proofs::Values::goes_with, crate::proofs::Values::no_parts, crate::proofs::Values::other_fact, crate::proofs::Parts::far_here, crate::proofs::Parts::far_there))]
pub fn undo_from(alloc: Global, facts: &Facts, tid: Tid, far: &mut Far) -> Result<Entries, UndoHalt>
    requires once { EachOnce facts.now }
    requires far { IsFar tid (look facts.now) far.old }
    ensures entries { Answers spec.told (λ entries. entries) result (run (look facts.now) (spec.undo tid)) }
    ensures far { IsFar tid (look facts.now) far.new }
{
    match look(facts, Ask::Transaction(tid)) {
        Some(
            Fact::Transaction {
                parts: Some(parts),
                ..
            },
        ) => undo_parts(alloc, facts, tid, parts, far),
        Some(Fact::Transaction { parts: None, .. } | Fact::Object { .. } | Fact::Log(_)) => {
            Err(UndoHalt::NoTransaction(tid))
        }
        None => Err(UndoHalt::Need(Ask::Transaction(tid))),
    }
}

/// The same from the beginning on: the transaction is asked for first, then the value of each of its objects that isn't
/// known, in their order; only then are they compared.
#[tactic(auto, using(crate::proofs::Parts::far_begins))]
pub fn undo(alloc: Global, facts: &Facts, tid: Tid) -> Result<Entries, UndoHalt>
    requires once { EachOnce facts.now }
    ensures { Answers spec.told (λ entries. entries) result (run (look facts.now) (spec.undo tid)) }
{
    let mut far = Far::new();
    undo_from(alloc, facts, tid, &mut far)
}
