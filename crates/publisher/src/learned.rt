ghost use Rattle.std.specs.Prelude.{◌≡◌, ◌==◌, ◌<◌, ◌+◌, ◌^◌, ◌++◌, ◌∷◌, [], ℕ, List, Some, OnErr, OnOk, is_some, sum_by, if◌then◌else◌};
ghost use Rattle.zbase.specs.Query.{Grows};
ghost use Rattle.zknown.specs.Seen.{last_added, objects};
ghost use Rattle.evaluator.specs.declared.fact.Fact.{Fact as FactValue};
ghost use Rattle.evaluator.specs.Questions.{size_of_fact, size_of_part, size_of_value};
ghost use Rattle.manage.specs.Changing.{KeepRules};
ghost use Rattle.publisher.specs.Keeping as keeping;

use evaluator::{Fact, Facts, Part, Parts};
use std::alloc::Global;
use zbase::{Memory, Oid, Value};
use zcodec::{decode, records_are_exact};
use zknown::{Got, Known};

/// The facts that were taken over: their objects, each of which is read once, and their bytes.
#[derive(Drop)]
pub(crate) struct Learned {
    known: Known,
    // How many facts were taken over.
    taken: usize,
    // The bytes of their values.
    bytes: usize,
}

fn value_size(value: &Value) -> usize
    ensures { result ≡ size_of_value value.now }
{
    match value {
        Some(bytes) => bytes.len(),
        None => 0,
    }
}

fn part_size(part: &Part) -> usize
    ensures { result ≡ keeping.saturated (size_of_part part.now) }
{
    value_size(&part.after).saturating_add(value_size(&part.before))
}

#[tactic(auto, using(crate::proofs::Learning::saturated_step, crate::proofs::Learning::sizes_done))]
fn parts_size(parts: &Parts) -> usize
    ensures { result ≡ keeping.saturated (sum_by size_of_part parts.now) }
{
    let mut size = 0usize;
    for part in parts.as_slice() {
        size = size.saturating_add(part_size(part));
    }
    size
}

// The bytes of a fact's values, as long as they fit.
fn fact_size(fact: &Fact) -> usize
    ensures { result ≡ keeping.saturated (size_of_fact fact.now) }
{
    match fact {
        Fact::Object { value, .. } => value_size(value),
        Fact::Transaction {
            parts: Some(parts),
            ..
        } => parts_size(parts),
        Fact::Transaction { parts: None, .. } | Fact::Log(_) => 0,
    }
}

// Reads the value of an object.
#[tactic(auto, using(crate::proofs::Learning::read_added, crate::proofs::Learning::absent_added, crate::proofs::Learning::read_rules, crate::proofs::Learning::absent_rules, crate::proofs::Learning::rules_stay))]
fn add_value(alloc: Global, known: &mut Known, oid: Oid, value: &Value) -> Result<(), Memory>
    ensures added { OnOk result (keeping.IsAdded oid value.now known.old known.new) }
    ensures rules { KeepRules (objects known.old) → KeepRules (objects known.new) }
    ensures stays { OnErr result (keeping.IsSame known.old known.new) }
{
    records_are_exact();
    let Some(bytes) = value else {
        known.add(oid, None)?;
        return Ok(());
    };
    let object = decode(alloc, bytes.as_slice());
    known.add(oid, Some(object))?;
    Ok(())
}

#[tactic(auto, unfolding(zknown::specs::Seen::last_added))]
fn is_known(known: &Known, oid: Oid) -> bool
    ensures { result ≡ is_some (last_added known.now oid) }
{
    match known.get(oid) {
        Got::Unknown => false,
        Got::Here(_) | Got::Absent | Got::Unreadable => true,
    }
}

// Reads the value of an object that isn't known yet.
#[tactic(auto, using(crate::proofs::Learning::learn_new, crate::proofs::Learning::learn_known, crate::proofs::Learning::knows_same, crate::proofs::Learning::grows_not, crate::proofs::Learning::same_grows, crate::proofs::Learning::new_grows))]
fn learn_object(alloc: Global, known: &mut Known, oid: Oid, value: &Value) -> Result<(), Memory>
    ensures added { OnOk result ((facts : List FactValue) (serial : ℕ) → keeping.Knows known.old facts
        → keeping.Knows known.new (facts ++ FactValue.Object oid value.now serial ∷ [])) }
    ensures rules { KeepRules (objects known.old) → KeepRules (objects known.new) }
    ensures stays { OnErr result ((facts : List FactValue) → keeping.Knows known.old facts → keeping.Knows known.new facts) }
    ensures grows { Grows (objects known.old) (objects known.new) }
{
    if is_known(known, oid) {
        return Ok(());
    }
    add_value(alloc, known, oid, value)?;
    Ok(())
}

#[tactic(auto, using(crate::proofs::Learning::learn_transaction, crate::proofs::Learning::learn_log, crate::proofs::Learning::grows_not))]
fn learn_fact(alloc: Global, known: &mut Known, fact: &Fact) -> Result<(), Memory>
    ensures added { OnOk result ((facts : List FactValue) → keeping.Knows known.old facts → keeping.Knows known.new (facts ++ fact.now ∷ [])) }
    ensures rules { KeepRules (objects known.old) → KeepRules (objects known.new) }
    ensures stays { OnErr result ((facts : List FactValue) → keeping.Knows known.old facts → keeping.Knows known.new facts) }
    ensures grows { Grows (objects known.old) (objects known.new) }
{
    match fact {
        Fact::Object { oid, value, .. } => learn_object(alloc, known, *oid, value),
        Fact::Transaction { .. } => Ok(()),
        Fact::Log(_) => Ok(()),
    }
}

impl Learned {
    /// Nothing was taken over. Takes no memory.
    pub(crate) fn new(alloc: Global) -> Learned
        ensures { keeping.Holds result [] }
    {
        Learned {
            known: Known::new(alloc),
            taken: 0,
            bytes: 0,
        }
    }

    // Takes over one fact more.
    #[tactic(auto, using(crate::proofs::Learning::holds_more, crate::proofs::Learning::holds_still))]
    fn learn_one(&mut self, alloc: Global, fact: &Fact) -> Result<(), Memory>
        requires { self.old.taken + 1 < 2 ^ 64 }
        ensures added { OnOk result ((front : List FactValue) → keeping.Holds self.old front → keeping.Holds self.new (front ++ fact.now ∷ [])) }
        ensures stays { OnErr result ((front : List FactValue) → keeping.Holds self.old front → keeping.Holds self.new front) }
        ensures grows { Grows (objects self.old.known) (objects self.new.known) }
    {
        learn_fact(alloc, &mut self.known, fact)?;
        self.bytes = self.bytes.saturating_add(fact_size(fact));
        self.taken += 1;
        Ok(())
    }

    /// Takes over the facts that weren't taken over yet. For want of memory those before are taken over.
    #[tactic(auto, using(crate::proofs::Learning::begins, crate::proofs::Learning::next_holds, crate::proofs::Learning::all_hold, crate::proofs::Learning::fits_so, crate::proofs::Learning::all_fit, crate::proofs::Learning::taken_is))]
    pub(crate) fn learn(&mut self, alloc: Global, facts: &Facts) -> Result<(), Memory>
        requires fits { keeping.HoldsFirst self.old facts.now }
        ensures all { OnOk result (keeping.Holds self.new facts.now) }
        ensures fits { (more : List FactValue) → keeping.HoldsFirst self.new (facts.now ++ more) }
        ensures grows { Grows (objects self.old.known) (objects self.new.known) }
    {
        let all = facts.as_slice();
        for at in self.taken..all.len() {
            self.learn_one(alloc, &all[at])?;
        }
        Ok(())
    }

    /// What is known of the objects.
    pub(crate) fn known(&self) -> &Known
        ensures { result.now ≡ self.now.known }
    {
        &self.known
    }

    /// The bytes of the facts, as long as they fit.
    pub(crate) fn bytes(&self) -> usize
        ensures { result ≡ self.now.bytes }
    {
        self.bytes
    }
}
