ghost use Rattle.std.specs.Prelude.{◌≡◌, ◌≤◌, ◌++◌, ◌+ℤ◌, ◌-ℤ◌, ◌*ℤ◌, ℕ, List, Option};
ghost use Rattle.evaluator.specs.declared.reply.Shown.{Shown};
ghost use Rattle.zobject.specs.declared.object.Object.{Object};
ghost use Rattle.zknown.specs.Seen.{Seen};
ghost use Rattle.namespace.specs.Looks.{looked};
ghost use Rattle.namespace.specs.Told.{Shows};
ghost use Rattle.dtml_values.specs.Values as values;
ghost use Rattle.dtml_values.specs.Values.{Left, pair};
ghost use Rattle.dtml_values.specs.Told.{told, left_of};

use crate::budget::Budget;
use crate::refusal::RenderRefusal;
use crate::spending::spend_output;
use crate::truth::number;
use namespace::{Single, Val};
use zbase::Text;

// The sum, where it fits 64 bits.
#[tactic(auto, unfolding(crate::specs::Values::fitting))]
fn add_numbers(at: u32, left: i64, right: i64) -> Result<Val, RenderRefusal>
    ensures { (k : ℕ → Option (Seen Object)) (shown : List Shown) (rest : Left)
        → Shows told (λ v. pair v rest) shown result (looked k shown (values.number_added at (left +ℤ right) rest)) }
{
    match left.checked_add(right) {
        Some(sum) => Ok(number(sum)),
        None => Err(RenderRefusal::BadValue(at)),
    }
}

#[tactic(auto, unfolding(crate::specs::Values::fitting))]
fn subtract_numbers(at: u32, left: i64, right: i64) -> Result<Val, RenderRefusal>
    ensures { (k : ℕ → Option (Seen Object)) (shown : List Shown) → Shows told (λ v. v) shown result (looked k shown (values.fitting at (left -ℤ right))) }
{
    match left.checked_sub(right) {
        Some(difference) => Ok(number(difference)),
        None => Err(RenderRefusal::BadValue(at)),
    }
}

#[tactic(auto, unfolding(crate::specs::Values::fitting))]
fn multiply_numbers(at: u32, left: i64, right: i64) -> Result<Val, RenderRefusal>
    ensures { (k : ℕ → Option (Seen Object)) (shown : List Shown) → Shows told (λ v. v) shown result (looked k shown (values.fitting at (left *ℤ right))) }
{
    match left.checked_mul(right) {
        Some(product) => Ok(number(product)),
        None => Err(RenderRefusal::BadValue(at)),
    }
}

// Two texts as one, which is a text that is made.
fn join(mut left: Text, right: &str, budget: &mut Budget) -> Result<Val, RenderRefusal>
    ensures is { (k : ℕ → Option (Seen Object)) (shown : List Shown)
        → Shows told (λ v. (v, left_of budget.new)) shown result (looked k shown (values.text_joined (left ++ right.now) (left_of budget.old))) }
    ensures renders { budget.new.renders ≡ budget.old.renders }
    ensures tags { budget.new.tags ≡ budget.old.tags }
    ensures within { budget.new.output ≤ budget.old.output }
{
    left.push_str(right)?;
    spend_output(left.len(), budget)?;
    Ok(Val::Single(Single::Text(left)))
}

/// The sum of two numbers, or two texts as one.
pub(crate) fn add(
    at: u32,
    left: Val,
    right: &Val,
    budget: &mut Budget,
) -> Result<Val, RenderRefusal>
    ensures is { (k : ℕ → Option (Seen Object)) (shown : List Shown)
        → Shows told (λ v. (v, left_of budget.new)) shown result (looked k shown (values.added at left right.now (left_of budget.old))) }
    ensures renders { budget.new.renders ≡ budget.old.renders }
    ensures tags { budget.new.tags ≡ budget.old.tags }
    ensures within { budget.new.output ≤ budget.old.output }
{
    match (left, right) {
        (Val::Single(Single::Int(left)), Val::Single(Single::Int(right))) => {
            add_numbers(at, left, *right)
        }
        (Val::Single(Single::Text(left)), Val::Single(Single::Text(right))) => {
            join(left, right.as_str(), budget)
        }
        _ => Err(RenderRefusal::BadValue(at)),
    }
}

/// The difference of two numbers.
pub(crate) fn subtract(at: u32, left: &Val, right: &Val) -> Result<Val, RenderRefusal>
    ensures { (k : ℕ → Option (Seen Object)) (shown : List Shown)
        → Shows told (λ v. v) shown result (looked k shown (values.operated at values.Less left.now right.now)) }
{
    match (left, right) {
        (Val::Single(Single::Int(left)), Val::Single(Single::Int(right))) => {
            subtract_numbers(at, *left, *right)
        }
        _ => Err(RenderRefusal::BadValue(at)),
    }
}

/// The product of two numbers.
pub(crate) fn multiply(at: u32, left: &Val, right: &Val) -> Result<Val, RenderRefusal>
    ensures { (k : ℕ → Option (Seen Object)) (shown : List Shown)
        → Shows told (λ v. v) shown result (looked k shown (values.operated at values.Times left.now right.now)) }
{
    match (left, right) {
        (Val::Single(Single::Int(left)), Val::Single(Single::Int(right))) => {
            multiply_numbers(at, *left, *right)
        }
        _ => Err(RenderRefusal::BadValue(at)),
    }
}
