ghost use Rattle.std.specs.Prelude.{◌≡◌, ◌≤◌, ◌<◌, ℕ, pos, None, IfOk, IfSome, option_map, reverse};
ghost use Rattle.zknown.specs.Seen.{objects};
ghost use Rattle.dtml_expr.specs.Views.{view, list_view};
ghost use Rattle.dtml_expr.specs.declared.expr.Expr.{size-Expr};
ghost use Rattle.namespace.specs.Looks.{looked};
ghost use Rattle.namespace.specs.Names.{Scope, text as value_text};
ghost use Rattle.namespace.specs.Told.{Shows};
ghost use Rattle.dtml_values.specs.Values as values;
ghost use Rattle.dtml_values.specs.Values.{Left};
ghost use Rattle.dtml_values.specs.Expressions.{evaluated, first_of};
ghost use Rattle.dtml_values.specs.Chains as chains;
ghost use Rattle.dtml_values.specs.Told.{told, left_of, Keeps};

use crate::adding::{add, multiply, subtract};
use crate::budget::Budget;
use crate::comparing::compare;
use crate::needing::{member, value_of_name};
use crate::refusal::RenderRefusal;
use crate::truth::{flag, is_decided, is_true, number};
use dtml_expr::Expr;
use namespace::{Single, Stack, Val};
use std::alloc::Global;
use zbase::{Memory, Text};
use zknown::Known;

fn number_value(value: &i64) -> Val
    ensures { result ≡ values.number value.now }
{
    number(*value)
}

fn text_value(text: &Text) -> Result<Val, Memory>
    ensures { IfOk result (λ v. v ≡ value_text text.now) }
{
    Ok(Val::Single(Single::Text(text.copy()?)))
}

fn left_side(expr: &Expr) -> Option<&Expr>
    ensures is { option_map (λ left. view left.now) result ≡ chains.left_side (view expr.now) }
    ensures smaller { IfSome result (λ left. size-Expr left.now < size-Expr expr.now) }
{
    match expr {
        Expr::Compare(left, _, _)
        | Expr::Add(left, _)
        | Expr::Sub(left, _)
        | Expr::Mul(left, _)
        | Expr::Dot(left, _) => Some(left),
        Expr::Number(_)
        | Expr::Quoted(_)
        | Expr::Name(_)
        | Expr::Or(_)
        | Expr::And(_)
        | Expr::Not(_) => None,
    }
}

// The expressions that have a left side, each the left side of the one before it, and the last left side, which has
// none.
fn chain_of<'a>(alloc: Global, expr: &'a Expr) -> Result<(Vec<&'a Expr>, &'a Expr), Memory>
    ensures is { IfOk result (λ c. (scope : Scope) (at : ℕ) (left : Left)
        → evaluated scope at (view expr.now) left ≡ chains.chained scope at (view c.1.now) (reverse (chains.views c.0.items)) left) }
    ensures last { IfOk result (λ c. chains.left_side (view c.1.now) ≡ None) }
    ensures smaller { IfOk result (λ c. size-Expr c.1.now ≤ size-Expr expr.now) }
    ensures small { IfOk result (λ c. chains.AreWithin (size-Expr expr.now) c.0.items) }
{
    let mut chain = Vec::new(alloc);
    let mut inner = expr;
    while let Some(left) = left_side(inner) {
        chain.push(inner)?;
        inner = left;
    }
    Ok((chain, inner))
}

/// The value of an expression of the tag at a place.
///
/// A refusal is the first that is met from left to right. After one, want of memory included, the stack has its former
/// layers and user, and what was shown before is shown still.
///
/// Zope Book, appendix "DTML Reference", "Expressions".
pub fn evaluate(
    alloc: Global,
    expr: &Expr,
    at: u32,
    stack: &mut Stack<'_>,
    budget: &mut Budget,
) -> Result<Val, RenderRefusal>
    ensures is { Shows told (λ v. (v, left_of budget.new)) stack.new.shown result
        (looked (objects stack.old.known) stack.old.shown (evaluated stack.old.scope at (view expr.now) (left_of budget.old))) }
    ensures keeps { Keeps stack.old stack.new budget.old budget.new }
{
    let known = stack.known();
    evaluate_over(alloc, expr, at, known, stack, budget)
}

// The same over what is known.
#[cycle(evaluate)]
fn evaluate_over(
    alloc: Global,
    expr: &Expr,
    at: u32,
    known: &Known,
    stack: &mut Stack<'_>,
    budget: &mut Budget,
) -> Result<Val, RenderRefusal>
    requires known { known.now ≡ stack.old.known }
    ensures is { Shows told (λ v. (v, left_of budget.new)) stack.new.shown result
        (looked (objects known.now) stack.old.shown (evaluated stack.old.scope at (view expr.now) (left_of budget.old))) }
    ensures keeps { Keeps stack.old stack.new budget.old budget.new }
{
    let (mut chain, inner) = chain_of(alloc, expr)?;
    let mut value = single(alloc, inner, at, known, stack, budget)?;
    while let Some(outer) = chain.pop() {
        value = onto(alloc, outer, value, at, known, stack, budget)?;
    }
    Ok(value)
}

// The value of an expression that has no left side.
#[cycle(evaluate)]
fn single(
    alloc: Global,
    expr: &Expr,
    at: u32,
    known: &Known,
    stack: &mut Stack<'_>,
    budget: &mut Budget,
) -> Result<Val, RenderRefusal>
    requires known { known.now ≡ stack.old.known }
    requires single { chains.left_side (view expr.now) ≡ None }
    ensures is { Shows told (λ v. (v, left_of budget.new)) stack.new.shown result
        (looked (objects known.now) stack.old.shown (evaluated stack.old.scope at (view expr.now) (left_of budget.old))) }
    ensures keeps { Keeps stack.old stack.new budget.old budget.new }
{
    match expr {
        Expr::Number(value) => Ok(number_value(value)),
        Expr::Quoted(text) => Ok(text_value(text)?),
        Expr::Name(name) => value_of_name(name, stack),
        Expr::Or(operands) => {
            let operands = operands.items.as_slice();
            first_of(alloc, true, operands, at, known, stack, budget)
        }
        Expr::And(operands) => {
            let operands = operands.items.as_slice();
            first_of(alloc, false, operands, at, known, stack, budget)
        }
        Expr::Not(operand) => {
            let value = evaluate_over(alloc, operand, at, known, stack, budget)?;
            Ok(flag(!is_true(&value)))
        }
        Expr::Compare(_, _, _)
        | Expr::Add(_, _)
        | Expr::Sub(_, _)
        | Expr::Mul(_, _)
        | Expr::Dot(_, _) => unreachable!(),
    }
}

// What an expression makes of the value of its left side.
#[cycle(evaluate)]
fn onto(
    alloc: Global,
    expr: &Expr,
    left: Val,
    at: u32,
    known: &Known,
    stack: &mut Stack<'_>,
    budget: &mut Budget,
) -> Result<Val, RenderRefusal>
    requires known { known.now ≡ stack.old.known }
    ensures is { Shows told (λ v. (v, left_of budget.new)) stack.new.shown result
        (looked (objects known.now) stack.old.shown (chains.onto stack.old.scope at (view expr.now) (left, left_of budget.old))) }
    ensures keeps { Keeps stack.old stack.new budget.old budget.new }
{
    match expr {
        Expr::Compare(_, order, right) => {
            let right = evaluate_over(alloc, right, at, known, stack, budget)?;
            compare(at, *order, &left, &right)
        }
        Expr::Add(_, right) => {
            let right = evaluate_over(alloc, right, at, known, stack, budget)?;
            add(at, left, &right, budget)
        }
        Expr::Sub(_, right) => {
            let right = evaluate_over(alloc, right, at, known, stack, budget)?;
            subtract(at, &left, &right)
        }
        Expr::Mul(_, right) => {
            let right = evaluate_over(alloc, right, at, known, stack, budget)?;
            multiply(at, &left, &right)
        }
        Expr::Dot(_, name) => member(at, left, name, stack),
        Expr::Number(_) => Ok(left),
        Expr::Quoted(_) => Ok(left),
        Expr::Name(_) => Ok(left),
        Expr::Or(_) => Ok(left),
        Expr::And(_) => Ok(left),
        Expr::Not(_) => Ok(left),
    }
}

// The first operand that decides, else the last.
#[cycle(evaluate)]
fn first_of(
    alloc: Global,
    decides: bool,
    operands: &[Expr],
    at: u32,
    known: &Known,
    stack: &mut Stack<'_>,
    budget: &mut Budget,
) -> Result<Val, RenderRefusal>
    requires known { known.now ≡ stack.old.known }
    ensures is { Shows told (λ v. (v, left_of budget.new)) stack.new.shown result
        (looked (objects known.now) stack.old.shown
        (first_of decides stack.old.scope at (list_view operands.now) (values.number (pos 0)) (left_of budget.old))) }
    ensures keeps { Keeps stack.old stack.new budget.old budget.new }
{
    let mut value = number(0);
    for operand in operands {
        value = evaluate_over(alloc, operand, at, known, stack, budget)?;
        if is_decided(decides, &value) {
            return Ok(value);
        }
    }
    Ok(value)
}
