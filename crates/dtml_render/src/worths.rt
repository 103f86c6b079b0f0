ghost use Rattle.std.specs.Prelude.{◌≡◌, ◌≤◌, ℕ, List, IfErr, IfOk, OnErr, Ok, Some};
ghost use Rattle.zbase.specs.Query.{Told};
ghost use Rattle.zknown.specs.Seen.{objects};
ghost use Rattle.dtml_expr.specs.Views.{view as expr_view};
ghost use Rattle.dtml_expr.specs.Trees as exprs;
ghost use Rattle.dtml_parse.specs.Trees as trees;
ghost use Rattle.dtml_parse.specs.Views.{arg_view};
ghost use Rattle.evaluator.specs.declared.reply.Shown.{Shown};
ghost use Rattle.namespace.specs.Looks.{looked};
ghost use Rattle.namespace.specs.Names as names;
ghost use Rattle.namespace.specs.declared.val.Val.TheVariants as val;
ghost use Rattle.namespace.specs.Told.{Begins};
ghost use Rattle.dtml_values.specs.Told.{told, left_of};
ghost use Rattle.dtml_values.specs.Values.{Left};
ghost use Rattle.dtml_render.specs.Rendering as rendering;
ghost use Rattle.dtml_render.specs.Worths.{IsWorth};

use crate::asking::{open, sourced};
use acquisition::Wrapped;
use dtml_expr::Expr;
use dtml_parse::Arg;
use dtml_values::{Budget, RenderRefusal, evaluate};
use namespace::{Hit, Single, Stack, Val};
use std::alloc::Global;
use zbase::Text;
use zobject::{Child, Object};

/// The value of an argument; none for a name that has none.
pub(crate) type Found = Option<Val>;

/// What an argument comes to: its value, or what the page goes on with before there is one.
#[derive(Drop)]
pub(crate) enum Worth<'k> {
    Found(Found),
    /// The children of a folder, to be reached through a wrapper.
    Children(Wrapped, &'k [Child]),
    /// An object with a source, which was viewed.
    Source(Wrapped, &'k Object),
}

// An object with a source must be viewed, and any other one is the value itself.
fn object_worth<'k>(object: Wrapped, stack: &mut Stack<'k>) -> Result<Worth<'k>, RenderRefusal>
    ensures is { IfOk result (λ worth. (name : List ℕ) (before : List Shown) (at : ℕ) (left : Left)
        → looked (objects stack.old.known) before (names.named stack.old.scope name) ≡ Ok (Some (rendering.object_value object), stack.old.shown)
        → IsWorth (objects stack.old.known) before stack.new.shown stack.old.scope at (trees.Name name) left left worth) }
    ensures told { IfErr result (λ e. (inside : rendering.Inside) (left : Left) → Told (told e)
        (looked (objects stack.old.known) stack.old.shown (rendering.rendered_if inside stack.old.scope (Some (rendering.object_value object)) left))) }
    ensures known { stack.new.known ≡ stack.old.known }
    ensures scope { stack.new.scope ≡ stack.old.scope }
    ensures shown { Begins stack.old.shown stack.new.shown }
{
    let has_source = sourced(&object, stack.known())?;
    if has_source {
        let whole = open(object.oid(), stack)?;
        return Ok(Worth::Source(object, whole));
    }
    Ok(Worth::Found(Some(Val::Single(Single::Obj(object)))))
}

fn single_worth<'k>(single: Single, stack: &mut Stack<'k>) -> Result<Worth<'k>, RenderRefusal>
    ensures is { IfOk result (λ worth. (name : List ℕ) (before : List Shown) (at : ℕ) (left : Left)
        → looked (objects stack.old.known) before (names.named stack.old.scope name) ≡ Ok (Some (val.Single single), stack.old.shown)
        → IsWorth (objects stack.old.known) before stack.new.shown stack.old.scope at (trees.Name name) left left worth) }
    ensures told { IfErr result (λ e. (inside : rendering.Inside) (left : Left) → Told (told e)
        (looked (objects stack.old.known) stack.old.shown (rendering.rendered_if inside stack.old.scope (Some (val.Single single)) left))) }
    ensures known { stack.new.known ≡ stack.old.known }
    ensures scope { stack.new.scope ≡ stack.old.scope }
    ensures shown { Begins stack.old.shown stack.new.shown }
{
    match single {
        Single::Obj(object) => object_worth(object, stack),
        Single::Text(text) => Ok(Worth::Found(Some(Val::Single(Single::Text(text))))),
        Single::Int(number) => Ok(Worth::Found(Some(Val::Single(Single::Int(number))))),
    }
}

fn value_worth<'k>(value: Val, stack: &mut Stack<'k>) -> Result<Worth<'k>, RenderRefusal>
    ensures is { IfOk result (λ worth. (name : List ℕ) (before : List Shown) (at : ℕ) (left : Left)
        → looked (objects stack.old.known) before (names.named stack.old.scope name) ≡ Ok (Some value, stack.old.shown)
        → IsWorth (objects stack.old.known) before stack.new.shown stack.old.scope at (trees.Name name) left left worth) }
    ensures told { IfErr result (λ e. (inside : rendering.Inside) (left : Left) → Told (told e)
        (looked (objects stack.old.known) stack.old.shown (rendering.rendered_if inside stack.old.scope (Some value) left))) }
    ensures known { stack.new.known ≡ stack.old.known }
    ensures scope { stack.new.scope ≡ stack.old.scope }
    ensures shown { Begins stack.old.shown stack.new.shown }
{
    match value {
        Val::Single(single) => single_worth(single, stack),
        Val::Seq(items) => Ok(Worth::Found(Some(Val::Seq(items)))),
    }
}

// A name renders the object that it means.
fn name_worth<'k>(name: &Text, stack: &mut Stack<'k>) -> Result<Worth<'k>, RenderRefusal>
    ensures is { IfOk result (λ worth. (at : ℕ) (left : Left) → IsWorth (objects stack.old.known) stack.old.shown stack.new.shown stack.old.scope at
        (trees.Name name.now) left left worth) }
    ensures told { IfErr result (λ e. (inside : rendering.Inside) (at : ℕ) (left : Left) → Told (told e)
        (looked (objects stack.old.known) stack.old.shown (rendering.argument inside stack.old.scope at (trees.Name name.now) left))) }
    ensures known { stack.new.known ≡ stack.old.known }
    ensures scope { stack.new.scope ≡ stack.old.scope }
    ensures shown { Begins stack.old.shown stack.new.shown }
{
    let hit = stack.locate(name.as_str())?;
    match hit {
        None => Ok(Worth::Found(None)),
        Some(Hit::Found(value)) => value_worth(value, stack),
        Some(Hit::Children(whole, children)) => Ok(Worth::Children(whole, children)),
    }
}

// In quotes it must have a value, and renders nothing.
fn quoted_worth<'k>(name: &Text, stack: &mut Stack<'k>) -> Result<Worth<'k>, RenderRefusal>
    ensures is { IfOk result (λ worth. (at : ℕ) (left : Left) → IsWorth (objects stack.old.known) stack.old.shown stack.new.shown stack.old.scope at
        (trees.Expression (exprs.Name name.now)) left left worth) }
    ensures told { IfErr result (λ e. (inside : rendering.Inside) (at : ℕ) (left : Left) → Told (told e)
        (looked (objects stack.old.known) stack.old.shown (rendering.argument inside stack.old.scope at (trees.Expression (exprs.Name name.now)) left))) }
    ensures known { stack.new.known ≡ stack.old.known }
    ensures scope { stack.new.scope ≡ stack.old.scope }
    ensures shown { Begins stack.old.shown stack.new.shown }
{
    let hit = stack.locate(name.as_str())?;
    match hit {
        None => Err(RenderRefusal::NoName(name.copy()?)),
        Some(Hit::Found(value)) => Ok(Worth::Found(Some(value))),
        Some(Hit::Children(whole, children)) => Ok(Worth::Children(whole, children)),
    }
}

fn evaluated<'k>(
    alloc: Global,
    at: u32,
    expr: &Expr,
    stack: &mut Stack<'k>,
    budget: &mut Budget,
) -> Result<Worth<'k>, RenderRefusal>
    ensures is { IfOk result (λ worth. IsWorth (objects stack.old.known) stack.old.shown stack.new.shown stack.old.scope at
        (trees.Expression (expr_view expr.now)) (left_of budget.old) (left_of budget.new) worth) }
    ensures told { IfErr result (λ e. (inside : rendering.Inside) → Told (told e)
        (looked (objects stack.old.known) stack.old.shown
        (rendering.argument inside stack.old.scope at (trees.Expression (expr_view expr.now)) (left_of budget.old)))) }
    ensures known { stack.new.known ≡ stack.old.known }
    ensures scope { stack.new.scope ≡ stack.old.scope }
    ensures shown { Begins stack.old.shown stack.new.shown }
    ensures renders { budget.new.renders ≡ budget.old.renders }
    ensures tags { budget.new.tags ≤ budget.old.tags }
    ensures output { budget.new.output ≤ budget.old.output }
{
    match expr {
        Expr::Name(name) => quoted_worth(name, stack),
        Expr::Number(_)
        | Expr::Quoted(_)
        | Expr::Or(_)
        | Expr::And(_)
        | Expr::Not(_)
        | Expr::Compare(_, _, _)
        | Expr::Add(_, _)
        | Expr::Sub(_, _)
        | Expr::Mul(_, _)
        | Expr::Dot(_, _) => {
            let value = evaluate(alloc, expr, at, stack, budget)?;
            Ok(Worth::Found(Some(value)))
        }
    }
}

fn worth_in<'k>(
    alloc: Global,
    at: u32,
    arg: &Arg,
    stack: &mut Stack<'k>,
    budget: &mut Budget,
) -> Result<Worth<'k>, RenderRefusal>
    ensures is { IfOk result (λ worth. IsWorth (objects stack.old.known) stack.old.shown stack.new.shown stack.old.scope at
        (arg_view arg.now) (left_of budget.old) (left_of budget.new) worth) }
    ensures told { IfErr result (λ e. (inside : rendering.Inside) → Told (told e)
        (looked (objects stack.old.known) stack.old.shown (rendering.argument inside stack.old.scope at (arg_view arg.now) (left_of budget.old)))) }
    ensures known { stack.new.known ≡ stack.old.known }
    ensures scope { stack.new.scope ≡ stack.old.scope }
    ensures shown { Begins stack.old.shown stack.new.shown }
    ensures renders { budget.new.renders ≡ budget.old.renders }
    ensures tags { budget.new.tags ≤ budget.old.tags }
    ensures output { budget.new.output ≤ budget.old.output }
{
    match arg {
        Arg::Name(name) => name_worth(name, stack),
        Arg::Expression(expr) => evaluated(alloc, at, expr, stack, budget),
    }
}

/// What an argument of a tag comes to. After a refusal the stack is what it was.
pub(crate) fn worth_of<'k>(
    alloc: Global,
    at: u32,
    arg: &Arg,
    stack: &mut Stack<'k>,
    budget: &mut Budget,
) -> Result<Worth<'k>, RenderRefusal>
    ensures is { IfOk result (λ worth. IsWorth (objects stack.old.known) stack.old.shown stack.new.shown stack.old.scope at
        (arg_view arg.now) (left_of budget.old) (left_of budget.new) worth) }
    ensures told { IfErr result (λ e. (inside : rendering.Inside) → Told (told e)
        (looked (objects stack.old.known) stack.old.shown (rendering.argument inside stack.old.scope at (arg_view arg.now) (left_of budget.old)))) }
    ensures known { stack.new.known ≡ stack.old.known }
    ensures scope { stack.new.scope ≡ stack.old.scope }
    ensures shown { Begins stack.old.shown stack.new.shown }
    ensures stays { OnErr result (stack.new.shown ≡ stack.old.shown) }
    ensures renders { budget.new.renders ≡ budget.old.renders }
    ensures tags { budget.new.tags ≤ budget.old.tags }
    ensures output { budget.new.output ≤ budget.old.output }
{
    let count = stack.shown().len();
    let result = worth_in(alloc, at, arg, stack, budget);
    if result.is_err() {
        stack.forget(count);
    }
    result
}
