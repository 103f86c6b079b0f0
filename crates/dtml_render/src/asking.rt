ghost use Rattle.std.specs.Prelude.{◌≡◌, ◌≤◌, ℕ, List, length, take, IfSome, OnErr, Ok, Some};
ghost use Rattle.evaluator.specs.declared.reply.Shown.{Shown};
ghost use Rattle.zobject.specs.Shapes.{form_of};
ghost use Rattle.zknown.specs.Seen.{objects};
ghost use Rattle.namespace.specs.Looks.{looked};
ghost use Rattle.namespace.specs.Names as names;
ghost use Rattle.namespace.specs.Told.{Begins, Shows};
ghost use Rattle.dtml_parse.specs.Trees as trees;
ghost use Rattle.dtml_parse.specs.Views.{arg_view, marks_view, node_view};
ghost use Rattle.dtml_values.specs.Values.{Left};
ghost use Rattle.dtml_values.specs.Told.{told};
ghost use Rattle.dtml_render.specs.Frames as view;
ghost use Rattle.dtml_render.specs.Rendering as rendering;

use crate::spots::Tag;
use acquisition::{Wrapped, here};
use dtml_parse::{Arg, Node, VarTag};
use dtml_values::RenderRefusal;
use namespace::{Single, Stack, Val};
use zbase::{Oid, Text};
use zknown::Known;
use zobject::{Object, Part2};

/// The object with its contents, which the user must be granted to view; it is then shown.
pub(crate) fn open<'k>(oid: Oid, stack: &mut Stack<'k>) -> Result<&'k Object, RenderRefusal>
    ensures is { Shows told (λ o. o.now) stack.new.shown result
        (looked (objects stack.old.known) stack.old.shown (names.viewing (names.whose stack.old.scope) oid)) }
    ensures known { stack.new.known ≡ stack.old.known }
    ensures scope { stack.new.scope ≡ stack.old.scope }
    ensures shown { Begins stack.old.shown stack.new.shown }
{
    let object = stack.open(oid)?;
    Ok(object)
}

// Whether objects of this kind have a source.
fn has_source(part: &Part2) -> bool
    ensures { result ≡ rendering.has_source (form_of part.now) }
{
    match part {
        Part2::Method { .. } | Part2::Document { .. } => true,
        Part2::Folder(_) | Part2::UserFolder(_) => false,
    }
}

/// Whether an object has a source, as methods and documents do.
pub(crate) fn sourced(object: &Wrapped, known: &Known) -> Result<bool, RenderRefusal>
    ensures { (shown : List Shown) → Shows told (λ has. has) shown result (looked (objects known.now) shown (rendering.sourced object.now)) }
{
    let whole = here(known, object.oid())?;
    Ok(has_source(&whole.part))
}

// Whether an item that is an object has its turn.
fn object_turn(skip: bool, object: &Wrapped, stack: &mut Stack<'_>) -> Result<bool, RenderRefusal>
    ensures is { Shows told (λ may. may) stack.new.shown result
        (looked (objects stack.old.known) stack.old.shown (rendering.object_turn stack.old.scope skip object.now)) }
    ensures known { stack.new.known ≡ stack.old.known }
    ensures scope { stack.new.scope ≡ stack.old.scope }
    ensures shown { Begins stack.old.shown stack.new.shown }
    ensures stays { OnErr result (stack.new.shown ≡ stack.old.shown) }
{
    if skip {
        let granted = stack.offer(object.oid())?;
        return Ok(granted);
    }
    stack.view(object.oid())?;
    Ok(true)
}

/// Whether an item of a sequence has its turn: an object needs a view, and is passed over where that is asked for.
pub(crate) fn has_turn(
    skip: bool,
    item: &Single,
    stack: &mut Stack<'_>,
) -> Result<bool, RenderRefusal>
    ensures is { Shows told (λ may. may) stack.new.shown result
        (looked (objects stack.old.known) stack.old.shown (rendering.has_turn stack.old.scope skip item.now)) }
    ensures known { stack.new.known ≡ stack.old.known }
    ensures scope { stack.new.scope ≡ stack.old.scope }
    ensures shown { Begins stack.old.shown stack.new.shown }
    ensures stays { OnErr result (stack.new.shown ≡ stack.old.shown) }
{
    match item {
        Single::Obj(object) => object_turn(skip, object, stack),
        Single::Text(_) | Single::Int(_) => Ok(true),
    }
}

/// Takes away the newest layers, so that so many are left. Takes no memory.
pub(crate) fn cut(depth: usize, stack: &mut Stack<'_>)
    requires { depth ≤ length stack.old.scope.layers }
    ensures known { stack.new.known ≡ stack.old.known }
    ensures scope { stack.new.scope ≡ record stack.old.scope { layers = take depth stack.old.scope.layers } }
    ensures shown { stack.new.shown ≡ stack.old.shown }
{
    while stack.depth() > depth {
        stack.pop();
    }
}

// The text that the object that was viewed last lends to a tag.
#[tactic(auto, unfolding(crate::specs::Rendering::argument, crate::specs::Rendering::rendered_if))]
fn lent<'k>(arg: &Arg, stack: &Stack<'k>) -> Option<&'k Text>
    ensures { IfSome result (λ t. (inside : rendering.Inside) (at : ℕ) (left : Left)
        → looked (objects stack.now.known) stack.now.shown (rendering.argument inside stack.now.scope at (arg_view arg.now) left)
        ≡ Ok ((Some (names.text t.now), left), stack.now.shown)) }
{
    match arg {
        Arg::Name(name) => stack.lent(name.as_str()),
        Arg::Expression(_) => None,
    }
}

// The text that is lent to a node that shows it.
fn lent_to<'a, 'k>(node: &'a Node, stack: &Stack<'k>) -> Option<(u32, &'a VarTag, &'k Text)>
    ensures var { IfSome result (λ x. node_view node.now ≡ trees.Var x.0 (arg_view x.1.now.arg) (marks_view x.1.now)) }
    ensures text { IfSome result (λ x. (inside : rendering.Inside) (at : ℕ) (left : Left)
        → looked (objects stack.now.known) stack.now.shown (rendering.argument inside stack.now.scope at (arg_view x.1.now.arg) left)
        ≡ Ok ((Some (names.text x.2.now), left), stack.now.shown)) }
{
    let Node::Var(at, tag) = node else {
        return None;
    };
    let text = lent(&tag.arg, stack)?;
    Some((*at, tag, text))
}

/// The same of a tag, with the place and the marks by which it is shown. Takes no memory.
pub(crate) fn lent_under<'a, 'k>(
    tag: &'a Tag<'_>,
    stack: &Stack<'k>,
) -> Option<(u32, &'a VarTag, &'k Text)>
    ensures var { IfSome result (λ x. view.node_view tag.now ≡ Some (trees.Var x.0 (arg_view x.1.now.arg) (marks_view x.1.now))) }
    ensures text { IfSome result (λ x. (inside : rendering.Inside) (at : ℕ) (left : Left)
        → looked (objects stack.now.known) stack.now.shown (rendering.argument inside stack.now.scope at (arg_view x.1.now.arg) left)
        ≡ Ok ((Some (names.text x.2.now), left), stack.now.shown)) }
{
    let node = tag.node()?;
    lent_to(node, stack)
}
