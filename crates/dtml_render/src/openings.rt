ghost use Rattle.std.specs.Prelude.{◌≡◌, ◌≤◌, ℕ, List, None, Some, Ok, Option, drop, option_map};
ghost use Rattle.evaluator.specs.declared.reply.Shown.{Shown};
ghost use Rattle.zobject.specs.declared.object.Object.{Object};
ghost use Rattle.zknown.specs.Seen.{Seen};
ghost use Rattle.dtml_parse.specs.Trees.{Item, Items};
ghost use Rattle.dtml_parse.specs.Trees as trees;
ghost use Rattle.dtml_parse.specs.Views.{arg_view, arm_list_view, bounds_view, marks_view, node_view, otherwise_view};
ghost use Rattle.namespace.specs.Looks.{looked};
ghost use Rattle.namespace.specs.Told.{Shows};
ghost use Rattle.dtml_values.specs.Values.{Left};
ghost use Rattle.dtml_values.specs.Told.{told, left_of};
ghost use Rattle.dtml_render.specs.Frames.{layers_of, opening_view};
ghost use Rattle.dtml_render.specs.Loops.{loop_view, loop_waiting};
ghost use Rattle.dtml_render.specs.Rendering as rendering;
ghost use Rattle.dtml_render.specs.Rendering.{State, state};
ghost use Rattle.dtml_render.specs.Resuming as resuming;
ghost use Rattle.dtml_render.specs.Spots as spots;

use crate::items::{one_name, turned};
use crate::showing::{name_of, put_value};
use crate::worths::Found;
use dtml_parse::{Arg, Arm, Binding, Node, Tree, VarTag};
use dtml_values::{Budget, RenderRefusal, defined, is_met, object_in, put, sequence, spend_tag};
use namespace::{Layer, Single, Singles, Val};
use std::alloc::Global;
use zbase::Text;

/// What a node, or the value of an argument, opens in a page. Blocks and arguments are told by their numbers in the node.
#[derive(Drop)]
pub(crate) enum Opening {
    /// Nothing more.
    Ended,
    /// A block, under a layer more where there is one.
    Within(Option<Layer>, usize),
    /// An argument whose value is wanted.
    Asked(Option<Layer>, usize),
    /// A turn of the first block for each item, the next one last: whether items are passed over.
    Turning(bool, Vec<Single>),
}

// An `in` tag without its block.
#[derive(Clone, Copy)]
struct Loop<'a> {
    at: u32,
    arg: &'a Arg,
    reverse: bool,
    skip: bool,
    otherwise: &'a Option<Tree>,
}

fn else_opening(otherwise: &Option<Tree>, part: usize) -> Opening
    ensures { (item : Item) (s : State) → spots.block_in part item ≡ spots.else_block (otherwise_view otherwise.now)
        → opening_view (Some item) s result ≡ resuming.else_opening (otherwise_view otherwise.now) s }
{
    match otherwise {
        Some(_) => Opening::Within(None, part),
        None => Opening::Ended,
    }
}

// An arm of an `if`, or what stands behind the arms.
fn arms_opening(arms: &[Arm], otherwise: &Option<Tree>, part: usize) -> Opening
    ensures { (s : State) → opening_view (Some (trees.If (arm_list_view arms.now) (otherwise_view otherwise.now))) s result
        ≡ resuming.arms_opening (spots.arms_from part (arm_list_view arms.now)) (otherwise_view otherwise.now) s }
{
    if part < arms.len() {
        Opening::Asked(None, part)
    } else {
        else_opening(otherwise, part)
    }
}

// A binding of a `let`, or its block behind the bindings.
fn bounds_opening(layer: Option<Layer>, bindings: &[Binding], part: usize) -> Opening
    ensures { (at : ℕ) (block : Items) (s : State) → opening_view (Some (trees.Let at (bounds_view bindings.now) block)) s result
        ≡ resuming.bounds_opening (layers_of layer) at (drop part (bounds_view bindings.now)) block s }
{
    if part < bindings.len() {
        Opening::Asked(layer, part)
    } else {
        Opening::Within(layer, 0)
    }
}

// A tag is paid for before anything else of it.
fn paid(opening: Opening, budget: &mut Budget) -> Result<Opening, RenderRefusal>
    ensures is { (k : ℕ → Option (Seen Object)) (shown : List Shown) (item : Option Item) (tag : State → resuming.Opening) (out : List ℕ)
        → ((s : State) → opening_view item s opening ≡ tag s) → Shows told (opening_view item (state out (left_of budget.new))) shown result
        (looked k shown (resuming.paid (state out (left_of budget.old)) tag)) }
    ensures renders { budget.new.renders ≡ budget.old.renders }
    ensures tags { budget.new.tags ≤ budget.old.tags }
    ensures output { budget.new.output ≤ budget.old.output }
{
    spend_tag(budget)?;
    Ok(opening)
}

/// What a node opens.
pub(crate) fn node_opening(
    node: &Node,
    budget: &mut Budget,
    out: &mut Text,
) -> Result<Opening, RenderRefusal>
    ensures is { (k : ℕ → Option (Seen Object)) (shown : List Shown)
        → Shows told (opening_view (Some (node_view node.now)) (state out.new (left_of budget.new))) shown result
        (looked k shown (resuming.item_opening (node_view node.now) (state out.old (left_of budget.old)))) }
    ensures renders { budget.new.renders ≡ budget.old.renders }
    ensures tags { budget.new.tags ≤ budget.old.tags }
    ensures output { budget.new.output ≤ budget.old.output }
{
    match node {
        Node::Plain(text) => {
            put(text.as_str(), budget, out)?;
            Ok(Opening::Ended)
        }
        Node::Var(_, _) => paid(Opening::Asked(None, 0), budget),
        Node::Call(_, _) => paid(Opening::Asked(None, 0), budget),
        Node::If(arms, otherwise) => {
            paid(arms_opening(arms.items.as_slice(), otherwise, 0), budget)
        }
        Node::Unless(_, _, _) => paid(Opening::Asked(None, 0), budget),
        Node::Loop { .. } => paid(Opening::Asked(None, 0), budget),
        Node::With(_, _, _) => paid(Opening::Asked(None, 0), budget),
        Node::Let(_, bindings, _) => { paid(bounds_opening(None, bindings.as_slice(), 0), budget) }
        Node::Comment(_, _) => paid(Opening::Ended, budget),
    }
}

// A value is shown.
fn show(
    alloc: Global,
    at: u32,
    tag: &VarTag,
    found: Found,
    budget: &mut Budget,
    out: &mut Text,
) -> Result<Opening, RenderRefusal>
    ensures is { (k : ℕ → Option (Seen Object)) (shown : List Shown) (item : Option Item)
        → Shows told (opening_view item (state out.new (left_of budget.new))) shown result
        (looked k shown (resuming.opening (resuming.ToShow at (arg_view tag.now.arg) (marks_view tag.now)) out.old (found, left_of budget.old))) }
    ensures renders { budget.new.renders ≡ budget.old.renders }
    ensures tags { budget.new.tags ≡ budget.old.tags }
    ensures output { budget.new.output ≤ budget.old.output }
{
    put_value(alloc, at, tag, found, budget, out)?;
    Ok(Opening::Ended)
}

// A value that an argument must have.
fn needed(alloc: Global, arg: &Arg, found: Found) -> Result<Val, RenderRefusal>
    ensures { (k : ℕ → Option (Seen Object)) (shown : List Shown) (left : Left)
        → Shows told (λ v. (v, left)) shown result (looked k shown (rendering.must_be (arg_view arg.now) (found, left))) }
{
    let name = name_of(alloc, arg)?;
    defined(&name, found)
}

// A value that isn't shown; no text comes of it.
fn leave(alloc: Global, arg: &Arg, found: Found) -> Result<Opening, RenderRefusal>
    ensures { (k : ℕ → Option (Seen Object)) (shown : List Shown) (out : List ℕ) (left : Left) (item : Option Item)
        → Shows told (opening_view item (state out left)) shown result
        (looked k shown (resuming.opening (resuming.ToLeave (arg_view arg.now)) out (found, left))) }
{
    let _value = needed(alloc, arg, found)?;
    Ok(Opening::Ended)
}

// A value that no tag waits for.
fn leave_alone(alloc: Global, found: Found) -> Result<Opening, RenderRefusal>
    ensures { (k : ℕ → Option (Seen Object)) (shown : List Shown) (out : List ℕ) (left : Left) (item : Option Item)
        → Shows told (opening_view item (state out left)) shown result
        (looked k shown (resuming.opening (spots.waiting_of None) out (found, left))) }
{
    let name = Text::new(alloc);
    let _value = defined(&name, found)?;
    Ok(Opening::Ended)
}

fn choose(
    alloc: Global,
    arms: &[Arm],
    otherwise: &Option<Tree>,
    part: usize,
    found: Found,
) -> Result<Opening, RenderRefusal>
    ensures { (k : ℕ → Option (Seen Object)) (shown : List Shown) (out : List ℕ) (left : Left)
        → Shows told (opening_view (Some (trees.If (arm_list_view arms.now) (otherwise_view otherwise.now))) (state out left)) shown result
        (looked k shown (resuming.opening (spots.waiting_of (spots.arm_asking part (arm_list_view arms.now) (otherwise_view otherwise.now)))
        out (found, left))) }
{
    if part >= arms.len() {
        return leave_alone(alloc, found);
    }
    if is_met(&found) {
        return Ok(Opening::Within(None, part));
    }
    Ok(arms_opening(arms, otherwise, part + 1))
}

fn doubt(found: Found) -> Opening
    ensures { (k : ℕ → Option (Seen Object)) (shown : List Shown) (out : List ℕ) (left : Left) (at : ℕ) (arg : trees.Arg) (block : Items)
        → Ok (opening_view (Some (trees.Unless at arg block)) (state out left) result, shown)
        ≡ looked k shown (resuming.opening (resuming.ToDoubt block) out (found, left)) }
{
    if is_met(&found) {
        Opening::Ended
    } else {
        Opening::Within(None, 0)
    }
}

// A loop over the items of a value.
fn repeat(alloc: Global, tag: &Loop<'_>, found: Found) -> Result<Opening, RenderRefusal>
    ensures { (k : ℕ → Option (Seen Object)) (shown : List Shown) (out : List ℕ) (left : Left) (block : Items)
        → Shows told (opening_view (Some (loop_view tag.now block)) (state out left)) shown result
        (looked k shown (resuming.opening (loop_waiting tag.now block) out (found, left))) }
{
    let value = needed(alloc, tag.arg, found)?;
    let items = sequence(alloc, tag.at, value)?;
    if items.is_empty() {
        return Ok(else_opening(tag.otherwise, 1));
    }
    Ok(turning(tag, items))
}

// A turn for each of these items.
fn turning(tag: &Loop<'_>, items: Singles) -> Opening
    ensures { (block : Items) (s : State) → opening_view (Some (loop_view tag.now block)) s result
        ≡ resuming.Turning tag.now.skip (rendering.turned tag.now.reverse items) block s }
{
    let mut items = turned(tag.reverse, items);
    items.reverse();
    Opening::Turning(tag.skip, items)
}

fn enter(alloc: Global, at: u32, arg: &Arg, found: Found) -> Result<Opening, RenderRefusal>
    ensures { (k : ℕ → Option (Seen Object)) (shown : List Shown) (out : List ℕ) (left : Left) (block : Items)
        → Shows told (opening_view (Some (trees.With at (arg_view arg.now) block)) (state out left)) shown result
        (looked k shown (resuming.opening (resuming.ToEnter at (arg_view arg.now) block) out (found, left))) }
{
    let value = needed(alloc, arg, found)?;
    let object = object_in(at, value)?;
    Ok(Opening::Within(Some(Layer::Object(object)), 0))
}

// A value gets the name of its binding.
fn bind(
    alloc: Global,
    bindings: &[Binding],
    part: usize,
    found: Found,
) -> Result<Opening, RenderRefusal>
    ensures { (k : ℕ → Option (Seen Object)) (shown : List Shown) (out : List ℕ) (left : Left) (at : ℕ) (block : Items)
        → Shows told (opening_view (Some (trees.Let at (bounds_view bindings.now) block)) (state out left)) shown result
        (looked k shown (resuming.opening (spots.waiting_of (spots.bound_asking part at (bounds_view bindings.now) block)) out (found, left))) }
{
    if part >= bindings.len() {
        return leave_alone(alloc, found);
    }
    let binding = &bindings[part];
    let value = needed(alloc, &binding.arg, found)?;
    let names = one_name(alloc, &binding.name, value)?;
    Ok(bounds_opening(Some(Layer::Names(names)), bindings, part + 1))
}

// What the value of an argument of this node opens.
fn answer_in(
    alloc: Global,
    node: &Node,
    part: usize,
    found: Found,
    budget: &mut Budget,
    out: &mut Text,
) -> Result<Opening, RenderRefusal>
    ensures is { (k : ℕ → Option (Seen Object)) (shown : List Shown)
        → Shows told (opening_view (Some (node_view node.now)) (state out.new (left_of budget.new))) shown result
        (looked k shown (resuming.opening (spots.waiting_of (spots.asking_under part (Some (node_view node.now)))) out.old (found, left_of budget.old))) }
    ensures renders { budget.new.renders ≡ budget.old.renders }
    ensures tags { budget.new.tags ≤ budget.old.tags }
    ensures output { budget.new.output ≤ budget.old.output }
{
    match node {
        Node::Var(at, tag) => show(alloc, *at, tag, found, budget, out),
        Node::Call(_, arg) => leave(alloc, arg, found),
        Node::If(arms, otherwise) => {
            choose(alloc, arms.items.as_slice(), otherwise, part, found)
        }
        Node::Unless(_, _, _) => Ok(doubt(found)),
        Node::Loop {
            at,
            arg,
            reverse,
            skip_unauthorized,
            otherwise,
            ..
        } => {
            let tag = Loop {
                at: *at,
                arg,
                reverse: *reverse,
                skip: *skip_unauthorized,
                otherwise,
            };
            repeat(alloc, &tag, found)
        }
        Node::With(at, arg, _) => enter(alloc, *at, arg, found),
        Node::Let(_, bindings, _) => bind(alloc, bindings.as_slice(), part, found),
        Node::Plain(_) => leave_alone(alloc, found),
        Node::Comment(_, _) => leave_alone(alloc, found),
    }
}

/// What the value of a node's argument opens, behind the text so far.
pub(crate) fn answer(
    alloc: Global,
    node: Option<&Node>,
    part: usize,
    found: Found,
    budget: &mut Budget,
    out: &mut Text,
) -> Result<Opening, RenderRefusal>
    ensures is { (k : ℕ → Option (Seen Object)) (shown : List Shown)
        → Shows told (opening_view (option_map (λ n. node_view n.now) node.entry) (state out.new (left_of budget.new))) shown result
        (looked k shown (resuming.opening (spots.waiting_of (spots.asking_under part (option_map (λ n. node_view n.now) node.entry)))
        out.old (found, left_of budget.old))) }
    ensures renders { budget.new.renders ≡ budget.old.renders }
    ensures tags { budget.new.tags ≤ budget.old.tags }
    ensures output { budget.new.output ≤ budget.old.output }
{
    match node {
        Some(node) => answer_in(alloc, node, part, found, budget, out),
        None => leave_alone(alloc, found),
    }
}
