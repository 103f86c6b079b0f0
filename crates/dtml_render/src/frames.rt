ghost use Rattle.std.specs.Prelude.{◌≡◌, ◌≤◌, ◌∷◌, ℕ, length, reverse, OnErr, OnOk};
ghost use Rattle.namespace.specs.Names.{Scope};
ghost use Rattle.dtml_render.specs.Frames as view;
ghost use Rattle.dtml_render.specs.Frames.{AreNested, IsInside, frames_view};
ghost use Rattle.dtml_render.specs.Rendering.{State};
ghost use Rattle.dtml_render.specs.Resuming as resuming;
ghost use Rattle.dtml_render.specs.Resuming.{after, after_opening, under};
ghost use Rattle.dtml_render.specs.Spots as spots;

use crate::openings::Opening;
use crate::spots::{Spot, Tag};
use acquisition::Wrapped;
use namespace::{Layer, Single, Singles, Stack};
use permissions::Who;
use std::alloc::Global;
use std::rc::Rc;
use zbase::{Memory, Oid, Text};

/// The rest of a block.
#[derive(Drop)]
pub(crate) struct Rest<'t> {
    /// Under how many layers it stands.
    pub(crate) depth: usize,
    pub(crate) spot: Rc<Spot<'t>>,
    /// Its first node.
    pub(crate) next: usize,
}

/// An argument that has no value yet.
#[derive(Drop)]
pub(crate) struct Ask<'t> {
    pub(crate) depth: usize,
    pub(crate) tag: Tag<'t>,
}

/// The items of a loop that have no turn yet.
#[derive(Drop)]
pub(crate) struct Turns<'t> {
    pub(crate) depth: usize,
    /// Whether an item that the user may not view is passed over.
    pub(crate) skip: bool,
    /// How many items there are in all.
    pub(crate) many: usize,
    /// How many had their turns.
    pub(crate) before: u32,
    /// The others, the next one last.
    pub(crate) items: Vec<Single>,
    /// What is rendered for each.
    pub(crate) spot: Rc<Spot<'t>>,
}

/// An argument that is the children of a folder, some of which are still to be reached through a wrapper.
#[derive(Drop)]
pub(crate) struct Reaching<'t> {
    pub(crate) depth: usize,
    pub(crate) whole: Wrapped,
    pub(crate) so_far: Singles,
    /// All of the children.
    pub(crate) children: Vec<Oid>,
    /// How many were reached.
    pub(crate) next: usize,
    pub(crate) tag: Tag<'t>,
}

/// An argument whose value is the text that is now being made of an object's source.
#[derive(Drop)]
pub(crate) struct Value<'t> {
    pub(crate) depth: usize,
    /// Who acts behind it.
    pub(crate) acting: Option<Who>,
    pub(crate) tag: Tag<'t>,
    /// The text before it.
    pub(crate) out: Text,
}

/// What is still to come of a page.
#[derive(Drop)]
pub(crate) enum Frame<'t> {
    Rest(Rest<'t>),
    Ask(Ask<'t>),
    Turns(Turns<'t>),
    Reaching(Reaching<'t>),
    Value(Value<'t>),
}

impl<'t> Frame<'t> {
    /// Under how many layers the frame stands. Takes no memory.
    pub(crate) fn depth(&self) -> usize
        ensures { result ≡ resuming.depth_of (view.frame_view self.now) }
    {
        match self {
            Frame::Rest(rest) => rest.depth,
            Frame::Ask(ask) => ask.depth,
            Frame::Turns(turns) => turns.depth,
            Frame::Reaching(reaching) => reaching.depth,
            Frame::Value(value) => value.depth,
        }
    }
}

/// Adds an innermost frame. For want of memory the others stay as they were.
#[tactic(auto, using(crate::proofs::Standing::push_so))]
pub(crate) fn push_frame<'t>(frames: &mut Vec<Frame<'t>>, frame: Frame<'t>) -> Result<(), Memory>
    ensures ok { OnOk result (frames_view frames.new.items ≡ view.frame_view frame.entry ∷ frames_view frames.old.items) }
    ensures err { OnErr result (frames_view frames.new.items ≡ frames_view frames.old.items) }
{
    frames.push(frame)?;
    Ok(())
}

fn push_layer(layer: Option<Layer>, stack: &mut Stack<'_>) -> Result<(), Memory>
    ensures ok { OnOk result (stack.new ≡ record stack.old { scope = under (view.layers_of layer) stack.old.scope }) }
    ensures err { OnErr result (stack.new ≡ stack.old) }
{
    match layer {
        None => Ok(()),
        Some(Layer::Names(names)) => stack.push_names(names),
        Some(Layer::Object(object)) => stack.push_object(object),
    }
}

/// A block stands above the other frames.
pub(crate) fn push_block<'t>(
    frames: &mut Vec<Frame<'t>>,
    spot: Rc<Spot<'t>>,
    stack: &Stack<'_>,
) -> Result<(), Memory>
    ensures { OnOk result (frames_view frames.new.items
        ≡ resuming.Rest (length stack.now.scope.layers) (view.spot_view spot.entry.value) ∷ frames_view frames.old.items) }
{
    let rest = Rest {
        depth: stack.depth(),
        spot,
        next: 0,
    };
    push_frame(frames, Frame::Rest(rest))
}

/// What a node, or the value of an argument, opened stands above the other frames, under its layers.
pub(crate) fn push_opening<'t>(
    alloc: Global,
    frames: &mut Vec<Frame<'t>>,
    tag: Tag<'t>,
    opening: Opening,
    stack: &mut Stack<'_>,
) -> Result<(), Memory>
    ensures goes { OnOk result ((renders : ℕ) (s : State) → after (frames_view frames.new.items) renders stack.new.scope s
        ≡ after_opening (view.opening_view (view.node_view tag.entry) s opening) (frames_view frames.old.items) renders stack.old.scope) }
    ensures nested { OnOk result ((low : ℕ) → AreNested low (frames_view frames.old.items) (length stack.old.scope.layers)
        → AreNested low (frames_view frames.new.items) (length stack.new.scope.layers)) }
    ensures known { stack.new.known ≡ stack.old.known }
    ensures shown { stack.new.shown ≡ stack.old.shown }
    ensures inside { (base : Scope) → IsInside base stack.old.scope → IsInside base stack.new.scope }
{
    match opening {
        Opening::Ended => Ok(()),
        Opening::Within(layer, part) => {
            push_layer(layer, stack)?;
            push_block(frames, tag.inner(alloc, part)?, stack)
        }
        Opening::Asked(layer, part) => {
            push_layer(layer, stack)?;
            push_ask(frames, tag, part, stack)
        }
        Opening::Turning(skip, items) => {
            push_turns(frames, tag.inner(alloc, 0)?, skip, items, stack)
        }
    }
}

// An argument of the tag's node stands above the other frames.
fn push_ask<'t>(
    frames: &mut Vec<Frame<'t>>,
    tag: Tag<'t>,
    part: usize,
    stack: &Stack<'_>,
) -> Result<(), Memory>
    ensures { OnOk result (frames_view frames.new.items
        ≡ spots.ask_frame (length stack.now.scope.layers) (spots.asking_under part (view.node_view tag.entry)) ∷ frames_view frames.old.items) }
{
    let depth = stack.depth();
    let tag = Tag {
        spot: tag.spot,
        node: tag.node,
        part,
    };
    push_frame(frames, Frame::Ask(Ask { depth, tag }))
}

// So does a turn for each of these items, the next one last.
fn push_turns<'t>(
    frames: &mut Vec<Frame<'t>>,
    spot: Rc<Spot<'t>>,
    skip: bool,
    items: Vec<Single>,
    stack: &Stack<'_>,
) -> Result<(), Memory>
    ensures { OnOk result (frames_view frames.new.items ≡ resuming.Turns (length stack.now.scope.layers) skip (length items.items) 0
        (reverse items.items) (view.spot_view spot.entry.value) ∷ frames_view frames.old.items) }
{
    let turns = Turns {
        depth: stack.depth(),
        skip,
        many: items.len(),
        before: 0,
        items,
        spot,
    };
    push_frame(frames, Frame::Turns(turns))
}
