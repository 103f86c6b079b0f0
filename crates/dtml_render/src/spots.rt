ghost use Rattle.std.specs.Prelude.{◌≡◌, ◌++◌, ◌∷◌, ◌<◌, [], length, IfOk, IfSome, option_map};
ghost use Rattle.dtml_parse.specs.Trees.{Items, Otherwise};
ghost use Rattle.dtml_parse.specs.Views.{arg_view, arm_list_view, bounds_view, list_view, node_view, otherwise_view, view};
ghost use Rattle.dtml_render.specs.Spots as spots;
ghost use Rattle.dtml_render.specs.Frames as frames;

use dtml_parse::{Arg, Arm, Binding, Node, Tree};
use std::alloc::Global;
use std::rc::Rc;
use zbase::Memory;

/// A template of which a page is made: one that is lent to it, or one that was read and may be kept for other pages too.
#[derive(Drop)]
pub enum Source<'t> {
    Lent(&'t Tree),
    Read(Rc<Tree>),
}

/// A block of a template. The way leads to it: at each step into a node, and there into one of its blocks.
#[derive(Drop)]
pub(crate) struct Spot<'t> {
    pub(crate) source: Source<'t>,
    pub(crate) way: Vec<(usize, usize)>,
}

/// A node of a block, and one of the arguments of that node, by its number.
#[derive(Drop)]
pub(crate) struct Tag<'t> {
    pub(crate) spot: Rc<Spot<'t>>,
    pub(crate) node: usize,
    pub(crate) part: usize,
}

// The nodes of a block. Takes no memory.
fn nodes_of(tree: &Tree) -> &[Node]
    ensures { list_view result.now ≡ view tree.now }
{
    tree.nodes.items.as_slice()
}

fn else_block(otherwise: &Option<Tree>) -> &[Node]
    ensures { list_view result.now ≡ spots.else_block (otherwise_view otherwise.now) }
{
    match otherwise {
        Some(block) => nodes_of(block),
        None => &[],
    }
}

/// The node at a place of a block. Takes no memory.
pub(crate) fn node_in(nodes: &[Node], n: usize) -> Option<&Node>
    ensures is { option_map (λ n. node_view n.now) result ≡ spots.node_at n (list_view nodes.now) }
    ensures within { IfSome result (λ node. n < length nodes.now) }
{
    if n < nodes.len() {
        Some(&nodes[n])
    } else {
        None
    }
}

fn arm_block<'a>(arms: &'a [Arm], otherwise: &'a Option<Tree>, part: usize) -> &'a [Node]
    ensures { list_view result.now ≡ spots.arm_block part (arm_list_view arms.now) (otherwise_view otherwise.now) }
{
    if part < arms.len() {
        nodes_of(&arms[part].block)
    } else {
        else_block(otherwise)
    }
}

#[tactic(auto, using(crate::proofs::NodeLaws::loop_first, crate::proofs::NodeLaws::loop_other))]
fn loop_block<'a>(block: &'a Tree, otherwise: &'a Option<Tree>, part: usize) -> &'a [Node]
    ensures { list_view result.now ≡ spots.loop_block part (view block.now) (otherwise_view otherwise.now) }
{
    if part == 0 {
        nodes_of(block)
    } else {
        else_block(otherwise)
    }
}

// A block of a node, by its number; the empty one where it has none of that number. Takes no memory.
#[tactic(auto, using(crate::proofs::NodeLaws::if_block, crate::proofs::NodeLaws::unless_block, crate::proofs::NodeLaws::loop_blocks, crate::proofs::NodeLaws::with_block, crate::proofs::NodeLaws::let_block), unfolding(crate::specs::Spots::block_in))]
fn block_in(node: &Node, part: usize) -> &[Node]
    ensures { list_view result.now ≡ spots.block_in part (node_view node.now) }
{
    match node {
        Node::If(arms, otherwise) => arm_block(arms.items.as_slice(), otherwise, part),
        Node::Unless(_, _, block) => nodes_of(block),
        Node::Loop {
            block,
            otherwise,
            ..
        } => loop_block(block, otherwise, part),
        Node::With(_, _, block) => nodes_of(block),
        Node::Let(_, _, block) => nodes_of(block),
        Node::Plain(_) | Node::Var(_, _) | Node::Call(_, _) | Node::Comment(_, _) => &[],
    }
}

fn block_under(node: Option<&Node>, part: usize) -> &[Node]
    ensures { list_view result.now ≡ spots.block_under part (option_map (λ n. node_view n.now) node.entry) }
{
    match node {
        Some(node) => block_in(node, part),
        None => &[],
    }
}

impl<'t> Source<'t> {
    /// A template that was read.
    pub fn read(alloc: Global, tree: Tree) -> Result<Source<'t>, Memory>
        ensures { IfOk result (λ source. frames.source_view source ≡ view tree) }
    {
        Ok(Source::Read(Rc::new(alloc, tree)?))
    }

    // The nodes of the template. Takes no memory.
    fn nodes(&self) -> &[Node]
        ensures { list_view result.now ≡ frames.source_view self.now }
    {
        match self {
            Source::Lent(tree) => nodes_of(tree),
            Source::Read(tree) => nodes_of(tree.as_ref()),
        }
    }

    fn copy(&self) -> Result<Source<'t>, Memory>
        ensures { IfOk result (λ copy. frames.source_view copy ≡ frames.source_view self.now) }
    {
        match self {
            Source::Lent(tree) => Ok(Source::Lent(tree)),
            Source::Read(tree) => Ok(Source::Read(tree.clone()?)),
        }
    }
}

// The way with a step more.
fn longer(
    alloc: Global,
    way: &[(usize, usize)],
    node: usize,
    part: usize,
) -> Result<Vec<(usize, usize)>, Memory>
    ensures { IfOk result (λ longer. longer.items ≡ way.now ++ (node, part) ∷ []) }
{
    let mut longer = Vec::from_slice(alloc, way)?;
    longer.push((node, part))?;
    Ok(longer)
}

impl<'t> Spot<'t> {
    /// The block that a whole template is.
    #[tactic(auto, unfolding(crate::specs::Spots::block_at))]
    pub(crate) fn whole(alloc: Global, source: Source<'t>) -> Result<Rc<Spot<'t>>, Memory>
        ensures { IfOk result (λ spot. frames.spot_view spot.value ≡ frames.source_view source.entry) }
    {
        let way = Vec::new(alloc);
        Ok(Rc::new(alloc, Spot { source, way })?)
    }

    /// The nodes of the block. Takes no memory.
    #[tactic(auto, using(crate::proofs::SpotLaws::way_next, crate::proofs::SpotLaws::way_done))]
    pub(crate) fn nodes(&self) -> &[Node]
        ensures { list_view result.now ≡ frames.spot_view self.now }
    {
        let mut nodes = self.source.nodes();
        let mut left = self.way.as_slice();
        while let Some((step, others)) = left.split_first() {
            nodes = block_under(node_in(nodes, step.0), step.1);
            left = others;
        }
        nodes
    }
}

/// The same block once more.
pub(crate) fn share<'t>(spot: &Rc<Spot<'t>>) -> Result<Rc<Spot<'t>>, Memory>
    ensures { IfOk result (λ same. same.value ≡ spot.now.value) }
{
    Ok(spot.clone()?)
}

impl<'t> Tag<'t> {
    /// The node. Takes no memory.
    pub(crate) fn node(&self) -> Option<&Node>
        ensures { option_map (λ n. node_view n.now) result ≡ frames.node_view self.now }
    {
        node_in(self.spot.as_ref().nodes(), self.node)
    }

    /// The argument, with its place. Takes no memory.
    pub(crate) fn argument(&self) -> Option<(u32, &Arg)>
        ensures { option_map (λ a. (a.0, arg_view a.1.now)) result ≡ frames.argument (frames.tag_view self.now) }
    {
        match self.node() {
            Some(node) => argument_of(node, self.part),
            None => None,
        }
    }

    /// A block of the node, by its number.
    #[tactic(auto, using(crate::proofs::SpotLaws::inner_so))]
    pub(crate) fn inner(&self, alloc: Global, part: usize) -> Result<Rc<Spot<'t>>, Memory>
        ensures { IfOk result (λ spot. frames.spot_view spot.value ≡ spots.block_under part (frames.node_view self.now)) }
    {
        let spot = self.spot.as_ref();
        let source = spot.source.copy()?;
        let way = longer(alloc, spot.way.as_slice(), self.node, part)?;
        Ok(Rc::new(alloc, Spot { source, way })?)
    }
}

fn arm_arg(arms: &[Arm], part: usize) -> Option<(u32, &Arg)>
    ensures { (otherwise : Otherwise) → option_map (λ a. (a.0, arg_view a.1.now)) result
        ≡ frames.argument (spots.arm_asking part (arm_list_view arms.now) otherwise) }
{
    if part < arms.len() {
        let arm = &arms[part];
        Some((arm.at, &arm.arg))
    } else {
        None
    }
}

fn bound_arg(at: u32, bindings: &[Binding], part: usize) -> Option<(u32, &Arg)>
    ensures { (block : Items) → option_map (λ a. (a.0, arg_view a.1.now)) result
        ≡ frames.argument (spots.bound_asking part at (bounds_view bindings.now) block) }
{
    if part < bindings.len() {
        Some((at, &bindings[part].arg))
    } else {
        None
    }
}

// An argument of a node, by its number, with its place.
fn argument_of(node: &Node, part: usize) -> Option<(u32, &Arg)>
    ensures { option_map (λ a. (a.0, arg_view a.1.now)) result ≡ frames.argument (spots.asking_in part (node_view node.now)) }
{
    match node {
        Node::Var(at, tag) => Some((*at, &tag.arg)),
        Node::Call(at, arg) => Some((*at, arg)),
        Node::If(arms, _) => arm_arg(arms.items.as_slice(), part),
        Node::Unless(at, arg, _) => Some((*at, arg)),
        Node::Loop { at, arg, .. } => Some((*at, arg)),
        Node::With(at, arg, _) => Some((*at, arg)),
        Node::Let(at, bindings, _) => bound_arg(*at, bindings.as_slice(), part),
        Node::Plain(_) => None,
        Node::Comment(_, _) => None,
    }
}
