ghost use Rattle.std.specs.Prelude.{◌≡◌, ◌≤◌, ◌<◌, ℕ, suc, List, true, false, length, IfOk, IfErr, OnOk, MatchResult, ◌++◌, ◌∷◌, [], Option, Some};
ghost use Rattle.std.specs.Str.{IsCharBoundary};
ghost use Rattle.zbase.specs.declared.limits.TheConstants.{MOST_SOURCE};
ghost use Rattle.dtml_lex.specs.declared.part.TagName.TheVariants as tags;
ghost use Rattle.dtml_lex.specs.declared.refusal.DtmlRefusal.TheVariants as refusals;
ghost use Rattle.dtml_parse.specs.Pieces as pieces;
ghost use Rattle.dtml_parse.specs.Grammar.{Stands, IsItem, IsBlock, IsElse, Reads};
ghost use Rattle.dtml_parse.specs.Refusals.{Open, is_tag, strays, IsRefused, IsNext, IsFirst, Refuses};
ghost use Rattle.dtml_parse.specs.Parsing.{ends_block, is_ending, stop_at, Stops, Turns, IsInside, IsOfLoop};
ghost use Rattle.dtml_parse.specs.Views.{arg_view, piece_view, node_view, view, otherwise_view};

use crate::piece::{Piece, piece_of};
use crate::{Arg, Arm, Arms, Node, Nodes, Tree};
use dtml_lex::{DtmlRefusal, PartKind, SourcePart, TagName, next_part};
use std::alloc::Global;
use zbase::{MOST_SOURCE, Memory};

/// How many blocks may stand inside one another.
const MOST_LEVELS: u32 = 64;

/// A source's outermost block has room ahead for a node for each so many bytes. A list that grows is moved, and what it
/// leaves behind are holes that the allocator goes through.
const BYTES_A_NODE: usize = 32;

/// Whether a part can't stand in a block, but only behind one: a closing tag, `elif` or `else`.
fn ends_block(kind: &PartKind) -> bool
    ensures { result ≡ ends_block kind.now }
{
    match kind {
        PartKind::Opening(name, _) => matches!(name, TagName::Elif | TagName::Else),
        PartKind::Closing(_, _) => true,
        _ => false,
    }
}

/// Whether two names are one.
fn is_tag(own: TagName, name: TagName) -> bool
    ensures { result ≡ is_tag own name }
{
    own == name
}

/// Whether a part can't stand behind a block of `if` or `in` that isn't that of their `else`.
fn strays(name: TagName, kind: &PartKind) -> bool
    ensures { (place : ℕ) → result ≡ strays (Some (record { at = place; name = name; goes_on = true })) kind.now }
{
    match kind {
        PartKind::Opening(own, _) => matches!(own, TagName::Elif) && !is_tag(name, TagName::If),
        PartKind::Closing(own, _) => !is_tag(*own, name),
        _ => false,
    }
}

/// What follows the closing tag of the tag at a place, behind a block that nothing but this may follow.
fn closed(at: usize, name: TagName, stop: Option<SourcePart>) -> Result<usize, DtmlRefusal>
    ensures read { (source : List ℕ) → Stops source stop → IfOk result (λ end. Stands source (stop_at source stop) (pieces.Close name) end) }
    ensures refused { (source : List ℕ) (levels : ℕ) → Stops source stop
        → IfErr result (IsRefused source levels (Some (record { at = at; name = name; goes_on = false })) (stop_at source stop)) }
{
    let Some(SourcePart { start, end, kind }) = stop else {
        return Err(DtmlRefusal::Unclosed(at));
    };
    match kind {
        PartKind::Closing(own, attributes) => {
            if !is_tag(own, name) {
                Err(DtmlRefusal::Stray(start))
            } else if attributes.is_empty() {
                Ok(end)
            } else {
                Err(DtmlRefusal::BadAttribute(start))
            }
        }
        _ => Err(DtmlRefusal::Stray(start)),
    }
}

/// What the part behind a block of the `if` or `in` at a place says, with its place and the place behind it.
fn turn_of(
    alloc: Global,
    at: usize,
    name: TagName,
    stop: Option<SourcePart>,
) -> Result<(Piece, usize, usize), DtmlRefusal>
    ensures read { (source : List ℕ) → Stops source stop → IfOk result (λ x. Stands source (stop_at source stop) (piece_view x.0) x.2) }
    ensures place { (source : List ℕ) → IfOk result (λ x. x.1 ≡ stop_at source stop) }
    ensures turns { (source : List ℕ) → Stops source stop → IfOk result (λ x. Turns name (piece_view x.0)) }
    ensures refused { (source : List ℕ) (levels : ℕ) → Stops source stop
        → IfErr result (IsRefused source levels (Some (record { at = at; name = name; goes_on = true })) (stop_at source stop)) }
{
    let Some(part) = stop else {
        return Err(DtmlRefusal::Unclosed(at));
    };
    if strays(name, &part.kind) {
        return Err(DtmlRefusal::Stray(part.start));
    }
    let piece = piece_of(alloc, part.start, part.kind)?;
    Ok((piece, part.start, part.end))
}

/// Adds an item at the end. A list begins with room for one, since most blocks have one node and most `if` tags one arm;
/// by itself it would begin with room for four. A call would copy the item once more.
#[inline(always)]
fn push<T: Drop>(items: &mut Vec<T>, item: T) -> Result<(), Memory>
    ensures { OnOk result (items.new.items ≡ items.old.items ++ item ∷ []) }
{
    if items.is_empty() {
        items.reserve_exact(1)?;
    }
    items.push(item)?;
    Ok(())
}

/// No node yet, and room for so many.
fn room_for(alloc: Global, nodes: usize) -> Result<Vec<Node>, Memory>
    ensures { IfOk result (λ items. items.items ≡ []) }
{
    match Vec::with_capacity(alloc, nodes) {
        Ok(items) => Ok(items),
        Err(_) => Err(Memory),
    }
}

/// How many levels are left inside the tag at a place.
fn inside(levels: u32, at: usize) -> Result<u32, DtmlRefusal>
    ensures { MatchResult result (λ inner. levels ≡ suc inner) (λ refusal. (levels ≡ 0) × (refusal ≡ refusals.TooDeep at)) }
{
    if levels == 0 {
        Err(DtmlRefusal::TooDeep(at))
    } else {
        Ok(levels - 1)
    }
}

/// The nodes from a place on, up to the end of the source or to a part that ends a block, and that part. So many
/// blocks may stand inside one another there. The list begins with room for `room` nodes.
#[cycle(parse)]
fn block_of(
    alloc: Global,
    source: &str,
    levels: u32,
    start: usize,
    room: usize,
) -> Result<(Tree, Option<SourcePart>), DtmlRefusal>
    requires small { length source.now ≤ MOST_SOURCE }
    requires boundary { IsCharBoundary source.now start }
    ensures read { IfOk result (λ x. IsBlock source.now (view x.0) levels start (stop_at source.now x.1)) }
    ensures stops { IfOk result (λ x. Stops source.now x.1) }
    ensures refused { IfErr result (λ refusal. (outer : Option Open) → IsFirst source.now levels outer start refusal) }
{
    let mut items = room_for(alloc, room)?;
    let mut at = start;
    'parts: while let Some(part) = next_part(alloc, source, at)? {
        if ends_block(&part.kind) {
            let nodes = Nodes { items };
            return Ok((Tree { nodes }, Some(part)));
        }
        let piece = piece_of(alloc, at, part.kind)?;
        let (node, behind) = node_of(alloc, source, levels, at, piece, part.end)?;
        push(&mut items, node)?;
        at = behind;
    }
    let nodes = Nodes { items };
    Ok((Tree { nodes }, None))
}

/// The node that begins with a piece, from the place of the piece and the place behind it, and the place behind
/// the node.
#[cycle(parse)]
fn node_of(
    alloc: Global,
    source: &str,
    levels: u32,
    at: usize,
    piece: Piece,
    behind: usize,
) -> Result<(Node, usize), DtmlRefusal>
    requires small { length source.now ≤ MOST_SOURCE }
    requires stands { Stands source.now at (piece_view piece) behind }
    requires begins { is_ending (piece_view piece) ≡ false }
    ensures read { IfOk result (λ x. IsItem source.now (node_view x.0) levels at x.1) }
    ensures refused { IfErr result (λ refusal. (outer : Option Open) → IsNext levels source.now outer refusal at) }
{
    match piece {
        Piece::Plain(text) => Ok((Node::Plain(text), behind)),
        Piece::Var(tag) => Ok((Node::Var(at as u32, tag), behind)),
        Piece::Call(arg) => Ok((Node::Call(at as u32, arg), behind)),
        Piece::If(arg) => {
            let inner = inside(levels, at)?;
            if_of(alloc, source, inner, at, arg, behind)
        }
        Piece::Unless(arg) => {
            let inner = inside(levels, at)?;
            let (block, end) = whole_block(alloc, source, inner, at, TagName::Unless, behind)?;
            Ok((Node::Unless(at as u32, arg, block), end))
        }
        Piece::In {
            arg,
            reverse,
            skip_unauthorized,
        } => {
            let inner = inside(levels, at)?;
            let (block, otherwise, end) = in_of(alloc, source, inner, at, behind)?;
            let node = Node::Loop {
                at: at as u32,
                arg,
                reverse,
                skip_unauthorized,
                block,
                otherwise,
            };
            Ok((node, end))
        }
        Piece::With(arg) => {
            let inner = inside(levels, at)?;
            let (block, end) = whole_block(alloc, source, inner, at, TagName::With, behind)?;
            Ok((Node::With(at as u32, arg, block), end))
        }
        Piece::Let(bindings) => {
            let inner = inside(levels, at)?;
            let (block, end) = whole_block(alloc, source, inner, at, TagName::Let, behind)?;
            Ok((Node::Let(at as u32, bindings, block), end))
        }
        Piece::Comment => {
            let inner = inside(levels, at)?;
            let (block, end) = whole_block(alloc, source, inner, at, TagName::Comment, behind)?;
            Ok((Node::Comment(at as u32, block), end))
        }
        Piece::Elif(_) => Err(DtmlRefusal::Stray(at)),
        Piece::Else => Err(DtmlRefusal::Stray(at)),
        Piece::Close(_) => Err(DtmlRefusal::Stray(at)),
    }
}

/// The last block of the tag at a place, and the place behind its closing tag.
#[cycle(parse)]
fn whole_block(
    alloc: Global,
    source: &str,
    levels: u32,
    at: usize,
    name: TagName,
    start: usize,
) -> Result<(Tree, usize), DtmlRefusal>
    requires small { length source.now ≤ MOST_SOURCE }
    requires boundary { IsCharBoundary source.now start }
    ensures read { IfOk result (λ x. (behind : ℕ) × IsBlock source.now (view x.0) levels start behind × Stands source.now behind (pieces.Close name) x.1) }
    ensures refused { IfErr result (IsFirst source.now levels (Some (record { at = at; name = name; goes_on = false })) start) }
{
    let (block, stop) = block_of(alloc, source, levels, start, 0)?;
    let end = closed(at, name, stop)?;
    Ok((block, end))
}

/// The block of the `in` at a place, that of its `else`, and the place behind its closing tag.
#[cycle(parse)]
fn in_of(
    alloc: Global,
    source: &str,
    levels: u32,
    at: usize,
    start: usize,
) -> Result<(Tree, Option<Tree>, usize), DtmlRefusal>
    requires small { length source.now ≤ MOST_SOURCE }
    requires boundary { IsCharBoundary source.now start }
    ensures read { IfOk result (λ x. (middle : ℕ) × (behind : ℕ) × IsBlock source.now (view x.0) levels start middle
        × IsElse source.now (otherwise_view x.1) levels middle behind × Stands source.now behind (pieces.Close tags.In) x.2) }
    ensures refused { IfErr result (IsOfLoop source.now levels at start) }
{
    let (block, stop) = block_of(alloc, source, levels, start, 0)?;
    let (piece, _, end) = turn_of(alloc, at, TagName::In, stop)?;
    let Piece::Else = piece else {
        return Ok((block, None, end));
    };
    let (otherwise, end) = whole_block(alloc, source, levels, at, TagName::In, end)?;
    Ok((block, Some(otherwise), end))
}

/// The `if` at a place, from its argument and the place of its first block on, and the place behind its closing tag.
#[cycle(parse)]
fn if_of(
    alloc: Global,
    source: &str,
    levels: u32,
    at: usize,
    arg: Arg,
    start: usize,
) -> Result<(Node, usize), DtmlRefusal>
    requires small { length source.now ≤ MOST_SOURCE }
    requires stands { Stands source.now at (pieces.If (arg_view arg)) start }
    ensures read { IfOk result (λ x. IsItem source.now (node_view x.0) (suc levels) at x.1) }
    ensures refused { IfErr result (IsInside source.now levels at) }
{
    let mut items = Vec::new(alloc);
    let mut arm_at = at;
    let mut arm_arg = arg;
    let mut arm_start = start;
    'arms: loop {
        let (block, stop) = block_of(alloc, source, levels, arm_start, 0)?;
        let arm = Arm {
            at: arm_at as u32,
            arg: arm_arg,
            block,
        };
        push(&mut items, arm)?;
        let (piece, turn_at, end) = turn_of(alloc, at, TagName::If, stop)?;
        match piece {
            Piece::Elif(arg) => {
                arm_at = turn_at;
                arm_arg = arg;
                arm_start = end;
            }
            Piece::Else => {
                let (otherwise, end) = whole_block(alloc, source, levels, at, TagName::If, end)?;
                return Ok((Node::If(Arms { items }, Some(otherwise)), end));
            }
            _ => return Ok((Node::If(Arms { items }, None), end)),
        }
    }
}

/// The template that all of a source is.
///
/// A refusal tells why there is none, with the place of the tag: the first from the left. `TooLarge` tells the
/// greatest length instead, for a source that is longer. For one tag the refusal that `DtmlRefusal` lists first is
/// given; `Unclosed` comes only where no tag is refused. Want of memory leaves nothing behind.
///
/// Zope Book, appendix "DTML Reference".
pub fn parse(alloc: Global, source: &str) -> Result<Tree, DtmlRefusal>
    ensures read { IfOk result (λ tree. Reads source.now (view tree)) }
    ensures refused { IfErr result (Refuses source.now) }
{
    if source.len() > MOST_SOURCE {
        return Err(DtmlRefusal::TooLarge(MOST_SOURCE));
    }
    let room = source.len() / BYTES_A_NODE;
    let (mut tree, stop) = block_of(alloc, source, MOST_LEVELS, 0, room)?;
    match stop {
        Some(part) => Err(DtmlRefusal::Stray(part.start)),
        None => {
            tree.nodes.items.shrink_to_fit();
            Ok(tree)
        }
    }
}
