ghost use Rattle.std.specs.Prelude.{◌≡◌, ◌<◌, ◌≤◌, OnErr, OnOk};
ghost use Rattle.zknown.specs.Seen.{objects};
ghost use Rattle.namespace.specs.Looks.{looked};
ghost use Rattle.namespace.specs.Told.{Begins, Shows};
ghost use Rattle.dtml_values.specs.Told.{told, left_of};
ghost use Rattle.dtml_render.specs.Frames.{IsInside};
ghost use Rattle.dtml_render.specs.Rendering as rendering;
ghost use Rattle.dtml_render.specs.Resuming as resuming;
ghost use Rattle.namespace.specs.Names.{Scope};

use crate::asking::has_turn;
use crate::items::item_names;
use dtml_values::{Budget, RenderRefusal, spend_tag};
use namespace::{Single, Stack};
use std::alloc::Global;
use zbase::Memory;

/// Whether an item has its turn, which costs a tag. After a refusal the stack is what it was.
pub(crate) fn may_turn(
    skip: bool,
    item: &Single,
    stack: &mut Stack<'_>,
    budget: &mut Budget,
) -> Result<bool, RenderRefusal>
    ensures is { Shows told (λ may. (may, left_of budget.new)) stack.new.shown result
        (looked (objects stack.old.known) stack.old.shown (resuming.may_turn stack.old.scope skip item.now (left_of budget.old))) }
    ensures known { stack.new.known ≡ stack.old.known }
    ensures scope { stack.new.scope ≡ stack.old.scope }
    ensures shown { Begins stack.old.shown stack.new.shown }
    ensures stays { OnErr result (stack.new.shown ≡ stack.old.shown) }
    ensures renders { budget.new.renders ≡ budget.old.renders }
    ensures tags { budget.new.tags ≤ budget.old.tags }
    ensures output { budget.new.output ≡ budget.old.output }
{
    spend_tag(budget)?;
    has_turn(skip, item, stack)
}

// Pushes the object that an item is. For want of memory the stack stays as it was.
fn push_item(item: &Single, stack: &mut Stack<'_>) -> Result<(), Memory>
    ensures ok { OnOk result (stack.new ≡ record stack.old { scope = rendering.item_pushed item.now stack.old.scope }) }
    ensures err { OnErr result (stack.new ≡ stack.old) }
{
    match item {
        Single::Obj(object) => stack.push_object(object.copy()?),
        Single::Text(_) | Single::Int(_) => Ok(()),
    }
}

/// Pushes an item's names, and the item itself where it is an object.
pub(crate) fn push_turn(
    alloc: Global,
    many: usize,
    before: u32,
    item: &Single,
    stack: &mut Stack<'_>,
) -> Result<(), Memory>
    requires few { before < 4294967295 }
    ensures ok { OnOk result (stack.new ≡ record stack.old { scope = rendering.item_scope many before item.now stack.old.scope }) }
    ensures known { stack.new.known ≡ stack.old.known }
    ensures shown { stack.new.shown ≡ stack.old.shown }
    ensures inside { (base : Scope) → IsInside base stack.old.scope → IsInside base stack.new.scope }
{
    let names = item_names(alloc, many, before, item)?;
    stack.push_names(names)?;
    push_item(item, stack)
}
