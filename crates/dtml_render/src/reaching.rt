ghost use Rattle.std.specs.Prelude.{◌≡◌, ◌≤◌, List, IfErr, IfOk, OnOk, drop, length, map};
ghost use Rattle.zbase.specs.Query.{Told};
ghost use Rattle.evaluator.specs.declared.reply.Shown.{Shown};
ghost use Rattle.zknown.specs.Seen.{objects};
ghost use Rattle.namespace.specs.GoingOn.{GoesOn};
ghost use Rattle.namespace.specs.Looks.{looked};
ghost use Rattle.namespace.specs.Names as names;
ghost use Rattle.namespace.specs.Told.{Shows};
ghost use Rattle.dtml_values.specs.Told.{told};
ghost use Rattle.dtml_render.specs.Frames.{children_of};

use acquisition::Wrapped;
use dtml_values::RenderRefusal;
use namespace::{Single, Singles};
use std::alloc::Global;
use zbase::{Memory, Oid};
use zknown::Known;
use zobject::Child;

/// The ids of children, in their order.
pub(crate) fn ids_of(alloc: Global, children: &[Child]) -> Result<Vec<Oid>, Memory>
    ensures { IfOk result (λ ids. ids.items ≡ map (λ child. child.oid) children.now) }
{
    let mut ids = Vec::with_capacity(alloc, children.len())?;
    for child in children {
        ids.push(child.oid)?;
    }
    Ok(ids)
}

// An object, reached through a wrapper.
#[tactic(auto, using(crate::proofs::Seeing::reaches, crate::proofs::Seeing::reaches_not))]
fn reach(known: &Known, whole: &Wrapped, oid: Oid) -> Result<Wrapped, RenderRefusal>
    ensures { (shown : List Shown) → Shows told (λ w. w) shown result (looked (objects known.now) shown (names.reaching whole.now oid)) }
{
    let found = whole.reach(known, oid)?;
    Ok(found)
}

/// Reaches the children of a folder from a place on, behind those that were reached before. What was reached stays, also
/// after a refusal, so that it goes on there once more is known: each child is reached once.
pub(crate) fn reach_more(
    known: &Known,
    whole: &Wrapped,
    children: &[Oid],
    next: &mut usize,
    so_far: &mut Singles,
) -> Result<(), RenderRefusal>
    ensures goes { (shown : List Shown) → GoesOn (objects known.now)
        shown (names.reach_each whole.now so_far.old (children_of (drop next.old children.now)))
        shown (names.reach_each whole.now so_far.new (children_of (drop next.new children.now))) }
    ensures all { OnOk result (length children.now ≤ next.new) }
    ensures told { IfErr result (λ e. (shown : List Shown) → Told (told e)
        (looked (objects known.now) shown (names.reach_each whole.now so_far.new (children_of (drop next.new children.now))))) }
{
    'children: while *next < children.len() {
        let found = reach(known, whole, children[*next])?;
        so_far.push(Single::Obj(found))?;
        *next += 1;
    }
    Ok(())
}
