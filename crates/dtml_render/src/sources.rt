ghost use Rattle.std.specs.Prelude.{◌≡◌, ℕ, List, Ok, Option, IfErr, IfOk, OnErr, OnOk, suc};
ghost use Rattle.zbase.specs.Query.{Told};
ghost use Rattle.evaluator.specs.declared.reply.Shown.{Shown};
ghost use Rattle.zobject.specs.declared.object.Object.{Object as ObjectValue};
ghost use Rattle.zknown.specs.Seen.{Seen};
ghost use Rattle.dtml_parse.specs.TreeReading.{template};
ghost use Rattle.dtml_parse.specs.Views.{view};
ghost use Rattle.namespace.specs.Looks.{looked};
ghost use Rattle.namespace.specs.Names.{Scope};
ghost use Rattle.dtml_values.specs.Values.{Left};
ghost use Rattle.dtml_values.specs.Told.{told};
ghost use Rattle.dtml_render.specs.Frames.{IsInside};
ghost use Rattle.dtml_render.specs.Rendering as rendering;

use crate::reading::source_of;
use crate::templates::Templates;
use acquisition::Wrapped;
use dtml_parse::Tree;
use dtml_values::{Budget, Limit, RenderRefusal};
use namespace::Stack;
use permissions::{Who, acting};
use std::alloc::Global;
use std::rc::Rc;
use zbase::{Memory, Oid};
use zobject::{Object, Part2};

// Pushes a document whose source is rendered. For want of memory the stack stays as it was.
fn push_source(object: &Wrapped, part: &Part2, stack: &mut Stack<'_>) -> Result<(), Memory>
    ensures ok { OnOk result (stack.new ≡ record stack.old { scope = rendering.pushed_if object.now part.now stack.old.scope }) }
    ensures err { OnErr result (stack.new ≡ stack.old) }
{
    match part {
        Part2::Document { .. } => stack.push_object(object.copy()?),
        Part2::Method { .. } | Part2::Folder(_) | Part2::UserFolder(_) => Ok(()),
    }
}

/// The stack goes into an object's source: its proxy roles act there, and a document is pushed. The answer is who acted
/// before.
pub(crate) fn go_into(
    alloc: Global,
    object: &Wrapped,
    whole: &Object,
    stack: &mut Stack<'_>,
) -> Result<Option<Who>, Memory>
    ensures ok { OnOk result (stack.new ≡ record stack.old { scope = rendering.scope_in object.now whole.now stack.old.scope }) }
    ensures former { IfOk result (λ former. former ≡ stack.old.scope.acting) }
    ensures known { stack.new.known ≡ stack.old.known }
    ensures shown { stack.new.shown ≡ stack.old.shown }
    ensures inside { (base : Scope) → IsInside base stack.old.scope → IsInside base stack.new.scope }
{
    let acting = acting(alloc, whole)?;
    let former = stack.act(acting);
    push_source(object, &whole.part, stack)?;
    Ok(former)
}

/// The template that the source of an object is, which counts as a rendering once it was read.
pub(crate) fn begun(
    templates: &mut Templates,
    oid: Oid,
    whole: &Object,
    budget: &mut Budget,
) -> Result<Rc<Tree>, RenderRefusal>
    ensures read { IfOk result (λ tree. template (rendering.source_of whole.now.part) ≡ Ok (view tree.value)) }
    ensures more { OnOk result (budget.old.renders ≡ suc budget.new.renders) }
    ensures told { IfErr result (λ e. (k : ℕ → Option (Seen ObjectValue)) (shown : List Shown) (scope : Scope) (left : Left)
        → Told (told e) (looked k shown (rendering.source_text budget.old.renders scope oid (rendering.source_of whole.now.part) left))) }
    ensures tags { budget.new.tags ≡ budget.old.tags }
    ensures output { budget.new.output ≡ budget.old.output }
{
    let tree = templates.read(oid, source_of(&whole.part))?;
    if budget.renders == 0 {
        return Err(RenderRefusal::Runaway(Limit::Renders));
    }
    budget.renders -= 1;
    Ok(tree)
}
