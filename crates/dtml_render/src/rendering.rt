ghost use Rattle.std.specs.Prelude.{◌≡◌, ℕ, [], List, Some, Ok, IfErr, IfOk};
ghost use Rattle.zbase.specs.Query.{Cause};
ghost use Rattle.zknown.specs.Seen.{objects};
ghost use Rattle.dtml_parse.specs.Views.{view as tree_view};
ghost use Rattle.namespace.specs.Looks.{Use, Unauthorized, looked, looked_by, without_users};
ghost use Rattle.namespace.specs.LookLaws.{IsShown, Views};
ghost use Rattle.namespace.specs.Told.{Shows};
ghost use Rattle.namespace.specs.Traces.{AreGrantedBy, trace};
ghost use Rattle.dtml_values.specs.Told.{told, left_of, Keeps};
ghost use Rattle.dtml_render.specs.Access.{IsActing, IsSkipping, RefusesRightly};
ghost use Rattle.dtml_render.specs.Rendering as rendering;

use crate::asking::cut;
use crate::page::Page;
use crate::spots::Source;
use crate::templates::Templates;
use dtml_parse::Tree;
use dtml_values::{Budget, RenderRefusal};
use namespace::Stack;
use std::alloc::Global;
use zbase::Text;

/// The text of a template, for a client and a request, as the stack has them.
///
/// A refusal is the first that is met from left to right. After one, want of memory included, the stack has its former
/// layers and user, what was shown before is shown still, and no number of the budget is above the former one.
///
/// Each object whose title, source or property the page used is shown. Each that is shown was granted to the user of its
/// first use, by the role that is told: to the user of the verdicts where the page begins, to the request's user, or to
/// someone with the proxy roles of an object that was shown before. A refusal for want of a permission names an object and
/// a permission that isn't granted to the user of the page's last look, who is such a one; what the page looked at before
/// was granted, or passed over for who acts in the template, or in the source of an object that the page viewed before, where
/// there is a `dtml-in` with `skip_unauthorized`.
///
/// Zope Book, appendix "DTML Reference"; "Users and Security".
pub fn render(
    alloc: Global,
    tree: &Tree,
    stack: &mut Stack<'_>,
    budget: &mut Budget,
) -> Result<Text, RenderRefusal>
    ensures is { Shows told (λ t. (t, left_of budget.new)) stack.new.shown result (looked (objects stack.old.known) stack.old.shown
        (rendering.tree_text budget.old.renders stack.old.scope (tree_view tree.now) (left_of budget.old))) }
    ensures keeps { Keeps stack.old stack.new budget.old budget.new }
    ensures used { (o : ℕ)
        → Views (objects stack.old.known) o (rendering.tree_text budget.old.renders stack.old.scope (tree_view tree.now) (left_of budget.old))
        → IfOk result (λ t. IsShown o stack.new.shown) }
    ensures granted { (before : List Use) → stack.old.shown ≡ without_users before
        → AreGrantedBy (IsActing (objects stack.old.known) stack.old.scope) (objects stack.old.known) [] before
        → IfOk result (λ t. (uses : List Use) × (looked_by (objects stack.old.known) before
        (rendering.tree_text budget.old.renders stack.old.scope (tree_view tree.now) (left_of budget.old)) ≡ Ok ((t, left_of budget.new), uses))
        × (stack.new.shown ≡ without_users uses) × AreGrantedBy (IsActing (objects stack.old.known) stack.old.scope) (objects stack.old.known) [] uses) }
    ensures denied { (o permission : ℕ) → IfErr result (λ e. told e ≡ Some (Cause (Unauthorized o permission))
        → RefusesRightly (IsActing (objects stack.old.known) stack.old.scope)
        (IsSkipping (objects stack.old.known) stack.old.scope (tree_view tree.now)) (objects stack.old.known) o permission
        (trace (objects stack.old.known) (rendering.tree_text budget.old.renders stack.old.scope (tree_view tree.now) (left_of budget.old)))) }
{
    let acting = stack.acting()?;
    let depth = stack.depth();
    let mut page = Page::new(alloc, Source::Lent(tree), stack, *budget)?;
    let mut templates = Templates::new(alloc);
    let result = page.go_on(&mut templates, stack);
    let left = page.budget();
    budget.tags = left.tags;
    budget.output = left.output;
    cut(depth, stack);
    let _acted = stack.act(acting);
    result
}
