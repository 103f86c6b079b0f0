ghost use Rattle.std.specs.Prelude.{◌≡◌, ◌<◌, ◌≤◌, ◌++◌, length, ℕ, List, Option, OnOk};
ghost use Rattle.evaluator.specs.declared.reply.Shown.{Shown};
ghost use Rattle.zobject.specs.declared.object.Object.{Object};
ghost use Rattle.zknown.specs.Seen.{Seen};
ghost use Rattle.namespace.specs.Looks.{looked};
ghost use Rattle.namespace.specs.Told.{Shows};
ghost use Rattle.dtml_values.specs.Values as values;
ghost use Rattle.dtml_values.specs.Told.{told, left_of};

use crate::budget::Budget;
use crate::refusal::{Limit, RenderRefusal};
use zbase::Text;

/// A tag is evaluated. Takes no memory.
pub fn spend_tag(budget: &mut Budget) -> Result<(), RenderRefusal>
    ensures is { (k : ℕ → Option (Seen Object)) (shown : List Shown)
        → Shows told (λ u. left_of budget.new) shown result (looked k shown (values.spend_tag (left_of budget.old))) }
    ensures renders { budget.new.renders ≡ budget.old.renders }
    ensures output { budget.new.output ≡ budget.old.output }
    ensures less { OnOk result (budget.new.tags < budget.old.tags) }
    ensures within { budget.new.tags ≤ budget.old.tags }
{
    if budget.tags == 0 {
        return Err(RenderRefusal::Runaway(Limit::Tags));
    }
    budget.tags -= 1;
    Ok(())
}

/// So many bytes of text are made.
pub(crate) fn spend_output(bytes: usize, budget: &mut Budget) -> Result<(), RenderRefusal>
    ensures is { (k : ℕ → Option (Seen Object)) (shown : List Shown)
        → Shows told (λ u. left_of budget.new) shown result (looked k shown (values.spend_output bytes (left_of budget.old))) }
    ensures renders { budget.new.renders ≡ budget.old.renders }
    ensures tags { budget.new.tags ≡ budget.old.tags }
    ensures within { budget.new.output ≤ budget.old.output }
{
    if bytes > budget.output as usize {
        return Err(RenderRefusal::Runaway(Limit::Output));
    }
    budget.output -= bytes as u32;
    Ok(())
}

/// A text is made, behind the text so far. Its bytes count.
pub fn put(text: &str, budget: &mut Budget, out: &mut Text) -> Result<(), RenderRefusal>
    ensures is { (k : ℕ → Option (Seen Object)) (shown : List Shown)
        → Shows told (λ u. left_of budget.new) shown result (looked k shown (values.spend_output (length text.now) (left_of budget.old))) }
    ensures text { OnOk result (out.new ≡ out.old ++ text.now) }
    ensures renders { budget.new.renders ≡ budget.old.renders }
    ensures tags { budget.new.tags ≡ budget.old.tags }
    ensures within { budget.new.output ≤ budget.old.output }
{
    spend_output(text.len(), budget)?;
    out.push_str(text)?;
    Ok(())
}
