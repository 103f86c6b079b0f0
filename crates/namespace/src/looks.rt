ghost use Rattle.std.specs.Prelude.{◌≡◌, ℕ, List, IfErr, IfOk, Ok, Option};
ghost use Rattle.zbase.specs.Query.{run, Answers, Told};
ghost use Rattle.zobject.specs.declared.object.Object.{Object as ObjectValue};
ghost use Rattle.zobject.specs.Shapes.{shape_of};
ghost use Rattle.zknown.specs.Seen.{Seen, objects};
ghost use Rattle.evaluator.specs.declared.permission.TheConstants.{VIEW};
ghost use Rattle.evaluator.specs.declared.reply.Shown.{Shown as ShownObject};
ghost use Rattle.acquisition.specs.Acquiring as acquiring;
ghost use Rattle.permissions.specs.Verdicts.{verdict_on};
ghost use Rattle.permissions.specs.declared.who.Verdict.TheVariants as verdicts;
ghost use Rattle.namespace.specs.Looks as looks;
ghost use Rattle.namespace.specs.Looks.{looked, outlined};
ghost use Rattle.namespace.specs.Names as spec;
ghost use Rattle.namespace.specs.Viewing.{IsViewed};
ghost use Rattle.namespace.specs.Told.{told, OnlyAnswers, Shows};

use crate::refusal::NameRefusal;
use crate::showing::Showing;
use acquisition::{Wrapped, here};
use evaluator::permission::{ACCESS_CONTENTS_INFORMATION, VIEW};
use permissions::{GrantedRole, Verdict, Who, verdict_from, verdict_on};
use std::alloc::Global;
use zbase::{Memory, Oid};
use zknown::Known;
use zobject::Object;

// The verdict on an object.
#[tactic(auto, using(crate::proofs::Steps::outlined_is, crate::proofs::Steps::outlined_stops))]
fn verdict(
    alloc: Global,
    known: &Known,
    who: &Who,
    oid: Oid,
    permission: u8,
) -> Result<Verdict, NameRefusal>
    ensures { Answers told (λ v. v) result (run (objects known.now) (outlined (verdict_on who.now oid permission))) }
{
    let verdict = verdict_on(alloc, who, known, oid, permission)?;
    Ok(verdict)
}

// The verdict on this object, which is here.
#[tactic(auto, using(crate::proofs::Steps::outlined_is, crate::proofs::Steps::outlined_stops, crate::proofs::Steps::shape_here))]
fn verdict_here(
    alloc: Global,
    known: &Known,
    who: &Who,
    oid: Oid,
    object: &Object,
    permission: u8,
) -> Result<Verdict, NameRefusal>
    requires { run (objects known.now) (acquiring.here oid) ≡ Ok object.now }
    ensures { Answers told (λ v. v) result (run (objects known.now) (outlined (verdict_on who.now oid permission))) }
{
    let verdict = verdict_from(alloc, who, known, oid, object, permission)?;
    Ok(verdict)
}

/// An object, of which only its shape may be used before its view is granted.
#[tactic(auto, using(crate::proofs::Steps::sees, crate::proofs::Steps::sees_not))]
pub(crate) fn see(known: &Known, oid: Oid) -> Result<&Object, NameRefusal>
    ensures whole { IfOk result (λ o. run (objects known.now) (acquiring.here oid) ≡ Ok o.now) }
    ensures shape { (shown : List ShownObject) → Shows told (λ o. shape_of o.now) shown result (looked (objects known.now) shown (spec.seeing oid)) }
{
    let object = here(known, oid)?;
    Ok(object)
}

/// An object, reached through a wrapper.
#[tactic(auto, using(crate::proofs::Steps::reaches, crate::proofs::Steps::reaches_not))]
pub(crate) fn reach(known: &Known, whole: &Wrapped, oid: Oid) -> Result<Wrapped, NameRefusal>
    ensures { (shown : List ShownObject) → Shows told (λ w. w) shown result (looked (objects known.now) shown (spec.reaching whole.now oid)) }
{
    let found = whole.reach(known, oid)?;
    Ok(found)
}

// What a verdict lets be entered.
fn entered(oid: Oid, verdict: Verdict) -> Result<(), NameRefusal>
    ensures { (known : ℕ → Option (Seen ObjectValue)) (shown : List ShownObject)
        → Shows told (λ u. tt {0}) shown result (run known (looks.entered oid (looks.through looks.taken shown (looks.Done tt)) verdict)) }
{
    match verdict {
        Verdict::Denied(_) => Err(NameRefusal::Unauthorized(oid, ACCESS_CONTENTS_INFORMATION)),
        Verdict::Granted(_) => Ok(()),
    }
}

/// Whether the user is granted the list of a folder's children.
#[tactic(auto, using(crate::proofs::Steps::shows_so, crate::proofs::Steps::passes))]
pub(crate) fn enter(alloc: Global, known: &Known, who: &Who, oid: Oid) -> Result<(), NameRefusal>
    ensures { (shown : List ShownObject) → Shows told (λ u. tt {0}) shown result (looked (objects known.now) shown (spec.entering who.now oid)) }
{
    let verdict = verdict(alloc, known, who, oid, ACCESS_CONTENTS_INFORMATION)?;
    entered(oid, verdict)
}

/// The role by which a user may view this object, which is here.
#[tactic(auto, using(crate::proofs::Steps::passes, crate::proofs::Steps::viewing_denied))]
pub(crate) fn view_role(
    alloc: Global,
    known: &Known,
    who: &Who,
    oid: Oid,
    object: &Object,
) -> Result<GrantedRole, NameRefusal>
    requires { run (objects known.now) (acquiring.here oid) ≡ Ok object.now }
    ensures ok { IfOk result (λ role. run (objects known.now) (outlined (verdict_on who.now oid VIEW)) ≡ Ok (verdicts.Granted role)) }
    ensures err { IfErr result (λ e. (shown : List ShownObject) → Told (told e) (looked (objects known.now) shown (spec.viewing who.now oid))) }
{
    let verdict = verdict_here(alloc, known, who, oid, object, VIEW)?;
    match verdict {
        Verdict::Denied(_) => Err(NameRefusal::Unauthorized(oid, VIEW)),
        Verdict::Granted(role) => Ok(role),
    }
}

/// The object with its contents, which the user must be granted to view; it is then shown.
#[tactic(auto, using(crate::proofs::Steps::viewing_stops))]
pub(crate) fn view<'k>(
    alloc: Global,
    known: &'k Known,
    who: &Who,
    shown: &mut Showing,
    oid: Oid,
) -> Result<&'k Object, NameRefusal>
    ensures is { Shows told (λ o. o.now) shown.new result (looked (objects known.now) shown.old (spec.viewing who.now oid)) }
    ensures viewed { IfOk result (λ o. IsViewed known.now who.now shown.new oid o.now) }
    ensures shown { OnlyAnswers shown.old shown.new result }
{
    let object = here(known, oid)?;
    let role = view_role(alloc, known, who, oid, object)?;
    shown.take(alloc, oid, role)?;
    Ok(object)
}

fn offered(
    alloc: Global,
    who: &Who,
    shown: &mut Showing,
    oid: Oid,
    verdict: Verdict,
) -> Result<bool, NameRefusal>
    ensures is { (known : ℕ → Option (Seen ObjectValue))
        → Shows told (λ b. b) shown.new result (run known
        (looks.offered looks.taken who.now shown.old oid (λ s granted. looks.through looks.taken s (looks.Done granted)) verdict)) }
    ensures shown { OnlyAnswers shown.old shown.new result }
{
    match verdict {
        Verdict::Denied(_) => Ok(false),
        Verdict::Granted(role) => {
            shown.take(alloc, oid, role)?;
            Ok(true)
        }
    }
}

/// Whether the user is granted to view an object, which is then shown.
#[tactic(auto, using(crate::proofs::Steps::shows_so, crate::proofs::Steps::passes))]
pub(crate) fn offer(
    alloc: Global,
    known: &Known,
    who: &Who,
    shown: &mut Showing,
    oid: Oid,
) -> Result<bool, NameRefusal>
    ensures is { Shows told (λ b. b) shown.new result (looked (objects known.now) shown.old (spec.offering who.now oid)) }
    ensures shown { OnlyAnswers shown.old shown.new result }
{
    let verdict = verdict(alloc, known, who, oid, VIEW)?;
    offered(alloc, who, shown, oid, verdict)
}
