ghost use Rattle.std.specs.Prelude.{◌≡◌, ◌∷◌, [], codes, nat_eq, true, false, IfOk, IfErr, Ok, None, Some};
ghost use Rattle.zbase.specs.Query.{run, Told};
ghost use Rattle.zobject.specs.Shapes.{shape_of};
ghost use Rattle.zknown.specs.Seen.{shapes};
ghost use Rattle.acquisition.specs.Acquiring as acquiring;
ghost use Rattle.permissions.specs.Everyone.{everyones};
ghost use Rattle.permissions.specs.Roles.{default_roles, setting_of};
ghost use Rattle.permissions.specs.Verdicts as spec;
ghost use Rattle.permissions.specs.declared.who.Who.{Who as User};
ghost use Rattle.permissions.specs.declared.who.Verdict.TheVariants as verdicts;

use crate::roles::setting_of;
use acquisition::{AqRefusal, MOST_ON_PATH, here};
use evaluator::permission::{ACCESS_CONTENTS_INFORMATION, VIEW};
use zbase::Oid;
use zknown::Known;
use zobject::Object;

// What one object tells of whether nothing on a path speaks of a permission: it isn't so where the object says something of
// it, and it is so where the root says nothing; else nothing is told, and the container is asked.
fn told_by(object: &Object, at: Oid, permission: u8) -> Option<bool>
    ensures ends { result ≡ Some true → (setting_of permission object.now.settings ≡ None) × (true ≡ nat_eq at 0) }
    ensures goes_on { result ≡ None → (setting_of permission object.now.settings ≡ None) × (false ≡ nat_eq at 0) }
{
    if setting_of(object.settings.as_slice(), permission).is_some() {
        return Some(false);
    }
    if at == Oid(0) {
        return Some(true);
    }
    None
}

// Whether no object from this one up to the root says anything of a permission that is everyone's by default. It takes no
// memory, and most verdicts are such.
fn is_unsaid(known: &Known, oid: Oid, object: &Object, permission: u8) -> Result<bool, AqRefusal>
    requires here { run (shapes known.now) (acquiring.here oid) ≡ Ok (shape_of object.now) }
    requires by_default { default_roles permission ≡ everyones ∷ codes "Manager" ∷ [] }
    ensures said { IfOk result (λ unsaid. unsaid ≡ true → (who : User)
        → run (shapes known.now) (spec.verdict_on who oid permission) ≡ Ok (verdicts.Granted everyones)) }
    ensures stops { IfErr result (λ e. (who : User) → Told (acquiring.told e) (run (shapes known.now) (spec.verdict_on who oid permission))) }
{
    if let Some(unsaid) = told_by(object, oid, permission) {
        return Ok(unsaid);
    }
    let mut at = object.parent;
    for _ in 1..MOST_ON_PATH {
        let object = here(known, at)?;
        if let Some(unsaid) = told_by(object, at, permission) {
            return Ok(unsaid);
        }
        at = object.parent;
    }
    Err(AqRefusal::TooDeep)
}

/// Whether a permission is everyone's on an object because nothing on the object's path speaks of it; where it isn't, the
/// roles decide. Takes no memory.
pub(crate) fn is_everyones(
    known: &Known,
    oid: Oid,
    object: &Object,
    permission: u8,
) -> Result<bool, AqRefusal>
    requires { run (shapes known.now) (acquiring.here oid) ≡ Ok (shape_of object.now) }
    ensures granted { IfOk result (λ is. is ≡ true → (who : User)
        → run (shapes known.now) (spec.verdict_on who oid permission) ≡ Ok (verdicts.Granted everyones)) }
    ensures stops { IfErr result (λ e. (who : User) → Told (acquiring.told e) (run (shapes known.now) (spec.verdict_on who oid permission))) }
{
    if permission == VIEW || permission == ACCESS_CONTENTS_INFORMATION {
        return is_unsaid(known, oid, object, permission);
    }
    Ok(false)
}
