ghost use Rattle.std.specs.Prelude.{◌≡◌, ◌<◌, [], length, get_or, IfOk, IfSome, Ok, Some, if◌then◌else◌};
ghost use Rattle.std.specs.List.{AllByRecursion};
ghost use Rattle.zbase.specs.Query.{run, Answers};
ghost use Rattle.zobject.specs.Shapes.{shape_of};
ghost use Rattle.zknown.specs.Seen.{shapes};
ghost use Rattle.acquisition.specs.Acquiring as acquiring;
ghost use Rattle.acquisition.specs.Expressions.{IsHere};
ghost use Rattle.permissions.specs.Verdicts as spec;

use crate::everyones::is_everyones;
use crate::granted::GrantedRole;
use crate::roles::{roles_for, user_roles};
use crate::who::{Verdict, Who};
use acquisition::{AqRefusal, containers, containers_are_here, here};
use std::alloc::Global;
use zbase::{Memory, Oid, Text};
use zknown::Known;
use zobject::{Object, Roles};

fn is_among(mine: &[Text], role: &Text) -> bool
    ensures { result ≡ spec.is_among mine.now role.now }
{
    let role = role.as_str();
    mine.iter().any(|own| own.as_str() == role)
}

// Whether the role at the best place of those behind comes before this one.
fn is_before(roles: &[Text], best: Option<usize>, role: &Text) -> bool
    ensures { Some (spec.lesser role.now (spec.at_place roles.now best)) ≡ (if result then spec.at_place roles.now best else Some role.now) }
{
    match best {
        None => false,
        Some(place) => match roles.get(place) {
            None => false,
            Some(other) => other.as_str() < role.as_str(),
        },
    }
}

// The best place of this one and of those behind it.
fn better(roles: &[Text], mine: &[Text], best: Option<usize>, place: usize) -> Option<usize>
    requires { place < length roles.now }
    ensures role { spec.at_place roles.now result ≡ spec.better_of mine.now (get_or roles.now place []) (spec.at_place roles.now best) }
    ensures within { IfSome best (λ p. p < length roles.now) → IfSome result (λ p. p < length roles.now) }
{
    let role = &roles[place];
    if is_among(mine, role) && !is_before(roles, best, role) {
        return Some(place);
    }
    best
}

/// The place in `roles` of the role that is the least by bytes of those that are among `mine` too, if there is one. Takes
/// no memory.
pub fn allowed(roles: &Roles, mine: &Roles) -> Option<usize>
    ensures role { spec.at_place roles.now result ≡ spec.least_common mine.now roles.now }
    ensures within { IfSome result (λ place. place < length roles.now) }
{
    let roles = roles.as_slice();
    let mine = mine.as_slice();
    let mut best = None;
    for place in (0..roles.len()).rev() {
        best = better(roles, mine, best, place);
    }
    best
}

fn verdict_of(roles: &Roles, place: Option<usize>, permission: u8) -> Result<Verdict, Memory>
    ensures { IfOk result (λ verdict. verdict ≡ spec.verdict_of permission (spec.at_place roles.now place)) }
{
    let Some(place) = place else {
        return Ok(Verdict::Denied(permission));
    };
    match roles.as_slice().get(place) {
        None => Ok(Verdict::Denied(permission)),
        Some(role) => Ok(Verdict::Granted(GrantedRole::named(role.copy()?))),
    }
}

/// Whether a user has a permission on the object with this path, of which each object must be here.
///
/// He has it exactly where one of his roles does. The one error is want of memory. Zope Developer's Guide, "Security".
#[tactic(auto, using(crate::proofs::Steps::judged_so))]
pub fn verdict(
    alloc: Global,
    who: &Who,
    known: &Known,
    path: &[Oid],
    permission: u8,
) -> Result<Verdict, Memory>
    requires { AllByRecursion (IsHere (shapes known.now)) path.now }
    ensures { IfOk result (λ verdict. run (shapes known.now) (spec.judged who.now permission path.now) ≡ Ok verdict) }
{
    let roles = roles_for(alloc, known, path, permission)?;
    let mine = user_roles(alloc, who, known, path)?;
    let place = allowed(&roles, &mine);
    verdict_of(&roles, place, permission)
}

/// Whether a user has a permission on this object, which is here; or why it has no path to the root.
#[tactic(auto, using(crate::proofs::Steps::goes, crate::proofs::Steps::passes), unfolding(crate::specs::Verdicts::verdict_on))]
pub fn verdict_from(
    alloc: Global,
    who: &Who,
    known: &Known,
    oid: Oid,
    object: &Object,
    permission: u8,
) -> Result<Verdict, AqRefusal>
    requires { run (shapes known.now) (acquiring.here oid) ≡ Ok (shape_of object.now) }
    ensures { Answers acquiring.told (λ verdict. verdict) result (run (shapes known.now) (spec.verdict_on who.now oid permission)) }
{
    if is_everyones(known, oid, object, permission)? {
        return Ok(Verdict::Granted(GrantedRole::everyones()));
    }
    containers_are_here();
    let path = containers(alloc, known, oid)?;
    Ok(verdict(alloc, who, known, path.as_slice(), permission)?)
}

/// Whether a user has a permission on an object; or why the object isn't here or has no path to the root.
pub fn verdict_on(
    alloc: Global,
    who: &Who,
    known: &Known,
    oid: Oid,
    permission: u8,
) -> Result<Verdict, AqRefusal>
    ensures { Answers acquiring.told (λ verdict. verdict) result (run (shapes known.now) (spec.verdict_on who.now oid permission)) }
{
    let object = here(known, oid)?;
    verdict_from(alloc, who, known, oid, object, permission)
}
