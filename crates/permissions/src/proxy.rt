ghost use Rattle.std.specs.Prelude.{◌≡◌, IfOk};
ghost use Rattle.zobject.specs.Shapes.{shape_of, form_of};
ghost use Rattle.permissions.specs.declared.who.Who.{Who};
ghost use Rattle.permissions.specs.Verdicts as spec;

use crate::roles::copy_of;
use crate::who::Who;
use std::alloc::Global;
use zbase::{Memory, Oid, Text};
use zobject::{Object, Part2};

fn proxy_roles(part: &Part2) -> &[Text]
    ensures { result.now ≡ spec.proxy_roles (form_of part.now) }
{
    match part {
        Part2::Method { proxy, .. } | Part2::Document { proxy, .. } => proxy.as_slice(),
        Part2::Folder(_) | Part2::UserFolder(_) => &[],
    }
}

fn with_roles(alloc: Global, roles: &[Text]) -> Result<Option<Who>, Memory>
    ensures { IfOk result (λ user. user ≡ spec.with_roles roles.now) }
{
    if roles.is_empty() {
        return Ok(None);
    }
    let roles = copy_of(alloc, roles)?;
    let name = Text::new(alloc);
    let home = Oid(0);
    Ok(Some(Who::Known { name, roles, home }))
}

/// Who takes the user's place for the verdicts in the source of an object: where it has proxy roles, someone without a
/// name who has them everywhere; no one where it has none, so that the user stays who he is.
///
/// The one error is want of memory. Zope Book, "Users and Security": proxy roles.
#[tactic(auto, unfolding(zobject::specs::Shapes::shape_of))]
pub fn acting(alloc: Global, object: &Object) -> Result<Option<Who>, Memory>
    ensures is { IfOk result (λ other. other ≡ spec.proxy_user (shape_of object.now)) }
    ensures acts { IfOk result (λ other. (user : Who) → spec.or_user user other ≡ spec.acting user (shape_of object.now)) }
{
    with_roles(alloc, proxy_roles(&object.part))
}
