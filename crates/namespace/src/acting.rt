ghost use Rattle.std.specs.Prelude.{◌≡◌, IfOk, option_map};

use permissions::Who;
use zbase::{Items, Memory, Text};
use zobject::Roles;

// The same roles in a list of their own.
fn copy_roles(roles: &Roles) -> Result<Roles, Memory>
    ensures { IfOk result (λ copies. copies ≡ roles.now) }
{
    let mut copies = Items::from_vec(Vec::with_capacity(roles.alloc(), roles.len())?);
    for role in roles.as_slice() {
        copies.push(role.copy()?)?;
    }
    Ok(copies)
}

// The same user once more.
fn copy_user(user: &Who) -> Result<Who, Memory>
    ensures { IfOk result (λ copy. copy ≡ user.now) }
{
    match user {
        Who::Anonymous => Ok(Who::Anonymous),
        Who::Known { name, roles, home } => Ok(Who::Known {
            name: name.copy()?,
            roles: copy_roles(roles)?,
            home: *home,
        }),
    }
}

/// The user who acts in another's place, if one does, once more.
pub(crate) fn copy_acting(acting: Option<&Who>) -> Result<Option<Who>, Memory>
    ensures { IfOk result (λ copy. copy ≡ option_map (λ w. w.now) acting.entry) }
{
    match acting {
        Some(user) => Ok(Some(copy_user(user)?)),
        None => Ok(None),
    }
}
