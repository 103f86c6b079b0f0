ghost use Rattle.std.specs.Prelude.{◌≡◌, ◌++◌, ◌∷◌, ◌==◌, [], IfOk, OnOk, option_map, Ok, Some, find, codes};
ghost use Rattle.std.specs.List.{AllByRecursion};
ghost use Rattle.std.specs.Str.{bytes_eq};
ghost use Rattle.zbase.specs.Query.{run};
ghost use Rattle.zobject.specs.Shapes.{shape_of};
ghost use Rattle.zknown.specs.Seen.{shapes, Here};
ghost use Rattle.acquisition.specs.Expressions.{IsHere};
ghost use Rattle.permissions.specs.declared.who.Who.TheVariants as who;
ghost use Rattle.permissions.specs.Roles as spec;

use crate::who::Who;
use evaluator::permission::{ACCESS_CONTENTS_INFORMATION, VIEW};
use std::alloc::Global;
use zbase::{Items, Memory, Oid, Text};
use zknown::{Got, Known};
use zobject::{Local, Object, Roles, Setting};

// An object of which it is known that it is here.
#[tactic(auto, unfolding(zknown::specs::Seen::last_added))]
fn present(known: &Known, oid: Oid) -> &Object
    requires { IsHere (shapes known.now) oid }
    ensures { shapes known.now oid ≡ Some (Here (shape_of result.now)) }
{
    match known.get(oid) {
        Got::Here(object) => object,
        Got::Absent | Got::Unreadable | Got::Unknown => unreachable!(),
    }
}

/// What an object says of a permission, if anything. Takes no memory.
pub(crate) fn setting_of(settings: &[Setting], permission: u8) -> Option<&Setting>
    ensures { option_map (λ s. s.now) result ≡ spec.setting_of permission settings.now }
{
    settings
        .iter()
        .find(|setting| setting.permission == permission)
}

fn local_of<'a>(locals: &'a [Local], name: &str) -> Option<&'a Local>
    ensures { option_map (λ l. l.now) result ≡ find (λ l. bytes_eq l.user name.now) locals.now }
{
    locals.iter().find(|local| local.user.as_str() == name)
}

fn append(roles: &mut Roles, more: &[Text]) -> Result<(), Memory>
    ensures { OnOk result (roles.new ≡ roles.old ++ more.now) }
{
    for role in more {
        roles.push(role.copy()?)?;
    }
    Ok(())
}

/// The same roles in a list of their own.
pub(crate) fn copy_of(alloc: Global, roles: &[Text]) -> Result<Roles, Memory>
    ensures { IfOk result (λ copied. copied ≡ roles.now) }
{
    let mut copied = Items::from_vec(Vec::with_capacity(alloc, roles.len())?);
    append(&mut copied, roles)?;
    Ok(copied)
}

fn append_word(alloc: Global, roles: &mut Roles, word: &str) -> Result<(), Memory>
    ensures { OnOk result (roles.new ≡ roles.old ++ word.now ∷ []) }
{
    let role = Text::from_str(alloc, word)?;
    roles.push(role)
}

// The roles to which a permission is given where no setting says so.
fn append_default(alloc: Global, roles: &mut Roles, permission: u8) -> Result<(), Memory>
    ensures { OnOk result (roles.new ≡ roles.old ++ spec.default_roles permission) }
{
    if permission == VIEW || permission == ACCESS_CONTENTS_INFORMATION {
        append_word(alloc, roles, "Anonymous")?;
        append_word(alloc, roles, "Manager")?;
        return Ok(());
    }
    append_word(alloc, roles, "Manager")?;
    Ok(())
}

/// The roles to which a permission is given on the object with this path, by its number.
///
/// The path is the object and its containers up to the root, each of which must be here. The nearest setting decides, and
/// those above it only where it acquires. The one error is want of memory. Zope Book, "Users and Security".
#[tactic(auto, unfolding(crate::specs::Roles::roles))]
pub fn roles_for(
    alloc: Global,
    known: &Known,
    path: &[Oid],
    permission: u8,
) -> Result<Roles, Memory>
    requires { AllByRecursion (IsHere (shapes known.now)) path.now }
    ensures { IfOk result (λ roles. run (shapes known.now) (spec.roles permission path.now) ≡ Ok roles) }
{
    let mut roles = Items::new(alloc);
    for oid in path {
        let object = present(known, *oid);
        let Some(setting) = setting_of(object.settings.as_slice(), permission) else {
            continue;
        };
        append(&mut roles, setting.roles.as_slice())?;
        if !setting.acquire {
            return Ok(roles);
        }
    }
    append_default(alloc, &mut roles, permission)?;
    Ok(roles)
}

#[tactic(auto, unfolding(crate::specs::Roles::local_roles))]
fn append_local(roles: &mut Roles, name: &str, locals: &[Local]) -> Result<(), Memory>
    ensures { OnOk result (roles.new ≡ roles.old ++ spec.local_roles name.now locals.now) }
{
    match local_of(locals, name) {
        Some(local) => append(roles, local.roles.as_slice()),
        None => Ok(()),
    }
}

#[tactic(auto, unfolding(crate::specs::Roles::locals_on))]
fn append_locals(roles: &mut Roles, name: &str, known: &Known, path: &[Oid]) -> Result<(), Memory>
    requires { AllByRecursion (IsHere (shapes known.now)) path.now }
    ensures { OnOk result (spec.behind roles.old (run (shapes known.now) (spec.locals_on name.now path.now)) ≡ Ok roles.new) }
{
    for oid in path {
        let object = present(known, *oid);
        append_local(roles, name, object.locals.as_slice())?;
    }
    Ok(())
}

fn common_roles(alloc: Global, name: &str) -> Result<Roles, Memory>
    ensures { IfOk result (λ roles. roles ≡ spec.common_roles name.now) }
{
    let mut roles = Items::new(alloc);
    append_word(alloc, &mut roles, "Anonymous")?;
    if name.is_empty() {
        return Ok(roles);
    }
    append_word(alloc, &mut roles, "Authenticated")?;
    Ok(roles)
}

#[tactic(auto, unfolding(crate::specs::Roles::has))]
fn known_roles(
    alloc: Global,
    name: &str,
    own: &[Text],
    home: Oid,
    known: &Known,
    path: &[Oid],
) -> Result<Roles, Memory>
    requires { AllByRecursion (IsHere (shapes known.now)) path.now }
    ensures { IfOk result (λ roles. run (shapes known.now) (spec.has (who.Known name.now own.now home) path.now) ≡ Ok roles) }
{
    let mut had = common_roles(alloc, name)?;
    if !path.contains(&home) {
        return Ok(had);
    }
    append(&mut had, own)?;
    append_locals(&mut had, name, known, path)?;
    Ok(had)
}

fn everyones_roles(alloc: Global) -> Result<Roles, Memory>
    ensures { IfOk result (λ roles. roles ≡ codes "Anonymous" ∷ []) }
{
    let mut roles = Items::new(alloc);
    append_word(alloc, &mut roles, "Anonymous")?;
    Ok(roles)
}

/// The roles of a user on the object with this path, of which each object must be here.
///
/// A known user's own and local roles count where his home is on the path. The one error is want of memory. Zope Book,
/// "Users and Security": local roles.
#[tactic(auto, unfolding(crate::specs::Roles::has))]
pub fn user_roles(alloc: Global, who: &Who, known: &Known, path: &[Oid]) -> Result<Roles, Memory>
    requires { AllByRecursion (IsHere (shapes known.now)) path.now }
    ensures { IfOk result (λ roles. run (shapes known.now) (spec.has who.now path.now) ≡ Ok roles) }
{
    match who {
        Who::Anonymous => everyones_roles(alloc),
        Who::Known { name, roles, home } => {
            known_roles(alloc, name.as_str(), roles.as_slice(), *home, known, path)
        }
    }
}
