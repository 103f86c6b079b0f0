ghost use Rattle.std.specs.Prelude.{◌≡◌, IfOk, Ok, option_map};
ghost use Rattle.std.specs.List.{AllByRecursion};
ghost use Rattle.zbase.specs.Query.{run, Answers};
ghost use Rattle.zknown.specs.Seen.{shapes};
ghost use Rattle.zobject.specs.Shapes.{form_of};
ghost use Rattle.acquisition.specs.Acquiring as acquiring;
ghost use Rattle.acquisition.specs.Expressions.{IsHere};
ghost use Rattle.permissions.specs.Users as spec;

use crate::roles::copy_of;
use crate::verdicts::verdict;
use crate::who::{Verdict, Who};
use acquisition::{AqRefusal, containers, containers_are_here, here};
use std::alloc::Global;
use user_folder::authenticate;
use zbase::{Memory, Oid, Text};
use zknown::Known;
use zobject::{Part2, User, child_in};

fn user_in<'a>(
    alloc: Global,
    credentials: &(Text, Text),
    part: &'a Part2,
) -> Result<Option<&'a User>, Memory>
    ensures { IfOk result (λ user. option_map (λ u. u.now) user ≡ spec.user_in credentials.now (form_of part.now)) }
{
    match part {
        Part2::UserFolder(users) => {
            authenticate(alloc, users, credentials.0.as_str(), credentials.1.as_str())
        }
        Part2::Folder(_) | Part2::Method { .. } | Part2::Document { .. } => Ok(None),
    }
}

fn known_at(alloc: Global, home: Oid, user: Option<&User>) -> Result<Option<Who>, Memory>
    ensures { IfOk result (λ who. who ≡ option_map (spec.known_at home) (option_map (λ u. u.now) user.entry)) }
{
    let Some(user) = user else {
        return Ok(None);
    };
    let name = user.name.copy()?;
    let roles = copy_of(alloc, user.roles.as_slice())?;
    Ok(Some(Who::Known { name, roles, home }))
}

#[tactic(auto, using(crate::proofs::Steps::goes, crate::proofs::Steps::passes), unfolding(zobject::specs::Shapes::shape_of))]
fn user_under(
    alloc: Global,
    known: &Known,
    credentials: &(Text, Text),
    home: Oid,
    child: Option<Oid>,
) -> Result<Option<Who>, AqRefusal>
    ensures { Answers acquiring.told (λ who. who) result (run (shapes known.now) (spec.user_under credentials.now home child)) }
{
    let Some(oid) = child else {
        return Ok(None);
    };
    let object = here(known, oid)?;
    let user = user_in(alloc, credentials, &object.part)?;
    Ok(known_at(alloc, home, user)?)
}

// The user of that name and password in a folder's user folder.
#[tactic(auto, using(crate::proofs::Steps::goes_so, crate::proofs::Steps::passes), unfolding(crate::specs::Users::user_at, zobject::specs::Shapes::shape_of))]
fn user_at(
    alloc: Global,
    known: &Known,
    credentials: &(Text, Text),
    folder: Oid,
) -> Result<Option<Who>, AqRefusal>
    ensures { Answers acquiring.told (λ who. who) result (run (shapes known.now) (spec.user_at credentials.now folder)) }
{
    let object = here(known, folder)?;
    let child = child_in("acl_users", &object.part);
    user_under(alloc, known, credentials, folder, child)
}

// The user, where he is granted the permission on the object with this path.
fn granted_user(
    alloc: Global,
    known: &Known,
    path: &[Oid],
    permission: u8,
    user: Option<Who>,
) -> Result<Option<Who>, Memory>
    requires { AllByRecursion (IsHere (shapes known.now)) path.now }
    ensures { IfOk result (λ who. run (shapes known.now) (spec.granted_user permission path.now user) ≡ Ok who) }
{
    let Some(user) = user else {
        return Ok(None);
    };
    match verdict(alloc, &user, known, path, permission)? {
        Verdict::Granted(_) => Ok(Some(user)),
        Verdict::Denied(_) => Ok(None),
    }
}

// The user of that name and password in a folder's user folder, where he is granted it.
#[tactic(auto, using(crate::proofs::Steps::goes, crate::proofs::Steps::passes), unfolding(crate::specs::Users::taken_at))]
fn taken_at(
    alloc: Global,
    known: &Known,
    credentials: &(Text, Text),
    path: &[Oid],
    permission: u8,
    folder: Oid,
) -> Result<Option<Who>, AqRefusal>
    requires { AllByRecursion (IsHere (shapes known.now)) path.now }
    ensures { Answers acquiring.told (λ who. who) result (run (shapes known.now) (spec.taken_at credentials.now permission path.now folder)) }
{
    let found = user_at(alloc, known, credentials, folder)?;
    Ok(granted_user(alloc, known, path, permission, found)?)
}

// The first of these folders decides that has a user who is granted it.
#[tactic(auto, unfolding(crate::specs::Users::sought))]
fn seek(
    alloc: Global,
    known: &Known,
    credentials: &(Text, Text),
    path: &[Oid],
    permission: u8,
    folders: &[Oid],
) -> Result<Who, AqRefusal>
    requires { AllByRecursion (IsHere (shapes known.now)) path.now }
    ensures { Answers acquiring.told (λ who. who) result (run (shapes known.now) (spec.sought credentials.now permission path.now folders.now)) }
{
    for folder in folders {
        let taken = taken_at(alloc, known, credentials, path, permission, *folder)?;
        if let Some(user) = taken {
            return Ok(user);
        }
    }
    Ok(Who::Anonymous)
}

// The folders from an object upwards.
fn folders_of<'a>(part: &Part2, path: &'a [Oid]) -> &'a [Oid]
    ensures { result.now ≡ spec.folders_of (form_of part.now) path.now }
{
    match part {
        Part2::Folder(_) => path,
        Part2::Method { .. } | Part2::Document { .. } | Part2::UserFolder(_) => match path {
            [_, folders @ ..] => folders,
            [] => path,
        },
    }
}

// The user of that name and password who needs this permission on this object.
#[tactic(auto, using(crate::proofs::Steps::goes_told, crate::proofs::Steps::passes), unfolding(crate::specs::Users::known_user, zobject::specs::Shapes::shape_of))]
fn find_known(
    alloc: Global,
    known: &Known,
    credentials: &(Text, Text),
    oid: Oid,
    permission: u8,
) -> Result<Who, AqRefusal>
    ensures { Answers acquiring.told (λ who. who) result (run (shapes known.now) (spec.known_user credentials.now oid permission)) }
{
    containers_are_here();
    let path = containers(alloc, known, oid)?;
    let path = path.as_slice();
    let object = here(known, oid)?;
    let folders = folders_of(&object.part, path);
    seek(alloc, known, credentials, path, permission, folders)
}

/// The user of a request that carries this name and password, if any, and needs this permission on this object: the page
/// that is published, or what is called on.
///
/// It is the first on the way upwards who is granted it, and the anonymous user where there is none. Zope Book, "Users and
/// Security": a user is looked for in the user folders from the object upwards.
pub fn find_user(
    alloc: Global,
    known: &Known,
    credentials: Option<&(Text, Text)>,
    oid: Oid,
    permission: u8,
) -> Result<Who, AqRefusal>
    ensures { Answers acquiring.told (λ who. who) result (run (shapes known.now) (spec.who (option_map (λ pair. pair.now) credentials.entry) oid permission)) }
{
    match credentials {
        Some(credentials) => find_known(alloc, known, credentials, oid, permission),
        None => Ok(Who::Anonymous),
    }
}
