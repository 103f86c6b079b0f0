ghost use Rattle.std.specs.Prelude.{◌≡◌, IfOk, Ok};
ghost use Rattle.zobject.specs.declared.object.Part2.TheVariants as parts;
ghost use Rattle.zobject.specs.Changes.{put_user, with_part};
ghost use Rattle.manage.specs.Becoming as becoming;
ghost use Rattle.manage.specs.Changing.{became};
ghost use Rattle.manage.specs.Fields.{Gives};
ghost use Rattle.manage.specs.Table as table;

use crate::copying::copy_with_part;
use crate::field::{fields_kept, text_of};
use crate::putting::put;
use crate::refusal::{FieldName, ManageRefusal};
use crate::refusing::{has_room_for_user, is_free, users_of};
use crate::roles::roles_of;
use crate::rule::{FieldRule, maybe_list, one};
use form_fields::Fields;
use std::alloc::Global;
use user_folder::keep;
use zbase::Memory;
use zobject::{Object, Part2, User};

// The user that a form gives; what is kept of the password isn't the password.
fn user_of(alloc: Global, fields: &Fields) -> Result<User, Memory>
    ensures { IfOk result (λ u. u ≡ becoming.new_user fields.now) }
{
    let password = text_of(alloc, FieldName::Password, fields)?;
    Ok(User {
        name: text_of(alloc, FieldName::Name, fields)?,
        password: keep(alloc, password.as_str())?,
        roles: roles_of(alloc, fields)?,
    })
}

// The folder with that user in their place.
fn with_user(alloc: Global, folder: &Object, user: User) -> Result<Object, Memory>
    ensures { IfOk result (λ more. more ≡ with_part (parts.UserFolder (put_user user (becoming.users_in folder.now.part))) folder.now) }
{
    let users = put(alloc, users_of(folder), user)?;
    copy_with_part(alloc, folder, Part2::UserFolder(users))
}

/// A user folder with one user more.
#[tactic(auto, using(crate::proofs::Steps::stops), unfolding(crate::specs::Changing::judged, crate::specs::Fields::fields_kept))]
pub(crate) fn add_user(
    alloc: Global,
    folder: &Object,
    fields: &Fields,
) -> Result<Object, ManageRefusal>
    ensures { Gives (λ o. o) result (became table.add_user becoming.with_user folder.now fields.now) }
{
    let rows = [
        one(FieldName::Name, FieldRule::UserName),
        one(FieldName::Password, FieldRule::Password),
        maybe_list(FieldName::Roles, FieldRule::Role),
    ];
    fields_kept(alloc, rows.as_slice(), fields)?;
    let name = text_of(alloc, FieldName::Name, fields)?;
    is_free(users_of(folder), &name)?;
    has_room_for_user(users_of(folder))?;
    let user = user_of(alloc, fields)?;
    Ok(with_user(alloc, folder, user)?)
}
