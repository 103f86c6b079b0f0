ghost use Rattle.std.specs.Prelude.{◌≡◌, ◌&&◌, ◌==◌, not, length, IfOk, Ok};
ghost use Rattle.std.specs.List.{filter};
ghost use Rattle.zobject.specs.declared.object.Local.{Local as ALocal};
ghost use Rattle.zobject.specs.Changes.{put_local, with_locals};
ghost use Rattle.zobject.specs.Sorting.{sorted as sorted_texts};
ghost use Rattle.evaluator.specs.Named.{permission_named};
ghost use Rattle.manage.specs.Becoming as becoming;
ghost use Rattle.manage.specs.Changing.{became};
ghost use Rattle.manage.specs.Fields.{Gives, texts_of as said};
ghost use Rattle.manage.specs.Table as table;
ghost use Rattle.manage.specs.declared.refusal.FieldName.TheVariants as names;

use crate::copying::{Copied, copy_part, copy_with_locals, copy_with_part, copy_with_settings};
use crate::field::{fields_kept, text_of, texts_of};
use crate::naming::sorted;
use crate::putting::put;
use crate::refusal::{FieldName, ManageRefusal};
use crate::refusing::has_room_for_locals;
use crate::rule::{FieldRule, list, maybe, maybe_list, one};
use crate::seeking::others;
use evaluator::permission_named;
use form_fields::Fields;
use std::alloc::Global;
use zbase::{Memory, Text, Texts};
use zobject::{Local, Locals, Object, Part2, Roles, Setting, Settings};

/// The roles that a form gives, by bytes and each once.
pub(crate) fn roles_of(alloc: Global, fields: &Fields) -> Result<Roles, Memory>
    ensures { IfOk result (λ roles. roles ≡ sorted_texts (said names.Roles fields.now)) }
{
    sorted(alloc, &texts_of(alloc, FieldName::Roles, fields)?)
}

// ---- settings

fn number_of(name: &Text) -> u8
    ensures { result ≡ becoming.number_or_none (permission_named name.now) }
{
    permission_named(name.as_str()).unwrap_or(0)
}

// The setting that a form gives.
fn setting_of(alloc: Global, fields: &Fields) -> Result<Setting, Memory>
    ensures { IfOk result (λ s. s ≡ becoming.new_setting fields.now) }
{
    let name = text_of(alloc, FieldName::Permission, fields)?;
    let acquire = text_of(alloc, FieldName::Acquire, fields)?;
    Ok(Setting {
        permission: number_of(&name),
        acquire: acquire.as_str() == "1",
        roles: roles_of(alloc, fields)?,
    })
}

fn is_of_other(setting: &Setting, permission: u8) -> bool
    ensures { result ≡ not (setting.now.permission == permission) }
{
    setting.permission != permission
}

// Copies of the settings of other permissions.
fn other_settings(alloc: Global, settings: &[Setting], permission: u8) -> Result<Settings, Memory>
    ensures { IfOk result (λ left. left ≡ becoming.other_settings permission settings.now) }
{
    let mut left = Settings::new(alloc);
    for setting in settings {
        if is_of_other(setting, permission) {
            left.push(setting.copied(alloc)?)?;
        }
    }
    Ok(left)
}

// The settings with that one in its place. Acquired roles alone are what there is without a setting.
fn settings_with(alloc: Global, settings: &[Setting], setting: Setting) -> Result<Settings, Memory>
    ensures { IfOk result (λ all. all ≡ becoming.settings_with setting settings.now) }
{
    if setting.acquire && setting.roles.is_empty() {
        return other_settings(alloc, settings, setting.permission);
    }
    put(alloc, settings, setting)
}

/// An object with other roles of a permission.
#[tactic(auto, using(crate::proofs::Steps::stops), unfolding(crate::specs::Changing::judged, crate::specs::Fields::fields_kept))]
pub(crate) fn set_permission(
    alloc: Global,
    object: &Object,
    fields: &Fields,
) -> Result<Object, ManageRefusal>
    ensures { Gives (λ o. o) result (became table.set_permission becoming.with_permission object.now fields.now) }
{
    let rows = [
        one(FieldName::Permission, FieldRule::Permission),
        maybe_list(FieldName::Roles, FieldRule::Role),
        maybe(FieldName::Acquire, FieldRule::Any),
    ];
    fields_kept(alloc, rows.as_slice(), fields)?;
    let setting = setting_of(alloc, fields)?;
    let settings = settings_with(alloc, object.settings.as_slice(), setting)?;
    Ok(copy_with_settings(alloc, object, settings)?)
}

// ---- local roles

// The local roles that a form gives a user.
fn local_of(alloc: Global, fields: &Fields) -> Result<Local, Memory>
    ensures { IfOk result (λ l. l ≡ becoming.new_local fields.now) }
{
    Ok(Local {
        user: text_of(alloc, FieldName::UserId, fields)?,
        roles: roles_of(alloc, fields)?,
    })
}

// The local roles with those of that user in their place.
fn locals_with(alloc: Global, locals: &[Local], local: Local) -> Result<Locals, Memory>
    ensures { IfOk result (λ all. all ≡ put_local local locals.now) }
{
    put(alloc, locals, local)
}

/// An object with other local roles of a user.
#[tactic(auto, using(crate::proofs::Steps::stops), unfolding(crate::specs::Changing::judged, crate::specs::Fields::fields_kept))]
pub(crate) fn set_local_roles(
    alloc: Global,
    object: &Object,
    fields: &Fields,
) -> Result<Object, ManageRefusal>
    ensures { Gives (λ o. o) result (became table.set_local_roles becoming.with_user_roles object.now fields.now) }
{
    let rows = [
        one(FieldName::UserId, FieldRule::UserName),
        list(FieldName::Roles, FieldRule::Role),
    ];
    fields_kept(alloc, rows.as_slice(), fields)?;
    let local = local_of(alloc, fields)?;
    let locals = locals_with(alloc, object.locals.as_slice(), local)?;
    has_room_for_locals(locals.as_slice())?;
    Ok(copy_with_locals(alloc, object, locals)?)
}

/// An object without the local roles of some users.
#[tactic(auto, using(crate::proofs::Steps::stops), unfolding(crate::specs::Changing::judged, crate::specs::Fields::fields_kept))]
pub(crate) fn delete_local_roles(
    alloc: Global,
    object: &Object,
    fields: &Fields,
) -> Result<Object, ManageRefusal>
    ensures { Gives (λ o. o) result (became table.delete_local_roles becoming.without_user_roles object.now fields.now) }
{
    let rows = [list(FieldName::UserIds, FieldRule::Any)];
    fields_kept(alloc, rows.as_slice(), fields)?;
    let users = texts_of(alloc, FieldName::UserIds, fields)?;
    let left = others(alloc, object.locals.as_slice(), &users)?;
    Ok(copy_with_locals(alloc, object, left)?)
}

// ---- proxy roles

// The same once more with other proxy roles.
fn with_proxy(alloc: Global, part: &Part2, proxy: Roles) -> Result<Part2, Memory>
    ensures { IfOk result (λ new. new ≡ becoming.with_proxy proxy part.now) }
{
    match part {
        Part2::Method { source, .. } => Ok(Part2::Method {
            source: source.copy()?,
            proxy,
        }),
        Part2::Document { source, .. } => Ok(Part2::Document {
            source: source.copy()?,
            proxy,
        }),
        Part2::Folder(_) | Part2::UserFolder(_) => copy_part(alloc, part),
    }
}

/// A method or document with other proxy roles, none where the form gives none.
#[tactic(auto, using(crate::proofs::Steps::stops), unfolding(crate::specs::Changing::judged, crate::specs::Fields::fields_kept))]
pub(crate) fn set_proxy_roles(
    alloc: Global,
    object: &Object,
    fields: &Fields,
) -> Result<Object, ManageRefusal>
    ensures { Gives (λ o. o) result (became table.set_proxy_roles becoming.with_proxy_roles object.now fields.now) }
{
    let rows = [maybe_list(FieldName::Roles, FieldRule::Role)];
    fields_kept(alloc, rows.as_slice(), fields)?;
    let proxy = roles_of(alloc, fields)?;
    let part = with_proxy(alloc, &object.part, proxy)?;
    Ok(copy_with_part(alloc, object, part)?)
}
