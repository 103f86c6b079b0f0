ghost use Rattle.std.specs.Prelude.{◌≡◌, ◌∷◌, [], IfOk, Ok, Some};
ghost use Rattle.zbase.specs.Query.{run, Answers};
ghost use Rattle.zobject.specs.Changes.{with_id};
ghost use Rattle.zobject.specs.Folders.{child_of};
ghost use Rattle.zobject.specs.Rules.{IsObject, kind_of};
ghost use Rattle.zobject.specs.declared.object.Object.{Object as AnObject};
ghost use Rattle.zobject.specs.declared.version.Kind.TheVariants as kinds;
ghost use Rattle.zknown.specs.Seen.{objects};
ghost use Rattle.evaluator.specs.Questions.{as_ask};
ghost use Rattle.evaluator.specs.declared.draft.Name.TheVariants as names;
ghost use Rattle.manage.specs.Becoming.{children_in, situation, with_renamed};
ghost use Rattle.manage.specs.Calling.{told};
ghost use Rattle.manage.specs.Changing as changing;
ghost use Rattle.manage.specs.Changing.{KeepRules, judged};
ghost use Rattle.manage.specs.Fields.{Gives, text_of as said};
ghost use Rattle.manage.specs.Laws.{Rightly};
ghost use Rattle.manage.specs.Table as table;
ghost use Rattle.manage.specs.Table.{Renames};
ghost use Rattle.manage.specs.Written.{change_of, whole};
ghost use Rattle.manage.specs.declared.call.Call.TheVariants as calls;
ghost use Rattle.manage.specs.declared.refusal.FieldName.TheVariants as field;

use crate::called::here;
use crate::changes::Change;
use crate::copying::{copy_with_id, copy_with_part};
use crate::field::{fields_kept, text_of};
use crate::laws::rows_keep_the_rules;
use crate::refusal::{FieldName, ManageRefusal};
use crate::refusing::{children_of, is_free, is_known};
use crate::rule::{FieldRule, one};
use crate::seeking::part_by_name;
use crate::written::{fits, write, write_itself};
use evaluator::{Entries, Name};
use form_fields::Fields;
use std::alloc::Global;
use zbase::{Memory, Oid};
use zknown::Known;
use zobject::{Child, Object, Part2, child_in};

// The names that a form gives are right: that of a child, and one that no child has.
#[tactic(auto, using(crate::proofs::Steps::stops), unfolding(crate::specs::Changing::judged, crate::specs::Fields::fields_kept))]
fn names_are_right(alloc: Global, folder: &Object, fields: &Fields) -> Result<(), ManageRefusal>
    ensures { Gives (λ x. x) result (judged table.rename_object (situation folder.now fields.now) (Ok tt)) }
{
    let rows = [
        one(FieldName::Id, FieldRule::ChildName),
        one(FieldName::NewId, FieldRule::Id),
    ];
    fields_kept(alloc, rows.as_slice(), fields)?;
    let id = text_of(alloc, FieldName::Id, fields)?;
    is_known(children_of(folder), &id)?;
    let new = text_of(alloc, FieldName::NewId, fields)?;
    is_free(children_of(folder), &new)
}

// The folder with the child last, under its new name.
fn with_renamed(
    alloc: Global,
    folder: &Object,
    child: Oid,
    fields: &Fields,
) -> Result<Object, Memory>
    ensures { IfOk result (λ renamed. renamed ≡ with_renamed child (situation folder.now fields.now)) }
{
    let id = text_of(alloc, FieldName::Id, fields)?;
    let (mut children, _) = part_by_name(alloc, children_of(folder), std::slice::from_ref(&id))?;
    children.push(Child {
        name: text_of(alloc, FieldName::NewId, fields)?,
        oid: child,
    })?;
    copy_with_part(alloc, folder, Part2::Folder(children))
}

// The object with its new id.
fn with_new_id(alloc: Global, object: &Object, fields: &Fields) -> Result<Object, Memory>
    ensures { IfOk result (λ new. new ≡ with_id (said field.NewId fields.now) object.now) }
{
    let id = text_of(alloc, FieldName::NewId, fields)?;
    copy_with_id(alloc, object, id)
}

// A folder that lists itself: it is written once.
fn write_own(
    alloc: Global,
    oid: Oid,
    folder: &Object,
    child: Oid,
    fields: &Fields,
) -> Result<Change, Memory>
    requires lawful { IsObject (with_id (said field.NewId fields.now) (with_renamed child (situation folder.now fields.now))) }
    ensures { IfOk result (λ change. change ≡ change_of (whole (names.Old oid)
        (with_id (said field.NewId fields.now) (with_renamed child (situation folder.now fields.now))) ∷ [])) }
{
    let renamed = with_renamed(alloc, folder, child, fields)?;
    let new = with_new_id(alloc, &renamed, fields)?;
    write_itself(alloc, oid, &new)
}

// The folder with the child under its new name, and the child with its new id.
fn write_both(
    alloc: Global,
    oid: Oid,
    folder: &Object,
    child: Oid,
    object: &Object,
    fields: &Fields,
) -> Result<Change, Memory>
    requires folder { IsObject (with_renamed child (situation folder.now fields.now)) }
    requires child { IsObject (with_id (said field.NewId fields.now) object.now) }
    ensures { IfOk result (λ change. change ≡ change_of (whole (names.Old oid) (with_renamed child (situation folder.now fields.now))
        ∷ whole (names.Old child) (with_id (said field.NewId fields.now) object.now) ∷ [])) }
{
    let renamed = with_renamed(alloc, folder, child, fields)?;
    let new = with_new_id(alloc, object, fields)?;
    let mut entries = Entries::new(alloc);
    entries.push(write(alloc, Name::Old(oid), &renamed)?)?;
    entries.push(write(alloc, Name::Old(child), &new)?)?;
    Ok(Change { entries })
}

// A folder may be its own child.
fn rename_child(
    alloc: Global,
    oid: Oid,
    known: &Known,
    folder: &Object,
    child: Oid,
    fields: &Fields,
) -> Result<Change, ManageRefusal>
    requires lawful { KeepRules (objects known.now) }
    requires right { (object : AnObject) → IsObject object → IsObject (with_id (said field.NewId fields.now) object) }
    requires folder { IsObject (with_renamed child (situation folder.now fields.now)) }
    ensures { Answers told (λ change. change) result (as_ask (run (objects known.now)
        (changing.child_renamed oid (situation folder.now fields.now) (Some child)))) }
{
    if child == oid {
        return Ok(write_own(alloc, oid, folder, child, fields)?);
    }
    let object = here(known, child)?;
    Ok(write_both(alloc, oid, folder, child, object, fields)?)
}

// The child of the name that a form gives under its new name.
#[tactic(auto, using(crate::proofs::Renamed::child_is))]
fn rename(
    alloc: Global,
    oid: Oid,
    known: &Known,
    folder: &Object,
    fields: &Fields,
) -> Result<Change, ManageRefusal>
    requires lawful { KeepRules (objects known.now) }
    requires right { Rightly Renames oid (situation folder.now fields.now) }
    ensures { Answers told (λ change. change) result (as_ask (run (objects known.now)
        (changing.child_renamed oid (situation folder.now fields.now) (child_of (said field.Id fields.now) (children_in folder.now.part))))) }
{
    let id = text_of(alloc, FieldName::Id, fields)?;
    match child_in(id.as_str(), &folder.part) {
        Some(child) => rename_child(alloc, oid, known, folder, child, fields),
        None => Err(ManageRefusal::NoSuchId(id)),
    }
}

/// What the call changes that gives a child of a folder another name.
#[tactic(auto, using(crate::proofs::Renamed::passes_renaming))]
pub(crate) fn change_renaming(
    alloc: Global,
    oid: Oid,
    known: &Known,
    folder: &Object,
    fields: &Fields,
) -> Result<Change, ManageRefusal>
    requires lawful { IsObject folder.now }
    requires known { KeepRules (objects known.now) }
    requires kind { kind_of folder.now.part ≡ kinds.Folder }
    ensures { Answers told (λ change. change) result (as_ask (run (objects known.now)
        (changing.change_by (Some table.rename_object) calls.RenameObject oid folder.now fields.now))) }
{
    rows_keep_the_rules();
    fits(oid.0);
    names_are_right(alloc, folder, fields)?;
    rename(alloc, oid, known, folder, fields)
}
