ghost use Rattle.std.specs.Prelude.{◌≡◌, ℕ, Option};
ghost use Rattle.zbase.specs.Query.{run, Answers};
ghost use Rattle.zobject.specs.Rules.{IsObject, kind_of};
ghost use Rattle.zobject.specs.declared.object.Object.{Object as AnObject};
ghost use Rattle.zknown.specs.Seen.{Seen, objects};
ghost use Rattle.acquisition.specs.Acquiring.{first};
ghost use Rattle.evaluator.specs.Questions.{as_ask};
ghost use Rattle.manage.specs.Calling.{told};
ghost use Rattle.manage.specs.Changing as changing;
ghost use Rattle.manage.specs.Changing.{KeepRules, WritesItself};
ghost use Rattle.manage.specs.Fields.{Gives};
ghost use Rattle.manage.specs.Table.{row_of};

use crate::adding::change_adding;
use crate::call::Call;
use crate::called::{here, kind_of};
use crate::changes::{Called, Change};
use crate::deleting::delete_objects;
use crate::editing::{edit_folder, edit_page};
use crate::laws::rows_keep_the_rules;
use crate::properties::{add_property, delete_properties};
use crate::refusal::ManageRefusal;
use crate::renaming::change_renaming;
use crate::roles::{delete_local_roles, set_local_roles, set_permission, set_proxy_roles};
use crate::undoing::undone_id;
use crate::users::add_user;
use crate::written::write_itself;
use acquisition::Wrapped;
use form_fields::Fields;
use std::alloc::Global;
use zbase::Oid;
use zknown::Known;
use zobject::{Kind, Object};

// What the object becomes by a call that writes it alone.
#[tactic(auto, unfolding(crate::specs::Changing::judged))]
fn itself(
    alloc: Global,
    call: Call,
    object: &Object,
    fields: &Fields,
) -> Result<Object, ManageRefusal>
    ensures { Gives (λ o. o) result (changing.itself (row_of call (kind_of object.now.part)) call object.now fields.now) }
{
    match (call, kind_of(&object.part)) {
        (Call::Edit, Kind::Method | Kind::Document) => edit_page(alloc, object, fields),
        (Call::Edit, Kind::Folder) => edit_folder(alloc, object, fields),
        (Call::DeleteObjects, Kind::Folder) => delete_objects(alloc, object, fields),
        (Call::SetPermission, _) => set_permission(alloc, object, fields),
        (Call::SetLocalRoles, _) => set_local_roles(alloc, object, fields),
        (Call::DeleteLocalRoles, _) => delete_local_roles(alloc, object, fields),
        (Call::AddProperty, Kind::Folder | Kind::Document) => add_property(alloc, object, fields),
        (Call::DeleteProperties, Kind::Folder | Kind::Document) => {
            delete_properties(alloc, object, fields)
        }
        (Call::SetProxyRoles, Kind::Method | Kind::Document) => {
            set_proxy_roles(alloc, object, fields)
        }
        (Call::AddUser, Kind::UserFolder) => add_user(alloc, object, fields),
        _ => Err(ManageRefusal::NotFound(call)),
    }
}

#[tactic(auto, using(crate::proofs::Steps::stops))]
fn record_itself(
    alloc: Global,
    call: Call,
    oid: Oid,
    object: &Object,
    fields: &Fields,
) -> Result<Change, ManageRefusal>
    requires lawful { IsObject object.now }
    ensures { Gives (λ change. change) result (changing.itself_written (row_of call (kind_of object.now.part)) call oid object.now fields.now) }
{
    rows_keep_the_rules();
    let new = itself(alloc, call, object, fields)?;
    Ok(write_itself(alloc, oid, &new)?)
}

// What a call changes that writes the object alone.
fn change_itself(
    alloc: Global,
    call: Call,
    oid: Oid,
    object: &Object,
    fields: &Fields,
) -> Result<Change, ManageRefusal>
    requires lawful { IsObject object.now }
    requires alone { WritesItself call }
    ensures { (known : ℕ → Option (Seen AnObject))
        → Answers told (λ change. change) result
        (as_ask (run known (changing.change_by (row_of call (kind_of object.now.part)) call oid object.now fields.now))) }
{
    record_itself(alloc, call, oid, object, fields)
}

// What a call writes that asks no history.
fn changed(
    alloc: Global,
    call: Call,
    oid: Oid,
    known: &Known,
    object: &Object,
    fields: &Fields,
) -> Result<Change, ManageRefusal>
    requires lawful { IsObject object.now }
    requires known { KeepRules (objects known.now) }
    ensures { Answers told (λ change. change) result (as_ask (run (objects known.now) (changing.changed call oid object.now fields.now))) }
{
    match (call, kind_of(&object.part)) {
        (
            Call::AddFolder | Call::AddMethod | Call::AddDocument | Call::AddUserFolder,
            Kind::Folder,
        ) => change_adding(alloc, call, oid, known, object, fields),
        (Call::RenameObject, Kind::Folder) => change_renaming(alloc, oid, known, object, fields),
        (
            Call::AddFolder
            | Call::AddMethod
            | Call::AddDocument
            | Call::AddUserFolder
            | Call::RenameObject,
            Kind::Method | Kind::Document | Kind::UserFolder,
        ) => Err(ManageRefusal::NotFound(call)),
        (Call::UndoTransactions | Call::ListTransactions, _) => Err(ManageRefusal::NotFound(call)),
        (
            Call::Edit
            | Call::DeleteObjects
            | Call::SetPermission
            | Call::SetLocalRoles
            | Call::DeleteLocalRoles
            | Call::AddProperty
            | Call::DeleteProperties
            | Call::SetProxyRoles
            | Call::AddUser,
            _,
        ) => change_itself(alloc, call, oid, object, fields),
    }
}

#[tactic(auto, using(crate::proofs::Steps::writes_so, crate::proofs::Steps::passes))]
fn writes(
    alloc: Global,
    call: Call,
    oid: Oid,
    known: &Known,
    object: &Object,
    fields: &Fields,
) -> Result<Called, ManageRefusal>
    requires lawful { IsObject object.now }
    requires known { KeepRules (objects known.now) }
    ensures { Answers told (λ called. called) result
        (as_ask (run (objects known.now) (changing.written_by (changing.changed call oid object.now fields.now)))) }
{
    let change = changed(alloc, call, oid, known, object, fields)?;
    Ok(Called::Writes(change))
}

#[tactic(auto, using(crate::proofs::Steps::stops))]
fn undoes(alloc: Global, fields: &Fields) -> Result<Called, ManageRefusal>
    ensures { Gives (λ called. called) result (changing.undoes fields.now) }
{
    let tid = undone_id(alloc, fields)?;
    Ok(Called::Undoes(tid))
}

#[tactic(auto, using(crate::proofs::Steps::decided))]
fn called_by(
    alloc: Global,
    call: Call,
    oid: Oid,
    known: &Known,
    object: &Object,
    fields: &Fields,
) -> Result<Called, ManageRefusal>
    requires lawful { IsObject object.now }
    requires known { KeepRules (objects known.now) }
    ensures { Answers told (λ called. called) result (as_ask (run (objects known.now) (changing.called_by call oid object.now fields.now))) }
{
    match call {
        Call::UndoTransactions => undoes(alloc, fields),
        Call::ListTransactions => Ok(Called::Lists),
        _ => writes(alloc, call, oid, known, object, fields),
    }
}

#[tactic(auto, using(crate::proofs::Steps::passes), unfolding(crate::specs::Changing::change))]
fn change_on(
    alloc: Global,
    call: Call,
    oid: Oid,
    known: &Known,
    fields: &Fields,
) -> Result<Called, ManageRefusal>
    requires lawful { KeepRules (objects known.now) }
    ensures { Answers told (λ called. called) result (as_ask (run (objects known.now) (changing.change call oid fields.now))) }
{
    let object = here(known, oid)?;
    called_by(alloc, call, oid, known, object, fields)
}

/// What a call comes to, by the fields of its form, on the object that a path leads to: what it writes, which transaction
/// it undoes, or that it lists transactions. The history is asked later (`undo`, `log_page`).
///
/// The fields are tested in the order of the call, then what else it is refused for; the first that applies is answered.
/// A kind of object that the table of calls doesn't name for it is `NotFound`. Each object that is here keeps the rules of
/// objects.
///
/// Zope Book, "Basic Zope Objects" and "Users and Security"; Zope Developer's Guide, "Undo".
pub fn change(
    alloc: Global,
    call: Call,
    on: &Wrapped,
    known: &Known,
    fields: &Fields,
) -> Result<Called, ManageRefusal>
    requires lawful { KeepRules (objects known.now) }
    ensures { Answers told (λ called. called) result (as_ask (run (objects known.now) (changing.change call (first on.now) fields.now))) }
{
    change_on(alloc, call, on.oid(), known, fields)
}
