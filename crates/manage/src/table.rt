ghost use Rattle.std.specs.Prelude.{◌≡◌, Some, None, if◌then◌else◌};
ghost use Rattle.manage.specs.Calls as spec;
ghost use Rattle.manage.specs.Table as table;
ghost use Rattle.manage.specs.declared.call.Call.TheVariants as calls;

use crate::call::Call;
use evaluator::permission::{
    ADD_DOCUMENTS_IMAGES_AND_FILES, ADD_FOLDERS, ADD_USER_FOLDERS, CHANGE_DTML_DOCUMENTS,
    CHANGE_DTML_METHODS, CHANGE_PERMISSIONS, CHANGE_PROXY_ROLES, DELETE_OBJECTS, MANAGE_PROPERTIES,
    MANAGE_USERS, UNDO_CHANGES,
};
use http_in::Verb;
use zbase::Oid;
use zobject::Kind;

// Where it is a call on that kind.
fn on(is_one: bool, permission: u8) -> Option<u8>
    ensures { result ≡ (if is_one then Some permission else None) }
{
    if is_one { Some(permission) } else { None }
}

fn is_folder(kind: Kind) -> bool
    ensures { result ≡ table.is_folder kind }
{
    matches!(kind, Kind::Folder)
}

// What has properties.
fn is_holder(kind: Kind) -> bool
    ensures { result ≡ table.is_holder kind }
{
    matches!(kind, Kind::Folder | Kind::Document)
}

// What has a source.
fn is_page(kind: Kind) -> bool
    ensures { result ≡ table.is_page kind }
{
    matches!(kind, Kind::Method | Kind::Document)
}

fn is_user_folder(kind: Kind) -> bool
    ensures { result ≡ table.is_user_folder kind }
{
    matches!(kind, Kind::UserFolder)
}

fn edit_needs(kind: Kind) -> Option<u8>
    ensures { result ≡ table.permission_of calls.Edit kind }
{
    match kind {
        Kind::Method => Some(CHANGE_DTML_METHODS),
        Kind::Document => Some(CHANGE_DTML_DOCUMENTS),
        Kind::Folder => Some(MANAGE_PROPERTIES),
        Kind::UserFolder => None,
    }
}

// The permission that a call needs on an object of that kind, where it is a call on one.
fn permission_of(call: Call, kind: Kind) -> Option<u8>
    ensures { result ≡ table.permission_of call kind }
{
    match call {
        Call::AddFolder => on(is_folder(kind), ADD_FOLDERS),
        Call::AddMethod | Call::AddDocument => on(is_folder(kind), ADD_DOCUMENTS_IMAGES_AND_FILES),
        Call::AddUserFolder => on(is_folder(kind), ADD_USER_FOLDERS),
        Call::Edit => edit_needs(kind),
        Call::DeleteObjects | Call::RenameObject => on(is_folder(kind), DELETE_OBJECTS),
        Call::SetPermission | Call::SetLocalRoles | Call::DeleteLocalRoles => Some(
            CHANGE_PERMISSIONS,
        ),
        Call::AddProperty | Call::DeleteProperties => on(is_holder(kind), MANAGE_PROPERTIES),
        Call::SetProxyRoles => on(is_page(kind), CHANGE_PROXY_ROLES),
        Call::AddUser => on(is_user_folder(kind), MANAGE_USERS),
        Call::UndoTransactions | Call::ListTransactions => on(is_folder(kind), UNDO_CHANGES),
    }
}

fn is_of_root(call: Call) -> bool
    ensures { result ≡ spec.is_of_root call }
{
    matches!(call, Call::UndoTransactions | Call::ListTransactions)
}

fn is_by(call: Call, verb: Verb) -> bool
    ensures { result ≡ spec.is_by call verb }
{
    match verb {
        Verb::Get | Verb::Post => true,
        Verb::Head => matches!(call, Call::ListTransactions),
    }
}

fn is_at(call: Call, oid: Oid) -> bool
    ensures { result ≡ spec.is_at call oid }
{
    !is_of_root(call) || oid.0 == 0
}

/// The permission that a call needs on an object of that id and kind; none where it is no call there, or
/// not by that method: such a name leads to nothing. Takes no memory.
///
/// Zope Book, "Users and Security": the permissions of management.
pub fn permission_for(call: Call, verb: Verb, oid: Oid, kind: Kind) -> Option<u8>
    ensures { result ≡ table.permission_for call verb oid kind }
{
    if is_by(call, verb) && is_at(call, oid) {
        permission_of(call, kind)
    } else {
        None
    }
}
