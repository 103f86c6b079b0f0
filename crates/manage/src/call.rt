ghost use Rattle.std.specs.Prelude.{◌≡◌};
ghost use Rattle.std.specs.List.{find};
ghost use Rattle.std.specs.Str.{bytes_eq};
ghost use Rattle.manage.specs.Calls as spec;

/// A call of management.
///
/// Zope Developer's Guide, "Object Publishing": the last segment of a path may name a method of the object before it.
#[derive(Clone, Copy, Debug, PartialEq, Eq)]
pub enum Call {
    /// `manage_addFolder`: a folder more in a folder.
    AddFolder,
    /// `manage_addDTMLMethod`: a method more in a folder.
    AddMethod,
    /// `manage_addDTMLDocument`: a document more in a folder.
    AddDocument,
    /// `manage_addUserFolder`: the user folder of a folder.
    AddUserFolder,
    /// `manage_edit`: another source or title.
    Edit,
    /// `manage_delObjects`: a folder without some children.
    DeleteObjects,
    /// `manage_renameObject`: another name for a child.
    RenameObject,
    /// `manage_permission`: which roles have a permission.
    SetPermission,
    /// `manage_setLocalRoles`: the roles of a user on an object.
    SetLocalRoles,
    /// `manage_delLocalRoles`: no roles of some users on an object.
    DeleteLocalRoles,
    /// `manage_addProperty`: a property more.
    AddProperty,
    /// `manage_delProperties`: fewer properties.
    DeleteProperties,
    /// `manage_proxy`: the roles that a source acts with.
    SetProxyRoles,
    /// `userFolderAddUser`: a user more in a user folder.
    AddUser,
    /// `manage_undo_transactions`: what a transaction changed, as it was before.
    UndoTransactions,
    /// `undoable_transactions`: the newest transactions, one a line.
    ListTransactions,
}

/// Every call.
const CALLS: [Call; 16] = [
    Call::AddFolder,
    Call::AddMethod,
    Call::AddDocument,
    Call::AddUserFolder,
    Call::Edit,
    Call::DeleteObjects,
    Call::RenameObject,
    Call::SetPermission,
    Call::SetLocalRoles,
    Call::DeleteLocalRoles,
    Call::AddProperty,
    Call::DeleteProperties,
    Call::SetProxyRoles,
    Call::AddUser,
    Call::UndoTransactions,
    Call::ListTransactions,
];

/// The name by which a path names a call. Takes no memory.
pub fn call_name(call: Call) -> &'static str
    ensures { result.now ≡ spec.name_of call }
{
    match call {
        Call::AddFolder => "manage_addFolder",
        Call::AddMethod => "manage_addDTMLMethod",
        Call::AddDocument => "manage_addDTMLDocument",
        Call::AddUserFolder => "manage_addUserFolder",
        Call::Edit => "manage_edit",
        Call::DeleteObjects => "manage_delObjects",
        Call::RenameObject => "manage_renameObject",
        Call::SetPermission => "manage_permission",
        Call::SetLocalRoles => "manage_setLocalRoles",
        Call::DeleteLocalRoles => "manage_delLocalRoles",
        Call::AddProperty => "manage_addProperty",
        Call::DeleteProperties => "manage_delProperties",
        Call::SetProxyRoles => "manage_proxy",
        Call::AddUser => "userFolderAddUser",
        Call::UndoTransactions => "manage_undo_transactions",
        Call::ListTransactions => "undoable_transactions",
    }
}

fn is_named(call: Call, name: &[u8]) -> bool
    ensures { result ≡ bytes_eq (spec.name_of call) name.now }
{
    call_name(call).as_bytes() == name
}

fn find_call(calls: &[Call], name: &[u8]) -> Option<Call>
    ensures { result ≡ find (λ call. bytes_eq (spec.name_of call) name.now) calls.now }
{
    calls.iter().copied().find(|call| is_named(*call, name))
}

/// The call of that name; none where it names no call. Takes no memory.
pub fn call_named(name: &str) -> Option<Call>
    ensures { result ≡ spec.call_named name.now }
{
    let calls: [Call; 16] = CALLS;
    find_call(calls.as_slice(), name.as_bytes())
}
