ghost use Rattle.std.specs.Prelude.{◌≡◌};
ghost use Rattle.evaluator.specs.Permissions.{permission_text};

// The permissions, as records and settings number them (Zope Developer's Guide, "Security").

/// `View`.
pub const VIEW: u8 = 1;

/// `Access contents information`.
pub const ACCESS_CONTENTS_INFORMATION: u8 = 2;

/// `Add Folders`.
pub const ADD_FOLDERS: u8 = 3;

/// `Add Documents, Images, and Files`.
pub const ADD_DOCUMENTS_IMAGES_AND_FILES: u8 = 4;

/// `Change DTML Methods`.
pub const CHANGE_DTML_METHODS: u8 = 5;

/// `Change DTML Documents`.
pub const CHANGE_DTML_DOCUMENTS: u8 = 6;

/// `Delete objects`.
pub const DELETE_OBJECTS: u8 = 7;

/// `Manage properties`.
pub const MANAGE_PROPERTIES: u8 = 8;

/// `Change permissions`.
pub const CHANGE_PERMISSIONS: u8 = 9;

/// `Manage users`.
pub const MANAGE_USERS: u8 = 10;

/// `Add User Folders`.
pub const ADD_USER_FOLDERS: u8 = 11;

/// `Undo changes`.
pub const UNDO_CHANGES: u8 = 12;

/// `Change proxy roles`.
pub const CHANGE_PROXY_ROLES: u8 = 13;

/// How many permissions there are; they are numbered from 1 on.
pub const PERMISSIONS: u8 = CHANGE_PROXY_ROLES;

/// The name of a permission, which the text of a 401 has; empty for a number that is none's. Takes no memory.
#[tactic(auto, unfolding(crate::specs::Permissions::permission_text))]
pub fn permission_name(permission: u8) -> &'static str
    ensures { result.now ≡ permission_text permission }
{
    match permission {
        VIEW => "View",
        ACCESS_CONTENTS_INFORMATION => "Access contents information",
        ADD_FOLDERS => "Add Folders",
        ADD_DOCUMENTS_IMAGES_AND_FILES => "Add Documents, Images, and Files",
        CHANGE_DTML_METHODS => "Change DTML Methods",
        CHANGE_DTML_DOCUMENTS => "Change DTML Documents",
        DELETE_OBJECTS => "Delete objects",
        MANAGE_PROPERTIES => "Manage properties",
        CHANGE_PERMISSIONS => "Change permissions",
        MANAGE_USERS => "Manage users",
        ADD_USER_FOLDERS => "Add User Folders",
        UNDO_CHANGES => "Undo changes",
        CHANGE_PROXY_ROLES => "Change proxy roles",
        _ => "",
    }
}
