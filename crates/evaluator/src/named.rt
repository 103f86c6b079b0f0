ghost use Rattle.std.specs.Prelude.{◌≡◌};
ghost use Rattle.std.specs.List.{find};
ghost use Rattle.std.specs.Str.{bytes_eq};
ghost use Rattle.evaluator.specs.Permissions.{permission_text};
ghost use Rattle.evaluator.specs.Named.{permission_named};

use crate::permission::{
    ACCESS_CONTENTS_INFORMATION, ADD_DOCUMENTS_IMAGES_AND_FILES, ADD_FOLDERS, ADD_USER_FOLDERS,
    CHANGE_DTML_DOCUMENTS, CHANGE_DTML_METHODS, CHANGE_PERMISSIONS, CHANGE_PROXY_ROLES,
    DELETE_OBJECTS, MANAGE_PROPERTIES, MANAGE_USERS, UNDO_CHANGES, VIEW, permission_name,
};

/// Every permission.
const ALL: [u8; 13] = [
    VIEW,
    ACCESS_CONTENTS_INFORMATION,
    ADD_FOLDERS,
    ADD_DOCUMENTS_IMAGES_AND_FILES,
    CHANGE_DTML_METHODS,
    CHANGE_DTML_DOCUMENTS,
    DELETE_OBJECTS,
    MANAGE_PROPERTIES,
    CHANGE_PERMISSIONS,
    MANAGE_USERS,
    ADD_USER_FOLDERS,
    UNDO_CHANGES,
    CHANGE_PROXY_ROLES,
];

fn find_permission(permissions: &[u8], name: &[u8]) -> Option<u8>
    ensures { result ≡ find (λ n. bytes_eq (permission_text n) name.now) permissions.now }
{
    permissions.iter().copied().find(|permission| permission_name(*permission).as_bytes() == name)
}

/// The number of the permission of that name; none where it is none's. Takes no memory.
#[tactic(auto, unfolding(crate::specs::Named::permission_named))]
pub fn permission_named(name: &str) -> Option<u8>
    ensures { result ≡ permission_named name.now }
{
    let permissions: [u8; 13] = ALL;
    find_permission(permissions.as_slice(), name.as_bytes())
}
