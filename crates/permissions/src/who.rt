use crate::granted::GrantedRole;
use zbase::{Oid, Text};
use zobject::Roles;

/// A user, for verdicts.
///
/// Zope Book, "Users and Security": the anonymous user, and those of user folders.
#[derive(Debug, Drop)]
pub enum Who {
    /// Everyone who isn't known.
    Anonymous,
    /// A user of a user folder, with the roles that he has there and the folder that holds it, his home. One without a
    /// name is no user of any folder: he stands for proxy roles.
    Known { name: Text, roles: Roles, home: Oid },
}

/// Whether a user has a permission.
#[derive(Debug, Drop)]
pub enum Verdict {
    /// By this role, the least by bytes of those that the user has and to which the permission is given.
    Granted(GrantedRole),
    /// The permission that isn't granted.
    Denied(u8),
}
