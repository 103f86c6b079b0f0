//! Who may do what: the roles to which a permission is given, the roles that a user has, the verdict of both, and the
//! user that a request comes from.
//!
//! `specs/Roles` says which roles these are on an object, `specs/Verdicts` what a user is granted there and in whose place
//! the source of an object acts, `specs/Users` how the user is found by the folders upwards. They are questions over the
//! shapes of objects, so that no verdict looks at a title, a source or the value of a property. `specs/Laws` has what their
//! laws speak of.
#![tactic(auto)]

mod everyones;
mod finding;
mod granted;
mod laws;
mod proxy;
mod roles;
mod verdicts;
mod who;

pub use finding::find_user;
pub use granted::GrantedRole;
pub use laws::{
    default_decides, least_common_role, local_roles_count_at_home, proxy_roles_stand_alone,
    settings_hide_what_is_above, verdicts_look_at_shapes,
};
pub use proxy::acting;
pub use roles::{roles_for, user_roles};
pub use verdicts::{allowed, verdict, verdict_from, verdict_on};
pub use who::{Verdict, Who};
