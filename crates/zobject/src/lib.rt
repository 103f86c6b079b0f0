//! The objects of a site: their types, the rules of their texts and lists, and what may be seen of them.
//!
//! `limits` has the greatest lengths of texts and lists, `specs/Texts` the rules of texts, `specs/Rules` says which objects
//! keep the rules of a version of the record, `specs/Folders` what a folder lists, `specs/Shapes` which parts of an object
//! decide where it is found and who may see it, `specs/Changes` what an object is of which one part is another, `specs/Likely`
//! when a text breaks its rule by too many bytes alone, and `specs/Sorting` what roles are once they are sorted. How an object
//! is spelled is said by `zcodec`.
#![tactic(auto)]

mod folder;
mod laws;
mod likely;
pub mod limits;
mod object;
mod refusal;
mod texts;
mod version;

pub use folder::{child_in, find_child};
pub use laws::{
    children_may_change, local_roles_may_change, names_may_change, new_objects_keep_the_rules,
    properties_may_change, proxy_roles_may_change, roles_may_be_added, roles_may_be_shown,
    roles_may_be_sorted, settings_may_change, sources_may_change, texts_keep_their_rules,
    users_may_be_added,
};
pub use likely::{is_like, most_bytes};
pub use object::{
    Child, Children, Local, Locals, Object, Part2, PropValue, Properties, Property, Roles, Setting,
    Settings, User, Users,
};
pub use refusal::CodecRefusal;
pub use texts::{keeps, text_by};
pub use version::{Kind, Rule, Version};
