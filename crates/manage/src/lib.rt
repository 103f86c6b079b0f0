//! The calls of management of a site: which there are, what each may be called on, the permission that it needs, and what
//! it changes.
//!
//! `specs/Calls` has the names of calls (Zope Developer's Guide, "Object Publishing"), `specs/Table` their table: per call
//! the kinds, the permission, the fields, the further refusals and what is written, in the words of `specs/Fields`,
//! `specs/Refusing` and `specs/Becoming`; `specs/Written` where the ids of new objects stand; `specs/Calling` what is asked
//! of the object called on, `specs/Changing` what it comes to, as a question over objects, `specs/Undoing` the undo of a
//! transaction and the page of the newest ones, which ask the history, and `specs/Laws` what is true of every call.
#![tactic(auto)]

mod adding;
mod call;
mod called;
mod changes;
mod changing;
mod copying;
mod deleting;
mod editing;
mod field;
mod laws;
mod naming;
mod properties;
mod putting;
mod refusal;
mod refusing;
mod renaming;
mod roles;
mod rule;
mod seeking;
mod table;
mod undoing;
mod users;
mod written;

pub use call::{Call, call_name, call_named};
pub use called::permission_at;
pub use changes::{Called, Change};
pub use changing::change;
pub use laws::{
    calls_are_those_of_traversal, permissions_are_numbered, rows_keep_the_rules,
    written_records_are_lawful, written_records_settle,
};
pub use refusal::{FieldName, ManageRefusal, field_name};
pub use table::permission_for;
pub use undoing::{log_page, undo_from};
