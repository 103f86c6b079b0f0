//! The site's evaluator: what a message means to a site, from its bytes to a reply or a change.
//!
//! `specs/Site` says what a message asks, answers and changes, as one question (Zope Developer's Guide, "Object
//! Publishing"), `specs/Pages` what the page of an object is, `specs/Faults` why there is none, and `specs/Replies` how
//! each is told. All of it asks for objects alone, but an undo and the page of transactions, which ask the history at the
//! end (`finished`). `specs/SiteLaws` has that it keeps the laws of an evaluator, and `specs/Access` to whom it shows what.
#![tactic(auto)]

mod answer;
mod answering;
mod asking;
mod calling;
mod finishing;
mod halted;
mod laws;
mod learned;
mod page;
mod reading;
mod refusal;
mod replies;
mod site;
mod stage;
mod state;

pub use answer::Answer;
pub use laws::{
    changes_are_granted, contents_stay_apart, ignored_credentials_are_refuted, messages_are_lawful,
    one_role_for_all_is_refuted, pages_show_rightly, roles_of_another_are_refuted,
    titles_of_others_are_refuted,
};
pub use refusal::SiteRefusal;
pub use site::Site;
pub use state::SiteState;
