//! The renderer of DTML: the text of a page, or the first refusal from the left.
//!
//! `specs/Rendering` says what the text of a template is, or which refusal comes first, and `specs/Access` for whom a page
//! takes its verdicts; `specs/Worked` has pages that compute. The laws hold of every page.
#![tactic(auto)]

mod asking;
mod frames;
mod items;
mod laws;
mod openings;
mod page;
mod reaching;
mod reading;
mod rendering;
mod showing;
mod sources;
mod spots;
mod templates;
mod turns;
mod worths;

pub use dtml_values::{Budget, Limit, RenderRefusal};
pub use laws::{
    pages_are_for_their_users, pages_are_their_users_own, pages_go_on, pages_show_what_is_granted,
};
pub use page::Page;
pub use reading::source_of;
pub use rendering::render;
pub use spots::Source;
pub use templates::Templates;
