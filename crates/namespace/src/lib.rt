//! What a name means in a page: values, the stack of names, and looks at objects under the security policy.
//!
//! `specs/Looks` says how a page looks at objects, and that contents come by a granted view alone; `specs/LookLaws` has
//! what is true of every page. `specs/Names` says what a name means in an object and in the stack, and `specs/Requests`
//! which names a request has; `specs/Locating` what a name leads to before the children of a folder are reached.
//! `specs/NameLaws` has what is true of every name.
#![tactic(auto)]

mod acting;
mod hit;
mod label;
mod laws;
mod looks;
mod naming;
mod refusal;
mod request;
mod showing;
mod stack;
mod val;
mod viewed;
mod viewer;
mod word;

pub use hit::Hit;
pub use label::Label;
pub use laws::{
    contents_stay_apart, first_uses_are_shown, names_are_for_their_user, refusals_are_denied,
    shown_are_granted, viewed_are_shown,
};
pub use refusal::NameRefusal;
pub use request::request_names;
pub use stack::{Resting, Stack};
pub use val::{Layer, Named, Names, Single, Singles, Val};
