//! Values and expressions in a page.
//!
//! `specs/Values` says what is true, how values are compared and reckoned with, and what a page may still spend;
//! `specs/Expressions` what the value of an expression is, and `specs/Told` what stands after a call.
#![tactic(auto)]

mod adding;
mod budget;
mod comparing;
mod evaluating;
mod needing;
mod refusal;
mod spending;
mod truth;

pub use budget::Budget;
pub use evaluating::evaluate;
pub use needing::{defined, object_in, sequence};
pub use refusal::{Limit, RenderRefusal};
pub use spending::{put, spend_tag};
pub use truth::is_met;
