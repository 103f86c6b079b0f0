//! From the path of a request to what is published.
//!
//! `specs/Publishing` has the questions, in the order in which objects are asked for and refusals come.
#![tactic(auto)]

mod publishing;
mod target;

pub use publishing::publish;
pub use target::{Target, TravRefusal};
