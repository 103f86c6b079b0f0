//! Acquisition: what is found through a wrapper, in containment before context.
//!
//! `specs/Acquiring` has the questions, `specs/Expressions` what a wrapper stands for.
#![tactic(auto)]

mod join;
mod laws;
mod limits;
mod refusal;
mod wrapped;

pub use laws::{containers_are_here, found_in_expressions, reached_stands};
pub use limits::MOST_ON_PATH;
pub use refusal::AqRefusal;
pub use wrapped::{Wrapped, containers, here};
