//! How a `dtml-var` shapes its text.
//!
//! `specs/` has the definition of each mark and of all of them in their order (`Shaping`), with worked rows that compute
//! (`Worked`).
#![tactic(auto)]

mod marks;
mod replacing;
mod shaping;
mod sizing;

pub use marks::Marks;
pub use shaping::shape;
