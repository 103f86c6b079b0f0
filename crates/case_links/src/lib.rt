//! To which objects the values of cases lead, as the drivers that pack read it: each byte of a value is the id of an object, and
//! bytes with an `x` spell no object.
//!
//! `specs/Linked` has the rule.
#![tactic(auto)]

mod links;

pub use links::ByteLinks;
