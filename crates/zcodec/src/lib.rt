//! The records of objects: each object has one in the second version, and some have one in the first.
//!
//! `specs/Record` has the spelling, `specs/Reading` how bytes are read from left to right and where the first field
//! starts that fits no rule.
#![tactic(auto)]

mod codec;
mod fields;
mod laws;
mod lists;
mod parts;
mod reading;
mod rows;
mod unread;
mod writing;

pub use codec::decode;
pub use laws::records_are_exact;
pub use writing::encode;
