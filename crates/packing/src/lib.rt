//! What a pack of a history keeps, and what it leaves.
//!
//! `specs/Reachable` says which objects are kept, and which of them can't be read; `specs/Packed` what is left of a
//! history.
//!
//! ZODB Programming Guide, "Packing and garbage collection".
#![tactic(auto)]

mod laws;
mod links;

pub use laws::{packs_keep_histories, packs_keep_values};
pub use links::Links;
