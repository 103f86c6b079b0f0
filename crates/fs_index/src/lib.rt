//! Where each object's newest data record stands.
//!
//! An index is a map from object ids to places in a file. What will be put later is reserved first, so that putting it
//! takes no memory and can't fail. `specs/Places` says what an index has of an object.
#![tactic(auto)]

mod index;
mod place;
mod row;

pub use index::Index;
pub use place::Place;
