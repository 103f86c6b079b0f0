//! Keys of names: numbers of 64 bits, which sort faster than the names, and tell that they differ. A table of names may have
//! its places by them.
//!
//! `specs/Keys` says what a name's key is, and `specs/KeyLaws` that names with different keys differ.
#![tactic(auto)]

mod keys;
mod names;

pub use keys::name_key;
pub use names::{HasName, names_differ};
