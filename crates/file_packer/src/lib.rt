//! The file of a shelf is packed: beside it the packed file is written, and put whole in its place.
//!
//! `specs/Packing` says what a pack makes of the files, and why it doesn't.
//!
//! ZODB Programming Guide, "Packing and garbage collection". There it leaves the old file beside the new one; here nothing is
//! left of the old one.
#![tactic(auto)]

mod pack;
mod refusal;

pub use pack::pack_file;
pub use refusal::FilePackRefusal;
