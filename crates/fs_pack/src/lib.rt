//! Packs a storage file: of its reachable objects the records that are still needed are written into another file.
//!
//! `specs/Entries` has the transactions of a file with their statuses, and what a pack leaves of them; `specs/Spelled` the
//! file in which they stand, each value in full; `specs/Chosen` how a plan chooses records by marks; `specs/Plans` what a
//! plan stands for.
#![tactic(auto)]

mod choosing;
mod drawing;
mod laws;
mod marking;
mod marks;
mod packed;
mod planning;
mod plans;
mod refusal;
mod surveying;
mod tallying;
mod writing;

pub use laws::packs_leave_files;
pub use packed::Packed;
pub use planning::plan;
pub use plans::Plan;
pub use refusal::PackRefusal;
pub(crate) use refusal::PutRefusal;
pub use writing::write;
