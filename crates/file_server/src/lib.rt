//! A server of the site in a file: the file is opened on a shelf, served in place, and given back, and the tape stands in a new
//! file beside it.
//!
//! `specs/Running` says what a server did over the file on a disk, and what it leaves of it; `specs/Kept` what it leaves of a shelf,
//! and what it is refused for.
#![tactic(auto)]

mod closing;
mod job;
mod lending;
mod opening;
mod refusal;
mod running;
mod serving;

pub use job::FileJob;
pub use refusal::FileRefusal;
pub use serving::serve_file;
