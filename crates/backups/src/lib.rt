//! Backups in the files of a shelf, as `repozo` makes them: `back_up` makes a further piece or a first one, and `restore` the file again.
//!
//! A repository is an index, the file `REPO.dat` of the shelf, and the pieces that it names. What pieces and indexes are
//! stands in `repozo`, `specs/Standing` says what stands in a repository, `specs/BackedUp` what a backup makes of the
//! files, `specs/Restored` what a restore does, and both why they don't.
#![tactic(auto)]

mod backed;
mod backing_up;
mod indexes;
mod making;
mod naming;
mod numbering;
mod pieces;
mod planned;
mod putting;
mod refusal;
mod restoring;

pub use backed::Backed;
pub use backing_up::back_up;
pub use naming::NAMES;
pub use refusal::{BackupRefusal, RestoreRefusal};
pub use restoring::restore;
