//! Reads the transactions of a storage file one after another.
//!
//! `step::take_one` says of any bytes what stands at a place in a file: the end, a damage or a right transaction.
//! `scan` tells of any file where it ends and where each object's last record stands (`specs/Scanned`), and `check`
//! its numbers (`specs/Checked`). A `Walk` answers its transactions one after another, with their values
//! (`specs/Walked`). `read_txn`, `texts_at` and `values_at` read one transaction where it stands, and no more of it than is
//! asked for. `specs/OnlyReads` says what all of them leave.
#![tactic(auto)]

mod ahead;
mod checking;
mod data;
mod extent;
mod following;
mod judging;
mod kept;
mod magic;
mod opening;
mod records;
mod step;
mod texts;
mod transactions;
mod valued;
mod walk;
mod wholes;
mod window;

pub use ahead::Ahead;
pub use checking::{Checked, check};
pub use following::{data_place, follow_from, read_head};
pub use opening::{ScanRefusal, Scanned, scan};
pub use transactions::{read_txn, texts_at, values_at};
pub use walk::Walk;
pub use wholes::{OidValue, OidValues, Whole, Wholes};
