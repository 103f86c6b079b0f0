//! How many reading replies, commits, conflicts and given-up requests a report has, and its last transaction.
//!
//! `specs/Tallies` has what is counted, `specs/Lasts` the last transaction, and `specs/Heads` the rows that the lines of a report begin
//! with. `specs/Tidy` says which lines are told apart by their text: those of each explained report, as a law says.
#![tactic(auto)]

mod counting;
mod kind;
mod laws;
mod rows;

pub use counting::{last_digits, tally};
pub use kind::{Kind, Tally};
pub use laws::explained_reports_are_tidy;
