//! The boundary between storage and application: what an evaluation asks for, what it is told, what it answers,
//! and the laws that every evaluator keeps.
//!
//! The storage half knows no object, no template and no message; the application half knows no file, no disk
//! and no worker. A request is evaluated again and again over the facts that are known so far, until it asks for
//! nothing that isn't known.
//!
//! `specs/` has what a history answers (`Facts`), what an evaluator is and its laws (`Exec`, `Change`), evaluations
//! as question trees with their limits (`Questions`) and their laws, once for every tree (`QuestionLaws`, `LimitLaws`,
//! `Counting`), the transaction that a change becomes (`Settle`), and the small evaluator of cells (`Cells`).
#![tactic(auto)]

mod ask;
mod cell_texts;
mod cells;
mod draft;
mod evaluation;
mod fact;
mod laws;
mod meaning;
mod named;
mod outcome;
pub mod permission;
mod reply;

pub use ask::Ask;
pub use cells::{CellRequest, Cells};
pub use draft::{Draft, Entries, Entry, Hole, Holes, Name};
pub use evaluation::{Evaluated, Snapshot, outcome_over};
pub use fact::{Fact, Facts, LogRow, LogRows, Part, Parts, look};
pub use laws::{
    causes_are_reworded, cells_have_one_text, limits_are_counts, objects_last,
    questions_are_lawful, questions_follow_one_another, questions_rest_on_what_is_known,
};
pub use meaning::Evaluator;
pub use named::permission_named;
pub use outcome::Outcome;
pub use permission::permission_name;
pub use reply::{Denial, Kind, Mark, Reply, Shown, ShownList};
