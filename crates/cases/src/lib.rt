//! Cases of tests that stand in text files: reading them, running them, and telling how what came differs from what a
//! case has.
//!
//! A driver is a program of a few lines: it says how one case is run (`Runner`), and its words name the files.
#![tactic(auto)]

mod bytes;
mod case;
mod comparing;
mod count;
mod lines;
mod reader;
mod refusal;
mod running;

pub use case::{Case, Part};
pub use comparing::compare;
pub use count::Count;
pub use lines::{add_bytes, add_line, add_number, put_number, put_numbered, put_word};
pub use reader::{CaseFile, read_cases};
pub use refusal::CasesRefusal;
pub use running::{Met, Runner, run_files, run_text};
