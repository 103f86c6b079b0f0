//! The commands of the program, over a shelf of files, an input, an output, a hub and a clock: `run` is the top call.
#![tactic(auto)]

mod backing_up;
mod checking;
mod command;
mod dumping;
mod generating;
mod inputs;
mod last_lines;
mod laws;
mod making;
mod packs;
mod refusal;
mod replaying;
mod restoring;
mod serving;
mod top;

pub use laws::{giving_up_is_refuted, replays_keep_access, servers_keep_access};
pub use top::{Status, run};
