//! Schedules, run: items in, a report out.
//!
//! `replay` runs a schedule over the bytes of a file, item by item, and writes what each step printed, in pieces. The
//! device stops and fails where the schedule says so; what a stop leaves is opened, and the run goes on. Its contract is that of
//! the whole report: the schedule *may have* it (`schedule`, *Explained*), over every lawful evaluator. So the printed
//! history gives each committed request the reply and the objects of running the requests one by one, and every restart
//! keeps what was acknowledged.
//!
//! `dump` writes the history of a file, as a report does at its end.
#![tactic(auto)]

mod alone;
mod dumping;
mod ending;
mod history_out;
mod item;
mod laws;
mod losing;
mod pack;
mod printing;
mod refusal;
mod restarting;
mod running;
mod second_walk;

pub use alone::serial;
pub use dumping::{DumpRefusal, dump};
pub use laws::replayed_requests_keep_pace;
pub use refusal::RunRefusal;
pub use running::replay;
