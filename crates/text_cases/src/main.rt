//! Reads schedules, writes lines of schedules and reports and whole replies, for each case of the files that its words
//! name, and tells which are wrong.
#![tactic(auto)]

mod items;
mod lines;
mod replies;
mod running;

use cases::run_files;
use running::TextCases;
use std::io;
use std::process::ExitCode;

fn main(rt: HostRuntime) -> io::Result<ExitCode> {
    run_files(&rt, &TextCases)
}
