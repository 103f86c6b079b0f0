//! Asks small sites which call of management a name is, what it needs and what it changes, for each case of the files that
//! its words name, and tells which are wrong.
#![tactic(auto)]

mod asking;
mod knowing;
mod listing;
mod running;
mod telling;

use cases::run_files;
use running::ManageCases;
use std::io;
use std::process::ExitCode;

fn main(rt: HostRuntime) -> io::Result<ExitCode> {
    run_files(&rt, &ManageCases)
}
