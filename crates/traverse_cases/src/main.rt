//! Asks small sites what a path leads to, what a wrapper finds and what holds an object, for each case of the files that
//! its words name, and tells which are wrong.
#![tactic(auto)]

mod reaching;
mod running;

use cases::run_files;
use running::TraverseCases;
use std::io;
use std::process::ExitCode;

fn main(rt: HostRuntime) -> io::Result<ExitCode> {
    run_files(&rt, &TraverseCases)
}
