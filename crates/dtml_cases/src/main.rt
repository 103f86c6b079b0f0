//! Reads sources of DTML, in whole or in part, and shapes texts, for each case of the files that its words name, and tells which are wrong.
#![tactic(auto)]

mod expressions;
mod page;
mod running;
mod shapes;
mod sources;
mod templates;

use cases::run_files;
use running::Readings;
use std::io;
use std::process::ExitCode;

fn main(rt: HostRuntime) -> io::Result<ExitCode> {
    run_files(&rt, &Readings)
}
