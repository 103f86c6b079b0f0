//! Runs the cases of records of objects, and tells which of them say something else than was wanted.
#![tactic(auto)]

mod records;
mod running;
mod showing;

use cases::run_files;
use running::ObjectCases;
use std::io;
use std::process::ExitCode;

fn main(rt: HostRuntime) -> io::Result<ExitCode> {
    run_files(&rt, &ObjectCases)
}
