//! Asks stacks of names over small sites what names mean, for each case of the files that its words name, and tells which
//! are wrong.
#![tactic(auto)]

mod asking;
mod running;
mod showing;

use cases::run_files;
use running::NamespaceCases;
use std::io;
use std::process::ExitCode;

fn main(rt: HostRuntime) -> io::Result<ExitCode> {
    run_files(&rt, &NamespaceCases)
}
