//! Renders pages of small sites, for each case of the files that its words name, and tells which are wrong.
#![tactic(auto)]

mod asking;
mod running;
mod showing;
mod stopping;

use cases::run_files;
use running::RenderCases;
use std::io;
use std::process::ExitCode;

fn main(rt: HostRuntime) -> io::Result<ExitCode> {
    run_files(&rt, &RenderCases)
}
