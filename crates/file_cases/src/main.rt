//! Scans, checks and walks files in memory, for each case of the files that its words name, and tells which are wrong.
#![tactic(auto)]

mod running;
mod telling;

use cases::run_files;
use running::FileRuns;
use std::io;
use std::process::ExitCode;

fn main(rt: HostRuntime) -> io::Result<ExitCode> {
    run_files(&rt, &FileRuns)
}
