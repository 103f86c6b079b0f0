//! Plans packs of files in memory and writes them, for each case of the files that its words name, and tells which are wrong.
#![tactic(auto)]

mod running;
mod telling;

use cases::run_files;
use running::PackRuns;
use std::io;
use std::process::ExitCode;

fn main(rt: HostRuntime) -> io::Result<ExitCode> {
    run_files(&rt, &PackRuns)
}
