//! Replays schedules of cells over a store in memory, for each case of the files that its words name, and tells which are wrong.
#![tactic(auto)]

mod running;

use cases::run_files;
use running::CellRuns;
use std::io;
use std::process::ExitCode;

fn main(rt: HostRuntime) -> io::Result<ExitCode> {
    run_files(&rt, &CellRuns)
}
