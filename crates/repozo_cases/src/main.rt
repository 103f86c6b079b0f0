//! Plans, copies and joins backups in memory, for each case of the files that its words name, and tells which are wrong.
#![tactic(auto)]

mod disks;
mod running;
mod telling;

use cases::run_files;
use running::BackupRuns;
use std::io;
use std::process::ExitCode;

fn main(rt: HostRuntime) -> io::Result<ExitCode> {
    run_files(&rt, &BackupRuns)
}
