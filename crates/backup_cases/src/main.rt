//! Backs files up and makes them again on shelves in memory, for each case of the files that its words name, and tells which
//! are wrong.
#![tactic(auto)]

mod running;
mod shelves;
mod telling;

use cases::run_files;
use running::Backups;
use std::io;
use std::process::ExitCode;

fn main(rt: HostRuntime) -> io::Result<ExitCode> {
    run_files(&rt, &Backups)
}
