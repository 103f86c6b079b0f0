//! Serves the connections of a hub in memory, for each case of the files that its words name, and tells which are wrong.
#![tactic(auto)]

mod arming;
mod disks;
mod giving;
mod replaying;
mod replies;
mod running;
mod serving;

use cases::run_files;
use running::Servings;
use std::io;
use std::process::ExitCode;

fn main(rt: HostRuntime) -> io::Result<ExitCode> {
    run_files(&rt, &Servings)
}
