//! Asks small sites which roles there are, who has a permission and which user a request comes from, for each case of the
//! files that its words name, and tells which are wrong.
#![tactic(auto)]

mod asking;
mod running;

use cases::run_files;
use running::PermissionCases;
use std::io;
use std::process::ExitCode;

fn main(rt: HostRuntime) -> io::Result<ExitCode> {
    run_files(&rt, &PermissionCases)
}
