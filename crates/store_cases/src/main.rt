//! Runs scripts of a store's calls over disks in memory, for each case of the files that its words name, and tells which
//! are wrong.
#![tactic(auto)]

mod answers;
mod arming;
mod drafts;
mod looking;
mod running;
mod script;
mod session;
mod voting;

use cases::run_files;
use running::Scripts;
use std::io;
use std::process::ExitCode;

fn main(rt: HostRuntime) -> io::Result<ExitCode> {
    run_files(&rt, &Scripts)
}
