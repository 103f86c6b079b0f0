//! Runs case files that are themselves in cases, and tells which of them say something else than was wanted.
#![tactic(auto)]

mod running;

use cases::run_files;
use running::CaseFiles;
use std::io;
use std::process::ExitCode;

fn main(rt: HostRuntime) -> io::Result<ExitCode> {
    run_files(&rt, &CaseFiles)
}
