//! Runs the cases of messages of HTTP, of forms, cookies, credentials and users, and tells which of them say something
//! else than was wanted.
#![tactic(auto)]

mod forms;
mod running;
mod showing;
mod streams;
mod users;

use cases::run_files;
use running::HttpCases;
use std::io;
use std::process::ExitCode;

fn main(rt: HostRuntime) -> io::Result<ExitCode> {
    run_files(&rt, &HttpCases)
}
