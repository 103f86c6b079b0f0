//! Reads the documents of catalogs, makes calls on them, searches them, and writes them again, for each case of the files that its words
//! name, and tells which are wrong.
#![tactic(auto)]

mod documents;
mod finding;
mod running;

use cases::run_files;
use running::CatalogRuns;
use std::io;
use std::process::ExitCode;

fn main(rt: HostRuntime) -> io::Result<ExitCode> {
    run_files(&rt, &CatalogRuns)
}
