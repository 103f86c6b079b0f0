//! The words of the command line, read by `clap`.
//!
//! `specs/CommandLine` has the command in clap's own words (`clap`'s documentation, `Command` and `Arg`): one level of
//! subcommands, and no help or version words of clap's. `specs/Asking` says what the words ask for: nothing where clap's
//! definition refuses them, or where a number, an id or a repository's name breaks its rule.
#![tactic(auto)]

mod asking;
mod command_line;
mod names;
mod numbers;

pub use asking::{Asked, WordsRefusal, read_words};
