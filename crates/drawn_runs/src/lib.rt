//! Runs that are drawn: a number gives a schedule of twenty rounds, in which eight workers read and edit a new site.
//!
//! `specs/Drawing` has the numbers that are drawn, `specs/Messages` the four messages that a worker may be given, and
//! `specs/Rounds` the schedule.
#![tactic(auto)]

mod drawing;
mod message;
mod rounds;

pub use rounds::drawn_run;
