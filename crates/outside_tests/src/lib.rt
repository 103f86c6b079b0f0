//! Tests of the outside that no file of cases can say: the adapters over the system's files and streams, and the objects
//! in memory that no driver of cases uses.
#![tactic(auto)]

#[cfg(test)]
mod counts;
#[cfg(test)]
mod files;
#[cfg(test)]
mod streams;
