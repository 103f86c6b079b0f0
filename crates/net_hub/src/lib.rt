//! The hub of this machine's sockets: it reads connections side by side, so that none holds the others up.
#![tactic(auto)]

mod client;
mod clients;
mod faults;
mod hub;
mod limits;
mod listener;

pub use hub::NetHub;
