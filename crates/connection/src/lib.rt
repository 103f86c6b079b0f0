//! The typed states of one request over a store: fresh, active, pending.
//!
//! An attempt begins at the last transaction and evaluates its request again and again, each time with one fact
//! more of the history up to there. An answer ends the request. A change votes: where every object that was
//! fetched still has the serial that it had, the vote is out, and finishing it makes the transaction stand; else
//! the request begins anew, and is given up at its fourth conflict. Every refusal hands the state back. A store whose
//! disk failed is opened again by the next call that reads from it or votes.
//!
//! ZODB Programming Guide, "Transactions and concurrency": optimistic validation, retries after conflicts.
#![tactic(auto)]

mod active;
mod conflicts;
mod fresh;
mod learning;
mod pending;
mod refusal;
mod turned;

pub use active::Active;
pub use conflicts::Conflicts;
pub use fresh::Fresh;
pub use pending::Pending;
pub use refusal::{BeginRefusal, CommitRefusal, TurnRefusal};
pub use turned::Turned;
