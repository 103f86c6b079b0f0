//! A store: the history of a disk's file, which grows by voted transactions, one vote at a time.
//!
//! A reader asks what the history up to a transaction says. A writer votes with a draft and the objects that it
//! read; the vote is refused where one of these has a later serial. Else its record stands behind the file with status
//! `c`, which counts as a torn rest, until it is finished by one byte or cut off again.
//!
//! A store whose disk failed in a vote, a finish or an abort is stale. Its next load, look or vote opens the disk again,
//! and settles then whether the transaction of a finish that failed counts.
//!
//! Of the file a store keeps where it ends, its numbers and each object's newest place (`OpenFile`, `specs/Knowing`);
//! all else is read where it stands (`specs/Finding`), and a transaction is looked for from the file's end back
//! (`specs/Seeking`). `specs/Stores` says what a store is seen as, `specs/Fronts` which
//! history its disk's file says, `specs/Verdicts` when a vote is refused, `specs/Moments` what a stop at any moment may
//! leave, `specs/Opened` what opening makes of a disk, `specs/Staleness` what the disk of a stale store may hold, and
//! `specs/StaleLaws` what its history becomes.
#![tactic(auto)]

mod arming;
mod copying;
mod file;
mod finding;
mod finishing;
mod laws;
mod loading;
mod logging;
mod opening;
mod parts;
mod reads;
mod recent;
mod refusal;
mod seeking;
mod settling;
mod store;
mod verdict;
mod voted;
mod voting;
mod waiting;

pub use laws::stopped_settles;
pub use opening::OpenRefusal;
pub use reads::{Loaded, Seen};
pub use refusal::{AbortRefusal, FinishRefusal, LoadRefusal, Spent, VoteRefusal};
pub use store::Store;
pub use voted::Voted;
