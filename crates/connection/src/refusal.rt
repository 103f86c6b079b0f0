use crate::{Active, Fresh};
use evaluator::Evaluator;
use fs_store::Spent;
use zbase::Clash;

/// Why an attempt didn't begin. The request comes back.
#[derive(Clone, Copy, Debug, PartialEq, Eq)]
pub enum BeginRefusal {
    /// The disk failed.
    Disk,
    /// Want of memory.
    Memory,
}

/// Why an attempt wasn't evaluated, or its fact not fetched. The attempt comes back.
#[derive(Clone, Copy, Debug, PartialEq, Eq)]
pub enum TurnRefusal {
    /// The disk failed.
    Disk,
    /// Want of memory.
    Memory,
}

/// Why a vote was refused, with the state that comes back.
pub enum CommitRefusal<E: Evaluator> {
    /// This worker's vote is out.
    Busy(u32, Active<E>),
    /// An object that was fetched has a later serial now. The request keeps the conflict and begins anew.
    Conflict(Clash, Fresh<E>),
    /// That was the fourth conflict of the request: all four, from the first.
    GivenUp([Clash; 4]),
    /// Something is spent, as the store says.
    Spent(Spent, Active<E>),
    /// The disk failed. The attempt may be without its reply and its change.
    Disk(Active<E>),
    /// Want of memory. It never comes while another vote is out. The attempt may be without its reply and its change.
    Memory(Active<E>),
}
