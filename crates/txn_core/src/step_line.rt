use evaluator::{Ask, Reply};
use fs_store::Spent;
use zbase::{Clash, Tid};

/// What a step of a worker answers.
#[derive(Debug, Drop)]
pub enum StepLine {
    /// The worker has no request.
    Idle,
    /// An attempt began at this snapshot.
    Begun(Tid),
    /// A fact was fetched.
    Fetched(Ask),
    /// The attempt's change is ready.
    Computed,
    /// The vote was refused, since this worker stands between vote and finish. The attempt stays.
    Busy(u32),
    /// The attempt voted, and its transaction has this id once it is finished.
    Voted(Tid),
    /// An object that was fetched has a later serial now. The request begins anew.
    Conflict(Clash),
    /// The fourth conflict ended the request: all four, from the first.
    GivenUp([Clash; 4]),
    /// The request ended with the answer at this snapshot.
    Read(Reply, Tid),
    /// The request ended, and its transaction stands.
    Commit(Reply, Tid),
    /// The request ended, since something is spent.
    Spent(Spent),
    /// The request ended, since the disk failed.
    DiskFault,
    /// The request ended for want of memory.
    Memory,
    /// The request ended, since the disk failed in its finish: whether its transaction stands isn't known.
    Unknown(Tid),
}
