/// What is counted of a line.
#[derive(Clone, Copy, Debug, PartialEq, Eq)]
pub enum Kind {
    /// A reading reply.
    Read,
    /// A commit.
    Commit,
    /// A conflict.
    Conflict,
    /// A request that was given up.
    GivenUp,
    /// Any other line.
    Other,
}

/// How many lines of each kind there are. A count stays at `2^64 - 1`.
#[derive(Clone, Copy, Debug, PartialEq, Eq)]
pub struct Tally {
    /// Reading replies.
    pub reads: u64,
    /// Commits.
    pub commits: u64,
    /// Conflicts.
    pub conflicts: u64,
    /// Requests that were given up.
    pub given_up: u64,
}
