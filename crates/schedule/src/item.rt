use zbase::{Bytes, Items, Tid};

/// There are sixteen workers, 0 to 15.
pub const WORKERS: usize = 16;

/// One line of a schedule.
#[derive(Debug, Drop)]
pub enum Item2 {
    /// `request W LEN`: the worker is given a request of these bytes.
    Request(u32, Bytes),
    /// `step W`: one event of the worker.
    Step(u32),
    /// `clock HEX`: the stamp for later votes, in sixteen hexadecimal digits.
    Clock(Tid),
    /// `stop N SEED`: arms a stop of the machine at the N-th device call, N at least 1; the seed picks what the disk
    /// has then.
    Stop(u64, u64),
    /// `fail N SEED`: arms a failure of the N-th device call, N at least 1; the seed picks what it leaves.
    Fail(u64, u64),
    /// `pack TID`: the history up to this transaction is packed, where no worker has a request.
    Pack(Tid),
    /// `end`: the run ends.
    End,
}

/// The lines of a schedule, in order, without its first line and its `end`.
pub type Schedule = Items<Item2>;
