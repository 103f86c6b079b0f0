ghost use Rattle.std.specs.Prelude.{◌≡◌, ℕ};
ghost use Rattle.zio.specs.Hubs.{opened};
ghost use Rattle.zio.specs.MemoryHubs.{connection};

use crate::unread::Unread;
use std::alloc::Global;
use zbase::Bytes;

/// A connection that a hub in memory has accepted.
#[derive(Drop)]
pub struct MemoryConnection {
    /// What reads will give.
    pub left: Unread,
    /// What was written.
    pub written: Bytes,
    /// Whether it has not been closed.
    pub is_open: bool,
    /// How often a read has failed.
    pub read_faults: u64,
    /// How often a write has failed.
    pub write_faults: u64,
}

impl MemoryConnection {
    /// An open connection, whose peer has sent these bytes; a read gives `piece` of them at most.
    pub fn new(alloc: Global, bytes: Bytes, piece: usize) -> MemoryConnection
        ensures { (n : ℕ) → connection n result ≡ opened n bytes }
    {
        MemoryConnection {
            left: Unread::in_pieces(bytes, piece),
            written: Bytes::new(alloc),
            is_open: true,
            read_faults: 0,
            write_faults: 0,
        }
    }
}
