/// How many connections are open at once; more wait in the listener.
pub(crate) const MOST_CLIENTS: usize = 1024;

/// After how many connections handed in the others go on.
pub(crate) const MOST_HANDED: usize = 16;

/// How many bytes all connections together may hold. Their buffers grow by doubling, so the memory is 256 MB at most.
pub(crate) const MOST_HELD: usize = 128 << 20;

/// How many bytes are read at once.
pub(crate) const PIECE: usize = 65536;

/// How many bytes of what a peer goes on sending are read away behind its reply.
pub(crate) const MOST_DRAINED: usize = 65536;

/// How many seconds a connection may take to send its message, and how many to take its reply.
pub(crate) const PATIENCE: u64 = 30;

/// For how many seconds a connection isn't given up for want of room.
pub(crate) const GRACE: u64 = 1;

/// For how many seconds what a peer goes on sending is read away.
pub(crate) const LINGER: u64 = 1;

/// After how many milliseconds deadlines are looked at again.
pub(crate) const TICK: u64 = 250;
