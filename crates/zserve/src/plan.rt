/// What a server is to do.
#[derive(Clone, Copy, Debug, PartialEq, Eq)]
pub struct ServePlan {
    /// The port to listen on.
    pub port: u16,
    /// How many connections to accept, at most.
    pub connections: u64,
    /// How many of them may share a round, 1 to 16.
    pub clients: u32,
}

/// What a server did.
#[derive(Clone, Copy, Debug, PartialEq, Eq)]
pub struct Served {
    /// How many connections it accepted.
    pub connections: u64,
    /// How many of them sent a message, and so have a reply.
    pub replies: u64,
}
