use zbase::Tid;

/// What a packed file has.
#[derive(Clone, Copy, Debug, PartialEq, Eq)]
pub struct Packed {
    /// Where it ends, in bytes from its start.
    pub end: u64,
    /// The id of the last packed transaction, 0 for none.
    pub floor: Tid,
    /// The number of its transactions.
    pub count: u64,
}
