use zbase::{Oid, Tid};

/// The head of a transaction record.
///
/// FileStorage format notes, "transaction record".
#[derive(Clone, Copy, Debug, PartialEq, Eq)]
pub struct TxnHead {
    /// The transaction's id.
    pub tid: Tid,
    /// The record's size in bytes less its tail, which stands again at its end.
    pub length: u64,
    /// Space for committed, `p` for committed and packed, `u` for undone in the old manner, `c` for not
    /// finished.
    pub status: u8,
    /// The length of the user's name in bytes.
    pub user: u16,
    /// The length of the description in bytes.
    pub description: u16,
    /// The length of the extension in bytes.
    pub extension: u16,
}

/// The head of a data record.
///
/// FileStorage format notes, "data record".
#[derive(Clone, Copy, Debug, PartialEq, Eq)]
pub struct DataHead {
    /// Whose value it is.
    pub oid: Oid,
    /// The id of its transaction.
    pub tid: Tid,
    /// The place of the object's last data record in an earlier transaction, 0 for none.
    pub prev: u64,
    /// The place at which its transaction begins.
    pub start: u64,
    /// Two bytes that are zero; once the length of a version's name.
    pub version: u16,
    /// The length of the data in bytes, 0 where a back pointer stands in its place.
    pub length: u64,
}

/// Why bytes have no head.
#[derive(Clone, Copy, Debug, PartialEq, Eq)]
pub enum RecordRefusal {
    /// They are fewer than a head has.
    Short,
}
