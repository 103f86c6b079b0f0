use zbase::{Bytes, Oid};

/// What stands behind the head of a data record.
#[derive(Debug, Drop)]
pub enum Body {
    /// The object's data, not empty.
    Full(Bytes),
    /// The place of an earlier data record of the object, whose value is meant; 0 for none.
    Back(u64),
}

/// What a transaction writes of one object, before it has its place in a file.
#[derive(Debug, Drop)]
pub struct Item {
    /// Whose value it is.
    pub oid: Oid,
    /// The place of the object's last data record in an earlier transaction, 0 for none.
    pub prev: u64,
    /// Its data, or where its value stands.
    pub body: Body,
}

/// The texts of a transaction, each at most 65,535 bytes.
#[derive(Debug, Drop)]
pub struct TxnTexts {
    pub user: Bytes,
    pub description: Bytes,
    pub extension: Bytes,
}
