use fs_record::{Item, TxnTexts};
use zbase::{Items, Tid};

/// A vote that is out: who holds it, what its transaction writes, and that one's size in the file.
#[derive(Drop)]
pub(crate) struct Waiting {
    pub(crate) holder: u32,
    pub(crate) tid: Tid,
    pub(crate) texts: TxnTexts,
    /// By rising object id.
    pub(crate) items: Items<Item>,
    pub(crate) size: u64,
}
