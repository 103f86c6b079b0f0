ghost use Rattle.std.specs.Prelude.{◌≡◌, ◌+◌, ◌<◌, ◌^◌};
ghost use Rattle.fs_record.specs.Reading.{texts_end};
ghost use Rattle.fs_record.specs.Sizes.{record_size, records_size, texts_size};

use crate::layout::{BACK_RECORD_LEN, BARE_TXN_LEN, DATA_HEAD_LEN, TXN_HEAD_LEN};
use crate::{Body, Item, TxnHead, TxnTexts};

/// The size of an item's data record in bytes.
pub fn record_size(item: &Item) -> usize
    requires { record_size item.now < 2 ^ 64 }
    ensures { result ≡ record_size item.now }
{
    match &item.body {
        Body::Full(bytes) => DATA_HEAD_LEN + bytes.len(),
        Body::Back(_) => BACK_RECORD_LEN,
    }
}

// The size of the items' data records in bytes.
fn records_size(items: &[Item]) -> usize
    requires { records_size items.now < 2 ^ 64 }
    ensures { result ≡ records_size items.now }
{
    let mut size = 0;
    for item in items {
        size += record_size(item);
    }
    size
}

/// The size of a transaction's texts in bytes.
pub fn texts_size(texts: &TxnTexts) -> usize
    requires { texts_size texts.now < 2 ^ 64 }
    ensures { result ≡ texts_size texts.now }
{
    texts.user.len() + texts.description.len() + texts.extension.len()
}

/// The size in bytes of the transaction record with these texts and items.
pub(crate) fn txn_size(texts: &TxnTexts, items: &[Item]) -> usize
    requires { BARE_TXN_LEN + texts_size texts.now + records_size items.now < 2 ^ 64 }
    ensures { result ≡ BARE_TXN_LEN + texts_size texts.now + records_size items.now }
{
    BARE_TXN_LEN + texts_size(texts) + records_size(items)
}

/// Where the texts end of a transaction with this head, and its data records begin, in bytes from its start.
pub fn texts_end(head: &TxnHead) -> usize
    ensures { result ≡ texts_end head.now }
{
    TXN_HEAD_LEN + head.user as usize + head.description as usize + head.extension as usize
}
