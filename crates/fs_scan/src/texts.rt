ghost use Rattle.std.specs.Prelude.{◌≡◌, ◌≤◌, length, drop, IfOk};
ghost use Rattle.fs_record.specs.Reading.{texts_end, texts_read};

use fs_record::{TXN_HEAD_LEN, TxnHead, TxnTexts};
use std::alloc::Global;
use zbase::{Bytes, Memory};

/// The texts behind a transaction's head.
pub fn copy_texts(alloc: Global, rest: &[u8], head: &TxnHead) -> Result<TxnTexts, Memory>
    requires { texts_end head.now ≤ length rest.now }
    ensures { IfOk result (λ texts. texts ≡ texts_read head.now (drop TXN_HEAD_LEN rest.now)) }
{
    let description = TXN_HEAD_LEN + head.user as usize;
    let extension = description + head.description as usize;
    let end = extension + head.extension as usize;
    Ok(TxnTexts {
        user: Bytes::from_slice(alloc, &rest[TXN_HEAD_LEN..description])?,
        description: Bytes::from_slice(alloc, &rest[description..extension])?,
        extension: Bytes::from_slice(alloc, &rest[extension..end])?,
    })
}
