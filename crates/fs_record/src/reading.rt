ghost use Rattle.std.specs.Prelude.{◌≡◌, ◌++◌, ◌<◌, ◌≤◌, length, drop, MatchResult, IfOk, OnOk};
ghost use Rattle.fs_record.specs.Fits.{FitsTxnHead, FitsDataHead};
ghost use Rattle.fs_record.specs.Spelling.{txn_head, data_head};

use crate::layout::{
    DATA_HEAD_LEN, DATA_LENGTH_AT, DESCRIPTION_AT, EXTENSION_AT, PREV_AT, START_AT, STATUS_AT,
    TID_AT, TXN_HEAD_LEN, TXN_LENGTH_AT, USER_AT, VERSION_AT,
};
use crate::{DataHead, RecordRefusal, TxnHead};
use zbase::{Oid, Tid, u16_at, u64_at};

/// The head of a transaction record that stands at the front. Takes no memory.
pub fn read_txn_head(bytes: &[u8]) -> Result<TxnHead, RecordRefusal>
    ensures head { MatchResult result (λ h. bytes.now ≡ txn_head h ++ drop TXN_HEAD_LEN bytes.now) (λ _. length bytes.now < TXN_HEAD_LEN) }
    ensures fits { IfOk result FitsTxnHead }
    ensures long { OnOk result (TXN_HEAD_LEN ≤ length bytes.now) }
{
    if bytes.len() < TXN_HEAD_LEN {
        return Err(RecordRefusal::Short);
    }
    Ok(TxnHead {
        tid: Tid(u64_at(bytes, 0)),
        length: u64_at(bytes, TXN_LENGTH_AT),
        status: bytes[STATUS_AT],
        user: u16_at(bytes, USER_AT),
        description: u16_at(bytes, DESCRIPTION_AT),
        extension: u16_at(bytes, EXTENSION_AT),
    })
}

/// The head of a data record that stands at the front. Takes no memory.
pub fn read_data_head(bytes: &[u8]) -> Result<DataHead, RecordRefusal>
    ensures head { MatchResult result (λ h. bytes.now ≡ data_head h ++ drop DATA_HEAD_LEN bytes.now) (λ _. length bytes.now < DATA_HEAD_LEN) }
    ensures fits { IfOk result FitsDataHead }
    ensures long { OnOk result (DATA_HEAD_LEN ≤ length bytes.now) }
{
    if bytes.len() < DATA_HEAD_LEN {
        return Err(RecordRefusal::Short);
    }
    Ok(DataHead {
        oid: Oid(u64_at(bytes, 0)),
        tid: Tid(u64_at(bytes, TID_AT)),
        prev: u64_at(bytes, PREV_AT),
        start: u64_at(bytes, START_AT),
        version: u16_at(bytes, VERSION_AT),
        length: u64_at(bytes, DATA_LENGTH_AT),
    })
}
