ghost use Rattle.std.specs.Prelude.{◌≡◌, ◌++◌, ◌+◌, ◌<◌, ◌≤◌, ◌^◌, length, OnOk, OnErr, All, vec_capacity};
ghost use Rattle.zbase.specs.Numbers.{be64, be16};
ghost use Rattle.fs_record.specs.Fits.{FitsTxnHead, FitsDataHead};
ghost use Rattle.fs_record.specs.Sizes.{record_size, records_size, texts_size};
ghost use Rattle.fs_record.specs.Spelling.{txn_head, data_head, data_spelling, texts_spelling, inside_spelling, block_spelling, Records};
ghost use Rattle.fs_record.specs.Written.{data_of, records_of, transaction, HasBody, FitsItem, IsWritable};

use crate::layout::{DATA_HEAD_LEN, NUMBER_LEN, TAIL_LEN, TXN_HEAD_LEN};
use crate::sizes::txn_size;
use crate::{Body, DataHead, Item, TxnHead, TxnTexts};
use std::mem;
use zbase::{Bytes, Memory, Tid};

// The functions `put_..` write into room that was made before, and so can't fail. Their clauses `fits` say what the
// types of numbers say, of numbers that stand behind a reference.

fn put(out: &mut Vec<u8>, bytes: &[u8])
    requires { length out.old.items + length bytes.now ≤ vec_capacity out.old }
    ensures items { out.new.items ≡ out.old.items ++ bytes.now }
    ensures len { length out.new.items ≡ length out.old.items + length bytes.now }
    ensures capacity { vec_capacity out.old ≤ vec_capacity out.new }
{
    match out.extend_from_slice(bytes) {
        Ok(()) => (),
        Err(_) => unreachable!(),
    }
}

#[tactic(auto, unfolding(zbase::specs::Numbers::be64))]
fn put_u64(out: &mut Vec<u8>, n: u64)
    requires { length out.old.items + NUMBER_LEN ≤ vec_capacity out.old }
    ensures items { out.new.items ≡ out.old.items ++ be64 n }
    ensures len { length out.new.items ≡ length out.old.items + NUMBER_LEN }
    ensures fits { n < 2 ^ 64 }
    ensures capacity { vec_capacity out.old ≤ vec_capacity out.new }
{
    put(out, &n.to_be_bytes());
}

#[tactic(auto, unfolding(zbase::specs::Numbers::be16))]
fn put_u16(out: &mut Vec<u8>, n: u16)
    requires { length out.old.items + 2 ≤ vec_capacity out.old }
    ensures items { out.new.items ≡ out.old.items ++ be16 n }
    ensures len { length out.new.items ≡ length out.old.items + 2 }
    ensures fits { n < 2 ^ 16 }
    ensures capacity { vec_capacity out.old ≤ vec_capacity out.new }
{
    put(out, &n.to_be_bytes());
}

fn put_txn_head(out: &mut Vec<u8>, h: &TxnHead)
    requires { length out.old.items + TXN_HEAD_LEN ≤ vec_capacity out.old }
    ensures items { out.new.items ≡ out.old.items ++ txn_head h.now }
    ensures len { length out.new.items ≡ length out.old.items + TXN_HEAD_LEN }
    ensures fits { FitsTxnHead h.now }
    ensures capacity { vec_capacity out.old ≤ vec_capacity out.new }
{
    put_u64(out, h.tid.0);
    put_u64(out, h.length);
    put(out, &[h.status]);
    put_u16(out, h.user);
    put_u16(out, h.description);
    put_u16(out, h.extension);
}

fn put_data_head(out: &mut Vec<u8>, h: &DataHead)
    requires { length out.old.items + DATA_HEAD_LEN ≤ vec_capacity out.old }
    ensures items { out.new.items ≡ out.old.items ++ data_head h.now }
    ensures len { length out.new.items ≡ length out.old.items + DATA_HEAD_LEN }
    ensures fits { FitsDataHead h.now }
    ensures capacity { vec_capacity out.old ≤ vec_capacity out.new }
{
    put_u64(out, h.oid.0);
    put_u64(out, h.tid.0);
    put_u64(out, h.prev);
    put_u64(out, h.start);
    put_u16(out, h.version);
    put_u64(out, h.length);
}

#[tactic(auto, unfolding(crate::specs::Spelling::data_spelling))]
fn put_record(out: &mut Vec<u8>, start: u64, tid: Tid, item: &Item)
    requires room { length out.old.items + record_size item.now ≤ vec_capacity out.old }
    requires body { HasBody item.now }
    ensures items { out.new.items ≡ out.old.items ++ data_spelling (data_of tid start item.now) }
    ensures len { length out.new.items ≡ length out.old.items + record_size item.now }
    ensures fits { FitsItem item.now }
    ensures capacity { vec_capacity out.old ≤ vec_capacity out.new }
{
    let length = match &item.body {
        Body::Full(bytes) => bytes.len() as u64,
        Body::Back(_) => 0,
    };
    let head = DataHead {
        oid: item.oid,
        tid,
        prev: item.prev,
        start,
        version: 0,
        length,
    };
    put_data_head(out, &head);
    match &item.body {
        Body::Full(bytes) => put(out, bytes.as_slice()),
        Body::Back(place) => put_u64(out, *place),
    }
}

fn put_records(out: &mut Vec<u8>, start: u64, tid: Tid, items: &[Item])
    requires room { length out.old.items + records_size items.now ≤ vec_capacity out.old }
    requires bodies { All HasBody items.now }
    ensures items { out.new.items ≡ out.old.items ++ inside_spelling (Records (records_of tid start items.now)) }
    ensures len { length out.new.items ≡ length out.old.items + records_size items.now }
    ensures fits { All FitsItem items.now }
    ensures capacity { vec_capacity out.old ≤ vec_capacity out.new }
{
    for item in items {
        put_record(out, start, tid, item);
    }
}

fn put_texts(out: &mut Vec<u8>, texts: &TxnTexts)
    requires { length out.old.items + texts_size texts.now ≤ vec_capacity out.old }
    ensures items { out.new.items ≡ out.old.items ++ texts_spelling texts.now }
    ensures len { length out.new.items ≡ length out.old.items + texts_size texts.now }
    ensures capacity { vec_capacity out.old ≤ vec_capacity out.new }
{
    put(out, texts.user.as_slice());
    put(out, texts.description.as_slice());
    put(out, texts.extension.as_slice());
}

// The transaction behind the bytes. All its room is taken before the first byte.
#[tactic(auto, unfolding(crate::specs::Spelling::block_spelling))]
fn append_txn(
    out: &mut Vec<u8>,
    start: u64,
    tid: Tid,
    status: u8,
    texts: &TxnTexts,
    items: &[Item],
) -> Result<(), Memory>
    requires user { length texts.now.user < 2 ^ 16 }
    requires description { length texts.now.description < 2 ^ 16 }
    requires extension { length texts.now.extension < 2 ^ 16 }
    requires bodies { All HasBody items.now }
    requires fits { start + length (block_spelling (transaction start tid status texts.now items.now)) < 2 ^ 64 }
    ensures ok { OnOk result (out.new.items ≡ out.old.items ++ block_spelling (transaction start tid status texts.now items.now)) }
    ensures err { OnErr result (out.new.items ≡ out.old.items) }
    ensures writable { OnOk result (IsWritable start tid status texts.now items.now) }
{
    let size = txn_size(texts, items);
    out.reserve(size)?;
    let length = (size - TAIL_LEN) as u64;
    let head = TxnHead {
        tid,
        length,
        status,
        user: texts.user.len() as u16,
        description: texts.description.len() as u16,
        extension: texts.extension.len() as u16,
    };
    put_txn_head(out, &head);
    put_texts(out, texts);
    put_records(out, start, tid, items);
    put_u64(out, length);
    Ok(())
}

/// Appends the one spelling of the transaction that begins at a place and writes these items.
///
/// The place is the length of the file that it goes behind. Each text has at most 65,535 bytes, no full body is empty,
/// and the transaction's end is a place below 2^64. Memory comes from the buffer's own allocator, all at once; for
/// want of it the buffer stays as it was. `writable` tells that all numbers fit, as `written_behind` asks.
///
/// FileStorage format notes, "transaction record" and "data record".
pub fn write_txn(
    out: &mut Bytes,
    start: u64,
    tid: Tid,
    status: u8,
    texts: &TxnTexts,
    items: &[Item],
) -> Result<(), Memory>
    requires user { length texts.now.user < 2 ^ 16 }
    requires description { length texts.now.description < 2 ^ 16 }
    requires extension { length texts.now.extension < 2 ^ 16 }
    requires bodies { All HasBody items.now }
    requires fits { start + length (block_spelling (transaction start tid status texts.now items.now)) < 2 ^ 64 }
    ensures ok { OnOk result (out.new ≡ out.old ++ block_spelling (transaction start tid status texts.now items.now)) }
    ensures err { OnErr result (out.new ≡ out.old) }
    ensures writable { OnOk result (IsWritable start tid status texts.now items.now) }
{
    let alloc = out.alloc();
    let mut bytes = mem::replace(out, Bytes::new(alloc)).into_vec();
    let written = append_txn(&mut bytes, start, tid, status, texts, items);
    *out = Bytes::from_vec(bytes);
    written
}
