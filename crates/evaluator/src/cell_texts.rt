ghost use Rattle.std.specs.Prelude.{◌≡◌, option_map};
ghost use Rattle.evaluator.specs.Cells.{behind, copy_in, id_behind, read_hex16, takes_cell};

use crate::CellRequest;
use zbase::{Oid, Tid, read_hex16};

// What is behind a front.
fn behind<'a>(bytes: &'a [u8], front: &[u8]) -> Option<&'a [u8]>
    ensures { option_map (λ rest. rest.now) result ≡ behind front.now bytes.now }
{
    bytes.strip_prefix(front)
}

// The id of which these bytes are the digits, all of them.
fn id_in(digits: &[u8]) -> Option<u64>
    ensures { result ≡ read_hex16 digits.now }
{
    let id = read_hex16(digits)?;
    Some(id)
}

// The id behind a front.
fn id_behind(bytes: &[u8], front: &[u8]) -> Option<u64>
    ensures { result ≡ id_behind front.now bytes.now }
{
    id_in(behind(bytes, front)?)
}

// The copy of two ids with a space between them.
fn copy_in(ids: &[u8]) -> Option<CellRequest>
    ensures { result ≡ copy_in ids.now }
{
    if ids.len() < 16 {
        return None;
    }
    let (from, to) = ids.split_at(16);
    let from = id_in(from)?;
    let to = id_behind(to, b" ")?;
    Some(CellRequest::Copy(Oid(from), Oid(to)))
}

/// The request of which these bytes are the text, none where they are no request's. Takes no memory.
pub(crate) fn read_request(bytes: &[u8]) -> Option<CellRequest>
    ensures { result ≡ takes_cell bytes.now }
{
    if let Some(oid) = id_behind(bytes, b"read ") {
        return Some(CellRequest::Read(Oid(oid)));
    }
    if let Some(ids) = behind(bytes, b"copy ") {
        return copy_in(ids);
    }
    if let Some(oid) = id_behind(bytes, b"new ") {
        return Some(CellRequest::New(Oid(oid)));
    }
    if let Some(tid) = id_behind(bytes, b"part ") {
        return Some(CellRequest::Part(Tid(tid)));
    }
    match behind(bytes, b"log") {
        Some([]) => Some(CellRequest::Log),
        _ => None,
    }
}
