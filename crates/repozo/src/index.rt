ghost use Rattle.std.specs.Prelude.{◌≡◌, ◌++◌, ◌∷◌, [], List, IfOk, OnOk, codes, flat_map};
ghost use Rattle.hex.specs.Hex.{encode_lower};
ghost use Rattle.repozo.specs.Index.{end_of, index_text, row_text};

use hex::encode_to_slice;
use std::alloc::Global;
use zbase::{Bytes, Items, Memory, Text};

/// The most pieces of a backup.
pub const MAX_PIECES: usize = 100;

/// A line of the index: a piece, and what of the file it holds.
#[derive(Debug, Drop)]
pub struct PieceRow {
    /// The name of the piece, without LF.
    pub name: Text,
    /// Where in the file its first byte stands.
    pub start: u64,
    /// Where in the file its last byte ends.
    pub end: u64,
    /// The MD5 of its bytes.
    pub md5: [u8; 16],
}

/// Lines of an index, in order.
pub type PieceRows = Items<PieceRow>;

/// Why bytes are no index.
#[derive(Clone, Copy, Debug, PartialEq, Eq)]
pub enum IndexRefusal {
    /// The line with this number fits no rule. The first line is 1. Input that ends early is bad at the line in which it
    /// ends, or at the next number where a whole line came last; bytes behind `end` are bad at the next number.
    BadIndex(u64),
    /// Want of memory.
    Memory,
}

// Where the last of the rows ends; 0 for none.
pub(crate) fn end_of(rows: &[PieceRow]) -> u64
    ensures { result ≡ end_of rows.now }
{
    match rows.last() {
        Some(row) => row.end,
        None => 0,
    }
}

// Adds the digits of a digest.
fn put_digest(out: &mut Bytes, md5: &[u8; 16]) -> Result<(), Memory>
    ensures { OnOk result (out.new ≡ out.old ++ encode_lower md5.now) }
{
    let mut digits = [0u8; 32];
    match encode_to_slice(md5.as_slice(), &mut digits) {
        Ok(()) => out.append(digits.as_slice()),
        Err(_) => unreachable!(),
    }
}

// Adds the line of a row.
fn put_row(alloc: Global, out: &mut Bytes, row: &PieceRow) -> Result<(), Memory>
    ensures { OnOk result (out.new ≡ out.old ++ row_text row.now) }
{
    out.append(row.name.as_bytes())?;
    out.append(b" ")?;
    out.append(row.start.to_string(alloc)?.as_bytes())?;
    out.append(b" ")?;
    out.append(row.end.to_string(alloc)?.as_bytes())?;
    out.append(b" ")?;
    put_digest(out, &row.md5)?;
    out.append(b"\n")?;
    Ok(())
}

/// The text of an index.
pub fn write_index(alloc: Global, rows: &PieceRows) -> Result<Bytes, Memory>
    ensures { IfOk result (λ text. text ≡ index_text rows.now) }
{
    let mut out = Bytes::new(alloc);
    for row in rows.as_slice() {
        put_row(alloc, &mut out, row)?;
    }
    out.append(b"end\n")?;
    Ok(out)
}
