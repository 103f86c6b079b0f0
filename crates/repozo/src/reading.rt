ghost use Rattle.std.specs.Prelude.{◌≡◌, ◌≢◌, ◌++◌, ◌∷◌, ◌<◌, ◌≤◌, ◌^◌, ◌⊎◌, ℕ, [], List, Err, decimal, IfNone, IfOk, IfSome, MatchOption, IsErrOf, length};
ghost use Rattle.hex.specs.Hex.{encode_lower};
ghost use Rattle.repozo.specs.BadLines.{GoesOn, IsBadAt};
ghost use Rattle.repozo.specs.Index.{HasLine, IsDigest, IsIndex, Lacks, end_line, end_of, row_text};
ghost use Rattle.repozo.specs.declared.reading.Unread.TheVariants.{Bad, Memory};

use crate::index::{IndexRefusal, MAX_PIECES, PieceRow, PieceRows, end_of};
use hex::{decode_to_slice, encode_to_slice};
use std::alloc::{AllocError, Global};
use zbase::{Memory as NoMemory, Text};

// Why a row was not read.
#[derive(Clone, Copy, Debug, PartialEq, Eq)]
enum Unread {
    Bad,
    Memory,
}

impl From<AllocError> for Unread {
    ghost from_gives = { λ _ e. e ≡ Memory };

    fn from(_: AllocError) -> Unread {
        Unread::Memory
    }
}

impl From<NoMemory> for Unread {
    ghost from_gives = { λ _ e. e ≡ Memory };

    fn from(_: NoMemory) -> Unread {
        Unread::Memory
    }
}

// What is before the first such byte, and what is behind it.
fn split_first(bytes: &[u8], byte: u8) -> Option<(&[u8], &[u8])>
    ensures parts { MatchOption result (Lacks byte bytes.now) (λ parts. bytes.now ≡ parts.0.now ++ byte ∷ parts.1.now) }
    ensures first { IfSome result (λ parts. Lacks byte parts.0.now) }
{
    let at = bytes.iter().position(|b| *b == byte)?;
    Some((&bytes[..at], &bytes[at + 1..]))
}

// What is before the last such byte, and what is behind it.
fn split_last(bytes: &[u8], byte: u8) -> Option<(&[u8], &[u8])>
    ensures parts { MatchOption result (Lacks byte bytes.now) (λ parts. bytes.now ≡ parts.0.now ++ byte ∷ parts.1.now) }
    ensures last { IfSome result (λ parts. Lacks byte parts.1.now) }
{
    let mut at = bytes.len();
    'looking: while at > 0 {
        if bytes[at - 1] == byte {
            return Some((&bytes[..at - 1], &bytes[at..]));
        }
        at -= 1;
    }
    None
}

// The number whose decimal form the text is. It is read, printed again and compared, so that leading zeros, signs and spaces
// are refused.
fn read_decimal(alloc: Global, text: &[u8]) -> Result<u64, Unread>
    ensures number { IfOk result (λ n. text.now ≡ decimal n) }
    ensures bad { result ≡ Err Bad → (n : ℕ) → n < 2 ^ 64 → text.now ≢ decimal n }
{
    let digits = std::str::from_utf8(text).ok().ok_or(Unread::Bad)?;
    let n: u64 = digits.parse().ok().ok_or(Unread::Bad)?;
    let again = n.to_string(alloc)?;
    if again.as_bytes() != text {
        return Err(Unread::Bad);
    }
    Ok(n)
}

// The digest whose lower-case digits the text is.
fn read_digest(text: &[u8]) -> Option<[u8; 16]>
    ensures some { IfSome result (λ digest. text.now ≡ encode_lower digest) }
    ensures digest { IfSome result IsDigest }
    ensures none { IfNone result ((digest : List ℕ) → IsDigest digest → text.now ≢ encode_lower digest) }
{
    let mut digest = [0u8; 16];
    let mut again = [0u8; 32];
    let Ok(()) = decode_to_slice(text, &mut digest) else {
        return None;
    };
    let Ok(()) = encode_to_slice(digest.as_slice(), &mut again) else {
        unreachable!();
    };
    if again.as_slice() != text {
        return None;
    }
    Some(digest)
}

// The row whose line this is, without its LF.
fn read_row(alloc: Global, line: &[u8]) -> Result<PieceRow, Unread>
    requires line { Lacks 10 line.now }
    ensures text { IfOk result (λ row. line.now ++ 10 ∷ [] ≡ row_text row) }
    ensures line { IfOk result HasLine }
    ensures bad { result ≡ Err Bad → (row : PieceRow) → HasLine row → line.now ++ 10 ∷ [] ≢ row_text row }
{
    let (front, digits) = split_last(line, b' ').ok_or(Unread::Bad)?;
    let (left, ends) = split_last(front, b' ').ok_or(Unread::Bad)?;
    let (named, starts) = split_last(left, b' ').ok_or(Unread::Bad)?;
    let md5 = read_digest(digits).ok_or(Unread::Bad)?;
    let end = read_decimal(alloc, ends)?;
    let start = read_decimal(alloc, starts)?;
    let name = std::str::from_utf8(named).ok().ok_or(Unread::Bad)?;
    if name.is_empty() {
        return Err(Unread::Bad);
    }
    if end <= start {
        return Err(Unread::Bad);
    }
    Ok(PieceRow {
        name: Text::from_str(alloc, name)?,
        start,
        end,
        md5,
    })
}

// The row that goes on behind these rows, and what is behind its line.
fn next_row<'a>(
    alloc: Global,
    rows: &[PieceRow],
    bytes: &'a [u8],
) -> Result<(PieceRow, &'a [u8]), Unread>
    ensures text { IfOk result (λ read. bytes.now ≡ row_text read.0 ++ read.1.now) }
    ensures line { IfOk result (λ read. HasLine read.0) }
    ensures start { IfOk result (λ read. read.0.start ≡ end_of rows.now) }
    ensures room { IfOk result (λ _. length rows.now < MAX_PIECES) }
    ensures bad { result ≡ Err Bad → GoesOn rows.now bytes.now → ⊥ }
{
    if rows.len() >= MAX_PIECES {
        return Err(Unread::Bad);
    }
    let (line, rest) = split_first(bytes, b'\n').ok_or(Unread::Bad)?;
    let row = read_row(alloc, line)?;
    if row.start != end_of(rows) {
        return Err(Unread::Bad);
    }
    Ok((row, rest))
}

// What is behind the end of an index, where its last line begins here; none where no row stands before it.
fn behind_end<'a>(rows: &[PieceRow], bytes: &'a [u8]) -> Option<&'a [u8]>
    ensures some { IfSome result (λ behind. (rows.now ≢ []) × (bytes.now ≡ end_line ++ behind.now)) }
    ensures none { IfNone result ((rows.now ≡ []) ⊎ ((rest : List ℕ) → bytes.now ≢ end_line ++ rest)) }
{
    if rows.is_empty() {
        return None;
    }
    bytes.strip_prefix(b"end\n")
}

/// The index that the bytes are, all of them.
pub fn read_index(alloc: Global, bytes: &[u8]) -> Result<PieceRows, IndexRefusal>
    ensures index { IfOk result (IsIndex bytes.now) }
    ensures bad_line { (n : ℕ) → IsErrOf result (IndexRefusal.BadIndex n) → IsBadAt bytes.now n }
{
    let mut rows = PieceRows::new(alloc);
    let mut rest = bytes;
    let mut line: u64 = 1;
    'reading: loop {
        if let Some(behind) = behind_end(rows.as_slice(), rest) {
            if behind.is_empty() {
                return Ok(rows);
            }
            return Err(IndexRefusal::BadIndex(line + 1));
        }
        match next_row(alloc, rows.as_slice(), rest) {
            Ok((row, others)) => {
                if rows.push(row).is_err() {
                    return Err(IndexRefusal::Memory);
                }
                rest = others;
                line += 1;
            }
            Err(Unread::Bad) => return Err(IndexRefusal::BadIndex(line)),
            Err(Unread::Memory) => return Err(IndexRefusal::Memory),
        }
    }
}
