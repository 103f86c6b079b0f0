ghost use Rattle.std.specs.Prelude.{◌≡◌, ◌++◌, ◌∷◌, ◌<◌, ◌≤◌, ◌^◌, ◌+◌, ℕ, List, [], decimal, length, option_map, IfSome, MatchOption};
ghost use Rattle.schedule.specs.Rows.{Lacks};
ghost use Rattle.schedule.specs.declared.line.Line.{Line};
ghost use Rattle.report_tally.specs.Heads.{bytes_of, head_of};
ghost use Rattle.report_tally.specs.Fronts.{after, before, kind_in, length_field, length_in, reply_kind, tid_in};
ghost use Rattle.report_tally.specs.Lasts.{tid_text};
ghost use Rattle.report_tally.specs.Tallies.{kind_of};
ghost use Rattle.report_tally.specs.Tidy.{IsTidy};

use crate::Kind;

// What is before the first such byte, and what is behind it.
fn split_first(bytes: &[u8], byte: u8) -> Option<(&[u8], &[u8])>
    ensures parts { MatchOption result (Lacks byte bytes.now) (λ parts. bytes.now ≡ parts.0.now ++ byte ∷ parts.1.now) }
    ensures first { IfSome result (λ parts. Lacks byte parts.0.now) }
{
    let at = bytes.iter().position(|b| *b == byte)?;
    Some((&bytes[..at], &bytes[at + 1..]))
}

/// What is before the first such byte, and what is behind it; all of it and nothing where there is none.
pub(crate) fn cut(bytes: &[u8], byte: u8) -> (&[u8], &[u8])
    ensures front { result.0.now ≡ before byte bytes.now }
    ensures rest { result.1.now ≡ after byte bytes.now }
{
    match split_first(bytes, byte) {
        Some(parts) => parts,
        None => (bytes, &[]),
    }
}

// The kind of a reply, by what is behind its word.
fn reply_kind(fields: &[u8]) -> Kind
    ensures { result ≡ reply_kind fields.now }
{
    let (_worker, rest) = cut(fields, b' ');
    let (mark, _others) = cut(rest, b' ');
    if mark == b"read".as_slice() {
        Kind::Read
    } else if mark == b"commit".as_slice() {
        Kind::Commit
    } else {
        Kind::Other
    }
}

// What is counted of a row.
fn row_kind(row: &[u8]) -> Kind
    ensures { result ≡ kind_in row.now }
{
    let (word, fields) = cut(row, b' ');
    if word == b"conflict".as_slice() {
        Kind::Conflict
    } else if word == b"givenup".as_slice() {
        Kind::GivenUp
    } else if word == b"reply".as_slice() {
        reply_kind(fields)
    } else {
        Kind::Other
    }
}

/// What is counted of the line that begins with this row.
pub(crate) fn kind_of(row: &[u8]) -> Kind
    ensures { (line : Line) → IsTidy line → row.now ≡ head_of line → result ≡ kind_of line }
{
    row_kind(row)
}

// The number of a reply's bytes, in decimal, by what is behind its word.
fn length_field(fields: &[u8]) -> &[u8]
    ensures { result.now ≡ length_field fields.now }
{
    let (_worker, rest) = cut(fields, b' ');
    let (mark, rest) = cut(rest, b' ');
    if mark == b"none".as_slice() {
        return rest;
    }
    let (_tid, rest) = cut(rest, b' ');
    rest
}

// The number of the bytes that belong to a row, in decimal, where it has some.
fn length_in(row: &[u8]) -> Option<&[u8]>
    ensures { option_map (λ text. text.now) result ≡ length_in row.now }
{
    let (word, fields) = cut(row, b' ');
    if word == b"reply".as_slice() {
        Some(length_field(fields))
    } else {
        None
    }
}

// The number whose decimal form the text is, and 0 where it is none.
fn number_in(text: &[u8]) -> u64
    ensures { (n : ℕ) → n < 2 ^ 64 → text.now ≡ decimal n → result ≡ n }
{
    match std::str::from_utf8(text) {
        Ok(digits) => match digits.parse::<u64>() {
            Ok(n) => n,
            Err(_) => 0,
        },
        Err(_) => 0,
    }
}

/// How many bytes belong to the line that begins with this row, behind its line feed.
pub(crate) fn bytes_behind(row: &[u8]) -> u64
    ensures { (line : Line) → IsTidy line → length (bytes_of line) < 2 ^ 64 → row.now ≡ head_of line → result ≡ length (bytes_of line) }
{
    match length_in(row) {
        Some(text) => number_in(text).saturating_add(1),
        None => 0,
    }
}

/// How many bytes there are.
pub(crate) fn size(bytes: &[u8]) -> u64
    ensures { result ≡ length bytes.now }
{
    bytes.len() as u64
}

/// What is behind so many bytes.
pub(crate) fn behind(bytes: &[u8], count: u64) -> &[u8]
    ensures behind { (front : List ℕ) (rest : List ℕ) → bytes.now ≡ front ++ rest → count ≡ length front → result.now ≡ rest }
    ensures shorter { length result.now ≤ length bytes.now }
{
    if count >= size(bytes) {
        return &[];
    }
    &bytes[count as usize..]
}

// The first field of a transaction's row.
fn row_tid(row: &[u8]) -> Option<&[u8]>
    ensures { option_map (λ text. text.now) result ≡ tid_in row.now }
{
    let (word, fields) = cut(row, b' ');
    if word == b"transaction".as_slice() {
        let (tid, _others) = cut(fields, b' ');
        Some(tid)
    } else {
        None
    }
}

/// The digits of the transaction that the line with this row names.
pub(crate) fn tid_in(row: &[u8]) -> Option<&[u8]>
    ensures { (line : Line) → IsTidy line → row.now ≡ head_of line → option_map (λ text. text.now) result ≡ tid_text line }
{
    row_tid(row)
}
