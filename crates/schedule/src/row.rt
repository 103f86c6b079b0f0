ghost use Rattle.std.specs.Prelude.{◌≡◌, ◌++◌, ◌*◌, ◌≤◌, OnOk, length, map, take};
ghost use Rattle.zbase.specs.Hex.{hex_bytes};
ghost use Rattle.schedule.specs.Fields.{field_text};
ghost use Rattle.schedule.specs.Rows.{block, row};

use itoa::Buffer;
use zbase::{Bytes, Memory, hex_digits, hex16};

/// A field of a row.
#[derive(Clone, Copy, Debug)]
pub(crate) enum Field<'a> {
    /// A number in decimal.
    Number(u64),
    /// An id in 16 hexadecimal digits.
    Id(u64),
    /// A word as it stands.
    Word(&'a [u8]),
    /// Bytes in hexadecimal, two digits each.
    Digits(&'a [u8]),
}

/// How many bytes are spelled in digits at once.
const SPELLED: usize = 64;

// Spells bytes in digits, at the front of the buffer.
fn spell(bytes: &[u8], digits: &mut [u8; 128])
    requires { length bytes.now ≤ 64 }
    ensures { take (2 * length bytes.now) digits.new ≡ hex_bytes bytes.now }
{
    for index in 0..bytes.len() {
        let [high, low] = hex_digits(bytes[index]);
        digits[2 * index] = high;
        digits[2 * index + 1] = low;
    }
}

fn put_digits(out: &mut Bytes, bytes: &[u8]) -> Result<(), Memory>
    ensures { OnOk result (out.new ≡ out.old ++ hex_bytes bytes.now) }
{
    let mut digits = [0; 128];
    let mut rest = bytes;
    'spelling: while !rest.is_empty() {
        let (piece, more) = rest.split_at(rest.len().min(SPELLED));
        spell(piece, &mut digits);
        out.append(&digits[..2 * piece.len()])?;
        rest = more;
    }
    Ok(())
}

fn put_field(out: &mut Bytes, field: Field<'_>) -> Result<(), Memory>
    ensures { OnOk result (out.new ≡ out.old ++ field_text field.entry) }
{
    match field {
        Field::Number(n) => out.append(Buffer::new().format(n).as_bytes()),
        Field::Id(id) => out.append(&hex16(id)),
        Field::Word(word) => out.append(word),
        Field::Digits(bytes) => put_digits(out, bytes),
    }
}

/// Writes a row at the end: the word, the fields and LF.
pub(crate) fn put_row(out: &mut Bytes, word: &[u8], fields: &[Field<'_>]) -> Result<(), Memory>
    ensures { OnOk result (out.new ≡ out.old ++ row word.now (map field_text fields.now)) }
{
    out.append(word)?;
    for field in fields {
        out.push(b' ')?;
        put_field(out, *field)?;
    }
    out.push(b'\n')
}

/// Writes the bytes that belong to a row, which stands at the end, and LF.
pub(crate) fn put_block(out: &mut Bytes, bytes: &[u8]) -> Result<(), Memory>
    ensures { OnOk result (out.new ≡ block out.old bytes.now) }
{
    out.append(bytes)?;
    out.push(b'\n')
}
