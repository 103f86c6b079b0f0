use crate::showing::shown;
use cases::{CasesRefusal, Part, add_bytes, add_number};
use std::alloc::Global;
use zbase::{Bytes, Memory, hex_digits};
use zcodec::{decode, encode, records_are_exact};
use zobject::CodecRefusal;

// The record of the second version of the object that a record has, or the place where the bytes are none.
fn again_of(alloc: Global, bytes: &[u8]) -> Result<Result<Bytes, usize>, Memory> {
    records_are_exact();
    match decode(alloc, bytes) {
        Ok(object) => Ok(Ok(encode(alloc, &object)?)),
        Err(CodecRefusal::BadRecord(at)) => Ok(Err(at)),
        Err(CodecRefusal::Memory) => Err(Memory),
    }
}

// The fields of the object that a record has; none where the bytes are no record.
fn fields_of(alloc: Global, bytes: &[u8]) -> Result<Bytes, Memory> {
    match decode(alloc, bytes) {
        Ok(object) => shown(alloc, &object),
        Err(CodecRefusal::BadRecord(_)) => Ok(Bytes::new(alloc)),
        Err(CodecRefusal::Memory) => Err(Memory),
    }
}

/// Adds what comes of reading a record.
pub fn put_record(alloc: Global, part: &Part, parts: &mut Vec<Part>) -> Result<(), CasesRefusal> {
    let bytes = part.bytes.as_slice();
    match again_of(alloc, bytes)? {
        Ok(again) => {
            add_bytes(alloc, parts, "object", fields_of(alloc, bytes)?)?;
            add_bytes(alloc, parts, "again", again)
        }
        Err(at) => add_number(alloc, parts, "bad", at as u64),
    }
}

// Adds the record that comes again: a word where it is the one that was read.
fn put_again(out: &mut Bytes, again: &[u8], bytes: &[u8]) -> Result<(), Memory> {
    if again == bytes {
        return out.append(b"same");
    }
    out.push(b'=')?;
    for byte in again {
        out.append(hex_digits(*byte).as_slice())?;
    }
    Ok(())
}

// Adds a line of what comes of reading a record.
fn put_line(alloc: Global, out: &mut Bytes, bytes: &[u8]) -> Result<(), Memory> {
    match again_of(alloc, bytes)? {
        Ok(again) => put_again(out, again.as_slice(), bytes)?,
        Err(at) => out.append(format!(in alloc; "{at}")?.as_bytes())?,
    }
    out.push(b'\n')
}

/// A line for each front of a record.
pub fn put_cuts(alloc: Global, part: &Part) -> Result<Bytes, CasesRefusal> {
    let bytes = part.bytes.as_slice();
    let mut out = Bytes::new(alloc);
    for len in 0..bytes.len() {
        put_line(alloc, &mut out, bytes.get(..len).unwrap_or(bytes))?;
    }
    Ok(out)
}

// The bytes, of which that one is another.
fn flipped(alloc: Global, bytes: &[u8], at: usize, number: u8) -> Result<Bytes, Memory> {
    let mut out = Bytes::new(alloc);
    for (place, byte) in bytes.iter().enumerate() {
        let other = if place == at { *byte ^ number } else { *byte };
        out.push(other)?;
    }
    Ok(out)
}

/// A line for each byte of a record that is another.
pub fn put_flips(alloc: Global, part: &Part) -> Result<Bytes, CasesRefusal> {
    let bytes = part.bytes.as_slice();
    let number = u8::try_from(part.number(1)?).unwrap_or(u8::MAX);
    let mut out = Bytes::new(alloc);
    for at in 0..bytes.len() {
        let other = flipped(alloc, bytes, at, number)?;
        put_line(alloc, &mut out, other.as_slice())?;
    }
    Ok(out)
}
