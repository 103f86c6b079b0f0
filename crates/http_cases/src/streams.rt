use crate::showing::put_message;
use cases::{Case, CasesRefusal, Part, add_bytes, add_line, add_number};
use http_in::{Reader, take_message};
use std::alloc::Global;
use zbase::{Bytes, Memory};

// A stream that is being read: where its reader is in it, the lines of its messages so far, and the most bytes that the
// reader held.
#[derive(Drop)]
struct Reading<'a> {
    alloc: Global,
    stream: &'a [u8],
    reader: Reader,
    at: usize,
    lines: Bytes,
    most: usize,
}

fn are_same(one: &[u8], other: &[u8]) -> bool {
    one == other
}

impl Reading<'_> {
    // Nothing of a stream.
    fn new(alloc: Global, stream: &[u8]) -> Reading<'_> {
        Reading {
            alloc,
            stream,
            reader: Reader::new(alloc),
            at: 0,
            lines: Bytes::new(alloc),
            most: 0,
        }
    }

    // Takes the next message, where it has come.
    fn take_message(&mut self) -> Result<bool, Memory> {
        let Some(message) = self.reader.next()? else {
            return Ok(false);
        };
        let taken = self.reader.taken();
        let end = self.at.saturating_add(taken.len());
        let there = self.stream.get(self.at..end).unwrap_or(&[]);
        let mark = if are_same(there, taken) { "" } else { " other" };
        put_message(self.alloc, &mut self.lines, &message, taken.len(), mark)?;
        self.at = end;
        Ok(true)
    }

    // Takes a piece, and the messages that have come then.
    fn take_piece(&mut self, piece: &[u8]) -> Result<(), Memory> {
        self.reader.feed(piece)?;
        self.most = self.most.max(self.reader.held());
        for _ in 0..self.stream.len() {
            if !self.take_message()? {
                break;
            }
        }
        Ok(())
    }
}

// The reading of a stream in pieces of this size.
fn read_by(alloc: Global, stream: &[u8], size: usize) -> Result<Reading<'_>, Memory> {
    let mut reading = Reading::new(alloc, stream);
    for piece in stream.chunks(size.max(1)) {
        reading.take_piece(piece)?;
    }
    Ok(reading)
}

// The reading of a stream in two pieces.
fn read_parted(alloc: Global, stream: &[u8], at: usize) -> Result<Reading<'_>, Memory> {
    let mut reading = Reading::new(alloc, stream);
    reading.take_piece(stream.get(..at).unwrap_or(stream))?;
    reading.take_piece(stream.get(at..).unwrap_or(&[]))?;
    Ok(reading)
}

fn is_same(one: &Reading<'_>, other: &Reading<'_>) -> bool {
    one.at == other.at && one.lines.same(&other.lines)
}

/// Adds what comes of reading a stream in one piece.
pub fn put_stream(alloc: Global, part: &Part, parts: &mut Vec<Part>) -> Result<(), CasesRefusal> {
    let stream = part.bytes.as_slice();
    let reading = read_by(alloc, stream, stream.len())?;
    let rest = stream.len().saturating_sub(reading.at);
    add_bytes(alloc, parts, "messages", reading.lines)?;
    add_number(alloc, parts, "rest", rest as u64)
}

// The bytes of the case's stream.
fn stream_of(case: &Case) -> Result<&[u8], CasesRefusal> {
    match case.part("stream") {
        Some(source) => Ok(source.bytes.as_slice()),
        None => Err(CasesRefusal::Missing),
    }
}

/// Adds how many bytes the reader held at most, in pieces of the size that a part says.
pub fn put_held(
    alloc: Global,
    case: &Case,
    part: &Part,
    parts: &mut Vec<Part>,
) -> Result<(), CasesRefusal> {
    let size = usize::try_from(part.number(1)?).unwrap_or(usize::MAX);
    let most = read_by(alloc, stream_of(case)?, size)?.most;
    add_number(alloc, parts, "held", most as u64)
}

// The lines of the one message that bytes are; none where they are no message.
fn lines_of(alloc: Global, bytes: &[u8]) -> Result<Option<Bytes>, Memory> {
    let Some(message) = take_message(alloc, bytes)? else {
        return Ok(None);
    };
    let mut lines = Bytes::new(alloc);
    put_message(alloc, &mut lines, &message, bytes.len(), "")?;
    Ok(Some(lines))
}

/// Adds the lines of the one message that the part's bytes are.
pub fn put_taken(alloc: Global, part: &Part, parts: &mut Vec<Part>) -> Result<(), CasesRefusal> {
    match lines_of(alloc, part.bytes.as_slice())? {
        Some(lines) => add_bytes(alloc, parts, "taken", lines),
        None => add_line(alloc, parts, "taken none"),
    }
}

// Whether a stream gives the same in two pieces, wherever they part.
fn is_same_at_each(alloc: Global, stream: &[u8], whole: &Reading<'_>) -> Result<bool, Memory> {
    for at in 0..stream.len() {
        if !is_same(&read_parted(alloc, stream, at)?, whole) {
            return Ok(false);
        }
    }
    Ok(true)
}

// Whether a stream gives the same in the pieces that a word says.
fn is_same_by(
    alloc: Global,
    stream: &[u8],
    whole: &Reading<'_>,
    part: &Part,
    number: usize,
) -> Result<bool, CasesRefusal> {
    if part.word(number) == Some("each") {
        return Ok(is_same_at_each(alloc, stream, whole)?);
    }
    let size = usize::try_from(part.number(number)?).unwrap_or(usize::MAX);
    Ok(is_same(&read_by(alloc, stream, size)?, whole))
}

// The first word of a part in whose pieces a stream gives something else.
fn other_cut<'a>(
    alloc: Global,
    stream: &[u8],
    part: &'a Part,
) -> Result<Option<&'a str>, CasesRefusal> {
    let whole = read_by(alloc, stream, stream.len())?;
    for (number, word) in part.words.iter().enumerate().skip(1) {
        if !is_same_by(alloc, stream, &whole, part, number)? {
            return Ok(Some(word.as_str()));
        }
    }
    Ok(None)
}

/// Adds whether the case's stream gives the same in all the pieces that a part says.
pub fn put_cuts(
    alloc: Global,
    case: &Case,
    part: &Part,
    parts: &mut Vec<Part>,
) -> Result<(), CasesRefusal> {
    match other_cut(alloc, stream_of(case)?, part)? {
        None => add_line(alloc, parts, "cuts same"),
        Some(word) => add_line(
            alloc,
            parts,
            format!(in alloc; "cuts other {word}")?.as_str(),
        ),
    }
}
