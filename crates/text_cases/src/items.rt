use cases::{CasesRefusal, Part};
use schedule::{Item2, write_item};
use std::alloc::Global;
use zbase::{Bytes, Memory, Tid, hex_digits};

/// The numbers behind a part's second word; one of sixteen characters is an id.
pub fn numbers_of(alloc: Global, part: &Part) -> Result<Vec<u64>, CasesRefusal> {
    let mut numbers = Vec::new(alloc);
    for (at, word) in part.words.iter().enumerate().skip(2) {
        let number = if word.len() == 16 {
            part.id(at)?
        } else {
            part.number(at)?
        };
        numbers.push(number)?;
    }
    Ok(numbers)
}

/// The number in 32 bits; the greatest one where it has more.
pub fn short(number: u64) -> u32 {
    u32::try_from(number).unwrap_or(u32::MAX)
}

/// The line of a schedule that a part says.
pub fn item_of(alloc: Global, part: &Part) -> Result<Item2, CasesRefusal> {
    let numbers = numbers_of(alloc, part)?;
    let item = match (part.word(1).unwrap_or(""), numbers.as_slice()) {
        ("request", [worker]) => Item2::Request(short(*worker), part.bytes.copy()?),
        ("step", [worker]) => Item2::Step(short(*worker)),
        ("clock", [stamp]) => Item2::Clock(Tid(*stamp)),
        ("stop", [call, seed]) => Item2::Stop(*call, *seed),
        ("fail", [call, seed]) => Item2::Fail(*call, *seed),
        ("pack", [before]) => Item2::Pack(Tid(*before)),
        ("end", []) => Item2::End,
        _ => return Err(CasesRefusal::BadPart(part.line)),
    };
    Ok(item)
}

// Adds the digits of bytes.
fn put_digits(out: &mut Bytes, bytes: &Bytes) -> Result<(), Memory> {
    for byte in bytes.as_slice() {
        out.append(&hex_digits(*byte))?;
    }
    Ok(())
}

// Adds a line with all that an item has.
fn put_shown(alloc: Global, item: &Item2, out: &mut Bytes) -> Result<(), Memory> {
    let text = match item {
        Item2::Request(worker, _) => format!(in alloc; "request {worker} ")?,
        Item2::Step(worker) => format!(in alloc; "step {worker}")?,
        Item2::Clock(stamp) => {
            let stamp = stamp.0;
            format!(in alloc; "clock {stamp:016x}")?
        }
        Item2::Stop(call, seed) => format!(in alloc; "stop {call} {seed}")?,
        Item2::Fail(call, seed) => format!(in alloc; "fail {call} {seed}")?,
        Item2::Pack(before) => {
            let before = before.0;
            format!(in alloc; "pack {before:016x}")?
        }
        Item2::End => String::from_str(alloc, "end")?,
    };
    out.append(text.as_bytes())?;
    if let Item2::Request(_, bytes) = item {
        put_digits(out, bytes)?;
    }
    out.push(b'\n')
}

/// Adds the items, one a line, to the first bytes, and their text with its end to the second ones.
pub fn put_items(
    alloc: Global,
    items: &[Item2],
    shown: &mut Bytes,
    text: &mut Bytes,
) -> Result<(), Memory> {
    for item in items {
        put_shown(alloc, item, shown)?;
        write_item(item, text)?;
    }
    write_item(&Item2::End, text)
}
