use crate::{Case, CasesRefusal, Part, Runner};
use std::alloc::Global;
use zbase::{Memory, Text};

// Adds bytes as characters; one that is none of ASCII's signs stands as `\xHH`.
fn put_shown(out: &mut Text, bytes: &[u8]) -> Result<(), Memory> {
    let digits = b"0123456789abcdef";
    for byte in bytes {
        if (b' '..=b'~').contains(byte) && *byte != b'\\' {
            out.push_str(str::from_utf8(&[*byte]).unwrap_or("?"))?;
        } else {
            out.push_str("\\x")?;
            let pair = [
                digits[usize::from(byte >> 4)],
                digits[usize::from(byte & 15)],
            ];
            out.push_str(str::from_utf8(&pair).unwrap_or("?"))?;
        }
    }
    Ok(())
}

// Where two lists of bytes first differ: the start of that line in both, and its number from 1 on.
fn first_difference(came: &[u8], wanted: &[u8]) -> (usize, usize) {
    let mut start = 0usize;
    let mut number = 1usize;
    for (at, (one, other)) in came.iter().zip(wanted).enumerate() {
        if one != other {
            break;
        }
        if *one == b'\n' {
            start = at.saturating_add(1);
            number = number.saturating_add(1);
        }
    }
    (start, number)
}

// The line that begins at this place.
fn line_at(bytes: &[u8], start: usize) -> &[u8] {
    let rest = bytes.get(start..).unwrap_or(&[]);
    match rest.iter().position(|byte| *byte == b'\n') {
        Some(end) => rest.get(..end).unwrap_or(rest),
        None => rest,
    }
}

// Adds where the bytes that came first differ from those that were wanted.
fn tell_bytes(
    alloc: Global,
    out: &mut Text,
    key: &str,
    came: &[u8],
    wanted: &[u8],
) -> Result<(), Memory> {
    let (start, number) = first_difference(came, wanted);
    let number = format!(in alloc; "{number}")?;
    out.push_str("  ")?;
    out.push_str(key)?;
    out.push_str(" differs in line ")?;
    out.push_str(number.as_str())?;
    out.push_str("\n    came   ")?;
    put_shown(out, line_at(came, start))?;
    out.push_str("\n    wanted ")?;
    put_shown(out, line_at(wanted, start))?;
    out.push_str("\n")
}

// Adds the words of a part.
fn tell_words(out: &mut Text, part: &Part) -> Result<(), Memory> {
    for word in &part.words {
        out.push_str(" ")?;
        out.push_str(word.as_str())?;
    }
    out.push_str("\n")
}

// Whether both have the same words.
fn same_words(one: &Part, other: &Part) -> bool {
    for (word, like) in one.words.iter().zip(other.words.iter()) {
        if word.as_str() != like.as_str() {
            return false;
        }
    }
    one.words.len() == other.words.len()
}

// Adds what differs between a part that came and the one that was wanted.
fn compare_part(alloc: Global, out: &mut Text, came: &Part, wanted: &Part) -> Result<(), Memory> {
    let bytes = came.bytes.as_slice();
    if wanted.word(1) == Some("begins") {
        if !bytes.starts_with(wanted.bytes.as_slice()) {
            tell_bytes(alloc, out, came.key(), bytes, wanted.bytes.as_slice())?;
        }
        return Ok(());
    }
    if !same_words(came, wanted) {
        out.push_str("  came  ")?;
        tell_words(out, came)?;
        out.push_str("  wanted")?;
        tell_words(out, wanted)?;
    }
    if bytes != wanted.bytes.as_slice() {
        tell_bytes(alloc, out, came.key(), bytes, wanted.bytes.as_slice())?;
    }
    Ok(())
}

// How many of these parts have that key.
fn count_of(parts: &[Part], key: &str) -> usize {
    parts.iter().filter(|part| part.key() == key).count()
}

// Adds each part of the case that neither is given to the driver nor came.
fn tell_lacking<R: Runner>(
    out: &mut Text,
    runner: &R,
    case: &Case,
    came: &[Part],
) -> Result<(), Memory> {
    for part in &case.parts {
        let key = part.key();
        if key != "differs"
            && !runner.knows(key)
            && count_of(came, key) < count_of(case.parts.as_slice(), key)
        {
            out.push_str("  did not come:")?;
            tell_words(out, part)?;
        }
    }
    Ok(())
}

// Adds what differs between the parts that came and those of the case with the same keys, the first with the first;
// whether any was compared.
fn tell_differences(
    alloc: Global,
    out: &mut Text,
    case: &Case,
    came: &[Part],
) -> Result<bool, Memory> {
    let mut compared = false;
    for (at, part) in came.iter().enumerate() {
        let before = count_of(came.get(..at).unwrap_or(&[]), part.key());
        if let Some(wanted) = case.nth_part(part.key(), before) {
            compared = true;
            compare_part(alloc, out, part, wanted)?;
        }
    }
    Ok(compared)
}

/// What differs between the parts that came and those of the case with the same keys, in lines; nothing where all is as
/// it says. Parts of one key are compared in their order. A part of which the case has none isn't compared, but one has
/// to be, and each part of the case that isn't given to the driver. A case that says `differs` has to differ.
pub fn compare<R: Runner>(
    alloc: Global,
    runner: &R,
    case: &Case,
    came: &[Part],
) -> Result<Text, CasesRefusal> {
    let mut lacking = Text::new(alloc);
    tell_lacking(&mut lacking, runner, case, came)?;
    if !lacking.is_empty() {
        return Ok(lacking);
    }
    let mut out = Text::new(alloc);
    let compared = tell_differences(alloc, &mut out, case, came)?;
    let said = if !compared {
        "  nothing was compared\n"
    } else if case.part("differs").is_none() {
        return Ok(out);
    } else if out.is_empty() {
        "  nothing differs\n"
    } else {
        ""
    };
    Ok(Text::from_str(alloc, said)?)
}
