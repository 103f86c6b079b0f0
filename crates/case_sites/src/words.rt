use cases::{CasesRefusal, Part};
use std::alloc::Global;
use zbase::{Items, Oid, Text, Texts};
use zobject::Roles;

/// The object of that id, in decimal.
pub fn oid_in(part: &Part, id: &str) -> Result<Oid, CasesRefusal> {
    match id.parse::<u64>() {
        Ok(number) => Ok(Oid(number)),
        Err(_) => Err(CasesRefusal::BadPart(part.line)),
    }
}

/// The number of the permission that the word of that number is.
pub fn permission_at(part: &Part, word: usize) -> Result<u8, CasesRefusal> {
    match part.word(word).unwrap_or("").parse::<u8>() {
        Ok(permission) => Ok(permission),
        Err(_) => Err(CasesRefusal::BadPart(part.line)),
    }
}

/// The word of that number.
pub fn word_at(part: &Part, word: usize) -> Result<&str, CasesRefusal> {
    match part.word(word) {
        Some(text) => Ok(text),
        None => Err(CasesRefusal::BadPart(part.line)),
    }
}

/// The words from that number on, as texts.
pub fn texts_from(alloc: Global, part: &Part, from: usize) -> Result<Texts, CasesRefusal> {
    let mut texts = Items::new(alloc);
    for word in part.words.iter().skip(from) {
        texts.push(Text::from_str(alloc, word.as_str())?)?;
    }
    Ok(texts)
}

/// The words from that number on, with a blank between them.
pub(crate) fn text_from(alloc: Global, part: &Part, from: usize) -> Result<Text, CasesRefusal> {
    let mut text = Text::new(alloc);
    for word in part.words.iter().skip(from) {
        if !text.is_empty() {
            text.push_str(" ")?;
        }
        text.push_str(word.as_str())?;
    }
    Ok(text)
}

/// The bytes of a part, as text.
pub fn bytes_text(alloc: Global, part: &Part) -> Result<Text, CasesRefusal> {
    match str::from_utf8(part.bytes.as_slice()) {
        Ok(text) => Ok(Text::from_str(alloc, text)?),
        Err(_) => Err(CasesRefusal::BadPart(part.line)),
    }
}

/// The roles between commas.
pub fn roles_in(alloc: Global, text: &str) -> Result<Roles, CasesRefusal> {
    let mut roles = Items::new(alloc);
    for role in text.split(',') {
        if !role.is_empty() {
            roles.push(Text::from_str(alloc, role)?)?;
        }
    }
    Ok(roles)
}

/// The name before an equals sign, and what is behind it.
pub fn split_named<'a>(part: &Part, word: &'a str) -> Result<(&'a str, &'a str), CasesRefusal> {
    match word.split_once('=') {
        Some(pair) => Ok(pair),
        None => Err(CasesRefusal::BadPart(part.line)),
    }
}

/// The three texts between colons; the last may have colons of its own.
pub fn split_three<'a>(
    part: &Part,
    word: &'a str,
) -> Result<(&'a str, &'a str, &'a str), CasesRefusal> {
    let Some((first, rest)) = word.split_once(':') else {
        return Err(CasesRefusal::BadPart(part.line));
    };
    let Some((second, third)) = rest.split_once(':') else {
        return Err(CasesRefusal::BadPart(part.line));
    };
    Ok((first, second, third))
}
