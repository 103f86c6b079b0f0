use crate::CasesRefusal;
use std::alloc::Global;
use zbase::{Bytes, Memory, read_hex16};

/// A part of a case: a key with words behind it, and the bytes of the lines below.
#[derive(Drop)]
pub struct Part {
    /// Its number of line, from 1 on.
    pub line: usize,
    /// The first word, and those behind it.
    pub words: Vec<String>,
    /// The bytes.
    pub bytes: Bytes,
}

impl Part {
    /// A part of these words and these bytes.
    pub fn with(alloc: Global, text: &str, bytes: Bytes) -> Result<Part, Memory> {
        let mut part = Part::new(alloc, 0, text)?;
        part.bytes = bytes;
        Ok(part)
    }

    /// A part of these words, without bytes.
    pub fn new(alloc: Global, line: usize, text: &str) -> Result<Part, Memory> {
        let mut words = Vec::new(alloc);
        for word in text.split_whitespace() {
            words.push(String::from_str(alloc, word)?)?;
        }
        Ok(Part {
            line,
            words,
            bytes: Bytes::new(alloc),
        })
    }

    /// The first word.
    pub fn key(&self) -> &str {
        match self.words.first() {
            Some(word) => word.as_str(),
            None => "",
        }
    }

    /// The word of that number; the key has number 0.
    pub fn word(&self, number: usize) -> Option<&str> {
        match self.words.get(number) {
            Some(word) => Some(word.as_str()),
            None => None,
        }
    }

    /// The decimal number that the word of that number is.
    pub fn number(&self, number: usize) -> Result<u64, CasesRefusal> {
        match self.word(number).unwrap_or("").parse::<u64>() {
            Ok(value) => Ok(value),
            Err(_) => Err(CasesRefusal::BadPart(self.line)),
        }
    }

    /// The id that the 16 hexadecimal digits of the word of that number are.
    pub fn id(&self, number: usize) -> Result<u64, CasesRefusal> {
        match read_hex16(self.word(number).unwrap_or("").as_bytes()) {
            Some(value) => Ok(value),
            None => Err(CasesRefusal::BadPart(self.line)),
        }
    }
}

/// A case: its title and its parts, in their order.
#[derive(Drop)]
pub struct Case {
    /// Its number of line, from 1 on.
    pub line: usize,
    /// What stands behind `case`.
    pub title: String,
    /// The parts.
    pub parts: Vec<Part>,
}

impl Case {
    /// The words of the first part of that key, behind the key; two quotation marks stand for the empty word.
    pub fn words(&self, alloc: Global, key: &str) -> Result<Vec<String>, Memory> {
        let mut words = Vec::new(alloc);
        if let Some(part) = self.part(key) {
            for word in part.words.iter().skip(1) {
                let text = if word.as_str() == "\"\"" {
                    ""
                } else {
                    word.as_str()
                };
                words.push(String::from_str(alloc, text)?)?;
            }
        }
        Ok(words)
    }

    /// The bytes of the first part of that key; none of them where the case has no such part.
    pub fn bytes(&self, alloc: Global, key: &str) -> Result<Bytes, Memory> {
        match self.part(key) {
            Some(part) => part.bytes.copy(),
            None => Ok(Bytes::new(alloc)),
        }
    }

    /// The number behind the first part of that key, or this one where the case has no such part.
    pub fn number(&self, key: &str, otherwise: u64) -> Result<u64, CasesRefusal> {
        match self.part(key) {
            Some(part) => part.number(1),
            None => Ok(otherwise),
        }
    }

    /// The numbers behind `failing` and this word: of the calls of that kind that are to fail.
    pub fn failing(&self, alloc: Global, kind: &str) -> Result<Vec<u64>, CasesRefusal> {
        let mut numbers = Vec::new(alloc);
        for part in &self.parts {
            if part.key() == "failing" && part.word(1) == Some(kind) {
                numbers.push(part.number(2)?)?;
            }
        }
        Ok(numbers)
    }

    /// The first part of that key.
    pub fn part(&self, key: &str) -> Option<&Part> {
        self.nth_part(key, 0)
    }

    /// The part of that key before which this many of the same key stand.
    pub fn nth_part(&self, key: &str, before: usize) -> Option<&Part> {
        let mut met = 0usize;
        for part in &self.parts {
            if part.key() == key {
                if met == before {
                    return Some(part);
                }
                met = met.saturating_add(1);
            }
        }
        None
    }
}
