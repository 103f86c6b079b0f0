use crate::bytes::{put_hex, put_line};
use crate::{Case, CasesRefusal, Part};
use std::alloc::Global;
use zbase::Bytes;

/// A text of cases: its pieces, and its cases.
#[derive(Drop)]
pub struct CaseFile {
    /// The pieces, each with its name as its second word.
    pub pieces: Vec<Part>,
    /// The cases.
    pub cases: Vec<Case>,
}

// What was read of a text so far: the pieces, and the cases. Lines go to the last case, or to the last piece before the
// first. Pieces of other files stand beside its own.
#[derive(Drop)]
struct Reader<'a> {
    shared: &'a [Part],
    pieces: Vec<Part>,
    cases: Vec<Case>,
    alloc: Global,
}

// The bytes of the piece of that name.
fn copy_named(pieces: &[Part], name: &str) -> Result<Option<Bytes>, CasesRefusal> {
    for piece in pieces {
        if piece.word(1) == Some(name) {
            return Ok(Some(piece.bytes.copy()?));
        }
    }
    Ok(None)
}

impl Reader<'_> {
    // The bytes to which the lines of contents are added.
    fn open_bytes(&mut self) -> Option<&mut Bytes> {
        match self.cases.last_mut() {
            Some(case) => match case.parts.last_mut() {
                Some(part) => Some(&mut part.bytes),
                None => None,
            },
            None => match self.pieces.last_mut() {
                Some(piece) => Some(&mut piece.bytes),
                None => None,
            },
        }
    }

    // The bytes of the piece of that name, of this text or another.
    fn copy_piece(&self, name: &str) -> Result<Option<Bytes>, CasesRefusal> {
        match copy_named(self.shared, name)? {
            Some(bytes) => Ok(Some(bytes)),
            None => copy_named(self.pieces.as_slice(), name),
        }
    }

    // Adds the bytes of the piece of that name, so many times.
    fn take_piece(&mut self, name: &str, times: u64) -> Result<bool, CasesRefusal> {
        let Some(bytes) = self.copy_piece(name)? else {
            return Ok(false);
        };
        let Some(out) = self.open_bytes() else {
            return Ok(false);
        };
        for _ in 0..times {
            out.append(bytes.as_slice())?;
        }
        Ok(true)
    }

    // Adds the bytes of the pieces of these names.
    fn take_names(&mut self, names: &str) -> Result<bool, CasesRefusal> {
        for name in names.split_whitespace() {
            if !self.take_piece(name, 1)? {
                return Ok(false);
            }
        }
        Ok(true)
    }

    // Adds the bytes of a piece as often as the number before its name says.
    fn take_repeated(&mut self, text: &str) -> Result<bool, CasesRefusal> {
        let Some((times, name)) = text.split_once(' ') else {
            return Ok(false);
        };
        match times.parse::<u64>() {
            Ok(times) => self.take_piece(name, times),
            Err(_) => Ok(false),
        }
    }

    // Adds the bytes of a line of characters, or of one of hexadecimal digits.
    fn take_bytes(&mut self, text: &str, is_hex: bool) -> Result<bool, CasesRefusal> {
        let Some(out) = self.open_bytes() else {
            return Ok(false);
        };
        if is_hex {
            Ok(put_hex(out, text)?)
        } else {
            Ok(put_line(out, text)?)
        }
    }

    // Begins a piece. Its name is its own.
    fn take_new_piece(&mut self, piece: Part) -> Result<bool, CasesRefusal> {
        let is_new = match piece.word(1) {
            Some(name) => self.copy_piece(name)?.is_none(),
            None => false,
        };
        self.pieces.push(piece)?;
        Ok(is_new)
    }

    // Begins a piece, a case or a part.
    fn take_key(&mut self, number: usize, line: &str) -> Result<bool, CasesRefusal> {
        if let Some(title) = line.strip_prefix("case ") {
            self.cases.push(Case {
                line: number,
                title: String::from_str(self.alloc, title)?,
                parts: Vec::new(self.alloc),
            })?;
            return Ok(true);
        }
        let part = Part::new(self.alloc, number, line)?;
        let is_piece = part.key() == "piece";
        match self.cases.last_mut() {
            Some(case) => {
                case.parts.push(part)?;
                Ok(!is_piece)
            }
            None if is_piece => self.take_new_piece(part),
            None => Ok(false),
        }
    }

    // Takes a line; whether it is one of the format's.
    fn take_line(&mut self, number: usize, line: &str) -> Result<bool, CasesRefusal> {
        if line.is_empty() || line.starts_with('#') {
            Ok(true)
        } else if let Some(names) = line.strip_prefix("use ") {
            self.take_names(names)
        } else if let Some(text) = line.strip_prefix("repeat ") {
            self.take_repeated(text)
        } else if let Some(text) = line.strip_prefix("| ") {
            self.take_bytes(text, false)
        } else if line == "|" {
            self.take_bytes("", false)
        } else if let Some(digits) = line.strip_prefix("hex ") {
            self.take_bytes(digits, true)
        } else {
            self.take_key(number, line)
        }
    }
}

/// The pieces and cases of a text, in which the pieces of other files may be named too.
pub fn read_cases(alloc: Global, text: &str, shared: &[Part]) -> Result<CaseFile, CasesRefusal> {
    let mut reader = Reader {
        shared,
        pieces: Vec::new(alloc),
        cases: Vec::new(alloc),
        alloc,
    };
    for (at, line) in text.lines().enumerate() {
        let number = at.saturating_add(1);
        if !reader.take_line(number, line.trim_start())? {
            return Err(CasesRefusal::BadLine(number));
        }
    }
    let Reader { pieces, cases, .. } = reader;
    Ok(CaseFile { pieces, cases })
}
