use std::alloc::Global;
use zbase::Memory;

/// A text that grows word by word. Where memory is wanting, a word is missing and the text is none in the end, so that
/// no writer has to look for that at each word.
#[derive(Drop)]
pub struct Page {
    text: String,
    is_whole: bool,
    alloc: Global,
    /// How many lines there are.
    pub lines: u64,
    /// How many steps the line stands to the right that stands there most.
    pub deepest: u64,
}

impl Page {
    /// No text.
    pub fn new(alloc: Global) -> Page {
        Page {
            text: String::new(alloc),
            is_whole: true,
            alloc,
            lines: 0,
            deepest: 0,
        }
    }

    /// Adds a text as it is.
    pub fn put(&mut self, text: &str) {
        if self.text.push_str(text).is_err() {
            self.is_whole = false;
        }
    }

    /// Adds a text of a source. So that it stands in one line, `\n` stands for an end of line, and `\\` for `\`.
    pub fn put_text(&mut self, text: &str) {
        for sign in text.chars() {
            let added = match sign {
                '\n' => self.text.push_str("\\n"),
                '\\' => self.text.push_str("\\\\"),
                _ => self.text.push(sign),
            };
            if added.is_err() {
                self.is_whole = false;
            }
        }
    }

    /// Adds a number.
    pub fn put_number(&mut self, number: i64) {
        match format!(in self.alloc; "{number}") {
            Ok(digits) => self.put(digits.as_str()),
            Err(_) => self.is_whole = false,
        }
    }

    /// Adds a place.
    pub fn put_place(&mut self, place: usize) {
        match format!(in self.alloc; "{place}") {
            Ok(digits) => self.put(digits.as_str()),
            Err(_) => self.is_whole = false,
        }
    }

    /// Begins a line so many steps to the right, with a word.
    pub fn begin(&mut self, steps: u64, word: &str) {
        self.deepest = self.deepest.max(steps);
        for _ in 0..steps {
            self.put("  ");
        }
        self.put(word);
    }

    /// Ends a line.
    pub fn end(&mut self) {
        self.lines = self.lines.saturating_add(1);
        self.put("\n");
    }

    /// All that was added.
    pub fn text(&self) -> Result<&str, Memory> {
        if self.is_whole {
            Ok(self.text.as_str())
        } else {
            Err(Memory)
        }
    }
}
