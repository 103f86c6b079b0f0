ghost use Rattle.std.specs.Prelude.{◌≡◌, ◌↔◌, ◌++◌, [], List, ℕ, length, IfOk, OnOk, OnErr, IsTrue, ◌==◌, string_bytes};
ghost use Rattle.zbase.specs.Hex.{hex16_text};

use crate::{Items, Memory, hex16};
use std::alloc::Global;
use std::marker::Model;

/// A text in UTF-8, which contracts see as its bytes. It keeps its allocator.
#[derive(Debug, Drop)]
pub struct Text {
    text: String,
}

impl Model for Text {
    ghost Value = { List ℕ };

    ghost view = { λ it. string_bytes it.text };
}

/// Texts.
pub type Texts = Items<Text>;

impl Text {
    /// The empty text. Takes no memory.
    pub fn new(alloc: Global) -> Text
        ensures { result ≡ [] }
    {
        Text {
            text: String::new(alloc),
        }
    }

    /// A text of these characters.
    pub fn from_str(alloc: Global, text: &str) -> Result<Text, Memory>
        ensures { IfOk result (λ it. it ≡ text.now) }
    {
        Ok(Text {
            text: String::from_str(alloc, text)?,
        })
    }

    /// The characters.
    pub fn as_str(&self) -> &str
        ensures { result.now ≡ self.now }
    {
        self.text.as_str()
    }

    /// The bytes of the text.
    pub fn as_bytes(&self) -> &[u8]
        ensures { result.now ≡ self.now }
    {
        self.text.as_bytes()
    }

    /// The number of bytes.
    pub fn len(&self) -> usize
        ensures { result ≡ length self.now }
    {
        self.text.len()
    }

    /// Whether there is no character.
    pub fn is_empty(&self) -> bool
        ensures { result ≡ (length self.now == 0) }
    {
        self.text.is_empty()
    }

    /// Adds characters at the end. For want of memory the text stays as it was.
    pub fn push_str(&mut self, more: &str) -> Result<(), Memory>
        ensures ok { OnOk result (self.new ≡ self.old ++ more.now) }
        ensures err { OnErr result (self.new ≡ self.old) }
    {
        self.text.push_str(more)?;
        Ok(())
    }

    /// Adds the 16 hexadecimal digits of a number at the end. For want of memory the text stays as it was.
    pub fn push_hex16(&mut self, n: u64) -> Result<(), Memory>
        ensures ok { OnOk result (self.new ≡ self.old ++ hex16_text n) }
        ensures err { OnErr result (self.new ≡ self.old) }
    {
        match str::from_utf8(hex16(n).as_slice()) {
            Ok(digits) => self.push_str(digits),
            Err(_) => unreachable!(),
        }
    }

    /// A second text of the same characters.
    pub fn copy(&self) -> Result<Text, Memory>
        ensures { IfOk result (λ it. it ≡ self.now) }
    {
        Text::from_str(*self.text.allocator(), self.text.as_str())
    }

    /// Whether both texts have the same characters.
    pub fn same(&self, other: &Text) -> bool
        ensures { IsTrue result ↔ (self.now ≡ other.now) }
    {
        self.text.as_str() == other.text.as_str()
    }
}
