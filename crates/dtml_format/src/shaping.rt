ghost use Rattle.std.specs.Prelude.{◌≡◌, ◌++◌, take, drop, map, IfOk, string_bytes};
ghost use Rattle.std.specs.Cow.{cow_str_bytes};
ghost use Rattle.dtml_format.specs.Shaping as spec;

use crate::marks::Marks;
use crate::replacing::{Mark, replaced, url_quote};
use crate::sizing::sized;
use std::alloc::{AllocError, Global};
use std::borrow::CowStr;
use zbase::{Memory, Text};

/// The text with its first character upper-case.
fn capitalize(alloc: Global, text: &str) -> Result<String, AllocError>
    ensures { IfOk result (λ made. string_bytes made ≡ spec.capitalize text.now) }
{
    let first = match text.as_bytes().first() {
        Some(byte) if byte.is_ascii() => 1,
        _ => 0,
    };
    let (front, rest) = text.split_at(first);
    let mut made = String::with_capacity(alloc, text.len())?;
    made.push_str(front)?;
    made.make_ascii_uppercase();
    made.push_str(rest)?;
    Ok(made)
}

/// The text with the marks on its letters applied.
#[tactic(auto, unfolding(crate::specs::Shaping::cased, crate::specs::Shaping::lower, crate::specs::Shaping::upper))]
fn cased<'a>(
    alloc: Global,
    text: CowStr<'a, Global>,
    marks: &Marks,
) -> Result<CowStr<'a, Global>, AllocError>
    ensures { IfOk result (λ made. cow_str_bytes made ≡ spec.cased (cow_str_bytes text.entry) marks.now) }
{
    if !(marks.lower || marks.upper || marks.capitalize) {
        return Ok(text);
    }
    let mut made = text.into_owned(alloc)?;
    if marks.lower {
        made.make_ascii_lowercase();
    }
    if marks.upper {
        made.make_ascii_uppercase();
    }
    if marks.capitalize {
        made = capitalize(alloc, made.as_str())?;
    }
    Ok(CowStr::Owned(made))
}

/// The text with the marks applied that put other characters in the place of some.
#[tactic(auto, unfolding(crate::specs::Shaping::quoted, crate::specs::Shaping::html_quote, crate::specs::Shaping::newline_to_br))]
fn quoted<'a>(alloc: Global, text: &'a str, marks: &Marks) -> Result<CowStr<'a, Global>, AllocError>
    ensures { IfOk result (λ made. cow_str_bytes made ≡ spec.quoted text.now marks.now) }
{
    let mut made = CowStr::Borrowed(text);
    if marks.html_quote {
        made = CowStr::Owned(replaced(alloc, made.as_str(), Mark::Html)?);
    }
    if marks.url_quote {
        made = CowStr::Owned(url_quote(alloc, made.as_str())?);
    }
    if marks.newline_to_br {
        made = CowStr::Owned(replaced(alloc, made.as_str(), Mark::Lines)?);
    }
    Ok(made)
}

/// A text, shaped by the attributes of a `dtml-var`, in the order in which `Marks` lists them.
#[tactic(auto, unfolding(crate::specs::Shaping::shape))]
pub fn shape(alloc: Global, text: &str, marks: &Marks) -> Result<Text, Memory>
    ensures { IfOk result (λ shaped. shaped ≡ spec.shape text.now marks.now) }
{
    let quoted = quoted(alloc, text, marks)?;
    let cased = cased(alloc, quoted, marks)?;
    sized(alloc, cased.as_str(), marks)
}
