ghost use Rattle.std.specs.Prelude.{◌≡◌, ◌<◌, ◌≤◌, ◌++◌, take, drop, length, IfOk, IfSome, None, nat_lt};
ghost use Rattle.std.specs.Str.{IsCharBoundary};
ghost use Rattle.dtml_format.specs.Shaping as spec;

use crate::marks::Marks;
use memchr::memrchr;
use std::alloc::Global;
use zbase::{Memory, Text};

/// How many bytes are looked at together; their number fits in a byte.
const BLOCK: usize = 128;

/// Whether a byte begins a character. Without branches, so that many bytes are looked at together.
fn begins(byte: u8) -> bool
    ensures { result ≡ spec.begins byte }
{
    (byte < 128) | (192 <= byte)
}

/// How many characters begin in a block. It counts in a byte, so that many are counted together.
fn chars_in(block: &[u8]) -> u8
    requires { length block.now ≤ 128 }
    ensures { result ≡ spec.chars block.now }
{
    let mut count = 0u8;
    for byte in block {
        count += begins(*byte) as u8;
    }
    count
}

/// How many characters begin in the bytes.
fn chars(bytes: &[u8]) -> usize
    ensures { result ≡ spec.chars bytes.now }
{
    let mut at = 0;
    let mut count = 0usize;
    while BLOCK <= bytes.len() - at {
        count += chars_in(&bytes[at..at + BLOCK]) as usize;
        at += BLOCK;
    }
    count + chars_in(&bytes[at..]) as usize
}

/// Goes past whole blocks that the first characters have, so many of them. It gives the place behind, and how many are
/// left.
fn past_blocks(count: usize, bytes: &[u8]) -> (usize, usize)
    ensures within { result.0 ≤ length bytes.now }
    ensures is { take result.0 bytes.now ++ spec.first_chars result.1 (drop result.0 bytes.now) ≡ spec.first_chars count bytes.now }
    ensures more { nat_lt result.1 (spec.chars (drop result.0 bytes.now)) ≡ nat_lt count (spec.chars bytes.now) }
{
    let mut at = 0;
    let mut left = count;
    while BLOCK <= bytes.len() - at {
        let some = chars_in(&bytes[at..at + BLOCK]) as usize;
        if left < some {
            break;
        }
        left -= some;
        at += BLOCK;
    }
    (at, left)
}

/// How many bytes the first characters have, so many of them: all bytes where there are no more characters.
fn first_chars_len(count: usize, bytes: &[u8]) -> usize
    ensures is { take result bytes.now ≡ spec.first_chars count bytes.now }
    ensures more { nat_lt result (length bytes.now) ≡ nat_lt count (spec.chars bytes.now) }
    ensures boundary { IsCharBoundary bytes.now result }
{
    let (at, left) = past_blocks(count, bytes);
    at + near_chars_len(left, &bytes[at..])
}

/// The same, byte by byte.
fn near_chars_len(count: usize, bytes: &[u8]) -> usize
    ensures is { take result bytes.now ≡ spec.first_chars count bytes.now }
    ensures more { nat_lt result (length bytes.now) ≡ nat_lt count (spec.chars bytes.now) }
    ensures boundary { IsCharBoundary bytes.now result }
{
    let mut left = count;
    for (at, byte) in bytes.iter().enumerate() {
        if begins(*byte) {
            if left == 0 {
                return at;
            }
            left -= 1;
        }
    }
    bytes.len()
}

/// How many characters stand before the last space.
fn last_space(bytes: &[u8]) -> Option<usize>
    ensures is { result ≡ spec.last_space None 0 bytes.now }
    ensures within { IfSome result (λ place. place < length bytes.now) }
{
    match memrchr(b' ', bytes) {
        Some(place) => Some(chars(&bytes[..place])),
        None => None,
    }
}

/// The first characters of a text, so many of them.
fn first_chars(count: usize, text: &str) -> &str
    ensures is { result.now ≡ spec.first_chars count text.now }
    ensures more { nat_lt (length result.now) (length text.now) ≡ nat_lt count (spec.chars text.now) }
{
    text.split_at(first_chars_len(count, text.as_bytes())).0
}

/// The text, cut behind its last space where that stands in the second half of so many characters.
fn at_space(count: usize, text: &str) -> &str
    ensures { result.now ≡ spec.at_space count text.now (spec.last_space None 0 text.now) }
{
    match last_space(text.as_bytes()) {
        Some(place) if place > count / 2 => first_chars(place + 1, text),
        _ => text,
    }
}

/// What stands behind a text that was cut.
fn etc_or_dots(marks: &Marks) -> &str
    ensures { result.now ≡ spec.etc_or_dots marks.now.etc }
{
    match &marks.etc {
        Some(etc) => etc.as_str(),
        None => "...",
    }
}

/// The text, cut where it has more characters than the size allows.
#[tactic(auto, using(crate::proofs::Sizes::is_cut, crate::proofs::Sizes::stays_whole, crate::proofs::Sizes::no_size))]
pub(crate) fn sized(alloc: Global, text: &str, marks: &Marks) -> Result<Text, Memory>
    ensures { IfOk result (λ made. made ≡ spec.sized marks.now.size marks.now.etc text.now) }
{
    let Some(count) = marks.size else {
        return Text::from_str(alloc, text);
    };
    let front = first_chars(count as usize, text);
    if front.len() == text.len() {
        return Text::from_str(alloc, text);
    }
    let mut cut = Text::from_str(alloc, at_space(count as usize, front))?;
    cut.push_str(etc_or_dots(marks))?;
    Ok(cut)
}
