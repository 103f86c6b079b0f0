ghost use Rattle.std.specs.Prelude.{◌≡◌, ◌<◌, ◌≤◌, ◌++◌, false, not, ℕ, length, map, IfOk, OnOk, string_bytes};
ghost use Rattle.std.specs.List.{prefix_len, flat_map};
ghost use Rattle.std.specs.Simd.Lanes.{mask_l};
ghost use Rattle.percent_encoding.specs.AsciiSet.{contains};
ghost use Rattle.dtml_format.specs.Shaping as spec;
ghost use Rattle.dtml_format.specs.Replaced.{byte_of, changes, stays};
ghost use Rattle.dtml_format.specs.declared.replacing.Mark.TheVariants as mark;

use percent_encoding::{AsciiSet, NON_ALPHANUMERIC, percent_encode};
use std::alloc::{AllocError, Global};
use std::simd::prelude::*;

/// How many bytes are looked at together: those of a `u8x32`.
const BLOCK: usize = 32;

/// The marks that put other characters in the place of some of ASCII's.
#[derive(Clone, Copy, Debug)]
pub(crate) enum Mark {
    /// `html_quote`.
    Html,
    /// `newline_to_br`.
    Lines,
}

/// Which of the bytes `html_quote` changes, as the bits of a number.
fn quoted_among(bytes: u8x32) -> u64
    ensures { result ≡ mask_l (map (changes mark.Html) bytes) }
{
    let and = bytes.simd_eq(u8x32::splat(b'&'));
    let less = bytes.simd_eq(u8x32::splat(b'<'));
    let more = bytes.simd_eq(u8x32::splat(b'>'));
    let quote = bytes.simd_eq(u8x32::splat(b'"'));
    (and | less | more | quote).to_bitmask()
}

/// Which of the bytes `newline_to_br` changes, as the bits of a number.
fn ends_among(bytes: u8x32) -> u64
    ensures { result ≡ mask_l (map (changes mark.Lines) bytes) }
{
    let cr = bytes.simd_eq(u8x32::splat(b'\r'));
    let lf = bytes.simd_eq(u8x32::splat(b'\n'));
    (cr | lf).to_bitmask()
}

impl Mark {
    /// Which of the bytes change, as the bits of a number.
    fn changed_among(self, bytes: u8x32) -> u64
        ensures { result ≡ mask_l (map (changes self) bytes) }
    {
        match self {
            Mark::Html => quoted_among(bytes),
            Mark::Lines => ends_among(bytes),
        }
    }

    /// Whether a byte stays as it is.
    fn stays(self, byte: u8) -> bool
        ensures { result ≡ stays self byte }
    {
        match self {
            Mark::Html => !matches!(byte, b'&' | b'<' | b'>' | b'"'),
            Mark::Lines => !matches!(byte, b'\r' | b'\n'),
        }
    }
}

/// How many bytes at the front stay as they are, byte by byte.
fn near_staying_len(mark: Mark, bytes: &[u8]) -> usize
    ensures is { result ≡ prefix_len (stays mark) bytes.now }
    ensures within { result ≤ length bytes.now }
{
    bytes.iter().take_while(|byte| mark.stays(**byte)).count()
}

/// How many bytes at the front stay as they are. The first one is looked at by itself, since bytes that change often stand
/// together, as at the end of a line.
fn staying_len(mark: Mark, bytes: &[u8]) -> usize
    ensures { result ≡ prefix_len (stays mark) bytes.now }
{
    if let Some(byte) = bytes.first()
        && !mark.stays(*byte)
    {
        return 0;
    }
    let mut at = 0;
    while BLOCK <= bytes.len() - at {
        let changed = mark.changed_among(u8x32::from_slice(&bytes[at..]));
        if changed != 0 {
            return at + changed.trailing_zeros() as usize;
        }
        at += BLOCK;
    }
    at + near_staying_len(mark, &bytes[at..])
}

/// Puts a run at the end. Where bytes that change stand together it is empty, and takes no call.
fn push_run(made: &mut String, run: &str) -> Result<(), AllocError>
    ensures { OnOk result (string_bytes made.new ≡ string_bytes made.old ++ run.now) }
{
    if run.is_empty() {
        return Ok(());
    }
    made.push_str(run)
}

/// Puts at the end what stands in the place of a byte that changes. Each text is put where its length is known, which
/// takes no call.
fn push_instead(made: &mut String, mark: Mark, byte: u8) -> Result<(), AllocError>
    requires { stays mark byte ≡ false }
    ensures { OnOk result (string_bytes made.new ≡ string_bytes made.old ++ byte_of mark byte) }
{
    match mark {
        Mark::Html => match byte {
            b'&' => made.push_str("&amp;"),
            b'<' => made.push_str("&lt;"),
            b'>' => made.push_str("&gt;"),
            _ => made.push_str("&quot;"),
        },
        Mark::Lines => match byte {
            b'\n' => made.push_str("<br />\n"),
            _ => Ok(()),
        },
    }
}

/// The text with other characters in the place of those that the mark names.
pub(crate) fn replaced(alloc: Global, text: &str, mark: Mark) -> Result<String, AllocError>
    ensures { IfOk result (λ made. string_bytes made ≡ flat_map (byte_of mark) text.now) }
{
    let mut made = String::with_capacity(alloc, text.len())?;
    let mut rest = text;
    'runs: loop {
        let (front, behind) = rest.split_at(staying_len(mark, rest.as_bytes()));
        push_run(&mut made, front)?;
        let Some(byte) = behind.as_bytes().first() else {
            return Ok(made);
        };
        push_instead(&mut made, mark, *byte)?;
        rest = behind.split_at(1).1;
    }
}

/// The bytes of ASCII that `url_quote` escapes.
fn escaped() -> AsciiSet
    ensures { (b : ℕ) → b < 128 → contains result b ≡ not (spec.is_kept b) }
{
    NON_ALPHANUMERIC
        .remove(b'_')
        .remove(b'-')
        .remove(b'.')
        .remove(b'/')
}

/// The text with every byte percent-escaped but those that `url_quote` keeps.
pub(crate) fn url_quote(alloc: Global, text: &str) -> Result<String, AllocError>
    ensures { IfOk result (λ made. string_bytes made ≡ spec.url_quote text.now) }
{
    let mut made = String::with_capacity(alloc, text.len())?;
    percent_encode(text.as_bytes(), escaped()).append_to(&mut made)?;
    Ok(made)
}
