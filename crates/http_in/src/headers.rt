ghost use Rattle.std.specs.Prelude.{◌≡◌, ◌++◌, ◌∷◌, [], ◌<◌, ◌≤◌, ℕ, slice_index_or, length, map, not, option_map, IfOk, OnOk, Some, true};
ghost use Rattle.std.specs.Char.{is_ascii_digit};
ghost use Rattle.std.specs.List.{list_all};
ghost use Rattle.std.specs.Str.Parse.{digits_value};
ghost use Rattle.httparse.specs.Spans.{IsHeaderWithin, header_bytes};
ghost use Rattle.http_in.specs.Headers as headers;

use crate::Headers;
use httparse::spans::HeaderSpan;
use std::alloc::Global;
use zbase::{Memory, Text};

/// The bytes as text, with U+FFFD where they aren't UTF-8.
pub(crate) fn lossy_text(alloc: Global, bytes: &[u8]) -> Result<Text, Memory>
    ensures { IfOk result (λ text. text ≡ headers.lossy bytes.now) }
{
    match str::from_utf8(bytes) {
        Ok(text) => Text::from_str(alloc, text),
        Err(_) => {
            let text = String::from_utf8_lossy(alloc, bytes)?;
            Text::from_str(alloc, text.as_str())
        }
    }
}

/// The headers at these places of a head that isn't ASCII.
fn lossy_headers_at(alloc: Global, head: &[u8], spans: &[HeaderSpan]) -> Result<Headers, Memory>
    requires { (k : ℕ) (d : _) → k < length spans.now → IsHeaderWithin (length head.now) (slice_index_or spans.now k d) }
    ensures { IfOk result (λ all. all ≡ map (λ span. headers.header_by (header_bytes head.now span)) spans.now) }
{
    let mut all = Headers::new(alloc);
    for span in spans {
        all = all.with(alloc, span.name.of(head), span.value.of(head))?;
    }
    Ok(all)
}

/// The headers at these places of a head. A head of ASCII is text as it stands.
pub(crate) fn headers_at(
    alloc: Global,
    head: &[u8],
    spans: &[HeaderSpan],
) -> Result<Headers, Memory>
    requires { (k : ℕ) (d : _) → k < length spans.now → IsHeaderWithin (length head.now) (slice_index_or spans.now k d) }
    ensures { IfOk result (λ all. all ≡ map (λ span. headers.header_by (header_bytes head.now span)) spans.now) }
{
    if head.is_ascii() {
        Headers::in_ascii(alloc, head, spans)
    } else {
        lossy_headers_at(alloc, head, spans)
    }
}

/// Whether the header at a place is a length, and another one.
fn has_other_length(value: &str, all: &Headers, at: usize) -> bool
    requires { at < length all.now }
    ensures { (d : _) → result ≡ not (headers.is_same_length value.now (slice_index_or all.now at d)) }
{
    all.is_named(at, "Content-Length") && all.value(at) != value
}

fn all_lengths_are(value: &str, all: &Headers) -> bool
    ensures { result ≡ headers.all_lengths_are value.now all.now }
{
    for at in 0..all.len() {
        if has_other_length(value, all, at) {
            return false;
        }
    }
    true
}

fn are_digits(bytes: &[u8]) -> bool
    ensures { result ≡ list_all is_ascii_digit bytes.now }
{
    bytes.iter().all(|b| b.is_ascii_digit())
}

fn is_length(value: &str) -> bool
    ensures { result ≡ headers.is_length value.now }
{
    !value.is_empty() && value.len() <= 18 && are_digits(value.as_bytes())
}

/// The number that these digits write.
fn number_of(value: &str) -> Option<usize>
    requires { headers.is_length value.now ≡ true }
    ensures { result ≡ Some (digits_value 10 value.now) }
{
    value.parse().ok()
}

/// The length of the body, 0 without a Content-Length; none where one isn't 1 to 18 digits, or two differ.
#[tactic(auto, unfolding(crate::specs::Headers::body_length))]
pub(crate) fn body_length(all: &Headers) -> Option<usize>
    ensures { result ≡ headers.body_length all.now }
{
    let Some(value) = all.first_value("Content-Length") else {
        return Some(0);
    };
    if is_length(value) && all_lengths_are(value, all) {
        number_of(value)
    } else {
        None
    }
}

#[tactic(auto, unfolding(crate::specs::Headers::is_chunked))]
pub(crate) fn is_chunked(all: &Headers) -> bool
    ensures { result ≡ headers.is_chunked all.now }
{
    all.first_value("Transfer-Encoding").is_some()
}

fn begins_multipart(value: &str) -> bool
    ensures { result ≡ headers.begins_multipart (Some value.now) }
{
    let bytes = value.as_bytes();
    if bytes.len() < 10 {
        return false;
    }
    bytes.split_at(10).0.eq_ignore_ascii_case(b"multipart/")
}

#[tactic(auto, unfolding(crate::specs::Headers::is_multipart))]
pub(crate) fn is_multipart(all: &Headers) -> bool
    ensures { result ≡ headers.is_multipart all.now }
{
    match all.first_value("Content-Type") {
        Some(value) => begins_multipart(value),
        None => false,
    }
}
