ghost use Rattle.std.specs.Prelude.{◌≡◌, ◌≤◌, ◌==◌, ℕ, true, nat_lt, length, IfOk, IfSome, IfNone, option_map, None, Some};
ghost use Rattle.std.specs.List.{count_by};
ghost use Rattle.httparse.specs.Spans.{IsRequestWithin};
ghost use Rattle.http_in.specs.Ends.{begins_with_text, header_lines};
ghost use Rattle.http_in.specs.HeadText.{head_of};
ghost use Rattle.http_in.specs.Messages as messages;
ghost use Rattle.http_in.specs.Paths as paths;
ghost use Rattle.http_in.specs.Inside.{Gives, HasParts};

use crate::headers::{body_length, headers_at, is_chunked, is_multipart, lossy_text};
use crate::limits::{MOST_BODY, MOST_LINES, MOST_SEGMENTS, MOST_TARGET};
use crate::path::{count_segments, cut, path_of};
use crate::refusal::HeadError;
use crate::{Headers, HttpRefusal, Request, Segments, Verb};
use httparse::Status;
use httparse::spans::{EMPTY_HEADER_SPAN, HeaderSpan, RequestSpans, parse_request};
use std::alloc::Global;
use zbase::{Bytes, Memory};

fn count_ends(head: &[u8]) -> usize
    ensures { result ≡ count_by (λ b. b == 10) head.now }
{
    head.iter().filter(|b| **b == b'\n').count()
}

/// How many lines a head has but for the first and the empty one.
fn count_lines(head: &[u8]) -> usize
    ensures { result ≡ header_lines head.now }
{
    count_ends(head).saturating_sub(2)
}

/// Where the parts of a head are, none where the bytes are no head, or one of too many lines.
fn parts_of(head: &[u8], spans: &mut [HeaderSpan]) -> Option<RequestSpans>
    requires { length spans.old ≡ messages.most_lines }
    ensures within { IfSome result (IsRequestWithin head.now spans.new) }
    ensures some { IfSome result (HasParts head.now spans.new) }
    ensures few { IfSome result (λ found. begins_with_text head.now ≡ true → header_lines head.now ≤ messages.most_lines) }
    ensures none { IfNone result (header_lines head.now ≤ messages.most_lines → head_of head.now ≡ None) }
{
    match parse_request(head, spans) {
        Ok(Status::Complete(found)) => {
            if found.len == head.len() {
                Some(found)
            } else {
                None
            }
        }
        Ok(Status::Partial) => None,
        Err(_) => None,
    }
}

/// Whether no empty line stands at the front.
fn begins_with_text(head: &[u8]) -> bool
    ensures { result ≡ begins_with_text head.now }
{
    !head.is_empty() && head[0] != b'\n' && head[0] != b'\r'
}

/// Whether a head has more header lines than may be.
///
/// Where its parts were found it has a line for each header, and one for each empty line before it. So the lines are
/// counted only where there are such lines, or no parts.
fn has_many_lines(head: &[u8], found: Option<RequestSpans>) -> bool
    requires { IfSome found (λ parts. begins_with_text head.now ≡ true → header_lines head.now ≤ messages.most_lines) }
    ensures { result ≡ nat_lt messages.most_lines (header_lines head.now) }
{
    if found.is_some() && begins_with_text(head) {
        false
    } else {
        count_lines(head) > MOST_LINES
    }
}

fn verb_of(method: &[u8]) -> Option<Verb>
    ensures { result ≡ messages.verb_of method.now }
{
    if method == b"GET".as_slice() {
        Some(Verb::Get)
    } else if method == b"HEAD".as_slice() {
        Some(Verb::Head)
    } else if method == b"POST".as_slice() {
        Some(Verb::Post)
    } else {
        None
    }
}

fn begins_with_slash(target: &[u8]) -> bool
    ensures { result ≡ messages.begins_with_slash target.now }
{
    !target.is_empty() && target[0] == b'/'
}

/// The path of a target that begins with a slash; none where that is no text.
fn path_in(alloc: Global, target: &[u8]) -> Result<Option<Segments>, Memory>
    ensures { IfOk result (λ path. path ≡ messages.path_in target.now) }
{
    if begins_with_slash(target) {
        path_of(alloc, cut(target, b'?').0)
    } else {
        Ok(None)
    }
}

fn is_long(target: &[u8]) -> bool
    ensures { result ≡ messages.is_long target.now }
{
    target.len() > MOST_TARGET || count_segments(cut(target, b'?').0) > MOST_SEGMENTS
}

fn is_post(verb: Verb) -> bool
    ensures { result ≡ messages.is_post verb }
{
    match verb {
        Verb::Get | Verb::Head => false,
        Verb::Post => true,
    }
}

/// What follows the first `?` of a target.
fn query_of(target: &[u8]) -> &[u8]
    ensures { result.now ≡ paths.query_of target.now }
{
    match cut(target, b'?').1 {
        Some(query) => query,
        None => &[],
    }
}

/// The request of these parts without its body, and how long that is.
#[tactic(auto, unfolding(crate::specs::Messages::request_of))]
fn request_of(
    alloc: Global,
    method: &[u8],
    target: &[u8],
    headers: Headers,
) -> Result<(Request, usize), HeadError>
    ensures is { Gives result (messages.request_of method.now target.now headers) }
    ensures small { IfOk result (λ x. x.1 ≤ messages.most_body) }
{
    let Some(path) = path_in(alloc, target)? else {
        return Err(HeadError::Refused(HttpRefusal::BadHead));
    };
    let Some(size) = body_length(&headers) else {
        return Err(HeadError::Refused(HttpRefusal::BadHead));
    };
    let Some(method) = verb_of(method) else {
        return Err(HeadError::Refused(HttpRefusal::Method));
    };
    if is_long(target) {
        return Err(HeadError::Refused(HttpRefusal::PathTooLong));
    }
    if is_chunked(&headers) {
        return Err(HeadError::Refused(HttpRefusal::Chunked));
    }
    if size > MOST_BODY {
        return Err(HeadError::Refused(HttpRefusal::BodyTooLarge));
    }
    if is_post(method) && is_multipart(&headers) {
        return Err(HeadError::Refused(HttpRefusal::Multipart));
    }
    let raw = lossy_text(alloc, cut(target, b'?').0)?;
    let query = lossy_text(alloc, query_of(target))?;
    let body = Bytes::new(alloc);
    let request = Request {
        method,
        path,
        raw,
        query,
        headers,
        body,
    };
    Ok((request, size))
}

/// The request that a head begins, without its body, and how long that is.
#[tactic(auto, unfolding(crate::specs::Messages::judged))]
pub(crate) fn judge(alloc: Global, head: &[u8]) -> Result<(Request, usize), HeadError>
    ensures is { Gives result (messages.judged head.now) }
    ensures small { IfOk result (λ x. x.1 ≤ messages.most_body) }
{
    let mut spans = [EMPTY_HEADER_SPAN; MOST_LINES];
    let found = parts_of(head, spans.as_mut_slice());
    if has_many_lines(head, found) {
        return Err(HeadError::Refused(HttpRefusal::HeadTooLarge));
    }
    let Some(found) = found else {
        return Err(HeadError::Refused(HttpRefusal::BadHead));
    };
    let headers = headers_at(alloc, head, &spans[..found.headers])?;
    request_of(alloc, found.method.of(head), found.path.of(head), headers)
}
