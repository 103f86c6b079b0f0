ghost use Rattle.std.specs.Prelude.{◌≡◌, ◌++◌, IfOk, OnOk};
ghost use Rattle.http_out.specs.Replies.{IsStatus, answer, challenge, content_type, header, mark_text, phrase, status_line};

use evaluator::{Kind, Mark, Reply};
use http::StatusCode;
use std::alloc::Global;
use zbase::{Bytes, Memory, hex16};

fn phrase_of(status: u16) -> &'static str
    requires { IsStatus status }
    ensures { result.now ≡ phrase status }
{
    match StatusCode::from_u16(status) {
        Ok(code) => code.canonical_reason().unwrap_or(""),
        Err(_) => "",
    }
}

#[tactic(auto, unfolding(crate::specs::Replies::status_line))]
fn put_status_line(status: u16, out: &mut Bytes) -> Result<(), Memory>
    requires { IsStatus status }
    ensures { OnOk result (out.new ≡ out.old ++ status_line status) }
{
    out.append(b"HTTP/1.1 ")?;
    out.append(status.to_string(out.alloc())?.as_bytes())?;
    out.append(b" ")?;
    out.append(phrase_of(status).as_bytes())?;
    out.append(b"\r\n")
}

#[tactic(auto, unfolding(crate::specs::Replies::header))]
fn put_header(name: &[u8], value: &[u8], out: &mut Bytes) -> Result<(), Memory>
    ensures { OnOk result (out.new ≡ out.old ++ header name.now value.now) }
{
    out.append(name)?;
    out.append(b": ")?;
    out.append(value)?;
    out.append(b"\r\n")
}

#[tactic(auto, unfolding(crate::specs::Replies::challenge))]
fn put_challenge(status: u16, out: &mut Bytes) -> Result<(), Memory>
    ensures { OnOk result (out.new ≡ out.old ++ challenge status) }
{
    if status == 401 {
        return put_header(b"WWW-Authenticate", b"basic realm=\"Zope\"", out);
    }
    Ok(())
}

fn content_type_of(kind: Kind) -> &'static str
    ensures { result.now ≡ content_type kind }
{
    match kind {
        Kind::Html => "text/html; charset=utf-8",
        Kind::Plain => "text/plain; charset=utf-8",
    }
}

#[tactic(auto, unfolding(crate::specs::Replies::mark_text))]
fn mark_bytes(alloc: Global, mark: Mark) -> Result<Bytes, Memory>
    ensures { IfOk result (λ bytes. bytes ≡ mark_text mark) }
{
    match mark {
        Mark::Read(tid) => {
            let mut bytes = Bytes::from_slice(alloc, b"read ")?;
            bytes.append(&hex16(tid.0))?;
            Ok(bytes)
        }
        Mark::Commit(tid) => {
            let mut bytes = Bytes::from_slice(alloc, b"commit ")?;
            bytes.append(&hex16(tid.0))?;
            Ok(bytes)
        }
        Mark::Empty => Bytes::from_slice(alloc, b"none"),
    }
}

/// The bytes of a reply with its mark: the status line, the headers, an empty line, and the body where it is
/// sent.
///
/// The one error is want of memory. RFC 9112, "Message Format".
pub fn reply_bytes(alloc: Global, reply: &Reply, mark: Mark) -> Result<Bytes, Memory>
    requires { IsStatus reply.now.status }
    ensures { IfOk result (λ bytes. bytes ≡ answer reply.now mark) }
{
    let mark = mark_bytes(alloc, mark)?;
    let length = reply.body.len().to_string(alloc)?;
    let mut out = Bytes::new(alloc);
    put_status_line(reply.status, &mut out)?;
    put_challenge(reply.status, &mut out)?;
    put_header(
        b"Content-Type",
        content_type_of(reply.kind).as_bytes(),
        &mut out,
    )?;
    put_header(b"Content-Length", length.as_bytes(), &mut out)?;
    put_header(b"X-Transaction", mark.as_slice(), &mut out)?;
    put_header(b"Connection", b"close", &mut out)?;
    out.append(b"\r\n")?;
    if reply.head_only {
        return Ok(out);
    }
    out.append(reply.body.as_bytes())?;
    Ok(out)
}
