ghost use Rattle.std.specs.Prelude.{◌≡◌, IfOk};
ghost use Rattle.drawn_runs.specs.Messages as messages;

use itoa::Buffer;
use std::alloc::Global;
use zbase::{Bytes, Memory};

/// How many kinds of messages there are.
pub(crate) const KINDS: u64 = 4;

/// What is between the path of a form and the length of its body. The manager is `admin` with the password `secret`.
const FORM_HEAD: &[u8] =
    b" HTTP/1.1\r\nHost: localhost\r\nAuthorization: Basic YWRtaW46c2VjcmV0\r\nContent-Length: ";

// A request for a page.
fn get(alloc: Global, path: &[u8]) -> Result<Bytes, Memory>
    ensures { IfOk result (λ message. message ≡ messages.get path.now) }
{
    let mut message = Bytes::from_slice(alloc, b"GET ")?;
    message.append(path)?;
    message.append(b" HTTP/1.0\r\n\r\n")?;
    Ok(message)
}

// The manager of a new site sends a form.
fn post(alloc: Global, path: &[u8], body: &[u8]) -> Result<Bytes, Memory>
    ensures { IfOk result (λ message. message ≡ messages.post path.now body.now) }
{
    let mut message = Bytes::from_slice(alloc, b"POST ")?;
    message.append(path)?;
    message.append(FORM_HEAD)?;
    message.append(Buffer::new().format(body.len()).as_bytes())?;
    message.append(b"\r\n\r\n")?;
    message.append(body)?;
    Ok(message)
}

// A document is added whose id has the number.
fn addition(alloc: Global, number: u64) -> Result<Bytes, Memory>
    ensures { IfOk result (λ message. message ≡ messages.addition number) }
{
    let mut body = Bytes::from_slice(alloc, b"id=d")?;
    body.append(Buffer::new().format(number).as_bytes())?;
    body.append(b"&file=f")?;
    post(alloc, b"/manage_addDTMLDocument", body.as_slice())
}

/// The message of a kind, which the request with this number has.
pub(crate) fn message(alloc: Global, kind: u64, number: u64) -> Result<Bytes, Memory>
    ensures { IfOk result (λ message. message ≡ messages.message kind number) }
{
    match kind {
        0 => get(alloc, b"/"),
        1 => get(alloc, b"/index_html"),
        2 => post(alloc, b"/index_html/manage_edit", b"data=x"),
        _ => addition(alloc, number),
    }
}
