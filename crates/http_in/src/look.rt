ghost use Rattle.std.specs.Prelude.{◌≡◌, ◌≤◌, ◌+◌, Some, Ok, length, take, IfOk};
ghost use Rattle.http_in.specs.Ends.{head_end};
ghost use Rattle.http_in.specs.Inside.{IsLook, IsPassed, IsShort, looked_by};
ghost use Rattle.http_in.specs.Messages as messages;

use crate::ends::{Sought, search};
use crate::head::judge;
use crate::limits::MOST_HEAD;
use crate::refusal::HeadError;
use crate::{HttpRefusal, Message, Request};
use std::alloc::Global;
use zbase::{Bytes, Memory};

/// What a look at the bytes of a stream came to.
#[derive(Debug, Drop)]
pub(crate) enum Looked {
    /// They begin with this message, of this length.
    Found(Message, usize),
    /// No end of a head is there yet; none begins among the first so many bytes.
    Head(usize),
    /// The message will have so many bytes.
    Body(usize),
}

/// A request whose head ends at this place, with its body.
fn with_body(request: Request, bytes: &[u8], end: usize, size: usize) -> Result<Looked, Memory>
    requires within { end ≤ length bytes.now }
    requires fits { end + size ≤ messages.most_message }
    requires end { head_end (take messages.most_head bytes.now) ≡ Some end }
    requires judged { messages.judged (take end bytes.now) ≡ Ok (request, size) }
    ensures { IfOk result (λ look. IsLook bytes.now (looked_by look)) }
{
    let length = end + size;
    if bytes.len() < length {
        return Ok(Looked::Body(length));
    }
    let sent = bytes.split_at(end).1.split_at(size).0;
    let mut request = request;
    request.body = Bytes::from_slice(request.body.alloc(), sent)?;
    Ok(Looked::Found(Message::Whole(request), length))
}

/// The message whose head ends at this place.
fn behind_head(alloc: Global, bytes: &[u8], end: usize) -> Result<Looked, Memory>
    requires end { head_end (take messages.most_head bytes.now) ≡ Some end }
    ensures { IfOk result (λ look. IsLook bytes.now (looked_by look)) }
{
    match judge(alloc, bytes.split_at(end).0) {
        Ok((request, size)) => with_body(request, bytes, end, size),
        Err(HeadError::Refused(cause)) => Ok(Looked::Found(Message::Refused(cause), end)),
        Err(HeadError::Memory) => Err(Memory),
    }
}

/// The bytes in which a head must end.
fn window_of(bytes: &[u8]) -> &[u8]
    ensures { result.now ≡ take messages.most_head bytes.now }
{
    if bytes.len() > MOST_HEAD {
        bytes.split_at(MOST_HEAD).0
    } else {
        bytes
    }
}

/// Looks for the message that the bytes begin with, behind those that are passed; none is there before so many bytes as
/// are wanted.
///
/// That this is called seldom is so where bytes come alone, and matters there.
#[cold]
#[inline(never)]
pub(crate) fn look(
    alloc: Global,
    bytes: &[u8],
    clean: usize,
    wanted: usize,
) -> Result<Looked, Memory>
    requires within { clean ≤ length bytes.now }
    requires most { clean ≤ messages.most_head }
    requires passed { IsPassed (take clean bytes.now) }
    requires short { IsShort wanted bytes.now }
    ensures { IfOk result (λ look. IsLook bytes.now (looked_by look)) }
{
    if bytes.len() < wanted {
        return Ok(Looked::Body(wanted));
    }
    let window = window_of(bytes);
    let rest = window.split_at(clean).1;
    match search(rest) {
        Sought::Ends(end) => behind_head(alloc, bytes, clean + end),
        Sought::Goes(more) => {
            if bytes.len() < MOST_HEAD {
                Ok(Looked::Head(clean + more))
            } else {
                Ok(Looked::Found(Message::Refused(HttpRefusal::HeadTooLarge), MOST_HEAD))
            }
        }
    }
}
