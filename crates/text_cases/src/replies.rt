ghost use Rattle.std.specs.Prelude.{IfSome};
ghost use Rattle.http_out.specs.Replies.{IsStatus};

use cases::{CasesRefusal, Part};
use evaluator::{Kind, Mark, Reply, ShownList};
use http_out::reply_bytes;
use std::alloc::Global;
use zbase::{Bytes, Text, Tid};

// The status of that number, where replies may have it.
fn known_status(number: u64) -> Option<u16>
    ensures { IfSome result IsStatus }
{
    match number {
        200 => Some(200),
        400 => Some(400),
        401 => Some(401),
        404 => Some(404),
        411 => Some(411),
        413 => Some(413),
        414 => Some(414),
        415 => Some(415),
        431 => Some(431),
        500 => Some(500),
        501 => Some(501),
        503 => Some(503),
        _ => None,
    }
}

// The mark that a part says from its fifth word on.
fn mark_of(part: &Part) -> Result<Mark, CasesRefusal> {
    match part.word(4) {
        Some("read") => Ok(Mark::Read(Tid(part.id(5)?))),
        Some("commit") => Ok(Mark::Commit(Tid(part.id(5)?))),
        Some("none") => Ok(Mark::Empty),
        _ => Err(CasesRefusal::BadPart(part.line)),
    }
}

// The form, and whether the body is left out.
fn form_of(part: &Part) -> Result<(Kind, bool), CasesRefusal> {
    match (part.word(2), part.word(3)) {
        (Some("html"), Some("whole")) => Ok((Kind::Html, false)),
        (Some("html"), Some("head")) => Ok((Kind::Html, true)),
        (Some("plain"), Some("whole")) => Ok((Kind::Plain, false)),
        (Some("plain"), Some("head")) => Ok((Kind::Plain, true)),
        _ => Err(CasesRefusal::BadPart(part.line)),
    }
}

/// Adds the bytes of the reply that a part says.
pub fn put_reply(alloc: Global, part: &Part, out: &mut Bytes) -> Result<(), CasesRefusal> {
    let mark = mark_of(part)?;
    let (kind, head_only) = form_of(part)?;
    let Some(status) = known_status(part.number(1)?) else {
        return Err(CasesRefusal::BadPart(part.line));
    };
    let Ok(body) = str::from_utf8(part.bytes.as_slice()) else {
        return Err(CasesRefusal::BadPart(part.line));
    };
    let reply = Reply {
        status,
        kind,
        head_only,
        body: Text::from_str(alloc, body)?,
        shown: ShownList::new(alloc),
        denied: None,
    };
    let bytes = reply_bytes(alloc, &reply, mark)?;
    Ok(out.append(bytes.as_slice())?)
}
