use http_in::{HttpRefusal, Message, Request, Verb};
use std::alloc::Global;
use zbase::{Bytes, Memory};

fn word_of(cause: HttpRefusal) -> &'static str {
    match cause {
        HttpRefusal::HeadTooLarge => "head-too-large",
        HttpRefusal::BadHead => "bad-head",
        HttpRefusal::Method => "method",
        HttpRefusal::PathTooLong => "path-too-long",
        HttpRefusal::Chunked => "chunked",
        HttpRefusal::BodyTooLarge => "body-too-large",
        HttpRefusal::Multipart => "multipart",
    }
}

fn word_of_verb(verb: Verb) -> &'static str {
    match verb {
        Verb::Get => "get",
        Verb::Head => "head",
        Verb::Post => "post",
    }
}

// Adds a text in brackets, behind a space.
fn put_text(out: &mut Bytes, text: &[u8]) -> Result<(), Memory> {
    out.append(b" [")?;
    out.append(text)?;
    out.append(b"]")
}

// Adds a line of a word and a text.
fn put_line(out: &mut Bytes, word: &[u8], text: &[u8]) -> Result<(), Memory> {
    out.append(word)?;
    put_text(out, text)?;
    out.push(b'\n')
}

// Adds the lines of a request behind its first.
fn put_request(out: &mut Bytes, request: &Request) -> Result<(), Memory> {
    for segment in request.path.as_slice() {
        put_line(out, b"segment", segment.as_bytes())?;
    }
    put_line(out, b"raw", request.raw.as_bytes())?;
    put_line(out, b"query", request.query.as_bytes())?;
    let headers = &request.headers;
    for at in 0..headers.len() {
        out.append(b"header")?;
        put_text(out, headers.name(at).as_bytes())?;
        put_text(out, headers.value(at).as_bytes())?;
        out.push(b'\n')?;
    }
    put_line(out, b"body", request.body.as_slice())
}

/// Adds the lines of a message of this length; its first line ends with what is to be marked.
pub fn put_message(
    alloc: Global,
    out: &mut Bytes,
    message: &Message,
    length: usize,
    mark: &str,
) -> Result<(), Memory> {
    match message {
        Message::Whole(request) => {
            let verb = word_of_verb(request.method);
            out.append(format!(in alloc; "{length} {verb}{mark}\n")?.as_bytes())?;
            put_request(out, request)
        }
        Message::Refused(cause) => {
            let word = word_of(*cause);
            out.append(format!(in alloc; "{length} refused {word}{mark}\n")?.as_bytes())
        }
    }
}
