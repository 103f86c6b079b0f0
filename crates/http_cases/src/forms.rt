use cases::{CasesRefusal, Part, add_bytes};
use form_fields::{Field, FieldRefusal, FieldValue, Fields, Scalar, cookies, fields};
use http_in::{Message, Reader, Request};
use std::alloc::Global;
use zbase::{Bytes, Memory};

// Adds a value: a text in brackets, or a number.
fn put_scalar(alloc: Global, out: &mut Bytes, value: &Scalar) -> Result<(), Memory> {
    match value {
        Scalar::Text(text) => {
            out.append(b" [")?;
            out.append(text.as_bytes())?;
            out.append(b"]")
        }
        Scalar::Int(number) => {
            out.append(b" ")?;
            out.append(number.to_string(alloc)?.as_bytes())
        }
    }
}

// Adds the line of a field: its kind, its name in brackets, and its values.
fn put_field(alloc: Global, out: &mut Bytes, field: &Field) -> Result<(), Memory> {
    let word = match &field.value {
        FieldValue::One(_) => "one [",
        FieldValue::List(_) => "list [",
    };
    out.append(word.as_bytes())?;
    out.append(field.name.as_bytes())?;
    out.append(b"]")?;
    match &field.value {
        FieldValue::One(value) => put_scalar(alloc, out, value)?,
        FieldValue::List(values) => {
            for value in values.as_slice() {
                put_scalar(alloc, out, value)?;
            }
        }
    }
    out.push(b'\n')
}

fn lines_of(alloc: Global, all: &[Field]) -> Result<Bytes, Memory> {
    let mut lines = Bytes::new(alloc);
    for field in all {
        put_field(alloc, &mut lines, field)?;
    }
    Ok(lines)
}

// The request that a part's bytes begin with.
fn request_of(alloc: Global, part: &Part) -> Result<Request, CasesRefusal> {
    let mut reader = Reader::new(alloc);
    reader.feed(part.bytes.as_slice())?;
    match reader.next()? {
        Some(Message::Whole(request)) => Ok(request),
        Some(Message::Refused(_)) | None => Err(CasesRefusal::BadPart(part.line)),
    }
}

// The fields of the request that a part has.
fn fields_of(alloc: Global, part: &Part) -> Result<Result<Fields, FieldRefusal>, CasesRefusal> {
    let request = request_of(alloc, part)?;
    Ok(fields(alloc, &request))
}

/// Adds the fields of the request that a part has.
pub fn put_fields(alloc: Global, part: &Part, parts: &mut Vec<Part>) -> Result<(), CasesRefusal> {
    match fields_of(alloc, part)? {
        Ok(all) => add_bytes(alloc, parts, "fields", lines_of(alloc, all.as_slice())?),
        Err(FieldRefusal::NotANumber(name)) => {
            let name = Bytes::from_slice(alloc, name.as_bytes())?;
            add_bytes(alloc, parts, "no-number", name)
        }
        Err(FieldRefusal::Memory) => Err(CasesRefusal::Memory),
    }
}

// The cookies of the request that a part has.
fn cookies_of(alloc: Global, part: &Part) -> Result<Fields, CasesRefusal> {
    let request = request_of(alloc, part)?;
    Ok(cookies(alloc, &request)?)
}

/// Adds the cookies of the request that a part has.
pub fn put_cookies(alloc: Global, part: &Part, parts: &mut Vec<Part>) -> Result<(), CasesRefusal> {
    let all = cookies_of(alloc, part)?;
    add_bytes(alloc, parts, "cookies", lines_of(alloc, all.as_slice())?)
}
