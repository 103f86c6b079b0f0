use cases::{Case, CasesRefusal, Part};
use form_fields::{cookies, fields};
use http_in::{Message, Request, take_message};
use namespace::{Names, request_names};
use permissions::Who;
use std::alloc::Global;
use zbase::Items;

// The request that a part's bytes are.
fn request_of(alloc: Global, part: &Part) -> Result<Request, CasesRefusal> {
    match take_message(alloc, part.bytes.as_slice())? {
        Some(Message::Whole(request)) => Ok(request),
        Some(Message::Refused(_)) | None => Err(CasesRefusal::BadPart(part.line)),
    }
}

/// The names of the case's message; none where it has no message.
pub(crate) fn names_of(alloc: Global, case: &Case, user: &Who) -> Result<Names, CasesRefusal> {
    let Some(part) = case.part("message") else {
        return Ok(Items::new(alloc));
    };
    let request = request_of(alloc, part)?;
    let Ok(form) = fields(alloc, &request) else {
        return Err(CasesRefusal::BadPart(part.line));
    };
    let cookies = cookies(alloc, &request)?;
    Ok(request_names(alloc, &request, user, &form, &cookies)?)
}
