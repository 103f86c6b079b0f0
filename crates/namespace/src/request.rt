ghost use Rattle.std.specs.Prelude.{◌≡◌, ◌++◌, ◌∷◌, [], IfOk, OnOk, map};
ghost use Rattle.http_in.specs.Headers as headers;
ghost use Rattle.namespace.specs.Requests as spec;

use crate::label::Label;
use crate::val::{Named, Names, Single, Singles, Val};
use form_fields::{FieldValue, Fields, Scalar};
use http_in::{Request, Verb};
use permissions::Who;
use std::alloc::Global;
use zbase::{Items, Memory, Text};

/// How many names every request has.
const REQUEST_WORDS: usize = 3;

fn host(request: &Request) -> &str
    ensures { result.now ≡ spec.or_localhost (headers.first_value spec.host_name request.now.headers) }
{
    match request.headers.first_value("Host") {
        Some(host) => host,
        None => "localhost",
    }
}

fn url(alloc: Global, request: &Request) -> Result<Text, Memory>
    ensures { IfOk result (λ text. text ≡ spec.url request.now) }
{
    let mut url = Text::from_str(alloc, "http://")?;
    url.push_str(host(request))?;
    url.push_str(request.raw.as_str())?;
    Ok(url)
}

fn method_name(method: Verb) -> &'static str
    ensures { result.now ≡ spec.method_text method }
{
    match method {
        Verb::Get => "GET",
        Verb::Head => "HEAD",
        Verb::Post => "POST",
    }
}

fn user_name(user: &Who) -> &str
    ensures { result.now ≡ spec.user_text user.now }
{
    match user {
        Who::Anonymous => "Anonymous User",
        Who::Known { name, .. } => name.as_str(),
    }
}

fn scalar(value: &Scalar) -> Result<Single, Memory>
    ensures { IfOk result (λ single. single ≡ spec.scalar_value value.now) }
{
    match value {
        Scalar::Text(text) => Ok(Single::Text(text.copy()?)),
        Scalar::Int(number) => Ok(Single::Int(*number)),
    }
}

fn scalars(alloc: Global, values: &[Scalar]) -> Result<Singles, Memory>
    ensures { IfOk result (λ all. all ≡ map spec.scalar_value values.now) }
{
    let mut all = Items::from_vec(Vec::with_capacity(alloc, values.len())?);
    for value in values {
        all.push(scalar(value)?)?;
    }
    Ok(all)
}

fn field_value(alloc: Global, value: &FieldValue) -> Result<Val, Memory>
    ensures { IfOk result (λ val. val ≡ spec.field_value value.now) }
{
    match value {
        FieldValue::One(value) => Ok(Val::Single(scalar(value)?)),
        FieldValue::List(values) => Ok(Val::Seq(scalars(alloc, values.as_slice())?)),
    }
}

fn push_fields(alloc: Global, names: &mut Names, fields: &Fields) -> Result<(), Memory>
    ensures { OnOk result (names.new ≡ names.old ++ map spec.named_field fields.now) }
{
    for field in fields.as_slice() {
        let name = Label::of(field.name.copy()?);
        let val = field_value(alloc, &field.value)?;
        names.push(Named { name, val })?;
    }
    Ok(())
}

fn push_text(names: &mut Names, name: &'static str, text: Text) -> Result<(), Memory>
    ensures { OnOk result (names.new ≡ names.old ++ spec.named_text name.now text ∷ []) }
{
    let name = Label::word(name);
    let val = Val::Single(Single::Text(text));
    names.push(Named { name, val })
}

/// The names of a request: `URL0`, `REQUEST_METHOD` and `AUTHENTICATED_USER`, its fields, a list as a sequence, and its
/// cookies. The user is that of the request, whoever else's roles a source may have.
///
/// The one error is want of memory. Zope Book, "Variables and Advanced DTML": the web request.
#[tactic(auto, unfolding(crate::specs::Requests::request_names))]
pub fn request_names(
    alloc: Global,
    request: &Request,
    user: &Who,
    fields: &Fields,
    cookies: &Fields,
) -> Result<Names, Memory>
    ensures { IfOk result (λ names. names ≡ spec.request_names request.now user.now fields.now cookies.now) }
{
    let count = fields
        .len()
        .saturating_add(cookies.len())
        .saturating_add(REQUEST_WORDS);
    let mut names = Items::from_vec(Vec::with_capacity(alloc, count)?);
    push_text(&mut names, "URL0", url(alloc, request)?)?;
    let method = Text::from_str(alloc, method_name(request.method))?;
    push_text(&mut names, "REQUEST_METHOD", method)?;
    let user = Text::from_str(alloc, user_name(user))?;
    push_text(&mut names, "AUTHENTICATED_USER", user)?;
    push_fields(alloc, &mut names, fields)?;
    push_fields(alloc, &mut names, cookies)?;
    Ok(names)
}
