ghost use Rattle.std.specs.Prelude.{◌≡◌};
ghost use Rattle.form_fields.specs.Pairs as pairs;
ghost use Rattle.http_in.specs.Headers as headers;

use http_in::Headers;

fn begins_form(value: &str) -> bool
    ensures { result ≡ pairs.begins_form value.now }
{
    value
        .as_bytes()
        .starts_with(b"application/x-www-form-urlencoded")
}

/// Whether the body of a POST with these headers is a form.
pub(crate) fn is_form(all: &Headers) -> bool
    ensures { result ≡ pairs.is_form (headers.first_value pairs.content_type all.now) }
{
    match all.first_value("Content-Type") {
        Some(value) => begins_form(value),
        None => true,
    }
}
