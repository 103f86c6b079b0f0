ghost use Rattle.std.specs.Prelude.{◌≡◌, ◌==◌, IfOk, OnOk, map, option_map};
ghost use Rattle.std.specs.List.{fold, slice_split};
ghost use Rattle.form_fields.specs.Cookies as spec;
ghost use Rattle.form_fields.specs.Firsts.{AreAt};
ghost use Rattle.form_fields.specs.Grouping.{names, with_cookie};

use crate::places::{Places, place_of, put_name};
use crate::{Field, FieldValue, Fields, Scalar};
use http_in::Request;
use std::alloc::{AllocError, Global};
use std::collections::BTreeMap;
use zbase::{Items, Memory, Text};

fn trimmed(piece: &str) -> &str
    ensures { result.now ≡ spec.trimmed piece.now }
{
    piece.trim_start_matches(' ').trim_end_matches(' ')
}

// The name and the value on the two sides of the first `=`.
fn parted(piece: &str) -> Option<(&str, &str)>
    ensures { option_map (λ pair. (pair.0.now, pair.1.now)) result ≡ spec.parted piece.now }
{
    piece.split_once('=')
}

// What stands between the semicolons.
fn pieces_of<'a>(alloc: Global, value: &'a str) -> Result<Vec<&'a str>, AllocError>
    ensures { IfOk result (λ pieces. map (λ x. x.now) pieces.items ≡ slice_split (λ b. b == 59) value.now) }
{
    value.split(';').collect(alloc)
}

// Adds a cookie, if there is none of its name.
fn add_cookie(
    alloc: Global,
    name: &str,
    value: &str,
    cookies: &mut Fields,
    places: &mut Places,
) -> Result<(), Memory>
    requires { AreAt (names cookies.old) places.old }
    ensures cookies { OnOk result (cookies.new ≡ with_cookie cookies.old (name.now, value.now)) }
    ensures places { OnOk result (AreAt (names cookies.new) places.new) }
{
    if place_of(places, name).is_some() {
        return Ok(());
    }
    put_name(alloc, places, name, cookies.len())?;
    let name = Text::from_str(alloc, name)?;
    let value = FieldValue::One(Scalar::Text(Text::from_str(alloc, value)?));
    cookies.push(Field { name, value })
}

// Adds the cookies of a header's value.
fn add_cookies(
    alloc: Global,
    value: &str,
    cookies: &mut Fields,
    places: &mut Places,
) -> Result<(), Memory>
    requires { AreAt (names cookies.old) places.old }
    ensures cookies { OnOk result (cookies.new ≡ fold with_cookie cookies.old (spec.cookies_in value.now)) }
    ensures places { OnOk result (AreAt (names cookies.new) places.new) }
{
    for piece in pieces_of(alloc, value)? {
        if let Some((name, value)) = parted(trimmed(piece)) {
            add_cookie(alloc, name, value, cookies, places)?;
        }
    }
    Ok(())
}

/// The cookies of a request in order, the first of a name alone; each is one text.
///
/// The one error is want of memory. RFC 6265, "The Cookie Header".
#[tactic(auto, unfolding(crate::specs::Cookies::cookies_of))]
pub fn cookies(alloc: Global, request: &Request) -> Result<Fields, Memory>
    ensures { IfOk result (λ cookies. cookies ≡ spec.cookies_of request.now) }
{
    let mut cookies = Items::new(alloc);
    let mut places = BTreeMap::new(alloc);
    let headers = &request.headers;
    for at in 0..headers.len() {
        if headers.is_named(at, "Cookie") {
            add_cookies(alloc, headers.value(at), &mut cookies, &mut places)?;
        }
    }
    Ok(cookies)
}
