ghost use Rattle.std.specs.Prelude.{◌≡◌, ◌==◌, IfOk, Ok, Err, IsErrOf, option_map};
ghost use Rattle.std.specs.List.{after_first, before_first, position};
ghost use Rattle.user_folder.specs.Credentials as spec;
ghost use Rattle.user_folder.specs.declared.basic.HeaderRefusal.TheVariants as refusals;

use base64::DecodeAllocError;
use base64::engine::general_purpose::STANDARD;
use std::alloc::Global;
use zbase::{Memory, Text};

/// Why the credentials of a request aren't read.
#[derive(Clone, Copy, Debug, PartialEq, Eq)]
pub enum HeaderRefusal {
    /// The scheme is Basic, and what follows isn't base64 of a text with a colon.
    BadHeader,
    /// Want of memory.
    Memory,
}

impl From<Memory> for HeaderRefusal {
    ghost from_gives = { λ _ refusal. refusal ≡ refusals.Memory };

    fn from(_: Memory) -> HeaderRefusal {
        HeaderRefusal::Memory
    }
}

fn place_of(bytes: &[u8], byte: u8) -> Option<usize>
    ensures { result ≡ position (λ b. b == byte) bytes.now }
{
    bytes.iter().position(|b| *b == byte)
}

// The scheme, and what it says.
fn parts_of(header: &[u8]) -> (&[u8], &[u8])
    ensures scheme { result.0.now ≡ spec.scheme_of header.now }
    ensures said { result.1.now ≡ spec.said_of header.now }
{
    match place_of(header, b' ') {
        Some(at) => (header.split_at(at).0, header.split_at(at + 1).1),
        None => (header, header.split_at(header.len()).1),
    }
}

// The bytes that standard base64 spells.
#[tactic(auto, unfolding(crate::specs::Credentials::spelled_by))]
fn spelled_by(alloc: Global, text: &[u8]) -> Result<Option<Vec<u8>>, Memory>
    ensures { IfOk result (λ bytes. option_map (λ b. b.items) bytes ≡ spec.spelled_by text.now) }
{
    match STANDARD.decode(alloc, text) {
        Ok(bytes) => Ok(Some(bytes)),
        Err(DecodeAllocError::OutOfMemory) => Err(Memory),
        Err(_) => Ok(None),
    }
}

// The name and the password on the two sides of the first colon.
fn parted(text: &str) -> Option<(&str, &str)>
    ensures { option_map (λ pair. (pair.0.now, pair.1.now)) result ≡ spec.parted text.now }
{
    text.split_once(':')
}

#[tactic(auto, using(crate::proofs::Utf8::utf8_yes, crate::proofs::Utf8::utf8_no))]
fn pair_in(bytes: &[u8]) -> Option<(&str, &str)>
    ensures { option_map (λ pair. (pair.0.now, pair.1.now)) result ≡ spec.pair_in (Some bytes.now) }
{
    match str::from_utf8(bytes) {
        Ok(text) => parted(text),
        Err(_) => None,
    }
}

// The name and the password that base64 spells.
fn basic(alloc: Global, said: &[u8]) -> Result<(Text, Text), HeaderRefusal>
    ensures ok { IfOk result (λ pair. spec.pair_in (spec.spelled_by said.now) ≡ Some pair) }
    ensures bad { IsErrOf result refusals.BadHeader → spec.pair_in (spec.spelled_by said.now) ≡ None }
{
    let Some(bytes) = spelled_by(alloc, said)? else {
        return Err(HeaderRefusal::BadHeader);
    };
    let Some((name, password)) = pair_in(bytes.as_slice()) else {
        return Err(HeaderRefusal::BadHeader);
    };
    Ok((
        Text::from_str(alloc, name)?,
        Text::from_str(alloc, password)?,
    ))
}

/// The name and the password that the value of a header `Authorization` carries; none without the header, or where its
/// scheme isn't Basic.
///
/// Errors: the scheme is Basic and it carries neither; want of memory. RFC 7617, "The 'Basic' HTTP Authentication
/// Scheme".
pub fn credentials(
    alloc: Global,
    header: Option<&[u8]>,
) -> Result<Option<(Text, Text)>, HeaderRefusal>
    ensures ok { IfOk result (λ pair. spec.credentials_of (option_map (λ h. h.now) header.entry) ≡ Ok pair) }
    ensures bad { IsErrOf result refusals.BadHeader → spec.credentials_of (option_map (λ h. h.now) header.entry) ≡ Err refusals.BadHeader }
{
    let Some(header) = header else {
        return Ok(None);
    };
    let (scheme, said) = parts_of(header);
    if !scheme.eq_ignore_ascii_case(b"Basic") {
        return Ok(None);
    }
    Ok(Some(basic(alloc, said)?))
}
