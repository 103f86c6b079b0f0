ghost use Rattle.std.specs.Prelude.{◌≡◌, ◌&&◌, ◌||◌, ◌==◌, nat_le, not, take, Some, None, option_map, if◌then◌else◌};
ghost use Rattle.std.specs.List.{list_all, list_any};
ghost use Rattle.std.specs.Str.{is_utf8, bytes_eq};
ghost use Rattle.zobject.specs.Texts as rules;

use crate::limits::{MOST_NAME, MOST_PASSWORD, MOST_ROLE, MOST_TITLE, MOST_VALUE};
use crate::{Kind, Rule};
use zbase::MOST_SOURCE;

// Each byte that a name may have stands at its own place, and an exclamation mark at every other.
static ID_BYTES: [u8; 256] = *b"\
    !!!!!!!!!!!!!!!!!!!!!!!!!!!!!!!!\
    !!!!!!!!!!!!,-.!0123456789!!!!!!\
    !ABCDEFGHIJKLMNOPQRSTUVWXYZ!!!!_\
    !abcdefghijklmnopqrstuvwxyz!!!~!\
    !!!!!!!!!!!!!!!!!!!!!!!!!!!!!!!!\
    !!!!!!!!!!!!!!!!!!!!!!!!!!!!!!!!\
    !!!!!!!!!!!!!!!!!!!!!!!!!!!!!!!!\
    !!!!!!!!!!!!!!!!!!!!!!!!!!!!!!!!";

fn is_id_byte(byte: u8) -> bool
    ensures { result ≡ rules.is_id_byte byte }
{
    ID_BYTES[byte as usize] != b'!'
}

fn is_name_byte(byte: u8) -> bool
    ensures { result ≡ (rules.is_letter byte || rules.is_digit byte || (byte == 95)) }
{
    matches!(byte, b'A'..=b'Z' | b'a'..=b'z' | b'0'..=b'9' | b'_')
}

fn is_user_byte(byte: u8) -> bool
    ensures { result ≡ (nat_le 32 byte && not (byte == 58)) }
{
    32 <= byte && byte != b':'
}

fn is_role_byte(byte: u8) -> bool
    ensures { result ≡ (rules.is_between 32 126 byte && not (byte == 44)) }
{
    matches!(byte, b' '..=b'~') && byte != b','
}

// It goes on behind a byte that fails, so that no byte costs a branch: a folder may have thousands of names.
pub(crate) fn has_id_bytes(text: &[u8]) -> bool
    ensures { result ≡ list_all rules.is_id_byte text.now }
{
    let mut all = true;
    for byte in text {
        all &= is_id_byte(*byte);
    }
    all
}

pub(crate) fn has_name_bytes(text: &[u8]) -> bool
    ensures { result ≡ list_all (λ b. rules.is_letter b || rules.is_digit b || (b == 95)) text.now }
{
    text.iter().all(|byte| is_name_byte(*byte))
}

pub(crate) fn has_user_bytes(text: &[u8]) -> bool
    ensures { result ≡ list_all (λ b. nat_le 32 b && not (b == 58)) text.now }
{
    text.iter().all(|byte| is_user_byte(*byte))
}

pub(crate) fn has_role_bytes(text: &[u8]) -> bool
    ensures { result ≡ list_all (λ b. rules.is_between 32 126 b && not (b == 44)) text.now }
{
    text.iter().all(|byte| is_role_byte(*byte))
}

fn is_named(name: &str, text: &[u8]) -> bool
    ensures { result ≡ bytes_eq name.now text.now }
{
    name.as_bytes() == text
}

// Names that mean something else in every object. A text is compared with those alone that begin as it does.
pub(crate) fn is_reserved(text: &[u8]) -> bool
    ensures { result ≡ rules.is_reserved text.now }
{
    match text {
        [b'.', ..] => is_named(".", text) || is_named("..", text),
        [b'a', ..] => is_named("acl_users", text),
        [b'i', ..] => is_named("id", text),
        [b't', ..] => is_named("title", text) || is_named("title_or_id", text),
        [b'o', ..] => is_named("objectIds", text) || is_named("objectValues", text),
        [b'u', ..] => {
            is_named("userFolderAddUser", text) || is_named("undoable_transactions", text)
        }
        [] | [_, ..] => false,
    }
}

fn is_of_length(most: usize, text: &[u8]) -> bool
    ensures { result ≡ rules.is_of_length most text.now }
{
    1 <= text.len() && text.len() <= most
}

fn is_spelled(text: &[u8]) -> bool
    ensures { result ≡ rules.is_spelled text.now }
{
    is_of_length(MOST_NAME, text) && has_id_bytes(text)
}

pub(crate) fn is_hidden(text: &[u8]) -> bool
    ensures { result ≡ rules.is_hidden text.now }
{
    text.starts_with(b"_") || text.starts_with(b"aq_") || text.starts_with(b"manage_")
}

// Whether a text may name an object in its folder.
#[tactic(auto, unfolding(crate::specs::Texts::is_id))]
fn is_id(text: &[u8]) -> bool
    ensures { result ≡ rules.is_id text.now }
{
    is_spelled(text) && !is_hidden(text) && !is_reserved(text)
}

pub(crate) fn is_acl_users(text: &[u8]) -> bool
    ensures { result ≡ rules.is_acl_users text.now }
{
    b"acl_users".as_slice() == text
}

pub(crate) fn begins_with_letter(text: &[u8]) -> bool
    ensures { result ≡ list_any rules.is_letter (take 1 text.now) }
{
    match text {
        [] => false,
        [byte, ..] => matches!(*byte, b'A'..=b'Z' | b'a'..=b'z'),
    }
}

fn is_property_name(text: &[u8]) -> bool
    ensures { result ≡ rules.is_property_name text.now }
{
    is_of_length(MOST_NAME, text)
        && has_name_bytes(text)
        && begins_with_letter(text)
        && !is_reserved(text)
}

fn is_user_name(text: &[u8]) -> bool
    ensures { result ≡ rules.is_user_name text.now }
{
    is_of_length(MOST_NAME, text) && has_user_bytes(text)
}

fn is_role(text: &[u8]) -> bool
    ensures { result ≡ rules.is_role text.now }
{
    is_of_length(MOST_ROLE, text) && has_role_bytes(text)
}

fn is_stored_id(kind: Kind, text: &[u8]) -> bool
    ensures { result ≡ rules.is_stored_id kind text.now }
{
    match kind {
        Kind::Folder => text.is_empty() || is_id(text),
        Kind::UserFolder => is_acl_users(text) || is_id(text),
        Kind::Method | Kind::Document => is_id(text),
    }
}

fn fits(rule: Rule, text: &[u8]) -> bool
    ensures { result ≡ rules.fits rule text.now }
{
    match rule {
        Rule::StoredId(kind) => is_stored_id(kind, text),
        Rule::ChildName => is_id(text) || is_acl_users(text),
        Rule::PropertyName => is_property_name(text),
        Rule::Value => text.len() <= MOST_VALUE,
        Rule::Role => is_role(text),
        Rule::UserName => is_user_name(text),
        Rule::Password => text.len() <= MOST_PASSWORD,
        Rule::Title => text.len() <= MOST_TITLE,
        Rule::Source => text.len() <= MOST_SOURCE,
    }
}

#[tactic(auto, using(crate::proofs::Utf8::utf8_yes, crate::proofs::Utf8::utf8_no))]
pub(crate) fn is_utf8(bytes: &[u8]) -> bool
    ensures { result ≡ is_utf8 bytes.now }
{
    match str::from_utf8(bytes) {
        Ok(_) => true,
        Err(_) => false,
    }
}

/// The text that the bytes are, where they keep the rule of what it is. Takes no memory.
#[tactic(auto, using(crate::proofs::Utf8::utf8_yes, crate::proofs::Utf8::utf8_no))]
pub fn text_by(rule: Rule, bytes: &[u8]) -> Option<&str>
    ensures { option_map (λ t. t.now) result ≡ (if rules.keeps rule bytes.now then Some bytes.now else None) }
{
    if !fits(rule, bytes) {
        return None;
    }
    match str::from_utf8(bytes) {
        Ok(text) => Some(text),
        Err(_) => None,
    }
}

/// Whether a text keeps the rule of what it is; every text is UTF-8. Takes no memory.
pub fn keeps(rule: Rule, text: &[u8]) -> bool
    ensures { result ≡ rules.keeps rule text.now }
{
    fits(rule, text) && is_utf8(text)
}
