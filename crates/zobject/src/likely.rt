ghost use Rattle.std.specs.Prelude.{◌≡◌};
ghost use Rattle.zobject.specs.Likely as rules;

use crate::limits::{MOST_NAME, MOST_PASSWORD, MOST_ROLE, MOST_TITLE, MOST_VALUE};
use crate::texts::{
    begins_with_letter, has_id_bytes, has_name_bytes, has_role_bytes, has_user_bytes, is_acl_users,
    is_hidden, is_reserved, is_utf8,
};
use crate::{Kind, Rule};
use zbase::MOST_SOURCE;

#[tactic(auto, unfolding(crate::specs::Likely::is_like_id))]
fn is_like_id(text: &[u8]) -> bool
    ensures { result ≡ rules.is_like_id text.now }
{
    1 <= text.len() && has_id_bytes(text) && !is_hidden(text) && !is_reserved(text)
}

fn is_like_stored(kind: Kind, text: &[u8]) -> bool
    ensures { result ≡ rules.is_like_stored kind text.now }
{
    match kind {
        Kind::Folder => text.is_empty() || is_like_id(text),
        Kind::UserFolder => is_acl_users(text) || is_like_id(text),
        Kind::Method | Kind::Document => is_like_id(text),
    }
}

fn is_like_property_name(text: &[u8]) -> bool
    ensures { result ≡ rules.is_like_property_name text.now }
{
    1 <= text.len() && has_name_bytes(text) && begins_with_letter(text) && !is_reserved(text)
}

fn is_like_role(text: &[u8]) -> bool
    ensures { result ≡ rules.is_like_role text.now }
{
    1 <= text.len() && has_role_bytes(text)
}

fn is_like_user_name(text: &[u8]) -> bool
    ensures { result ≡ rules.is_like_user_name text.now }
{
    1 <= text.len() && has_user_bytes(text)
}

fn is_likely(rule: Rule, text: &[u8]) -> bool
    ensures { result ≡ rules.is_likely rule text.now }
{
    match rule {
        Rule::StoredId(kind) => is_like_stored(kind, text),
        Rule::ChildName => is_like_id(text) || is_acl_users(text),
        Rule::PropertyName => is_like_property_name(text),
        Rule::Role => is_like_role(text),
        Rule::UserName => is_like_user_name(text),
        Rule::Value | Rule::Password | Rule::Title | Rule::Source => true,
    }
}

/// Whether a text keeps the rule of what it is but for too many bytes. Takes no memory.
pub fn is_like(rule: Rule, text: &[u8]) -> bool
    ensures { result ≡ rules.is_like rule text.now }
{
    is_likely(rule, text) && is_utf8(text)
}

/// The most bytes that a text of a rule has. Takes no memory.
pub fn most_bytes(rule: Rule) -> usize
    ensures { result ≡ rules.most_bytes rule }
{
    match rule {
        Rule::StoredId(_) | Rule::ChildName | Rule::PropertyName | Rule::UserName => MOST_NAME,
        Rule::Role => MOST_ROLE,
        Rule::Value => MOST_VALUE,
        Rule::Password => MOST_PASSWORD,
        Rule::Title => MOST_TITLE,
        Rule::Source => MOST_SOURCE,
    }
}
