ghost use Rattle.std.specs.Prelude.{◌≡◌};
ghost use Rattle.evaluator.specs.Named.{permission_named};
ghost use Rattle.form_fields.specs.Numbers.{whole_number};
ghost use Rattle.manage.specs.Fields as fields;

use crate::refusal::FieldName;
use evaluator::permission_named;
use form_fields::whole_number;
use zbase::MOST_SOURCE;
use zobject::limits::{MOST_GIVEN_PASSWORD, MOST_NAME, MOST_ROLE, MOST_TITLE, MOST_VALUE};
use zobject::{Kind, Rule};

/// What each text of a field has to be.
#[derive(Clone, Copy, Debug, PartialEq, Eq)]
pub(crate) enum FieldRule {
    /// Any text.
    Any,
    /// Any text but `acl_users`.
    ChildName,
    /// An id.
    Id,
    /// A whole number of 64 bits, in at most as many bytes as a property's value.
    Number,
    /// A password.
    Password,
    /// The name of a permission.
    Permission,
    /// The name of a property.
    PropertyName,
    /// The name of a type of properties.
    PropertyType,
    /// The name of a role.
    Role,
    /// The source of a method or document.
    Source,
    /// A title.
    Title,
    /// The name of a user.
    UserName,
    /// The value of a property.
    Value,
}

/// A field of a call: what its texts have to be, whether it has to be there, and whether it may have several values.
#[derive(Clone, Copy, Debug, PartialEq, Eq)]
pub(crate) struct FieldRow {
    pub field: FieldName,
    pub rule: FieldRule,
    pub needed: bool,
    pub listed: bool,
}

/// A field with one value, which has to be there.
pub(crate) fn one(field: FieldName, rule: FieldRule) -> FieldRow
    ensures { result ≡ fields.one field rule }
{
    FieldRow {
        field,
        rule,
        needed: true,
        listed: false,
    }
}

/// A field with one value, which may be absent.
pub(crate) fn maybe(field: FieldName, rule: FieldRule) -> FieldRow
    ensures { result ≡ fields.maybe field rule }
{
    FieldRow {
        field,
        rule,
        needed: false,
        listed: false,
    }
}

/// A field with one value or a list, which has to be there.
pub(crate) fn list(field: FieldName, rule: FieldRule) -> FieldRow
    ensures { result ≡ fields.list field rule }
{
    FieldRow {
        field,
        rule,
        needed: true,
        listed: true,
    }
}

/// A field with one value or a list, which may be absent.
pub(crate) fn maybe_list(field: FieldName, rule: FieldRule) -> FieldRow
    ensures { result ≡ fields.maybe_list field rule }
{
    FieldRow {
        field,
        rule,
        needed: false,
        listed: true,
    }
}

fn is_type(text: &str) -> bool
    ensures { result ≡ fields.is_type text.now }
{
    text == "string" || text == "int" || text == "lines"
}

fn names_permission(text: &str) -> bool
    ensures { result ≡ fields.is_there (permission_named text.now) }
{
    permission_named(text).is_some()
}

fn is_number(text: &str) -> bool
    ensures { result ≡ fields.is_there (whole_number text.now) }
{
    whole_number(text).is_some()
}

/// Whether a text keeps its rule but for too many bytes.
pub(crate) fn is_like(rule: FieldRule, text: &str) -> bool
    ensures { result ≡ fields.is_like rule text.now }
{
    match rule {
        FieldRule::Any => true,
        FieldRule::ChildName => text != "acl_users",
        FieldRule::Id => zobject::is_like(Rule::StoredId(Kind::Document), text.as_bytes()),
        FieldRule::Number => is_number(text),
        FieldRule::Password => 1 <= text.len(),
        FieldRule::Permission => names_permission(text),
        FieldRule::PropertyName => zobject::is_like(Rule::PropertyName, text.as_bytes()),
        FieldRule::PropertyType => is_type(text),
        FieldRule::Role => zobject::is_like(Rule::Role, text.as_bytes()),
        FieldRule::Source => zobject::is_like(Rule::Source, text.as_bytes()),
        FieldRule::Title => zobject::is_like(Rule::Title, text.as_bytes()),
        FieldRule::UserName => zobject::is_like(Rule::UserName, text.as_bytes()),
        FieldRule::Value => zobject::is_like(Rule::Value, text.as_bytes()),
    }
}

/// Whether a text has more bytes than its rule allows.
pub(crate) fn is_long(rule: FieldRule, text: &str) -> bool
    ensures { result ≡ fields.is_long rule text.now }
{
    match rule {
        FieldRule::Any | FieldRule::ChildName | FieldRule::Permission | FieldRule::PropertyType =>
            false,
        FieldRule::Password => MOST_GIVEN_PASSWORD < text.len(),
        FieldRule::Title => MOST_TITLE < text.len(),
        FieldRule::Id | FieldRule::PropertyName | FieldRule::UserName => MOST_NAME < text.len(),
        FieldRule::Number | FieldRule::Value => MOST_VALUE < text.len(),
        FieldRule::Role => MOST_ROLE < text.len(),
        FieldRule::Source => MOST_SOURCE < text.len(),
    }
}
