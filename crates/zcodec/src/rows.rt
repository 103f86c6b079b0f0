ghost use Rattle.std.specs.Prelude.{◌≡◌, option_map};
ghost use Rattle.zobject.specs.Rules.{comes_before};
ghost use Rattle.zcodec.specs.Reading.{Gives, line_at, local_at, name_at, permission_at, property_at, rises, role_at, roles_at, setting_at, user_at};

use crate::fields::{byte_of, flag_of, text_of};
use crate::lists::{Row, list_of};
use crate::reading::value_of;
use crate::unread::Unread;
use std::alloc::Global;
use zbase::Text;
use zobject::limits::MOST_COUNTED;
use zobject::{Local, Property, Roles, Rule, Setting, User, Version};

/// A role, by bytes behind the last one.
#[derive(Clone, Copy)]
pub(crate) struct RoleRow;

impl Row for RoleRow {
    type Item = Text;

    ghost next = { λ row. role_at };

    #[tactic(auto, unfolding(crate::specs::Reading::role_at))]
    fn read<'a>(
        &self,
        alloc: Global,
        last: Option<&Text>,
        bytes: &'a [u8],
    ) -> Result<(Text, &'a [u8]), Unread> {
        let (role, rest) = text_of(Rule::Role, bytes)?;
        if !rises(last, role) {
            return Err(Unread::Bad(bytes.len()));
        }
        Ok((Text::from_str(alloc, role)?, rest))
    }
}

fn rises(last: Option<&Text>, text: &str) -> bool
    ensures { result ≡ rises comes_before (option_map (λ t. t.now) last.entry) text.now }
{
    match last {
        Some(last) => last.as_str() < text,
        None => true,
    }
}

/// A line of a property's value.
#[derive(Clone, Copy)]
pub(crate) struct LineRow;

impl Row for LineRow {
    type Item = Text;

    ghost next = { λ row. line_at };

    #[tactic(auto, unfolding(crate::specs::Reading::line_at))]
    fn read<'a>(
        &self,
        alloc: Global,
        last: Option<&Text>,
        bytes: &'a [u8],
    ) -> Result<(Text, &'a [u8]), Unread> {
        let (line, rest) = text_of(Rule::Value, bytes)?;
        Ok((Text::from_str(alloc, line)?, rest))
    }
}

/// The number of a permission, behind the last setting's.
#[tactic(auto, unfolding(crate::specs::Reading::permission_at))]
fn permission_of<'a>(
    version: Version,
    last: Option<&Setting>,
    bytes: &'a [u8],
) -> Result<(u8, &'a [u8]), Unread>
    ensures { Gives (λ x. (x.0, x.1.now)) result (permission_at version (option_map (λ s. s.now) last.entry) bytes.now) }
{
    let (number, rest) = byte_of(bytes)?;
    let behind = match last {
        Some(last) => last.permission < number,
        None => true,
    };
    let most = match version {
        Version::First => 12,
        Version::Second => 13,
    };
    if 1 <= number && number <= most && behind {
        Ok((number, rest))
    } else {
        Err(Unread::Bad(bytes.len()))
    }
}

/// At least so many roles.
pub(crate) fn roles_of<'a>(
    alloc: Global,
    least: u16,
    bytes: &'a [u8],
) -> Result<(Roles, &'a [u8]), Unread>
    ensures { Gives (λ x. (x.0, x.1.now)) result (roles_at least bytes.now) }
{
    list_of(alloc, &RoleRow, least, MOST_COUNTED, bytes)
}

/// The roles of a permission.
#[derive(Clone, Copy)]
pub(crate) struct SettingRow {
    pub version: Version,
}

impl Row for SettingRow {
    type Item = Setting;

    ghost next = { λ row. setting_at row.version };

    #[tactic(auto, unfolding(crate::specs::Reading::setting_at))]
    fn read<'a>(
        &self,
        alloc: Global,
        last: Option<&Setting>,
        bytes: &'a [u8],
    ) -> Result<(Setting, &'a [u8]), Unread> {
        let (permission, rest) = permission_of(self.version, last, bytes)?;
        let (acquire, rest) = flag_of(rest)?;
        let least = if acquire { 1 } else { 0 };
        let (roles, rest) = roles_of(alloc, least, rest)?;
        Ok((
            Setting {
                permission,
                acquire,
                roles,
            },
            rest,
        ))
    }
}

/// A name, by bytes behind the last one.
#[tactic(auto, unfolding(crate::specs::Reading::name_at))]
fn name_of<'a>(
    rule: Rule,
    last: Option<&Text>,
    bytes: &'a [u8],
) -> Result<(&'a str, &'a [u8]), Unread>
    ensures { Gives (λ x. (x.0.now, x.1.now)) result (name_at rule (option_map (λ t. t.now) last.entry) bytes.now) }
{
    let (name, rest) = text_of(rule, bytes)?;
    if !rises(last, name) {
        return Err(Unread::Bad(bytes.len()));
    }
    Ok((name, rest))
}

/// The local roles of a user.
#[derive(Clone, Copy)]
pub(crate) struct LocalRow;

impl Row for LocalRow {
    type Item = Local;

    ghost next = { λ row. local_at };

    #[tactic(auto, unfolding(crate::specs::Reading::local_at))]
    fn read<'a>(
        &self,
        alloc: Global,
        last: Option<&Local>,
        bytes: &'a [u8],
    ) -> Result<(Local, &'a [u8]), Unread> {
        let earlier = match last {
            Some(last) => Some(&last.user),
            None => None,
        };
        let (user, rest) = name_of(Rule::UserName, earlier, bytes)?;
        let (roles, rest) = roles_of(alloc, 1, rest)?;
        let user = Text::from_str(alloc, user)?;
        Ok((Local { user, roles }, rest))
    }
}

/// A property.
#[derive(Clone, Copy)]
pub(crate) struct PropertyRow {
    pub version: Version,
}

impl Row for PropertyRow {
    type Item = Property;

    ghost next = { λ row. property_at row.version };

    #[tactic(auto, unfolding(crate::specs::Reading::property_at))]
    fn read<'a>(
        &self,
        alloc: Global,
        last: Option<&Property>,
        bytes: &'a [u8],
    ) -> Result<(Property, &'a [u8]), Unread> {
        let earlier = match last {
            Some(last) => Some(&last.name),
            None => None,
        };
        let (name, rest) = name_of(Rule::PropertyName, earlier, bytes)?;
        let (value, rest) = value_of(alloc, self.version, rest)?;
        let name = Text::from_str(alloc, name)?;
        Ok((Property { name, value }, rest))
    }
}

/// A user of a user folder.
#[derive(Clone, Copy)]
pub(crate) struct UserRow;

impl Row for UserRow {
    type Item = User;

    ghost next = { λ row. user_at };

    #[tactic(auto, unfolding(crate::specs::Reading::user_at))]
    fn read<'a>(
        &self,
        alloc: Global,
        last: Option<&User>,
        bytes: &'a [u8],
    ) -> Result<(User, &'a [u8]), Unread> {
        let earlier = match last {
            Some(last) => Some(&last.name),
            None => None,
        };
        let (name, rest) = name_of(Rule::UserName, earlier, bytes)?;
        let (password, rest) = text_of(Rule::Password, rest)?;
        let (roles, rest) = roles_of(alloc, 0, rest)?;
        let name = Text::from_str(alloc, name)?;
        let password = Text::from_str(alloc, password)?;
        Ok((
            User {
                name,
                password,
                roles,
            },
            rest,
        ))
    }
}
