ghost use Rattle.std.specs.Prelude.{◌≡◌, ℕ, List, IfOk, option_map};
ghost use Rattle.zobject.specs.Rules.{Keeps};
ghost use Rattle.zobject.specs.declared.version.Rule.TheVariants.{Password};
ghost use Rattle.user_folder.specs.Users.{is_user, kept, user_of};

use base64::engine::general_purpose::STANDARD;
use sha1::Sha1;
use std::alloc::Global;
use zbase::{Memory, Text};
use zobject::{User, Users};

/// What is kept of a password: `{SHA}` and the digest of its bytes, in base64.
///
/// The one error is want of memory. Zope Book, "Users and Security"; RFC 2307, "userPassword".
pub fn keep(alloc: Global, password: &str) -> Result<Text, Memory>
    ensures { IfOk result (λ text. text ≡ kept password.now) }
{
    let digest = Sha1::digest(password.as_bytes());
    let mut text = String::from_str(alloc, "{SHA}")?;
    STANDARD.encode_string(digest.as_slice(), &mut text)?;
    Text::from_str(alloc, text.as_str())
}

fn is_user(name: &str, kept: &str, user: &User) -> bool
    ensures { result ≡ is_user name.now kept.now user.now }
{
    user.name.as_str() == name && user.password.as_str() == kept
}

/// What is kept of a password is a text that a user may have.
pub fn kept_passwords_are_lawful()
    ensures { (password : List ℕ) → Keeps Password (kept password) }
{}

/// The user of that name and password; none where there is none.
///
/// The one error is want of memory. Zope Book, "Users and Security": user folders.
pub fn authenticate<'a>(
    alloc: Global,
    users: &'a Users,
    name: &str,
    password: &str,
) -> Result<Option<&'a User>, Memory>
    ensures { IfOk result (λ user. option_map (λ u. u.now) user ≡ user_of name.now password.now users.now) }
{
    let kept = keep(alloc, password)?;
    let mut all = users.as_slice().iter();
    Ok(all.find(|user| is_user(name, kept.as_str(), *user)))
}
