ghost use Rattle.std.specs.Prelude.{◌≡◌, IfOk};
ghost use Rattle.permissions.specs.Everyone as spec;

use std::alloc::Global;
use std::marker::Model;
use zbase::{Memory, Text};

/// The role by which a permission is granted, which contracts see as its name. Everyone's takes no memory.
#[derive(Debug, Drop)]
pub struct GrantedRole {
    // None where it is everyone's.
    other: Option<Text>,
}

impl Model for GrantedRole {
    ghost use Rattle.std.specs.Prelude.{ℕ, List};
    ghost use Rattle.permissions.specs.Everyone.{or_everyones};

    ghost Value = { List ℕ };

    ghost view = { λ role. or_everyones role.other };
}

impl GrantedRole {
    /// The role that everyone has. Takes no memory.
    pub fn everyones() -> GrantedRole
        ensures { result ≡ spec.everyones }
    {
        GrantedRole { other: None }
    }

    /// The role of this name. Takes no memory.
    pub fn named(name: Text) -> GrantedRole
        ensures { result ≡ name }
    {
        GrantedRole { other: Some(name) }
    }

    /// The role's name. Takes no memory.
    pub fn as_str(&self) -> &str
        ensures { result.now ≡ self.now }
    {
        match &self.other {
            Some(name) => name.as_str(),
            None => "Anonymous",
        }
    }

    /// The role's name, as a text of its own.
    pub fn into_text(self, alloc: Global) -> Result<Text, Memory>
        ensures { IfOk result (λ name. name ≡ self) }
    {
        match self.other {
            Some(name) => Ok(name),
            None => Text::from_str(alloc, "Anonymous"),
        }
    }
}
