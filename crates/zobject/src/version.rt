/// The versions of an object's record. The first has neither proxy roles nor types of properties, and permissions up
/// to 12.
#[derive(Clone, Copy, Debug, PartialEq, Eq)]
pub enum Version {
    /// That of the magic `Z1`.
    First,
    /// That of the magic `Z2`.
    Second,
}

/// What an object is.
///
/// Zope Book, "Basic Zope Objects".
#[derive(Clone, Copy, Debug, PartialEq, Eq)]
pub enum Kind {
    /// A folder.
    Folder,
    /// A DTML method.
    Method,
    /// A DTML document.
    Document,
    /// A user folder.
    UserFolder,
}

/// What a text of an object is, by which it keeps a rule.
#[derive(Clone, Copy, Debug, PartialEq, Eq)]
pub enum Rule {
    /// The id that an object of that kind keeps.
    StoredId(Kind),
    /// The name under which a folder lists a child.
    ChildName,
    /// The name of a property.
    PropertyName,
    /// A property's value, or one line of it.
    Value,
    /// The name of a role.
    Role,
    /// The name of a user.
    UserName,
    /// What is kept of a password.
    Password,
    /// A title.
    Title,
    /// The source of a method or document.
    Source,
}
