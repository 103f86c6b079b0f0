//! The limits of objects, each at its one home: the records, the forms and the rules cite these.

/// The greatest length of the name of an object, a property or a user, in bytes.
pub const MOST_NAME: usize = 100;

/// The greatest length of a title in bytes.
pub const MOST_TITLE: usize = 1000;

/// The greatest length of a property's value, or of one line of it, in bytes.
pub const MOST_VALUE: usize = 10_000;

/// The greatest length of a role's name in bytes.
pub const MOST_ROLE: usize = 64;

/// The greatest length of a password that is given for a user, in bytes.
pub const MOST_GIVEN_PASSWORD: usize = 1000;

/// The greatest length of what is kept of a password, in bytes.
pub const MOST_PASSWORD: usize = 100;

/// The most children of a folder.
pub const MOST_CHILDREN: u16 = 10_000;

/// The most users of a user folder.
pub const MOST_USERS: u16 = 1000;

/// The most users who have local roles in an object.
pub const MOST_LOCALS: u16 = 1000;

/// The most properties of an object.
pub const MOST_PROPERTIES: u16 = 100;

/// The most lines of a property.
pub const MOST_LINES: u16 = 1000;

/// The most roles, and the most settings: as many as a count of two bytes may say.
pub const MOST_COUNTED: u16 = 65_535;
