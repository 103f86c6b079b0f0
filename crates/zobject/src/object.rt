use name_keys::HasName;
use zbase::{Items, Oid, Text, Texts};

/// Names of roles, by bytes and each once.
///
/// Zope Developer's Guide, "Security": a role is a name that users have and permissions are given to.
pub type Roles = Texts;

/// Which roles a permission is given to, in a container and below it.
///
/// Zope Developer's Guide, "Security": permissions are mapped to roles by object, with or without those acquired.
#[derive(Debug, Drop)]
pub struct Setting {
    /// The permission's number, 1 to 13.
    pub permission: u8,
    /// Whether the roles of the containers above count too.
    pub acquire: bool,
    /// The roles that have it here; at least one where it acquires.
    pub roles: Roles,
}

/// The settings of an object, by rising number.
pub type Settings = Items<Setting>;

/// The roles that a user has in a container and below it.
///
/// Zope Book, "Users and Security": local roles.
#[derive(Debug, Drop)]
pub struct Local {
    /// The user's name.
    pub user: Text,
    /// The roles that the user has here, at least one.
    pub roles: Roles,
}

/// The local roles of an object, by user.
pub type Locals = Items<Local>;

/// The value of a property, by its type.
///
/// Zope Book, "Basic Zope Objects": properties of the types `string`, `int` and `lines`.
#[derive(Debug, Drop)]
pub enum PropValue {
    /// A text of one line.
    Line(Text),
    /// A whole number of 64 bits.
    Int(i64),
    /// Texts, one a line.
    Lines(Texts),
}

/// A property of an object.
///
/// Zope Book, "Basic Zope Objects": a value under a name, which pages show.
#[derive(Debug, Drop)]
pub struct Property {
    /// The name under which pages find it.
    pub name: Text,
    /// Its value.
    pub value: PropValue,
}

/// The properties of an object, by name.
pub type Properties = Items<Property>;

/// An object in a folder, under a name.
#[derive(Debug, Drop)]
pub struct Child {
    /// The name under which the folder lists it.
    pub name: Text,
    /// Its id in the storage.
    pub oid: Oid,
}

impl HasName for Child {
    ghost name_of = { λ child. child.name };

    fn name_bytes(&self) -> &[u8] {
        self.name.as_bytes()
    }
}

/// The children of a folder, in the order in which they were added.
pub type Children = Items<Child>;

/// A user of a user folder.
///
/// Zope Book, "Users and Security": user folders.
#[derive(Debug, Drop)]
pub struct User {
    /// The name that the user gives.
    pub name: Text,
    /// What is kept of the password.
    pub password: Text,
    /// The roles that the user has wherever the folder of the user folder is above.
    pub roles: Roles,
}

/// The users of a user folder, by name.
pub type Users = Items<User>;

/// What an object is, with the part that only its kind has.
///
/// Zope Book, "Basic Zope Objects": folders, DTML methods, DTML documents and user folders.
#[derive(Debug, Drop)]
pub enum Part2 {
    /// A folder, with its children.
    Folder(Children),
    /// A method, with its source and its proxy roles, which it runs with in place of the user's.
    Method { source: Text, proxy: Roles },
    /// A document, with its source and its proxy roles.
    Document { source: Text, proxy: Roles },
    /// A user folder, with its users.
    UserFolder(Users),
}

/// An object of a site. A folder is the root exactly where its id in the storage is 0.
///
/// Zope Developer's Guide, "Object Publishing" and "Acquisition".
#[derive(Debug, Drop)]
pub struct Object {
    /// The name under which it was added.
    pub id: Text,
    /// The folder that holds it.
    pub parent: Oid,
    /// What pages show as its title.
    pub title: Text,
    /// Which roles have which permissions here.
    pub settings: Settings,
    /// Which users have which roles here.
    pub locals: Locals,
    /// What pages find here besides children.
    pub properties: Properties,
    /// What only its kind has.
    pub part: Part2,
}
