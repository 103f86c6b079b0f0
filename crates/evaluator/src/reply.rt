use std::alloc::Global;
use zbase::{Items, Memory, Oid, Text, Tid};

/// The form of a reply's body.
#[derive(Clone, Copy, Debug, PartialEq, Eq)]
pub enum Kind {
    /// A page, `text/html`.
    Html,
    /// One line or a list of lines, `text/plain`.
    Plain,
}

/// An object that a page shows, with the role that let its user view it.
#[derive(Debug, Drop)]
pub struct Shown {
    pub oid: Oid,
    pub role: Text,
}

/// The objects that a page shows.
pub type ShownList = Items<Shown>;

/// The object and the number of the permission that were refused, for a 401.
#[derive(Clone, Copy, Debug, PartialEq, Eq)]
pub struct Denial {
    pub oid: Oid,
    pub permission: u8,
}

/// A reply before it is bytes.
#[derive(Debug, Drop)]
pub struct Reply {
    /// The status code of HTTP.
    pub status: u16,
    pub kind: Kind,
    /// Whether the body is left out, as for `HEAD`.
    pub head_only: bool,
    pub body: Text,
    pub shown: ShownList,
    pub denied: Option<Denial>,
}

impl Reply {
    ghost use Rattle.std.specs.Prelude.{◌≡◌, IfOk};
    ghost use Rattle.evaluator.specs.Replies.{one_line};

    /// A plain reply whose body is this text and a line end.
    pub fn one_line(alloc: Global, status: u16, text: Text) -> Result<Reply, Memory>
        ensures { IfOk result (λ reply. reply ≡ one_line status text) }
    {
        let mut body = text;
        body.push_str("\n")?;
        Ok(Reply {
            status,
            kind: Kind::Plain,
            head_only: false,
            body,
            shown: ShownList::new(alloc),
            denied: None,
        })
    }
}

/// Which transaction a reply goes with.
#[derive(Clone, Copy, Debug, PartialEq, Eq)]
pub enum Mark {
    /// It was read at this transaction.
    Read(Tid),
    /// It was committed as this transaction.
    Commit(Tid),
    /// It goes with none.
    Empty,
}
