use dtml_expr::Expr;
use zbase::{Items, Text};

/// The argument of a tag.
#[derive(Debug, Drop)]
pub enum Arg {
    /// The value of a name.
    Name(Text),
    Expression(Expr),
}

/// A `dtml-var` tag: a value that is shown, and how (Zope Book, appendix "DTML Reference", `var`).
#[derive(Debug, Drop)]
pub struct VarTag {
    pub arg: Arg,
    pub html_quote: bool,
    pub url_quote: bool,
    pub newline_to_br: bool,
    pub lower: bool,
    pub upper: bool,
    pub capitalize: bool,
    /// What is shown where the name isn't known; the empty text where the attribute has no value.
    pub missing: Option<Text>,
    /// The number of characters from which on the text is cut.
    pub size: Option<u32>,
    /// What stands behind a text that was cut.
    pub etc: Option<Text>,
}

/// A condition of an `if`, with what is shown where it is the first that holds.
#[cycle(template)]
#[derive(Debug, Drop)]
pub struct Arm {
    /// The place of the tag, `if` or `elif`.
    pub at: u32,
    pub arg: Arg,
    pub block: Tree,
}

/// The arms of an `if`, in order; at least one.
#[cycle(template)]
#[derive(Debug, Drop)]
pub struct Arms {
    pub items: Vec<Arm>,
}

/// A name that a `let` gives to a value.
#[derive(Debug, Drop)]
pub struct Binding {
    pub name: Text,
    pub arg: Arg,
}

/// The bindings of a `let`, in order; each name once.
pub type Bindings = Items<Binding>;

/// A node of a template. A number before a tag's parts, and `at`, is the tag's place: a number of bytes from the
/// start of the source.
#[cycle(template)]
#[derive(Debug, Drop)]
pub enum Node {
    /// Text that is shown as it is. It isn't empty, and no other plain text stands beside it.
    Plain(Text),
    /// `var`, or an entity.
    Var(u32, VarTag),
    Call(u32, Arg),
    /// `if` with its `elif` tags, and the block of its `else`. The place is that of the first arm.
    If(Arms, Option<Tree>),
    Unless(u32, Arg, Tree),
    /// `in`, with the block of its `else`.
    Loop {
        at: u32,
        arg: Arg,
        reverse: bool,
        skip_unauthorized: bool,
        block: Tree,
        otherwise: Option<Tree>,
    },
    With(u32, Arg, Tree),
    Let(u32, Bindings, Tree),
    Comment(u32, Tree),
}

/// Nodes in order.
#[cycle(template)]
#[derive(Debug, Drop)]
pub struct Nodes {
    pub items: Vec<Node>,
}

/// A template, or a block of one.
#[cycle(template)]
#[derive(Debug, Drop)]
pub struct Tree {
    pub nodes: Nodes,
}
