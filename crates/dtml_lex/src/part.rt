use zbase::{Items, Text};

/// The name of a tag (Zope Book, appendix "DTML Reference").
#[derive(Clone, Copy, Debug, PartialEq, Eq)]
pub enum TagName {
    Var,
    Call,
    If,
    Elif,
    Else,
    Unless,
    In,
    With,
    Let,
    Comment,
}

/// An attribute of a tag, as it is spelled. Which attributes a tag may have isn't judged here.
#[derive(Debug, Drop)]
pub enum Attribute {
    /// A word alone, as in `<dtml-in items reverse>`.
    Word(Text),
    /// A word and a value without quotes, as in `<dtml-var title size=20>`.
    Bare { name: Text, value: Text },
    /// A word and a value in quotes, as in `<dtml-let total="a + b">`.
    Quoted { name: Text, value: Text },
    /// A text in quotes alone, as in `<dtml-if "a == b">`.
    Quotation(Text),
}

/// The attributes of a tag, in the order of the source.
pub type Attributes = Items<Attribute>;

/// What a part of a source is.
#[derive(Debug, Drop)]
pub enum PartKind {
    /// Text that is shown as it is. It isn't empty, and reaches to the next tag or entity or to the end.
    Plain(Text),
    /// `&dtml-NAME;`, with its name.
    Entity(Text),
    /// `<dtml-if ..>` and the like.
    Opening(TagName, Attributes),
    /// `</dtml-if>` and the like. It has attributes where the source gives it some, although no tag may.
    Closing(TagName, Attributes),
}

/// A part of a source, from its first byte up to the byte behind its last one.
#[derive(Debug, Drop)]
pub struct SourcePart {
    /// Where the part starts: a number of bytes from the start of the source.
    pub start: usize,
    /// Where the next part starts, counted alike.
    pub end: usize,
    pub kind: PartKind,
}
