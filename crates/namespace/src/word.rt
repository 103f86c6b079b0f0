ghost use Rattle.std.specs.Prelude.{◌≡◌};
ghost use Rattle.namespace.specs.Names as spec;

/// A name that means the same in every object, or any other.
#[derive(Clone, Copy, Debug, PartialEq, Eq)]
pub enum Word {
    Id,
    Title,
    TitleOrId,
    /// The names under which a folder lists its children.
    ObjectIds,
    /// A folder's children.
    ObjectValues,
    /// A property or a child.
    Other,
}

/// Which of these a name is.
pub(crate) fn word_of(name: &str) -> Word
    ensures { result ≡ spec.word_of name.now }
{
    match name {
        "id" => Word::Id,
        "title" => Word::Title,
        "title_or_id" => Word::TitleOrId,
        "objectIds" => Word::ObjectIds,
        "objectValues" => Word::ObjectValues,
        _ => Word::Other,
    }
}
