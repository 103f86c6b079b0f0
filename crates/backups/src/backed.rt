use repozo::PieceRows;
use zbase::Text;

/// What a backup did.
#[derive(Debug, Drop)]
pub enum Backed {
    /// The pieces held all of the file already.
    Nothing,
    /// A first piece of this name has so many bytes, which are all of the file's.
    Full(Text, u64),
    /// A further piece of this name has so many bytes.
    More(Text, u64),
}

/// A piece that was made, or none that was due.
#[derive(Debug, Drop)]
pub(crate) enum Made {
    /// None was due.
    Nothing,
    /// The rows of the index that is to name it, and what is to be told of it.
    Piece(PieceRows, Backed),
}
