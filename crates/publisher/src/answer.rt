use evaluator::{Draft, Reply};
use zbase::{Text, Tid};

/// What a whole message comes to over the objects, before its method and the history count.
#[derive(Debug, Drop)]
pub enum Answer {
    /// The reply to a reading request.
    Page(Reply),
    /// The reply to a writing request, for when its change stands, and the change.
    Change(Reply, Draft),
    /// The transaction with this id is undone, by a user of this name.
    Undo(Text, Tid),
    /// The newest transactions are shown.
    Log,
}
