use crate::{Ask, Draft, Reply};

/// What an evaluation comes to.
#[derive(Debug, Drop)]
pub enum Outcome {
    /// The first ask that isn't known.
    Need(Ask),
    /// The reply to a reading request.
    Answer(Reply),
    /// The reply to a writing request, for when its change stands, and the change.
    Change(Reply, Draft),
}
