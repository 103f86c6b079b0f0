use evaluator::{Ask, Reply};

/// What a refusal comes to.
#[derive(Debug, Drop)]
pub(crate) enum Halted {
    /// Something isn't known yet.
    Need(Ask),
    /// The reply of the refusal, before the method of its message counts.
    Refused(Reply),
}
