use crate::Active;
use evaluator::{Ask, Evaluator, Reply};
use zbase::Tid;

/// What a turn made of an attempt.
pub enum Turned<E: Evaluator> {
    /// It asked for this fact, which it knows now.
    Fetched(Active<E>, Ask),
    /// The request has its answer, at this snapshot.
    Answered(Reply, Tid),
    /// Its change is ready for a vote.
    Ready(Active<E>),
}
