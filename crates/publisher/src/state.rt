ghost use Rattle.std.specs.Prelude.{List};
ghost use Rattle.evaluator.specs.declared.fact.Fact.{Fact as FactValue};
ghost use Rattle.http_in.specs.declared.message.Message.{Message as MessageValue};
ghost use Rattle.publisher.specs.Keeping as keeping;

use crate::learned::Learned;
use crate::stage::{Progress, Stage};
use std::alloc::Global;

/// What is kept for one message between its evaluations: the facts that were taken over, and how far its evaluation came.
#[derive(Drop)]
pub struct SiteState {
    pub(crate) learned: Learned,
    pub(crate) progress: Progress,
}

impl SiteState {
    /// Nothing was taken over. Takes no memory.
    pub(crate) fn new(alloc: Global) -> SiteState
        ensures { (facts : List FactValue) (message : MessageValue) → keeping.Fits result facts message }
    {
        SiteState {
            learned: Learned::new(alloc),
            progress: Progress::Answering(Stage::Fresh),
        }
    }
}
