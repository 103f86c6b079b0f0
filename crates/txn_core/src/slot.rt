use connection::{Active, Fresh, Pending};
use evaluator::Evaluator;

/// What a worker holds.
pub(crate) enum Slot<E: Evaluator> {
    /// No request.
    Idle,
    /// A request with no attempt under way.
    Fresh(Fresh<E>),
    /// An attempt that isn't ready.
    Active(Active<E>),
    /// An attempt whose change is ready.
    Computed(Active<E>),
    /// An attempt that has voted.
    Pending(Pending<E>),
}
