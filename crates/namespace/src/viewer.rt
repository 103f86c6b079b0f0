use permissions::Who;
use std::alloc::Global;
use zknown::Known;

/// The user for whom names are looked up, over what is known of the objects, with the allocator of what they give.
#[derive(Clone, Copy)]
pub(crate) struct Viewer<'a, 'k> {
    pub alloc: Global,
    pub known: &'k Known,
    pub who: &'a Who,
}
