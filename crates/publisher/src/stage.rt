use crate::answer::Answer;
use crate::reading::Read;
use dtml_render::Page;
use fs_undo::Far;
use namespace::Resting;
use zbase::{Text, Tid};

/// A page that is under way, with the names that it goes on with.
#[derive(Drop)]
pub(crate) struct Underway {
    pub(crate) page: Page<'static>,
    pub(crate) resting: Resting,
}

/// What a request came to before its page is rendered.
#[derive(Drop)]
pub(crate) enum Met {
    /// It isn't answered by a page.
    Answered(Answer),
    /// Its page began.
    Begun(Underway),
}

/// An undo that is under way.
#[derive(Drop)]
pub(crate) struct Undoing {
    /// The name of its user.
    pub(crate) user: Text,
    pub(crate) tid: Tid,
    pub(crate) far: Far,
}

/// How far the answer to a request came, over the objects.
#[derive(Drop)]
pub(crate) enum Stage {
    /// Nothing was found out.
    Fresh,
    /// Its fields and credentials were read.
    Read(Read),
    /// Its page is under way.
    Page(Underway),
}

/// How far an evaluation came, over the objects and then over the history.
#[derive(Drop)]
pub(crate) enum Progress {
    /// The objects are still asked.
    Answering(Stage),
    /// A transaction is being undone.
    Undoing(Undoing),
}
