use crate::val::Val;
use acquisition::Wrapped;
use zobject::Child;

/// What a name leads to, before the children of a folder are reached.
#[derive(Debug, Drop)]
pub enum Hit<'k> {
    /// A value.
    Found(Val),
    /// The children of a folder, to be reached through the wrapper in which the name was searched.
    Children(Wrapped, &'k [Child]),
}
