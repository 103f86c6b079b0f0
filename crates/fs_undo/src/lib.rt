//! What undoes a transaction: each of its objects goes back to the value that it had before, where none has changed since.
//!
//! `specs/Undo` says what is planned by the values of a transaction and the present ones, and the question that an undo is;
//! `specs/UndoLaws` has its laws as a change, and `specs/Undone` says what it makes of a history: each object of the
//! transaction has the value that it had before it, and all others stay. (ZODB Programming Guide, `undo`.)
#![tactic(auto)]

mod laws;
mod planning;
mod undoing;

pub use laws::undone_is_put_back;
pub use planning::{Present, Presents, Restore, Restores, UndoRefusal, plan};
pub use undoing::{Far, UndoHalt, undo, undo_from};
