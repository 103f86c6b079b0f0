//! Backups of a file in pieces, as `repozo` makes them.
//!
//! A backup is a row of pieces and an index. The first piece is the file's front at some moment, and each other one is what
//! came behind it by a later moment, so that the pieces joined are the file's front as it was last. The index has a line
//! for each piece: its name, where in the file it starts and ends, the MD5 of its bytes.
//!
//! `specs/Index` has the text of the index, `specs/BadLines` which line of a text that is none is bad, `specs/Pieces` what
//! pieces hold and what is due, and `laws` that a backup is the file.
#![tactic(auto)]

mod checking;
mod copying;
mod index;
mod joining;
mod laws;
mod planning;
mod reading;
mod refusal;
mod window;

pub use checking::check_pieces;
pub use copying::copy;
pub use index::{IndexRefusal, MAX_PIECES, PieceRow, PieceRows, write_index};
pub use joining::{join, put_pieces};
pub use laws::{backups_are_whole, one_bad_line, one_index};
pub use planning::{BackupPlan, plan};
pub use reading::read_index;
pub use refusal::RepoRefusal;
