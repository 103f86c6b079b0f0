//! Records of a storage file as bytes, and what a file is.
//!
//! `specs/Spelling` says how a transaction is spelled, whatever its fields say; `specs/File` which spellings make a
//! file one behind another, and the history that it says; `specs/Standing` where the records of that history stand, and
//! `specs/Walks` how an object's previous places lead back through it; `specs/Opening` where a file ends: at its end,
//! before a torn rest, or before damage; `specs/Reading` the same as a function of the bytes; `specs/Written` which
//! transaction is written, and what makes it right behind a file; `specs/Worked` has rows worked by hand.
#![tactic(auto)]

mod body;
mod damage;
mod heads;
mod laws;
mod layout;
mod reading;
mod sizes;
mod writing;

pub use body::{Body, Item, TxnTexts};
pub use damage::Damage;
pub use heads::{DataHead, RecordRefusal, TxnHead};
pub use laws::{
    file_is_history, one_more, one_opening, one_spelling, reading_finds, records_are_revisions,
    records_lead_back, written_behind,
};
pub use layout::{
    BACK_LEN, BACK_RECORD_LEN, BARE_TXN_LEN, DATA_HEAD_LEN, DATA_LENGTH_AT, MAGIC_LEN, MAX_LENGTH,
    NUMBER_LEN, STATUS_AT, STATUS_COUNTED, STATUS_PACKED, STATUS_UNDONE, STATUS_WAITING, TAIL_LEN,
    TXN_HEAD_LEN,
};
pub use reading::{read_data_head, read_txn_head};
pub use sizes::{record_size, texts_end, texts_size};
pub use writing::write_txn;
