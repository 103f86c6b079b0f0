ghost use Rattle.std.specs.Prelude.{◌≤◌, ◌+◌, reverse, vec_len, vec_capacity};
ghost use Rattle.zdisk.specs.Room.{room_for};
ghost use Rattle.zdisk.specs.Undoing.{FitsBack, FitsBack-prop};

use crate::record::Entry;

/// A file in memory, with its record of the calls that may have changed it, and with room for calls that come.
#[derive(Drop)]
pub struct RecordedFile {
    /// The file, and behind it what cuts left.
    pub(crate) bytes: Vec<u8>,
    /// The length of the file.
    pub(crate) len: usize,
    /// The bytes that calls covered, one after another.
    pub(crate) covered: Vec<u8>,
    pub(crate) entries: Vec<Entry>,
    /// How many calls that may change the file may come.
    pub(crate) calls: usize,
    /// How many bytes writes may bring.
    pub(crate) spare: usize,
    /// How many calls may fail. Each may cover the whole buffer.
    pub(crate) faults: usize,
    ghost fits: { FitsBack (record { bytes = bytes.items; len = len; covered = covered.items })
        (reverse entries.items) } by { FitsBack-prop (record { bytes = bytes.items; len = len; covered = covered.items }) (reverse entries.items) },
    ghost entry_room: { vec_len entries + calls ≤ vec_capacity entries },
    ghost room: { vec_len bytes + spare ≤ vec_capacity bytes },
    ghost kept: { vec_len covered + spare + room_for faults (vec_len bytes + spare) ≤ vec_capacity covered },
}
