//! The numbers of the format.
//!
//! FileStorage format notes, "transaction record" and "data record". Lengths are in bytes, places in bytes from the start
//! of the head that has the field. Definitions in `specs/` have their own numbers, with which the contracts compare these.

/// The length of what a file begins with, `FS21`.
pub const MAGIC_LEN: usize = 4;

/// The length of an id, a place, and every other number of 64 bits.
pub const NUMBER_LEN: usize = 8;

/// The greatest length of a file.
pub const MAX_LENGTH: u64 = 281_474_976_710_655;

/// Where the record's length stands in the head of a transaction record, behind the id.
pub(crate) const TXN_LENGTH_AT: usize = 8;

/// Where the status stands in the head of a transaction record.
pub const STATUS_AT: usize = 16;

/// The status of a transaction that counts.
pub const STATUS_COUNTED: u8 = b' ';

/// The status of a transaction that counts, and that a pack went over.
pub const STATUS_PACKED: u8 = b'p';

/// The status of a transaction that was undone in the old manner, and doesn't count.
pub const STATUS_UNDONE: u8 = b'u';

/// The status of a transaction that isn't finished.
pub const STATUS_WAITING: u8 = b'c';

/// Where the length of the user's name stands in the head of a transaction record.
pub(crate) const USER_AT: usize = 17;

/// Where the length of the description stands in the head of a transaction record.
pub(crate) const DESCRIPTION_AT: usize = 19;

/// Where the length of the extension stands in the head of a transaction record.
pub(crate) const EXTENSION_AT: usize = 21;

/// The length of the head of a transaction record, behind which its texts stand.
pub const TXN_HEAD_LEN: usize = 23;

/// The length of what ends a transaction record: its length once more, which doesn't count these bytes.
pub const TAIL_LEN: usize = 8;

/// The length of a transaction record without texts and data records.
pub const BARE_TXN_LEN: usize = TXN_HEAD_LEN + TAIL_LEN;

/// Where the transaction's id stands in the head of a data record, behind the object's.
pub(crate) const TID_AT: usize = 8;

/// Where the previous place stands in the head of a data record.
pub(crate) const PREV_AT: usize = 16;

/// Where the transaction's start stands in the head of a data record.
pub(crate) const START_AT: usize = 24;

/// Where the two zero bytes stand in the head of a data record.
pub(crate) const VERSION_AT: usize = 32;

/// Where the length of the data stands in the head of a data record.
pub const DATA_LENGTH_AT: usize = 34;

/// The length of the head of a data record, behind which its data or a back pointer stands.
pub const DATA_HEAD_LEN: usize = 42;

/// The length of a back pointer.
pub const BACK_LEN: usize = 8;

/// The length of a data record that has a back pointer.
pub const BACK_RECORD_LEN: usize = DATA_HEAD_LEN + BACK_LEN;
