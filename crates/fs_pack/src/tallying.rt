ghost use Rattle.std.specs.Prelude.{◌≡◌, ◌==◌, ◌+◌, ◌++◌, ◌<◌, ◌^◌, List, [], ◌∷◌, if◌then◌else◌};
ghost use Rattle.fs_pack.specs.Entries.{Entry, entry_of};
ghost use Rattle.fs_pack.specs.Measured.{IsTally, plus, plus_entry, plus_records};
ghost use Rattle.fs_scan.specs.Wholes.{records_in};
ghost use Rattle.packing.specs.Sizes.{value_size};

use fs_record::{BACK_LEN, BARE_TXN_LEN, DATA_HEAD_LEN, MAGIC_LEN, STATUS_PACKED};
use fs_scan::{OidValue, Whole};
use zbase::{Tid, Value};

/// What is told of a packed file.
#[derive(Clone, Copy)]
pub(crate) struct Tally {
    /// The id of its last transaction that is packed, 0 for none.
    pub floor: Tid,
    /// The number of its transactions.
    pub count: u64,
    /// How many bytes it has; none where these are more than a number of 64 bits can tell.
    pub size: Option<u64>,
}

/// A size with so many bytes more.
fn plus(size: Option<u64>, more: u64) -> Option<u64>
    ensures { result ≡ plus size more }
{
    match size {
        Some(size) => size.checked_add(more),
        None => None,
    }
}

/// How many bytes a value takes in a record.
fn value_size(value: &Value) -> u64
    ensures { result ≡ value_size value.now }
{
    match value {
        Some(bytes) => bytes.len() as u64,
        None => BACK_LEN as u64,
    }
}

/// A size with records of these values more.
fn plus_values(size: Option<u64>, values: &[OidValue]) -> Option<u64>
    ensures { result ≡ plus_records size (records_in values.now) }
{
    let mut size = size;
    for value in values {
        size = plus(plus(size, DATA_HEAD_LEN as u64), value_size(&value.value));
    }
    size
}

/// A size with a transaction more, each value of it in full.
pub(crate) fn plus_whole(size: Option<u64>, whole: &Whole) -> Option<u64>
    ensures { result ≡ plus_entry size (entry_of whole.now) }
{
    let size = plus(size, BARE_TXN_LEN as u64);
    let size = plus(size, whole.texts.user.len() as u64);
    let size = plus(size, whole.texts.description.len() as u64);
    let size = plus(size, whole.texts.extension.len() as u64);
    plus_values(size, whole.values.as_slice())
}

/// The floor of a file that had this one, with a transaction more.
fn floor_with(floor: Tid, whole: &Whole) -> Tid
    ensures { result ≡ (if whole.now.status == 112 then whole.now.tid else floor) }
{
    if whole.status == STATUS_PACKED {
        whole.tid
    } else {
        floor
    }
}

impl Tally {
    /// Of a file without transactions.
    pub fn new() -> Tally
        ensures tally { IsTally [] result }
        ensures none { result.count ≡ 0 }
    {
        Tally {
            floor: Tid(0),
            count: 0,
            size: Some(MAGIC_LEN as u64),
        }
    }

    /// With a transaction more.
    pub fn with(self, whole: &Whole) -> Tally
        requires { self.count + 1 < 2 ^ 64 }
        ensures tally { (es : List Entry) → IsTally es self → IsTally (es ++ entry_of whole.now ∷ []) result }
        ensures count { result.count ≡ self.count + 1 }
    {
        Tally {
            floor: floor_with(self.floor, whole),
            count: self.count + 1,
            size: plus_whole(self.size, whole),
        }
    }
}
