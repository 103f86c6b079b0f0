ghost use Rattle.std.specs.Prelude.{◌≡◌, ◌+◌, ◌<◌, ◌≤◌, ℕ, List, length, min, drop, IfSome, IfNone};
ghost use Rattle.fs_scan.specs.Found.{data_in, DataStands, IsFront, NoData};

use fs_record::{
    BACK_LEN, BACK_RECORD_LEN, DATA_HEAD_LEN, DataHead, RecordRefusal, read_data_head,
};
use zbase::u64_at;

/// A data record that stands at the front of an area.
#[derive(Clone, Copy)]
pub struct Found {
    pub head: DataHead,
    /// The back pointer that stands in place of data, 0 where data stands.
    pub back: u64,
    /// The record's size in bytes: its head, and its data or back pointer.
    pub size: u64,
}

/// The data record that stands at the front of an area that is so long, whatever its fields say; `None` where none does. Of
/// the area its first bytes are given, as many as a record has that points back. Takes no memory.
///
/// FileStorage format notes: behind the head stand as many bytes as its length says, or a back pointer of eight
/// bytes where the length is 0.
pub fn data_at(front: &[u8], left: u64) -> Option<Found>
    requires { length front.now ≡ min BACK_RECORD_LEN left }
    ensures found { IfSome result (λ f. (area : List ℕ) → IsFront BACK_RECORD_LEN left front.now area → DataStands (data_in f area) area (drop f.size area)) }
    ensures size { IfSome result (λ f. (DATA_HEAD_LEN < f.size) × (f.size ≤ left)) }
    ensures full { IfSome result (λ f. 0 < f.head.length → f.size ≡ DATA_HEAD_LEN + f.head.length) }
    ensures none { IfNone result ((area : List ℕ) → IsFront BACK_RECORD_LEN left front.now area → NoData area) }
{
    let head = match read_data_head(front) {
        Ok(head) => head,
        Err(RecordRefusal::Short) => return None,
    };
    let behind = left - DATA_HEAD_LEN as u64;
    if head.length == 0 {
        if behind < BACK_LEN as u64 {
            return None;
        }
        let back = u64_at(front, DATA_HEAD_LEN);
        return Some(Found {
            head,
            back,
            size: BACK_RECORD_LEN as u64,
        });
    }
    if head.length > behind {
        return None;
    }
    Some(Found {
        head,
        back: 0,
        size: DATA_HEAD_LEN as u64 + head.length,
    })
}
