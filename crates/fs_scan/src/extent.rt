ghost use Rattle.std.specs.Prelude.{◌≡◌, ◌+◌, ◌<◌, ◌==◌, ◌^◌, ℕ, List, length, min, if◌then◌else◌};
ghost use Rattle.fs_scan.specs.Extent.{FramesFit, PartsSay, extent_of};
ghost use Rattle.fs_scan.specs.Found.{IsFront};

use fs_record::{
    RecordRefusal, STATUS_UNDONE, STATUS_WAITING, TAIL_LEN, TXN_HEAD_LEN, TxnHead, read_txn_head,
    texts_end,
};
use zbase::Tid;

/// A transaction whose texts lie within it, as its head says.
#[derive(Clone, Copy)]
pub struct Frame {
    /// Where it begins, in bytes from the file's start.
    pub place: u64,
    pub head: TxnHead,
    /// Where its data records begin, in bytes from its start.
    pub from: u64,
    /// Where they end, and the second length begins.
    pub long: u64,
}

/// A transaction whose texts lie within it, in bytes from its start.
#[derive(Clone, Copy)]
pub struct Extent {
    pub head: TxnHead,
    /// Where its data records begin.
    pub from: u64,
    /// Where they end, and the second length begins.
    pub long: u64,
    /// The second length.
    pub tail: u64,
}

impl Frame {
    /// The transaction with its second length.
    pub fn with_tail(&self, tail: u64) -> Extent
        ensures { result ≡ extent_of self.now tail }
    {
        Extent {
            head: self.head,
            from: self.from,
            long: self.long,
            tail,
        }
    }
}

impl Extent {
    /// The transaction's size in bytes, with its second length.
    pub fn size(&self) -> u64
        requires { self.now.long + TAIL_LEN < 2 ^ 64 }
        ensures { result ≡ self.now.long + TAIL_LEN }
    {
        self.long + TAIL_LEN as u64
    }
}

/// What may stand behind a file's transactions.
#[derive(Clone, Copy)]
pub enum Parts {
    /// Nothing, or a torn rest.
    End,
    /// A transaction whose head and texts pass its end.
    Bad,
    /// A transaction with a place for data records.
    Whole(Frame),
}

/// What stands at a place in a file where so many bytes are left, down to where its data records begin and end. Of these
/// bytes the first are given, as many as a head has. Takes no memory.
///
/// FileStorage format notes: no whole head, a status `c` or 0, and a length that passes the file's end are a
/// write that was broken off.
pub fn frame_at(front: &[u8], left: u64, place: u64) -> Parts
    requires { length front.now ≡ min TXN_HEAD_LEN left }
    ensures says { (rest : List ℕ) → IsFront TXN_HEAD_LEN left front.now rest → PartsSay rest result }
    ensures fits { FramesFit place left result }
{
    let head = match read_txn_head(front) {
        Ok(head) => head,
        Err(RecordRefusal::Short) => return Parts::End,
    };
    if head.status == STATUS_WAITING {
        return Parts::End;
    }
    if head.status == 0 {
        return Parts::End;
    }
    if head.length > left - TAIL_LEN as u64 {
        return Parts::End;
    }
    let from = texts_end(&head) as u64;
    if head.length < from {
        return Parts::Bad;
    }
    Parts::Whole(Frame {
        place,
        head,
        from,
        long: head.length,
    })
}

/// The id of the last transaction that counts, behind this one: of one undone in the old manner the id isn't looked
/// at.
pub fn last_behind(extent: &Extent, last: Tid) -> Tid
    ensures { result ≡ (if extent.now.head.status == STATUS_UNDONE then last else extent.now.head.tid) }
{
    if extent.head.status == STATUS_UNDONE {
        last
    } else {
        extent.head.tid
    }
}
