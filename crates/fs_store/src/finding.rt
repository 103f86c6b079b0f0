ghost use Rattle.std.specs.Prelude.{◌≡◌, ◌+◌, ◌≤◌, IfOk, IfSome, IsErr, nat_le};
ghost use Rattle.fs_record.specs.Walks.{later_than};
ghost use Rattle.fs_scan.specs.OnlyReads.{OnlyReads};
ghost use Rattle.fs_store.specs.Finding.{FoundIn};
ghost use Rattle.fs_store.specs.Fronts.{history_at};
ghost use Rattle.fs_store.specs.Knowing.{IsKnown};

use crate::file::OpenFile;
use fs_record::DataHead;
use fs_scan::read_head;
use zbase::{Failed, Oid, Tid};
use zdisk::Disk;

/// A data record: its place and its head.
#[derive(Clone, Copy)]
pub(crate) struct Record {
    pub(crate) place: u64,
    pub(crate) head: DataHead,
}

// Whether the record is of a transaction up to that one.
fn is_upto(head: &DataHead, at: Tid) -> bool
    ensures { result ≡ nat_le head.now.tid at }
{
    head.tid.0 <= at.0
}

impl OpenFile {
    /// An object's last data record up to a transaction, by its previous places: at most one device call, and one more for
    /// each later record that is passed.
    ///
    /// FileStorage format notes: a data record has the place of the object's record before it.
    pub(crate) fn find<D: Disk>(
        &self,
        disk: &mut D,
        oid: Oid,
        at: Tid,
    ) -> Result<Option<Record>, Failed>
        requires { IsKnown (D.told disk.old) self.now }
        ensures found { IfOk result (λ found. IfSome (D.told disk.old) (λ told. FoundIn told self.now.end oid at found)) }
        ensures reads { IfSome (D.told disk.old) (λ told. (D.counter disk.new).calls ≤ (D.counter disk.old).calls + 1
            + later_than (history_at told self.now.end) at oid) }
        ensures only_reads { OnlyReads D.Disk disk.old disk.new (IsErr result) }
    {
        let mut place = self.place(oid);
        'back: while place > 0 {
            let head = match read_head(disk, self.len, place)? {
                Some(head) => head,
                None => return Ok(None),
            };
            if is_upto(&head, at) {
                return Ok(Some(Record { place, head }));
            }
            // an earlier place, since the file was judged: a disk that tells nothing may say what it likes
            if head.prev >= place {
                return Ok(None);
            }
            place = head.prev;
        }
        Ok(None)
    }
}
