ghost use Rattle.std.specs.Prelude.{◌≡◌, ◌≢◌, ◌+◌, ◌<◌, ◌≤◌, ℕ, List, IfErr, IfOk, IfSome, IsErrOf, drop, length, true};
ghost use Rattle.std.specs.List.{list_all};
ghost use Rattle.std.specs.Option.{ForSome};
ghost use Rattle.zbase.specs.History.{Transaction};
ghost use Rattle.zdisk.specs.Disk.{content};
ghost use Rattle.fs_record.specs.declared.damage.Damage.{Damage as Kind};
ghost use Rattle.fs_record.specs.File.{Earlier, Front, has_body, rows, transaction_of};
ghost use Rattle.fs_record.specs.Opening.{Cut, Stands};
ghost use Rattle.fs_record.specs.Spelling.{Block, Data, Records, txn_head_of};
ghost use Rattle.fs_scan.specs.Ahead.{IsAhead};
ghost use Rattle.fs_scan.specs.OnlyReads.{OnlyReads};
ghost use Rattle.fs_scan.specs.Present.{AllStand};
ghost use Rattle.replay.specs.SecondWalk.{Left, Nexts, moved};
ghost use Rattle.fs_scan.specs.Wholes.{transaction_in};

use fs_record::{Damage, MAGIC_LEN, STATUS_UNDONE, TAIL_LEN, TxnHead};
use fs_scan::{Ahead, ScanRefusal, Whole, values_at};
use std::alloc::Global;
use std::marker::Model;
use zdisk::Disk;

/// A walk over the transactions of a file behind a scan of it, from the oldest to the newest: none is judged again, and no place
/// is kept. It has of the file's bytes 64 KiB that were read ahead.
#[derive(Drop)]
pub(crate) struct SecondWalk {
    alloc: Global,
    /// Where the next transaction begins.
    at: u64,
    /// Where the transactions end.
    end: u64,
    /// How long the file is.
    long: u64,
    ahead: Ahead,
}

impl Model for SecondWalk {
    ghost use Rattle.replay.specs.SecondWalk.{Second};

    ghost Value = { Second };

    ghost view = { λ walk. record { place = walk.at; end = walk.end; long = walk.long; ahead = walk.ahead } };
}

impl SecondWalk {
    /// A walk that has not begun, over a disk's file whose transactions end there, as a scan has told. One device call, and no
    /// memory.
    pub(crate) fn new<D: Disk>(
        alloc: Global,
        disk: &mut D,
        end: u64,
    ) -> Result<SecondWalk, ScanRefusal>
        ensures left { IfOk result (λ walk. IfSome (D.told disk.old)
            (λ told. (front : Front) → Cut (content told) front end → Left (content told) walk front.history.transactions)) }
        ensures undamaged { (kind : Kind) (place : ℕ) → IsErrOf result (ScanRefusal.Damaged kind place) → ⊥ }
        ensures only_reads { OnlyReads D.Disk disk.old disk.new (IsErrOf result ScanRefusal.Disk) }
    {
        let long = disk.len()?;
        Ok(SecondWalk {
            alloc,
            at: MAGIC_LEN as u64,
            end,
            long,
            ahead: Ahead::new(alloc),
        })
    }

    // The head of the transaction at a place before the end, where it ends no farther. A file that a scan went over has no other.
    fn head_at<D: Disk>(&mut self, disk: &mut D, at: u64) -> Result<TxnHead, ScanRefusal>
        requires before { at < self.old.end }
        requires left { ForSome (D.told disk.old) (λ told. (xs : List Transaction) × Left (content told) (moved at self.old.ahead self.old) xs) }
        ensures head { IfOk result (λ head. IfSome (D.told disk.old)
            (λ told. (b : Block) (more : List ℕ) → Stands b (drop at (content told)) more → head ≡ txn_head_of b)) }
        ensures fits { IfOk result (λ head. at + (head.length + TAIL_LEN) ≤ self.old.end) }
        ensures same { self.new ≡ moved self.old.place self.new.ahead self.old }
        ensures ahead { IsAhead (D.told disk.old) self.new.ahead }
        ensures undamaged { (kind : Kind) (place : ℕ) → IsErrOf result (ScanRefusal.Damaged kind place) → IfSome (D.told disk.old) (λ _. ⊥) }
        ensures only_reads { OnlyReads D.Disk disk.old disk.new (IsErrOf result ScanRefusal.Disk) }
    {
        let left = self.end - at;
        let head = match self.ahead.head_at(disk, self.long, at)? {
            Some(head) => head,
            None => return Err(ScanRefusal::Damaged(Damage::BadLength, at)),
        };
        if left < TAIL_LEN as u64 {
            return Err(ScanRefusal::Damaged(Damage::BadLength, at));
        }
        if left - (TAIL_LEN as u64) < head.length {
            return Err(ScanRefusal::Damaged(Damage::BadLength, at));
        }
        Ok(head)
    }

    // The transaction with this head at a place, which counts.
    fn whole_at<D: Disk>(
        &mut self,
        disk: &mut D,
        at: u64,
        head: TxnHead,
    ) -> Result<Whole, ScanRefusal>
        requires counts { head.status ≢ STATUS_UNDONE }
        requires before { at < self.old.end }
        requires left { ForSome (D.told disk.old) (λ told. (xs : List Transaction) × Left (content told) (moved at self.old.ahead self.old) xs) }
        requires head { IfSome (D.told disk.old) (λ told. (b : Block) (more : List ℕ) → Stands b (drop at (content told)) more → head ≡ txn_head_of b) }
        ensures means { IfOk result (λ whole. IfSome (D.told disk.old) (λ told. (b : Block) (ds : List Data) (more : List ℕ) (records : List Earlier)
            → Stands b (drop at (content told)) more → b.inside ≡ Records ds → AllStand (content told) records → list_all (has_body (rows records)) ds ≡ true
            → transaction_in whole ≡ transaction_of records b ds)) }
        ensures same { self.new ≡ moved self.old.place self.new.ahead self.old }
        ensures ahead { IsAhead (D.told disk.old) self.new.ahead }
        ensures undamaged { (kind : Kind) (place : ℕ) → IsErrOf result (ScanRefusal.Damaged kind place) → IfSome (D.told disk.old) (λ _. ⊥) }
        ensures only_reads { OnlyReads D.Disk disk.old disk.new (IsErrOf result ScanRefusal.Disk) }
    {
        let Some(texts) = self.ahead.texts_at(disk, self.long, at, &head)? else {
            return Err(ScanRefusal::Damaged(Damage::BadLength, at));
        };
        let Some(values) = values_at(self.alloc, disk, self.long, at, &head)? else {
            return Err(ScanRefusal::Damaged(Damage::BadLength, at));
        };
        Ok(Whole {
            place: at,
            status: head.status,
            tid: head.tid,
            texts,
            values,
        })
    }

    /// The next transaction that counts, with its values, back pointers followed; none at the end. It changes nothing on the
    /// disk, and where it fails it answers the same one when it is called again. Only a disk that doesn't tell what it holds is
    /// found damaged.
    pub(crate) fn next<D: Disk>(&mut self, disk: &mut D) -> Result<Option<Whole>, ScanRefusal>
        requires left { ForSome (D.told disk.old) (λ told. (xs : List Transaction) × Left (content told) self.old xs) }
        ensures next { IfOk result (λ found. IfSome (D.told disk.old)
            (λ told. (xs : List Transaction) → Left (content told) self.old xs → Nexts (content told) self.new xs found)) }
        ensures stays { IfErr result (λ _. self.new ≡ moved self.old.place self.new.ahead self.old) }
        ensures ahead { IsAhead (D.told disk.old) self.new.ahead }
        ensures rises { IfOk result (λ found. IfSome found (λ _. (self.old.place < self.new.place) × (self.new.place ≤ self.new.end))) }
        ensures end { self.new.end ≡ self.old.end }
        ensures undamaged { (kind : Kind) (place : ℕ) → IsErrOf result (ScanRefusal.Damaged kind place) → IfSome (D.told disk.old) (λ _. ⊥) }
        ensures only_reads { OnlyReads D.Disk disk.old disk.new (IsErrOf result ScanRefusal.Disk) }
    {
        let mut at = self.at;
        'undone: while at < self.end {
            let head = self.head_at(disk, at)?;
            let behind = at + (head.length + TAIL_LEN as u64);
            if head.status != STATUS_UNDONE {
                let whole = self.whole_at(disk, at, head)?;
                self.at = behind;
                return Ok(Some(whole));
            }
            at = behind;
        }
        Ok(None)
    }
}
