ghost use Rattle.std.specs.Prelude.{◌≡◌, ◌+◌, ◌-◌, ◌<◌, ◌≤◌, [], ℕ, List, IfOk, IfSome, IsErrOf, OnOk, Some, drop, false, length, take, true};
ghost use Rattle.std.specs.Option.{ForSome};
ghost use Rattle.zdisk.specs.Disk.{content};
ghost use Rattle.fs_record.specs.declared.damage.Damage.{Damage as Kind};
ghost use Rattle.fs_record.specs.Opening.{Stands};
ghost use Rattle.fs_record.specs.Spelling.{Block, txn_head_of};
ghost use Rattle.fs_scan.specs.Ahead.{Covers, IsAhead, unread};
ghost use Rattle.fs_scan.specs.OnlyReads.{OnlyReads};
ghost use Rattle.fs_scan.specs.Pacing.{Forward, IsPiece};

use crate::ScanRefusal;
use crate::texts::copy_texts;
use crate::window::Window;
use fs_record::{BACK_RECORD_LEN, TXN_HEAD_LEN, TxnHead, TxnTexts, read_txn_head, texts_end};
use std::alloc::Global;
use std::marker::Model;
use zdisk::Disk;

/// How many bytes are read at once, where the file has so many.
const AHEAD_LEN: u64 = 65536;

/// Bytes of a disk's file that were read ahead, from a place on: for one who goes over the heads and texts of transactions
/// in the file's order, so that those of small ones take a device call for each 64 KiB and not for each of them.
#[derive(Drop)]
pub struct Ahead {
    alloc: Global,
    bytes: Window,
    /// Where they stand in the file.
    from: u64,
}

impl Model for Ahead {
    ghost use Rattle.fs_scan.specs.Ahead.{Shown};

    ghost Value = { Shown };

    ghost view = { λ ahead. record { from = ahead.from; bytes = ahead.bytes } };
}

impl Ahead {
    /// No byte. Takes no memory.
    pub fn new(alloc: Global) -> Ahead
        ensures { result ≡ unread }
    {
        Ahead {
            alloc,
            bytes: Window::new(alloc),
            from: 0,
        }
    }

    // Whether so many bytes at a place are among those that were read.
    fn covers(&self, at: u64, size: u64) -> bool
        ensures yes { result ≡ true → Covers self.now at size }
        ensures no { result ≡ false → Covers self.now at size → ⊥ }
    {
        if at < self.from {
            return false;
        }
        let skipped = at - self.from;
        let long = self.bytes.as_slice().len() as u64;
        skipped <= long && size <= long - skipped
    }

    /// Sees to it that so many bytes at a place of a disk's file of this length are among those that were read, by one device
    /// call at most: by none where they are there, else the piece that is read begins with them.
    pub(crate) fn show<D: Disk>(
        &mut self,
        disk: &mut D,
        len: u64,
        at: u64,
        size: u64,
    ) -> Result<(), ScanRefusal>
        requires len { ForSome (D.told disk.old) (λ told. len ≡ length (content told)) }
        requires ahead { IsAhead (D.told disk.old) self.old }
        requires within { at + size ≤ len }
        ensures ahead { IsAhead (D.told disk.old) self.new }
        ensures covers { OnOk result (Covers self.new at size) }
        ensures piece { OnOk result (IsPiece len at self.old → IsPiece len at self.new) }
        ensures first { OnOk result (self.old.bytes ≡ [] → 0 < size → IsPiece len at self.new) }
        ensures forward { IsPiece len at self.old → size ≤ BACK_RECORD_LEN
            → Forward at self.old self.new (D.counter disk.old).calls (D.counter disk.new).calls }
        ensures undamaged { (kind : Kind) (place : ℕ) → IsErrOf result (ScanRefusal.Damaged kind place) → ⊥ }
        ensures reads { (D.counter disk.new).calls ≤ (D.counter disk.old).calls + 1 }
        ensures only_reads { OnlyReads D.Disk disk.old disk.new (IsErrOf result ScanRefusal.Disk) }
    {
        if self.covers(at, size) {
            return Ok(());
        }
        let left = len - at;
        self.from = at;
        self.bytes.read(disk, at, left.min(size.max(AHEAD_LEN)))
    }

    // The same, but not where the file is shorter.
    fn reach<D: Disk>(
        &mut self,
        disk: &mut D,
        len: u64,
        at: u64,
        size: u64,
    ) -> Result<bool, ScanRefusal>
        requires len { ForSome (D.told disk.old) (λ told. len ≡ length (content told)) }
        requires ahead { IsAhead (D.told disk.old) self.old }
        ensures ahead { IsAhead (D.told disk.old) self.new }
        ensures covers { IfOk result (λ reached. reached ≡ true → Covers self.new at size) }
        ensures short { IfOk result (λ reached. reached ≡ false → IfSome (D.told disk.old) (λ told. length (content told) < at + size)) }
        ensures undamaged { (kind : Kind) (place : ℕ) → IsErrOf result (ScanRefusal.Damaged kind place) → ⊥ }
        ensures reads { (D.counter disk.new).calls ≤ (D.counter disk.old).calls + 1 }
        ensures only_reads { OnlyReads D.Disk disk.old disk.new (IsErrOf result ScanRefusal.Disk) }
    {
        if len < at {
            return Ok(false);
        }
        if len - at < size {
            return Ok(false);
        }
        self.show(disk, len, at, size)?;
        Ok(true)
    }

    /// So many bytes at a place, that were read.
    pub(crate) fn piece(&self, at: u64, size: u64) -> &[u8]
        requires { Covers self.now at size }
        ensures { result.now ≡ take size (drop (at - self.now.from) self.now.bytes) }
    {
        let skipped = (at - self.from) as usize;
        &self.bytes.as_slice()[skipped..skipped + size as usize]
    }

    /// The head of the transaction at a place, as `read_txn`: one device call at most, and none where it was read ahead.
    pub fn head_at<D: Disk>(
        &mut self,
        disk: &mut D,
        len: u64,
        at: u64,
    ) -> Result<Option<TxnHead>, ScanRefusal>
        requires len { ForSome (D.told disk.old) (λ told. len ≡ length (content told)) }
        requires ahead { IsAhead (D.told disk.old) self.old }
        ensures ahead { IsAhead (D.told disk.old) self.new }
        ensures head { IfOk result (λ head. IfSome (D.told disk.old)
            (λ told. (b : Block) (more : List ℕ) → Stands b (drop at (content told)) more → head ≡ Some (txn_head_of b))) }
        ensures undamaged { (kind : Kind) (place : ℕ) → IsErrOf result (ScanRefusal.Damaged kind place) → ⊥ }
        ensures reads { (D.counter disk.new).calls ≤ (D.counter disk.old).calls + 1 }
        ensures only_reads { OnlyReads D.Disk disk.old disk.new (IsErrOf result ScanRefusal.Disk) }
    {
        let size = TXN_HEAD_LEN as u64;
        if !self.reach(disk, len, at, size)? {
            return Ok(None);
        }
        match read_txn_head(self.piece(at, size)) {
            Ok(head) => Ok(Some(head)),
            Err(_) => unreachable!(),
        }
    }

    /// The texts of the transaction with this head at a place, as `texts_at`: one device call at most, and none where they
    /// were read ahead.
    pub fn texts_at<D: Disk>(
        &mut self,
        disk: &mut D,
        len: u64,
        at: u64,
        head: &TxnHead,
    ) -> Result<Option<TxnTexts>, ScanRefusal>
        requires len { ForSome (D.told disk.old) (λ told. len ≡ length (content told)) }
        requires ahead { IsAhead (D.told disk.old) self.old }
        ensures ahead { IsAhead (D.told disk.old) self.new }
        ensures texts { IfOk result (λ texts. IfSome (D.told disk.old)
            (λ told. (b : Block) (more : List ℕ) → Stands b (drop at (content told)) more → head.now ≡ txn_head_of b → texts ≡ Some b.texts)) }
        ensures undamaged { (kind : Kind) (place : ℕ) → IsErrOf result (ScanRefusal.Damaged kind place) → ⊥ }
        ensures reads { (D.counter disk.new).calls ≤ (D.counter disk.old).calls + 1 }
        ensures only_reads { OnlyReads D.Disk disk.old disk.new (IsErrOf result ScanRefusal.Disk) }
    {
        let size = texts_end(head) as u64;
        if !self.reach(disk, len, at, size)? {
            return Ok(None);
        }
        let texts = copy_texts(self.alloc, self.piece(at, size), head)?;
        Ok(Some(texts))
    }
}
