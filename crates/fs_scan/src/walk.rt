ghost use Rattle.std.specs.Prelude.{◌≡◌, ◌++◌, ◌+◌, ◌<◌, ◌≤◌, ◌^◌, [], ℕ, List, IfErr, IfOk, IfSome, IsErrOf, MatchOption, None, OnErr, OnOk, Some, drop, get_or, if◌then◌else◌, length, nat_lt};
ghost use Rattle.std.specs.Option.{ForSome};
ghost use Rattle.zdisk.specs.Disk.{content};
ghost use Rattle.fs_record.specs.declared.damage.Damage.{Damage as Kind};
ghost use Rattle.fs_record.specs.Opening.{Damaged};
ghost use Rattle.fs_record.specs.File.{magic};
ghost use Rattle.fs_scan.specs.Ahead.{IsAhead};
ghost use Rattle.fs_scan.specs.Followed.{MeansWhole, StandsNone};
ghost use Rattle.fs_scan.specs.Keeping.{KeepsOn};
ghost use Rattle.fs_scan.specs.OnlyReads.{OnlyReads};
ghost use Rattle.fs_scan.specs.Stepped.{StepsOn, begun, gone};
ghost use Rattle.fs_scan.specs.Pacing.{IsPiece, Spends};
ghost use Rattle.fs_scan.specs.Walked.{Goes, IsFresh, IsOn, Walks, place_on, reading, standing};

use crate::ahead::Ahead;
use crate::extent::{Extent, last_behind};
use crate::kept::Kept;
use crate::magic::has_magic;
use crate::step::{Step, take_one};
use crate::wholes::read_whole;
use crate::{ScanRefusal, Whole};
use fs_index::Index;
use fs_record::{Damage, MAGIC_LEN, STATUS_UNDONE};
use std::alloc::Global;
use std::marker::Model;
use zbase::{Oid, Tid};
use zdisk::Disk;

/// A walk over the transactions of a file, from the oldest to the newest. It keeps the place of each data record in six
/// bytes and an index of the objects, and of the file's bytes 64 KiB that were read ahead.
#[derive(Drop)]
pub struct Walk {
    kept: Kept,
    last: Tid,
    /// Where the next transaction begins, none before the first step.
    at: Option<u64>,
    ahead: Ahead,
}

impl Model for Walk {
    ghost use Rattle.fs_scan.specs.Keeping.{PlacesWithin};
    ghost use Rattle.fs_scan.specs.Walked.{Course, place_on};

    ghost Value = { Course };

    ghost view = { λ walk. record { place = walk.at; last = walk.last; kept = walk.kept; ahead = walk.ahead } };

    ghost invariant = { λ walk. PlacesWithin 0 (place_on walk.at) walk.kept.places };
}

impl Walk {
    /// A walk that has not begun. Takes no memory.
    pub fn new(alloc: Global) -> Walk
        ensures begun { IsFresh result }
        ensures on { (bytes : List ℕ) → IsOn bytes result }
    {
        Walk {
            kept: Kept::new(alloc),
            last: Tid(0),
            at: None,
            ahead: Ahead::new(alloc),
        }
    }

    /// The allocator that the walk keeps.
    fn alloc(&self) -> Global {
        self.kept.alloc()
    }

    /// How many data records it passed.
    pub fn record_count(&self) -> usize
        ensures { result ≡ length self.now.kept.places }
    {
        self.kept.count()
    }

    /// The place of the data record that it passed with this number, from 0 on, and none behind the last one. In bytes from the
    /// file's start.
    pub fn record_place(&self, number: usize) -> Option<u64>
        ensures { result ≡ (if nat_lt number (length self.now.kept.places) then Some (get_or self.now.kept.places number 0) else None) }
    {
        self.kept.place(number)
    }

    /// Goes over the magic where the walk has not begun, and says where the next transaction begins.
    pub(crate) fn enter<D: Disk>(&mut self, disk: &mut D, len: u64) -> Result<u64, ScanRefusal>
        requires len { ForSome (D.told disk.old) (λ told. len ≡ length (content told)) }
        requires ahead { IsAhead (D.told disk.old) self.old.ahead }
        ensures entered { IfOk result (λ at. (at ≡ place_on self.old.place) × (self.new ≡ standing at self.new.ahead self.old)) }
        ensures magic { IfOk result (λ at. self.old.place ≡ None → IfSome (D.told disk.old) (λ told. content told ≡ magic ++ drop MAGIC_LEN (content told))) }
        ensures long { OnOk result (self.old.place ≡ None → MAGIC_LEN ≤ len) }
        ensures piece { OnOk result (self.old.place ≡ None → self.old.ahead.bytes ≡ [] → IsPiece len 0 self.new.ahead) }
        ensures reads { (D.counter disk.new).calls ≤ (D.counter disk.old).calls + 1 }
        ensures stays { IfErr result (λ _. self.new ≡ reading self.new.ahead self.old) }
        ensures ahead { IsAhead (D.told disk.old) self.new.ahead }
        ensures damaged { (kind : Kind) (place : ℕ) → IsErrOf result (ScanRefusal.Damaged kind place)
            → IfSome (D.told disk.old) (λ told. Damaged (content told) place kind) }
        ensures only_reads { OnlyReads D.Disk disk.old disk.new (IsErrOf result ScanRefusal.Disk) }
    {
        if let Some(at) = self.at {
            return Ok(at);
        }
        let size = len.min(MAGIC_LEN as u64);
        self.ahead.show(disk, len, 0, size)?;
        if !has_magic(self.ahead.piece(0, size)) {
            return Err(ScanRefusal::Damaged(Damage::BadMagic, 0));
        }
        let at = MAGIC_LEN as u64;
        self.at = Some(at);
        Ok(at)
    }

    /// Takes what stands at the walk's place in a disk's file of this length, and goes behind it where it is a right
    /// transaction. Where the disk failed, or for want of memory, the walk begins anew.
    pub(crate) fn step<D: Disk>(
        &mut self,
        disk: &mut D,
        len: u64,
        at: u64,
    ) -> Result<Step, ScanRefusal>
        requires here { self.old.place ≡ Some at }
        requires len { ForSome (D.told disk.old) (λ told. len ≡ length (content told)) }
        requires keeps { IfSome (D.told disk.old) (λ told. KeepsOn (content told) self.old.kept) }
        requires ahead { IsAhead (D.told disk.old) self.old.ahead }
        ensures goes { IfOk result (Goes len at self.old self.new) }
        ensures says { IfOk result (λ s. IfSome (D.told disk.old) (λ told. StepsOn (content told) at self.old.last self.old.kept self.new.kept s)) }
        ensures ahead { IsAhead (D.told disk.old) self.new.ahead }
        ensures err { OnErr result (IsFresh self.new) }
        ensures piece { OnOk result (IsPiece len at self.old.ahead → at ≤ len → IsPiece len (gone len at result) self.new.ahead) }
        ensures spends { IsPiece len at self.old.ahead → at ≤ len → IfSome (D.told disk.old) (λ told. Spends (content told) at (gone len at result)
            self.old.ahead.from (begun len result self.new.ahead) (D.counter disk.old).calls (D.counter disk.new).calls) }
        ensures undamaged { (kind : Kind) (place : ℕ) → IsErrOf result (ScanRefusal.Damaged kind place) → ⊥ }
        ensures only_reads { OnlyReads D.Disk disk.old disk.new (IsErrOf result ScanRefusal.Disk) }
    {
        let step = match take_one(&mut self.kept, &mut self.ahead, disk, len, at, self.last) {
            Ok(step) => step,
            Err(refusal) => {
                *self = Walk::new(self.kept.alloc());
                return Err(refusal);
            }
        };
        if let Step::Right(extent) = &step {
            self.last = last_behind(extent, self.last);
            self.at = Some(at + extent.size());
        }
        Ok(step)
    }

    // The transaction that was gone over, with its values. Where they can't be read, the walk begins anew, since it would
    // leave this one out; so it does where the file says otherwise than before, as none does that tells what it holds.
    fn whole_in<D: Disk>(
        &mut self,
        disk: &mut D,
        len: u64,
        place: u64,
        extent: &Extent,
    ) -> Result<Option<Whole>, ScanRefusal>
        requires len { ForSome (D.told disk.old) (λ told. len ≡ length (content told)) }
        requires ahead { IsAhead (D.told disk.old) self.old.ahead }
        ensures means { IfOk result (λ found. MatchOption found ⊥ (MeansWhole (D.told disk.old) place extent.now)) }
        ensures ok { OnOk result (self.new ≡ reading self.new.ahead self.old) }
        ensures ahead { IsAhead (D.told disk.old) self.new.ahead }
        ensures err { OnErr result (IsFresh self.new) }
        ensures damaged { (kind : Kind) (at : ℕ) → IsErrOf result (ScanRefusal.Damaged kind at) → StandsNone (D.told disk.old) place extent.now }
        ensures only_reads { OnlyReads D.Disk disk.old disk.new (IsErrOf result ScanRefusal.Disk) }
    {
        let alloc = self.alloc();
        match read_whole(alloc, &mut self.ahead, disk, len, place, extent) {
            Ok(Some(whole)) => Ok(Some(whole)),
            Ok(None) => {
                *self = Walk::new(alloc);
                Err(ScanRefusal::Damaged(Damage::BadLength, place))
            }
            Err(refusal) => {
                *self = Walk::new(alloc);
                Err(refusal)
            }
        }
    }

    /// What it keeps of the data records so far.
    pub(crate) fn kept(&self) -> &Kept
        ensures { result.now ≡ self.now.kept }
    {
        &self.kept
    }

    /// The greatest id of an object with a data record so far.
    pub(crate) fn greatest(&self) -> Option<Oid>
        ensures { result ≡ self.now.kept.greatest }
    {
        self.kept.greatest()
    }

    /// Where each object's last data record so far stands, without a copy.
    pub(crate) fn into_index(self) -> Index
        ensures { result ≡ self.kept.newest }
    {
        let Walk {
            kept,
            last: _,
            at: _,
            ahead: _,
        } = self;
        kept.into_index()
    }

    /// The next transaction that counts, with its values, back pointers followed; none at the file's end. It changes
    /// nothing on the disk. Where the disk failed, or for want of memory, the walk may begin anew.
    pub fn next<D: Disk>(&mut self, disk: &mut D) -> Result<Option<Whole>, ScanRefusal>
        requires { ForSome (D.told disk.old) (λ told. IsOn (content told) self.old) }
        ensures walked { IfOk result (λ found. IfSome (D.told disk.old) (λ told. Walks (content told) self.old self.new found)) }
        ensures on { IfSome (D.told disk.old) (λ told. IsOn (content told) self.new) }
        ensures rises { IfOk result (λ found. IfSome found (λ _. (place_on self.old.place < place_on self.new.place) × (place_on self.new.place < 2 ^ 64))) }
        ensures later { IfOk result (λ found. IfSome found (λ whole. (self.old.last < whole.tid) × (self.new.last ≡ whole.tid))) }
        ensures damaged { (kind : Kind) (place : ℕ) → IsErrOf result (ScanRefusal.Damaged kind place)
            → IfSome (D.told disk.old) (λ told. Damaged (content told) place kind) }
        ensures only_reads { OnlyReads D.Disk disk.old disk.new (IsErrOf result ScanRefusal.Disk) }
    {
        let len = disk.len()?;
        let mut at = self.enter(disk, len)?;
        'undone: loop {
            let extent = match self.step(disk, len, at)? {
                Step::End => return Ok(None),
                Step::Damaged(kind) => return Err(ScanRefusal::Damaged(kind, at)),
                Step::Right(extent) => extent,
            };
            if extent.head.status != STATUS_UNDONE {
                return self.whole_in(disk, len, at, &extent);
            }
            at += extent.size();
        }
    }
}
