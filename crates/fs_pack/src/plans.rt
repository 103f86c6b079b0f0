ghost use Rattle.std.specs.Prelude.{◌≡◌, ◌+◌, ◌++◌, ◌<◌, ◌≤◌, ◌^◌, ℕ, List, IfOk, IfSome, IsErrOf, drop};
ghost use Rattle.zdisk.specs.Disk.{content};
ghost use Rattle.fs_record.specs.declared.damage.Damage.{Damage as Kind};
ghost use Rattle.fs_record.specs.Opening.{Damaged};
ghost use Rattle.fs_scan.specs.OnlyReads.{OnlyReads};
ghost use Rattle.fs_pack.specs.Chosen.{chosen};
ghost use Rattle.fs_pack.specs.Entries.{Entry, entry_of, found_entries};
ghost use Rattle.fs_pack.specs.Measured.{IsTally, Measures};

use crate::Packed;
use crate::choosing::picked;
use crate::tallying::Tally;
use fs_record::STATUS_PACKED;
use fs_scan::{ScanRefusal, Walk, Whole};
use std::alloc::Global;
use std::marker::Model;
use zbase::{Memory, Tid};
use zdisk::Disk;

/// Which records of a file stay in a pack of it: a mark for each record up to the pack, in the file's order.
#[derive(Drop)]
pub struct Plan {
    /// The time of the pack: transactions up to this id are thinned.
    pub(crate) before: Tid,
    /// The id of the last of them, which stays without records too; 0 where there is none.
    pub(crate) until: Tid,
    pub(crate) marks: Vec<bool>,
    pub(crate) floor: Tid,
    pub(crate) count: u64,
    pub(crate) size: u64,
}

impl Model for Plan {
    ghost use Rattle.fs_pack.specs.Chosen.{Planned};

    ghost Value = { Planned };

    ghost view = { λ plan. record {
      before = plan.before;
      until = plan.until;
      marks = plan.marks.items;
      floor = plan.floor;
      count = plan.count;
      size = plan.size;
    } };
}

impl Plan {
    /// What stays of a transaction whose first record has this number; none where it is left out.
    pub(crate) fn chosen(&self, number: usize, whole: Whole) -> Result<Option<Whole>, Memory>
        ensures { IfOk result (λ found. found_entries found ≡ chosen self.now.before self.now.until (drop number self.now.marks) (entry_of whole)) }
    {
        if whole.tid.0 > self.before.0 {
            return Ok(Some(whole));
        }
        let Whole {
            place,
            status: _,
            tid,
            texts,
            values,
        } = whole;
        let values = picked(&self.marks, number, values)?;
        if values.is_empty() && tid != self.until {
            return Ok(None);
        }
        Ok(Some(Whole {
            place,
            status: STATUS_PACKED,
            tid,
            texts,
            values,
        }))
    }

    /// With what was told of the packed file, and its size.
    pub(crate) fn with(self, tally: Tally, size: u64) -> Plan
        ensures { result ≡ record { before = self.before; until = self.until; marks = self.marks; floor = tally.floor; count = tally.count; size = size } }
    {
        let Plan {
            before,
            until,
            marks,
            floor: _,
            count: _,
            size: _,
        } = self;
        Plan {
            before,
            until,
            marks,
            floor: tally.floor,
            count: tally.count,
            size,
        }
    }

    /// What was written of it, where it ends there.
    pub(crate) fn packed(&self, end: u64) -> Packed
        ensures { result ≡ record { end = end; floor = self.now.floor; count = self.now.count } }
    {
        Packed {
            end,
            floor: self.floor,
            count: self.count,
        }
    }

    /// The packed file's size in bytes, where a number of 64 bits can tell it.
    pub fn size(&self) -> u64
        ensures { result ≡ self.now.size }
    {
        self.size
    }

    // A tally with what stays of a transaction whose first record has this number.
    fn tallied(&self, tally: Tally, number: usize, whole: Whole) -> Result<Tally, Memory>
        requires { tally.count + 1 < 2 ^ 64 }
        ensures tally { IfOk result (λ new. (es : List Entry) → IsTally es tally
            → IsTally (es ++ chosen self.now.before self.now.until (drop number self.now.marks) (entry_of whole)) new) }
        ensures count { IfOk result (λ new. new.count ≤ tally.count + 1) }
    {
        match self.chosen(number, whole)? {
            Some(left) => Ok(tally.with(&left)),
            None => Ok(tally),
        }
    }

    /// Measures what stays of a disk's file. It changes nothing.
    pub(crate) fn measure<D: Disk>(&self, alloc: Global, disk: &mut D) -> Result<Tally, ScanRefusal>
        ensures measured { IfOk result (λ tally. IfSome (D.told disk.old) (λ told. Measures (content told) self.now tally)) }
        ensures damaged { (kind : Kind) (place : ℕ) → IsErrOf result (ScanRefusal.Damaged kind place)
            → IfSome (D.told disk.old) (λ told. Damaged (content told) place kind) }
        ensures only_reads { OnlyReads D.Disk disk.old disk.new (IsErrOf result ScanRefusal.Disk) }
    {
        let mut walk = Walk::new(alloc);
        let mut tally = Tally::new();
        'each: loop {
            let number = walk.record_count();
            match walk.next(disk)? {
                Some(whole) => {
                    let more = self.tallied(tally, number, whole)?;
                    tally = more;
                }
                None => return Ok(tally),
            }
        }
    }
}
