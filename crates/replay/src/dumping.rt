ghost use Rattle.std.specs.Prelude.{◌≡◌, ℕ, IfSome, IsErrOf, OnOk};
ghost use Rattle.zbase.specs.Faults.{Counts};
ghost use Rattle.zio.specs.Sinks.{due};
ghost use Rattle.zdisk.specs.Disk.{content};
ghost use Rattle.fs_record.specs.declared.damage.Damage.{Damage as Kind};
ghost use Rattle.fs_record.specs.Opening.{Damaged};
ghost use Rattle.replay.specs.Dumped.{Dumps, PutsHistory, of_scan, of_sink};

use crate::history_out::{put_heading, put_transaction};
use crate::printing::put_line;
use crate::second_walk::SecondWalk;
use fs_record::Damage;
use fs_scan::{ScanRefusal, Scanned, scan};
use schedule::Line;
use std::alloc::Global;
use zdisk::Disk;
use zio::{OutsideRefusal, Pending, Sink};

/// Why a dump isn't whole.
#[derive(Clone, Copy, Debug, PartialEq, Eq)]
pub enum DumpRefusal {
    /// The file has this damage, in the transaction at that place.
    Damaged(Damage, u64),
    /// The disk failed.
    Disk,
    /// The sink failed.
    Output,
    /// Want of memory.
    Memory,
}

impl From<ScanRefusal> for DumpRefusal {
    ghost from_gives = { λ refusal e. e ≡ of_scan refusal };

    fn from(refusal: ScanRefusal) -> DumpRefusal {
        match refusal {
            ScanRefusal::Damaged(kind, place) => DumpRefusal::Damaged(kind, place),
            ScanRefusal::Disk => DumpRefusal::Disk,
            ScanRefusal::Memory => DumpRefusal::Memory,
        }
    }
}

impl From<OutsideRefusal> for DumpRefusal {
    ghost from_gives = { λ refusal e. e ≡ of_sink refusal };

    fn from(refusal: OutsideRefusal) -> DumpRefusal {
        match refusal {
            OutsideRefusal::Failed => DumpRefusal::Output,
            OutsideRefusal::Memory => DumpRefusal::Memory,
        }
    }
}

/// Writes the history to which a disk's file opens, with all of its values, as a report prints it; what is pending at its
/// end is still to be flushed. A file with damage is refused before anything is written or pending. Behind the scan it goes over
/// the file once, and judges nothing again. It holds one transaction at a time, and changes nothing.
pub(crate) fn put_history<D: Disk, K: Sink>(
    alloc: Global,
    disk: &mut D,
    held: &mut Pending,
    out: &mut K,
) -> Result<(), DumpRefusal>
    ensures ok { OnOk result (IfSome (D.told disk.old)
        (λ told. PutsHistory (content told) (due (K.written out.old) held.old) (due (K.written out.new) held.new))) }
    ensures damaged { (kind : Kind) (place : ℕ) → IsErrOf result (DumpRefusal.Damaged kind place)
        → IfSome (D.told disk.old) (λ told. Damaged (content told) place kind × ((K.written out.new ≡ K.written out.old) × (held.new ≡ held.old))) }
    ensures same { D.told disk.new ≡ D.told disk.old }
    ensures disk { Counts (D.counter disk.old) (D.counter disk.new) (IsErrOf result DumpRefusal.Disk) }
    ensures sink { Counts (K.counter out.old) (K.counter out.new) (IsErrOf result DumpRefusal.Output) }
{
    let Scanned {
        count,
        floor,
        end,
        ..
    } = scan(alloc, disk)?;
    put_heading(alloc, count, floor, held, out)?;
    let mut walk = SecondWalk::new(alloc, disk, end)?;
    'each: loop {
        match walk.next(disk)? {
            Some(whole) => put_transaction(alloc, &whole, held, out)?,
            None => return Ok(()),
        }
    }
}

/// Writes the history to which a disk's file opens, and a report's last line behind it.
pub fn dump<D: Disk, K: Sink>(
    alloc: Global,
    disk: &mut D,
    held: &mut Pending,
    out: &mut K,
) -> Result<(), DumpRefusal>
    ensures ok { OnOk result (IfSome (D.told disk.old) (λ told. Dumps (content told) (due (K.written out.old) held.old) (due (K.written out.new) held.new))) }
    ensures damaged { (kind : Kind) (place : ℕ) → IsErrOf result (DumpRefusal.Damaged kind place)
        → IfSome (D.told disk.old) (λ told. Damaged (content told) place kind × ((K.written out.new ≡ K.written out.old) × (held.new ≡ held.old))) }
    ensures same { D.told disk.new ≡ D.told disk.old }
    ensures disk { Counts (D.counter disk.old) (D.counter disk.new) (IsErrOf result DumpRefusal.Disk) }
    ensures sink { Counts (K.counter out.old) (K.counter out.new) (IsErrOf result DumpRefusal.Output) }
{
    put_history(alloc, disk, held, out)?;
    Ok(put_line(alloc, &Line::End, held, out)?)
}
