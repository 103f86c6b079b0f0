ghost use Rattle.std.specs.Prelude.{◌≡◌, ◌⊎◌, ◌≤◌, ◌<◌, ℕ, length, IfErr, IfSome, IsErrOf, OnOk};
ghost use Rattle.zbase.specs.Faults.{Counts, Rose};
ghost use Rattle.zio.specs.Sinks.{due};
ghost use Rattle.zdisk.specs.Disk.{content};
ghost use Rattle.fs_record.specs.declared.damage.Damage.{Damage as Kind};
ghost use Rattle.fs_record.specs.Opening.{Damaged};
ghost use Rattle.fs_store.specs.Stores.{most_length};
ghost use Rattle.replay.specs.Dumped.{Dumps};
ghost use Rattle.zope.specs.DumpCauses.{DumpCause, Dumped, IsOfDump};

use crate::refusal::Refusal;
use fs_record::MAX_LENGTH;
use replay::dump;
use std::alloc::Global;
use zdisk::Disk;
use zio::{OutsideRefusal, Pending, Shelf, ShelfRefusal, Sink};

// Dumps the file on a disk. Its length is looked at first.
fn dump_disk<D: Disk, K: Sink>(
    alloc: Global,
    disk: &mut D,
    held: &mut Pending,
    out: &mut K,
) -> Result<(), Refusal>
    ensures dumped { OnOk result (IfSome (D.told disk.old)
        (λ told. (length (content told) ≤ most_length) × Dumps (content told) (due (K.written out.old) held.old) (due (K.written out.new) held.new))) }
    ensures damaged { (kind : Kind) (place : ℕ) → IsErrOf result (Refusal.Damaged kind place)
        → IfSome (D.told disk.old) (λ told. (length (content told) ≤ most_length)
        × (Damaged (content told) place kind × (due (K.written out.new) held.new ≡ due (K.written out.old) held.old))) }
    ensures too_long { (n : ℕ) → IsErrOf result (Refusal.TooLong n)
        → (most_length < n) × IfSome (D.told disk.old) (λ told. n ≡ length (content told))
        × (due (K.written out.new) held.new ≡ due (K.written out.old) held.old) }
    ensures present { IsErrOf result Refusal.Missing → ⊥ }
    ensures others { IfErr result IsOfDump }
    ensures same { D.told disk.new ≡ D.told disk.old }
    ensures disk { Counts (D.counter disk.old) (D.counter disk.new) (IsErrOf result Refusal.Disk) }
    ensures sink { Counts (K.counter out.old) (K.counter out.new) (IsErrOf result Refusal.Output) }
{
    let len = disk.len().map_err(|_| Refusal::Disk)?;
    if len > MAX_LENGTH {
        return Err(Refusal::TooLong(len));
    }
    Ok(dump(alloc, disk, held, out)?)
}

// Dumps the file of that name. What is pending at the end is still to be flushed.
fn dump_named<F: Shelf, K: Sink>(
    alloc: Global,
    name: &str,
    files: &mut F,
    held: &mut Pending,
    out: &mut K,
) -> Result<(), Refusal>
    ensures same { F.files files.new ≡ F.files files.old }
    ensures ok { OnOk result (Dumped name.now (F.files files.old) (due (K.written out.old) held.old) (due (K.written out.new) held.new)) }
    ensures cause { IfErr result (DumpCause name.now (F.files files.old) (Rose (K.counter out.old) (K.counter out.new))
        (Rose (F.counter files.old) (F.counter files.new) ⊎ (F.sound_disks files.old → ⊥)) (due (K.written out.old) held.old)
        (due (K.written out.new) held.new)) }
    ensures counts { Counts (K.counter out.old) (K.counter out.new) (IsErrOf result Refusal.Output) }
{
    match files.open(name) {
        Ok(mut disk) => {
            let dumped = dump_disk(alloc, &mut disk, held, out);
            let closed = files.close(name, disk);
            dumped?;
            Ok(closed?)
        }
        Err(ShelfRefusal::Missing) => Err(Refusal::Missing),
        Err(ShelfRefusal::Failed) => Err(Refusal::Disk),
        Err(ShelfRefusal::Memory) => Err(Refusal::Memory),
        // A file that is there is what was asked for.
        Err(ShelfRefusal::Exists) => unreachable!(),
    }
}

// Writes what is pending.
fn flush<K: Sink>(held: &mut Pending, out: &mut K) -> Result<(), Refusal>
    ensures ok { OnOk result (K.written out.new ≡ due (K.written out.old) held.old) }
    ensures cause { IfErr result (λ e. (e ≡ Refusal.Output) ⊎ (e ≡ Refusal.Memory)) }
    ensures counts { Counts (K.counter out.old) (K.counter out.new) (IsErrOf result Refusal.Output) }
{
    match held.flush(out) {
        Ok(()) => Ok(()),
        Err(OutsideRefusal::Failed) => Err(Refusal::Output),
        Err(OutsideRefusal::Memory) => Err(Refusal::Memory),
    }
}

/// Dumps the file of that name: prints its whole history, with all values, as a report does at its end. It changes
/// no file.
pub fn dump_file<F: Shelf, K: Sink>(
    alloc: Global,
    name: &str,
    files: &mut F,
    out: &mut K,
) -> Result<(), Refusal>
    ensures same { F.files files.new ≡ F.files files.old }
    ensures ok { OnOk result (Dumped name.now (F.files files.old) (K.written out.old) (K.written out.new)) }
    ensures cause { IfErr result (DumpCause name.now (F.files files.old) (Rose (K.counter out.old) (K.counter out.new))
        (Rose (F.counter files.old) (F.counter files.new) ⊎ (F.sound_disks files.old → ⊥)) (K.written out.old) (K.written out.new)) }
    ensures counts { Counts (K.counter out.old) (K.counter out.new) (IsErrOf result Refusal.Output) }
{
    let Ok(mut held) = Pending::new(alloc) else {
        return Err(Refusal::Memory);
    };
    match dump_named(alloc, name, files, &mut held, out) {
        Ok(()) => flush(&mut held, out),
        Err(Refusal::Output) => Err(Refusal::Output),
        Err(refusal) => {
            flush(&mut held, out)?;
            Err(refusal)
        }
    }
}
