ghost use Rattle.std.specs.Prelude.{◌≡◌, ◌⊎◌, ◌≤◌, ◌<◌, ℕ, length, IfErr, IfOk, IfSome, OnOk, IsErrOf, string_bytes};
ghost use Rattle.std.specs.Io.KnownBytes.{append_known};
ghost use Rattle.zbase.specs.Faults.{Counts, Rose};
ghost use Rattle.zdisk.specs.Disk.{content};
ghost use Rattle.fs_record.specs.declared.damage.Damage.{Damage as Kind};
ghost use Rattle.fs_record.specs.Opening.{Damaged};
ghost use Rattle.fs_scan.specs.Checked.{Checks};
ghost use Rattle.fs_store.specs.Stores.{most_length};
ghost use Rattle.zope.specs.CheckCauses.{CheckCause, IsOfScan, PrintCause};
ghost use Rattle.zope.specs.Given.{IfKept};
ghost use Rattle.zope.specs.Shelved.{IsLength, IsMissing, IsPresent};
ghost use Rattle.zope.specs.Numbers.{NumbersPrinted, check_lines};

use crate::last_lines::put_text;
use crate::refusal::Refusal;
use fs_record::MAX_LENGTH;
use fs_scan::{Checked, check};
use std::alloc::Global;
use zbase::{Memory, Text};
use zdisk::Disk;
use zio::{OutsideRefusal, Shelf, ShelfRefusal, Sink};

// The numbers of the file on a disk. Its length is looked at first.
fn check_disk<D: Disk>(alloc: Global, disk: &mut D) -> Result<Checked, Refusal>
    ensures told { IfOk result (λ numbers. IfSome (D.told disk.old) (λ told. (length (content told) ≤ most_length) × Checks (content told) numbers)) }
    ensures damaged { (kind : Kind) (place : ℕ) → IsErrOf result (Refusal.Damaged kind place)
        → IfSome (D.told disk.old) (λ told. (length (content told) ≤ most_length) × Damaged (content told) place kind) }
    ensures too_long { (n : ℕ) → IsErrOf result (Refusal.TooLong n) → (most_length < n) × IfSome (D.told disk.old) (λ told. n ≡ length (content told)) }
    ensures present { IsErrOf result Refusal.Missing → ⊥ }
    ensures others { IfErr result IsOfScan }
    ensures same { D.told disk.new ≡ D.told disk.old }
    ensures counts { Counts (D.counter disk.old) (D.counter disk.new) (IsErrOf result Refusal.Disk) }
{
    let len = disk.len().map_err(|_| Refusal::Disk)?;
    if len > MAX_LENGTH {
        return Err(Refusal::TooLong(len));
    }
    Ok(check(alloc, disk)?)
}

// The numbers of the file of that name.
fn numbers_of<F: Shelf>(alloc: Global, files: &mut F, name: &str) -> Result<Checked, Refusal>
    ensures checks { IfOk result (λ numbers. IfKept (F.files files.old) name.now (λ bytes. Checks bytes numbers)) }
    ensures missing { IsErrOf result Refusal.Missing → IsMissing (F.files files.old) name.now }
    ensures damaged { (kind : Kind) (place : ℕ) → IsErrOf result (Refusal.Damaged kind place)
        → IfKept (F.files files.old) name.now (λ bytes. Damaged bytes place kind) }
    ensures too_long { (n : ℕ) → IsErrOf result (Refusal.TooLong n) → (most_length < n) × IsLength (F.files files.old) name.now n }
    ensures present { IsErrOf result Refusal.Disk → IsPresent (F.files files.old) name.now }
    ensures disk { IsErrOf result Refusal.Disk → Rose (F.counter files.old) (F.counter files.new) ⊎ (F.sound_disks files.old → ⊥) }
    ensures others { IfErr result IsOfScan }
    ensures same { F.files files.new ≡ F.files files.old }
    ensures count { (F.counter files.old).count ≤ (F.counter files.new).count }
{
    match files.open(name) {
        Ok(mut disk) => {
            let numbers = check_disk(alloc, &mut disk);
            let closed = files.close(name, disk);
            let numbers = numbers?;
            closed?;
            Ok(numbers)
        }
        Err(ShelfRefusal::Missing) => Err(Refusal::Missing),
        Err(ShelfRefusal::Failed) => Err(Refusal::Disk),
        Err(ShelfRefusal::Memory) => Err(Refusal::Memory),
        // A file that is there is what was asked for.
        Err(ShelfRefusal::Exists) => unreachable!(),
    }
}

// The five lines, made as a text.
fn lines_of(alloc: Global, numbers: Checked) -> Result<String, Memory>
    ensures { IfOk result (λ lines. string_bytes lines ≡ check_lines numbers) }
{
    let mut last = Text::new(alloc);
    last.push_hex16(numbers.last.0)?;
    Ok(format!(in alloc;
        "transactions {}\nobjects {}\nlast {}\nend {}\ntorn {}\n",
        numbers.transactions,
        numbers.objects,
        last.as_str(),
        numbers.end,
        numbers.torn
    )?)
}

// Writes the five lines.
fn put_numbers<K: Sink>(alloc: Global, numbers: Checked, out: &mut K) -> Result<(), Refusal>
    ensures ok { OnOk result (K.written out.new ≡ append_known (K.written out.old) (check_lines numbers)) }
    ensures cause { IfErr result (PrintCause (Rose (K.counter out.old) (K.counter out.new)) (check_lines numbers) (K.written out.old) (K.written out.new)) }
    ensures counts { Counts (K.counter out.old) (K.counter out.new) (IsErrOf result Refusal.Output) }
{
    match put_text(lines_of(alloc, numbers), out) {
        Ok(()) => Ok(()),
        Err(OutsideRefusal::Failed) => Err(Refusal::Output),
        Err(OutsideRefusal::Memory) => Err(Refusal::Memory),
    }
}

/// Checks the file of that name: prints how many transactions and objects it has, its last transaction, where it
/// ends, and how many bytes stand behind that. It changes no file.
pub fn check_file<F: Shelf, K: Sink>(
    alloc: Global,
    name: &str,
    files: &mut F,
    out: &mut K,
) -> Result<(), Refusal>
    ensures same { F.files files.new ≡ F.files files.old }
    ensures ok { OnOk result (NumbersPrinted name.now (F.files files.old) (K.written out.old) (K.written out.new)) }
    ensures cause { IfErr result (CheckCause name.now (F.files files.old) (Rose (K.counter out.old) (K.counter out.new))
        (Rose (F.counter files.old) (F.counter files.new) ⊎ (F.sound_disks files.old → ⊥)) (K.written out.old) (K.written out.new)) }
    ensures counts { Counts (K.counter out.old) (K.counter out.new) (IsErrOf result Refusal.Output) }
{
    let numbers = numbers_of(alloc, files, name)?;
    put_numbers(alloc, numbers, out)
}
