ghost use Rattle.std.specs.Prelude.{◌≡◌, ◌⊎◌, ◌≤◌, ◌<◌, ℕ, length, IfOk, IfSome, IsErrOf};
ghost use Rattle.zbase.specs.Faults.{Counts, Rose};
ghost use Rattle.zdisk.specs.Disk.{content};
ghost use Rattle.zope.specs.Given.{most_file, most_input};
ghost use Rattle.zope.specs.Shelved.{HasFile, IsLength, IsMissing, IsPresent};

use crate::refusal::{FileRefusal, InputRefusal};
use std::alloc::Global;
use zdisk::Disk;
use zio::{Shelf, ShelfRefusal, Source};

/// The most bytes that a schedule may have.
pub const MAX_INPUT: usize = 67_108_864;

/// The most bytes that a replayed file may have.
const MAX_FILE: u64 = 268_435_456;

/// All of the input.
pub fn read_input<S: Source>(alloc: Global, input: &mut S) -> Result<Vec<u8>, InputRefusal>
    ensures all { IfOk result (λ text. IfSome (S.left input.old) (λ bytes. text.items ≡ bytes)) }
    ensures within { IfOk result (λ text. length text.items ≤ most_input) }
    ensures too_large { IsErrOf result InputRefusal.TooLarge → IfSome (S.left input.old) (λ bytes. most_input < length bytes) }
    ensures counts { Counts (S.counter input.old) (S.counter input.new) (IsErrOf result InputRefusal.Failed) }
{
    let mut text = Vec::new(alloc);
    let mut buf = [0; 4096];
    'reading: while text.len() <= MAX_INPUT {
        match input.read(&mut buf) {
            Ok(0) => return Ok(text),
            Ok(count) => text.extend_from_slice(&buf[..count])?,
            Err(_) => return Err(InputRefusal::Failed),
        }
    }
    Err(InputRefusal::TooLarge)
}

// All bytes of a disk.
fn read_disk<D: Disk>(alloc: Global, disk: &mut D) -> Result<Vec<u8>, FileRefusal>
    ensures all { IfOk result (λ bytes. IfSome (D.told disk.old) (λ told. content told ≡ bytes.items)) }
    ensures within { IfOk result (λ bytes. length bytes.items ≤ most_file) }
    ensures too_large { (n : ℕ) → IsErrOf result (FileRefusal.TooLarge n) → (most_file < n) × IfSome (D.told disk.old) (λ told. n ≡ length (content told)) }
    ensures present { IsErrOf result FileRefusal.Missing → ⊥ }
    ensures same { D.told disk.new ≡ D.told disk.old }
    ensures counts { Counts (D.counter disk.old) (D.counter disk.new) (IsErrOf result FileRefusal.Disk) }
{
    let len = disk.len().map_err(|_| FileRefusal::Disk)?;
    if len > MAX_FILE {
        return Err(FileRefusal::TooLarge(len));
    }
    let mut bytes = vec![in alloc; 0u8; len as usize]?;
    disk.read_at(0, &mut bytes).map_err(|_| FileRefusal::Disk)?;
    Ok(bytes)
}

/// All bytes of the file of that name. It changes no file.
pub fn read_file<F: Shelf>(alloc: Global, files: &mut F, name: &str) -> Result<Vec<u8>, FileRefusal>
    ensures found { IfOk result (λ bytes. HasFile (F.files files.old) name.now bytes.items) }
    ensures within { IfOk result (λ bytes. length bytes.items ≤ most_file) }
    ensures missing { IsErrOf result FileRefusal.Missing → IsMissing (F.files files.old) name.now }
    ensures too_large { (n : ℕ) → IsErrOf result (FileRefusal.TooLarge n) → (most_file < n) × IsLength (F.files files.old) name.now n }
    ensures present { IsErrOf result FileRefusal.Disk → IsPresent (F.files files.old) name.now }
    ensures disk { IsErrOf result FileRefusal.Disk → Rose (F.counter files.old) (F.counter files.new) ⊎ (F.sound_disks files.old → ⊥) }
    ensures same { F.files files.new ≡ F.files files.old }
    ensures count { (F.counter files.old).count ≤ (F.counter files.new).count }
{
    match files.open(name) {
        Ok(mut disk) => {
            let bytes = read_disk(alloc, &mut disk);
            let closed = files.close(name, disk);
            let bytes = bytes?;
            closed?;
            Ok(bytes)
        }
        Err(ShelfRefusal::Missing) => Err(FileRefusal::Missing),
        Err(ShelfRefusal::Failed) => Err(FileRefusal::Disk),
        Err(ShelfRefusal::Memory) => Err(FileRefusal::Memory),
        // A file that is there is what was asked for.
        Err(ShelfRefusal::Exists) => unreachable!(),
    }
}
