ghost use Rattle.std.specs.Prelude.{◌≡◌, ◌⊎◌, IfErr, IfOk, IsErrOf, OnOk, string_bytes};
ghost use Rattle.std.specs.Io.KnownBytes.{append_known};
ghost use Rattle.zbase.specs.Faults.{Counts, Rose};
ghost use Rattle.zope.specs.CheckCauses.{PrintCause};
ghost use Rattle.zope.specs.RestoreCauses.{FileRestored, LeavesRestored, RestoreCause, restored_line};

use crate::last_lines::put_text;
use crate::refusal::Refusal;
use backups::restore;
use std::alloc::Global;
use zbase::Memory;
use zio::{OutsideRefusal, Shelf, Sink};

// The line that says how many bytes were restored.
fn restored_line(alloc: Global, size: u64) -> Result<String, Memory>
    ensures { IfOk result (λ line. string_bytes line ≡ restored_line size) }
{
    Ok(format!(in alloc; "restored {size}\n")?)
}

// Writes that line.
fn put_restored<K: Sink>(alloc: Global, size: u64, out: &mut K) -> Result<(), Refusal>
    ensures ok { OnOk result (K.written out.new ≡ append_known (K.written out.old) (restored_line size)) }
    ensures cause { IfErr result (PrintCause (Rose (K.counter out.old) (K.counter out.new)) (restored_line size) (K.written out.old) (K.written out.new)) }
    ensures counts { Counts (K.counter out.old) (K.counter out.new) (IsErrOf result Refusal.Output) }
{
    match put_text(restored_line(alloc, size), out) {
        Ok(()) => Ok(()),
        Err(OutsideRefusal::Failed) => Err(Refusal::Output),
        Err(OutsideRefusal::Memory) => Err(Refusal::Memory),
    }
}

/// Makes the file again that a repository's pieces are a backup of, as a new file of that name, and prints how many bytes it has.
pub fn restore_file<F: Shelf, K: Sink>(
    alloc: Global,
    repo: &str,
    name: &str,
    files: &mut F,
    out: &mut K,
) -> Result<(), Refusal>
    ensures ok { OnOk result (FileRestored repo.now name.now (F.files files.old) (F.files files.new) (K.written out.old) (K.written out.new)) }
    ensures cause { IfErr result (RestoreCause repo.now name.now (F.files files.old) (F.files files.new) (Rose (K.counter out.old) (K.counter out.new))
        (Rose (F.counter files.old) (F.counter files.new) ⊎ (F.sound_disks files.old → ⊥)) (K.written out.old) (K.written out.new)) }
    ensures left { LeavesRestored name.now (F.files files.old) (F.files files.new) }
    ensures counts { Counts (K.counter out.old) (K.counter out.new) (IsErrOf result Refusal.Output) }
{
    let size = restore(alloc, repo, name, files)?;
    put_restored(alloc, size, out)
}
