ghost use Rattle.std.specs.Prelude.{◌≡◌, ◌⊎◌, IfErr, IfOk, IsErrOf, OnOk, string_bytes};
ghost use Rattle.std.specs.Io.KnownBytes.{append_known};
ghost use Rattle.zbase.specs.Faults.{Counts, Rose};
ghost use Rattle.zope.specs.BackupCauses.{BackupCause, FileBackedUp, LeavesBackup, backed_line};
ghost use Rattle.zope.specs.CheckCauses.{PrintCause};

use crate::last_lines::put_text;
use crate::refusal::Refusal;
use backups::{Backed, back_up};
use std::alloc::Global;
use zbase::Memory;
use zio::{OutsideRefusal, Shelf, Sink};

// The line that says what a backup did.
fn backed_line(alloc: Global, done: &Backed) -> Result<String, Memory>
    ensures { IfOk result (λ line. string_bytes line ≡ backed_line done.now) }
{
    match done {
        Backed::Nothing => Ok(String::from_str(alloc, "nothing\n")?),
        Backed::Full(name, size) => Ok(format!(in alloc; "full {} {size}\n", name.as_str())?),
        Backed::More(name, size) => Ok(format!(in alloc; "more {} {size}\n", name.as_str())?),
    }
}

// Writes that line.
fn put_backed<K: Sink>(alloc: Global, done: &Backed, out: &mut K) -> Result<(), Refusal>
    ensures ok { OnOk result (K.written out.new ≡ append_known (K.written out.old) (backed_line done.now)) }
    ensures cause { IfErr result (PrintCause (Rose (K.counter out.old) (K.counter out.new)) (backed_line done.now) (K.written out.old) (K.written out.new)) }
    ensures counts { Counts (K.counter out.old) (K.counter out.new) (IsErrOf result Refusal.Output) }
{
    match put_text(backed_line(alloc, done), out) {
        Ok(()) => Ok(()),
        Err(OutsideRefusal::Failed) => Err(Refusal::Output),
        Err(OutsideRefusal::Memory) => Err(Refusal::Memory),
    }
}

/// Backs a file up in a repository, and prints what was done: how many bytes a new piece has, and its name, or that nothing was
/// due.
pub fn back_up_file<F: Shelf, K: Sink>(
    alloc: Global,
    file: &str,
    repo: &str,
    full: bool,
    files: &mut F,
    out: &mut K,
) -> Result<(), Refusal>
    ensures ok { OnOk result (FileBackedUp file.now repo.now full (F.files files.old) (F.files files.new) (F.lasts files.new)
        (K.written out.old) (K.written out.new)) }
    ensures cause { IfErr result (BackupCause file.now repo.now full (F.files files.old) (F.files files.new) (Rose (K.counter out.old) (K.counter out.new))
        (Rose (F.counter files.old) (F.counter files.new) ⊎ (F.sound_disks files.old → ⊥)) (K.written out.old) (K.written out.new)) }
    ensures left { LeavesBackup file.now repo.now full (F.files files.old) (F.files files.new) }
    ensures counts { Counts (K.counter out.old) (K.counter out.new) (IsErrOf result Refusal.Output) }
{
    let done = back_up(alloc, file, repo, full, files)?;
    put_backed(alloc, &done, out)
}
