ghost use Rattle.std.specs.Prelude.{◌≡◌, ◌⊎◌, IfErr, IfOk, IsErrOf, OnOk, string_bytes};
ghost use Rattle.std.specs.Io.KnownBytes.{append_known};
ghost use Rattle.zbase.specs.Faults.{Counts, Rose};
ghost use Rattle.zope.specs.CheckCauses.{PrintCause};
ghost use Rattle.zope.specs.PackCauses.{FilePacked, LeavesPacked, PackCause, packed_line};

use crate::last_lines::put_text;
use crate::refusal::Refusal;
use file_packer::pack_file;
use fs_pack::Packed;
use site_links::SiteLinks;
use std::alloc::Global;
use zbase::{Memory, Text, Tid};
use zio::{OutsideRefusal, Shelf, Sink};

// The line that says up to which transaction a file was packed, and how many it has.
fn packed_line(alloc: Global, done: &Packed) -> Result<String, Memory>
    ensures { IfOk result (λ line. string_bytes line ≡ packed_line done.now) }
{
    let mut floor = Text::new(alloc);
    floor.push_hex16(done.floor.0)?;
    Ok(format!(in alloc; "packed {} {}\n", floor.as_str(), done.count)?)
}

// Writes that line.
fn put_packed<K: Sink>(alloc: Global, done: &Packed, out: &mut K) -> Result<(), Refusal>
    ensures ok { OnOk result (K.written out.new ≡ append_known (K.written out.old) (packed_line done.now)) }
    ensures cause { IfErr result (PrintCause (Rose (K.counter out.old) (K.counter out.new)) (packed_line done.now) (K.written out.old) (K.written out.new)) }
    ensures counts { Counts (K.counter out.old) (K.counter out.new) (IsErrOf result Refusal.Output) }
{
    match put_text(packed_line(alloc, done), out) {
        Ok(()) => Ok(()),
        Err(OutsideRefusal::Failed) => Err(Refusal::Output),
        Err(OutsideRefusal::Memory) => Err(Refusal::Memory),
    }
}

/// Packs the file of that name at a transaction, and prints its floor and how many transactions it has then.
pub fn pack_site<F: Shelf, K: Sink>(
    alloc: Global,
    file: &str,
    before: Tid,
    files: &mut F,
    out: &mut K,
) -> Result<(), Refusal>
    ensures ok { OnOk result (FilePacked file.now before (F.files files.old) (F.files files.new) (F.lasts files.new) (K.written out.old) (K.written out.new)) }
    ensures cause { IfErr result (PackCause file.now before (F.files files.old) (F.files files.new) (Rose (K.counter out.old) (K.counter out.new))
        (Rose (F.counter files.old) (F.counter files.new) ⊎ (F.sound_disks files.old → ⊥)) (K.written out.old) (K.written out.new)) }
    ensures left { LeavesPacked file.now before (F.files files.old) (F.files files.new) }
    ensures counts { Counts (K.counter out.old) (K.counter out.new) (IsErrOf result Refusal.Output) }
{
    let links = SiteLinks::new(alloc);
    let done = pack_file(alloc, file, before, files, &links)?;
    put_packed(alloc, &done, out)
}
