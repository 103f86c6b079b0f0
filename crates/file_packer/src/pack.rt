ghost use Rattle.std.specs.Prelude.{◌≡◌, ◌⊎◌, ◌≤◌, ℕ, IfErr, IfOk, IfSome, IsErrOf, List, OnOk, string_bytes};
ghost use Rattle.zbase.specs.Faults.{Counts, IsFaultless, Rose};
ghost use Rattle.zdisk.specs.Disk.{content};
ghost use Rattle.zio.specs.Shelves.{Lasts};
ghost use Rattle.fs_record.specs.declared.layout.TheConstants.{MAX_LENGTH};
ghost use Rattle.fs_pack.specs.Plans.{StandsFor};
ghost use Rattle.file_packer.specs.Calls.{Calls};
ghost use Rattle.file_packer.specs.Making.{MakesOf, MakingCause, PlanCause, Reads};
ghost use Rattle.file_packer.specs.Packing.{FilePackCause, Fits, IsBefore, IsUnput, LeavesOne, MadeBeside, OthersLast, PackedIn, Turned, Turns, pack_name};

use crate::FilePackRefusal;
use fs_pack::{PackRefusal, Packed, Plan, plan, write};
use fs_record::MAX_LENGTH;
use packing::Links;
use std::alloc::Global;
use zbase::{Memory, Tid};
use zdisk::Disk;
use zio::{Shelf, ShelfRefusal};

// The name under which the packed file is written.
fn pack_name(alloc: Global, file: &str) -> Result<String, Memory>
    ensures { IfOk result (λ name. string_bytes name ≡ pack_name file.now) }
{
    Ok(format!(in alloc; "{file}.pack")?)
}

// The plan of a pack of a disk's file. Its length is looked at first.
fn plan_of<D: Disk, L: Links>(
    alloc: Global,
    disk: &mut D,
    before: Tid,
    links: &L,
) -> Result<Plan, FilePackRefusal>
    ensures planned { IfOk result (λ plan. IfSome (D.told disk.old) (λ told. Fits (content told) × StandsFor L.linked (content told) plan)) }
    ensures at { IfOk result (λ plan. (plan.before ≡ before) × (plan.size ≤ MAX_LENGTH)) }
    ensures cause { IfErr result (PlanCause L.linked before (D.told disk.old)) }
    ensures same { D.told disk.new ≡ D.told disk.old }
    ensures counts { Counts (D.counter disk.old) (D.counter disk.new) (IsErrOf result FilePackRefusal.Disk) }
{
    let len = disk.len().map_err(|_| FilePackRefusal::Disk)?;
    if len > MAX_LENGTH {
        return Err(FilePackRefusal::TooLong(len));
    }
    Ok(plan(alloc, disk, before, MAX_LENGTH, links)?)
}

// Writes the packed file of an open one as a new file of that name. Its disk is given back, whatever it holds.
fn pack_into<F: Shelf, L: Links>(
    alloc: Global,
    disk: &mut F::D,
    name: &str,
    before: Tid,
    files: &mut F,
    links: &L,
) -> Result<Packed, FilePackRefusal>
    ensures made { IfOk result (λ done. Turns (F.files files.old) (F.files files.new) (λ all now.
        (bytes : List ℕ) → Reads (F.D.told disk.old) bytes → MakesOf L.linked bytes before name.now done all now)) }
    ensures left { Turns (F.files files.old) (F.files files.new) (LeavesOne name.now) }
    ensures cause { IfErr result (MakingCause L.linked before (F.D.told disk.old) name.now (F.files files.old)) }
    ensures unmade { IfErr result (λ refusal. IsBefore refusal → F.files files.new ≡ F.files files.old) }
    ensures lasts { OnOk result (F.lasts files.new name.now × Lasts (F.lasts files.old) (F.lasts files.new)) }
    ensures lasting { OthersLast name.now (F.lasts files.old) (F.lasts files.new) }
    ensures same { F.D.told disk.new ≡ F.D.told disk.old }
    ensures calls { Calls (F.sound_disks files.old × IsFaultless (F.D.counter disk.old)) (F.sound_disks files.new)
        (F.counter files.old) (F.counter files.new)
        (IsErrOf result FilePackRefusal.Disk) }
{
    let plan = plan_of(alloc, disk, before, links)?;
    match files.create(name) {
        Ok(mut to) => {
            let written = write(alloc, disk, &plan, &mut to);
            let closed = files.close(name, to);
            let done = written?;
            closed?;
            Ok(done)
        }
        Err(ShelfRefusal::Exists) => Err(FilePackRefusal::Exists),
        Err(ShelfRefusal::Failed) => Err(FilePackRefusal::Disk),
        Err(ShelfRefusal::Memory) => Err(FilePackRefusal::Memory),
        // A file that isn't there is what was asked for.
        Err(ShelfRefusal::Missing) => unreachable!(),
    }
}

// Writes the packed file of the file of that name beside it. Both disks are given back.
fn pack_beside<F: Shelf, L: Links>(
    alloc: Global,
    file: &str,
    name: &str,
    before: Tid,
    files: &mut F,
    links: &L,
) -> Result<Packed, FilePackRefusal>
    requires named { name.now ≡ pack_name file.now }
    ensures made { IfOk result (λ done. Turns (F.files files.old) (F.files files.new) (λ all now. MadeBeside L.linked all now file.now before done)) }
    ensures left { Turns (F.files files.old) (F.files files.new) (LeavesOne (pack_name file.now)) }
    ensures cause { IfErr result (FilePackCause L.linked file.now before (F.files files.old)
        (Rose (F.counter files.old) (F.counter files.new) ⊎ (F.sound_disks files.old → ⊥))) }
    ensures unmade { IfErr result (λ refusal. IsBefore refusal → F.files files.new ≡ F.files files.old) }
    ensures lasts { OnOk result (F.lasts files.new name.now × Lasts (F.lasts files.old) (F.lasts files.new)) }
    ensures lasting { OthersLast (pack_name file.now) (F.lasts files.old) (F.lasts files.new) }
    ensures calls { Calls (F.sound_disks files.old) (F.sound_disks files.new) (F.counter files.old) (F.counter files.new)
        (IsErrOf result FilePackRefusal.Disk) }
{
    match files.open(file) {
        Ok(mut disk) => {
            let done = pack_into(alloc, &mut disk, name, before, files, links);
            let closed = files.close(file, disk);
            let done = done?;
            closed?;
            Ok(done)
        }
        Err(ShelfRefusal::Missing) => Err(FilePackRefusal::Missing),
        Err(ShelfRefusal::Failed) => Err(FilePackRefusal::Disk),
        Err(ShelfRefusal::Memory) => Err(FilePackRefusal::Memory),
        // A file that is there is what was asked for.
        Err(ShelfRefusal::Exists) => unreachable!(),
    }
}

/// Packs the file of that name at a time: what no transaction behind it needs, and no later look can ask for, goes. The packed file
/// is written under the file's name and `.pack`, synced, and put whole in the file's place: at every moment the file is the old one
/// or the new one. Nothing is made before the plan is known; where a disk fails or memory is wanting behind that, a part of the
/// packed file may be left beside the file, which is as it was.
///
/// ZODB Programming Guide, "Packing and garbage collection".
pub fn pack_file<F: Shelf, L: Links>(
    alloc: Global,
    file: &str,
    before: Tid,
    files: &mut F,
    links: &L,
) -> Result<Packed, FilePackRefusal>
    ensures packed { IfOk result (λ done. Turned (F.files files.old) (F.files files.new) (λ all now. PackedIn L.linked all now file.now before done)) }
    ensures cause { IfErr result (FilePackCause L.linked file.now before (F.files files.old)
        (Rose (F.counter files.old) (F.counter files.new) ⊎ (F.sound_disks files.old → ⊥))) }
    ensures left { IfErr result (λ _. Turns (F.files files.old) (F.files files.new) (LeavesOne (pack_name file.now))) }
    ensures unmade { IfErr result (λ refusal. IsBefore refusal → F.files files.new ≡ F.files files.old) }
    ensures lasts { IfOk result (λ _. F.lasts files.new file.now × Lasts (F.lasts files.old) (F.lasts files.new)) }
    // Of the shelf's own putting nothing more is known where it was refused: then a stop may leave either file in the place.
    ensures lasting { IfErr result (λ refusal. OthersLast (pack_name file.now) (F.lasts files.old) (F.lasts files.new)
        ⊎ IsUnput L.linked file.now before (F.files files.old) (F.files files.new) refusal) }
    ensures count { (F.counter files.old).count ≤ (F.counter files.new).count }
{
    let name = pack_name(alloc, file)?;
    let new = name.as_str();
    let done = pack_beside(alloc, file, new, before, files, links)?;
    match files.replace(new, file) {
        Ok(()) => Ok(done),
        Err(ShelfRefusal::Failed) => Err(FilePackRefusal::Disk),
        // The packed file was made just now, so it is there.
        Err(ShelfRefusal::Missing) => Err(FilePackRefusal::Memory),
        Err(ShelfRefusal::Memory) => Err(FilePackRefusal::Memory),
        // A file that is there is what was asked for.
        Err(ShelfRefusal::Exists) => unreachable!(),
    }
}
