ghost use Rattle.std.specs.Prelude.{◌≡◌, ⊤, [], IfErr, IfOk, IfSome, OnErr, OnOk};
ghost use Rattle.std.specs.Option.{ForSome};
ghost use Rattle.zbase.specs.Faults.{IsFaultless, Rose};
ghost use Rattle.zdisk.specs.Disk.{content};
ghost use Rattle.file_server.specs.Kept.{FileCause};
ghost use Rattle.file_server.specs.Refusals.{Comes};
ghost use Rattle.file_server.specs.Shelved.{Holds, Lends, TakesBoth, TakesOne};

use crate::{FileJob, FileRefusal};
use zbase::Memory;
use zio::Shelf;

// A disk over the tape's new file. Where there is none, the disk of the site is given back.
fn make_tape<F: Shelf>(
    files: &mut F,
    job: FileJob<'_>,
    disk: F::D,
) -> Result<(F::D, F::D), FileRefusal>
    requires holds { IfSome (F.files files.old) (λ entries. Holds entries job.file.now (F.D.told disk)) }
    ensures lends { IfOk result (λ (site, tape). Lends job.entry.file.now job.entry.record.now (F.files files.old) (F.files files.new)
        (F.D.told site) (F.D.told tape)) }
    ensures empty { IfOk result (λ (_, tape). ForSome (F.D.told tape) (λ told. content told ≡ [])) }
    ensures same { IfOk result (λ (site, _). F.D.counter site ≡ F.D.counter disk) }
    ensures sound { F.sound_disks files.old → IfOk result (λ (_, tape). IsFaultless (F.D.counter tape)) }
    ensures cause { IfErr result (FileCause job.entry.file.now job.entry.record.now (F.files files.old) ⊥
        (Rose (F.counter files.old) (F.counter files.new)) ⊥) }
    ensures before { IfErr result (λ refusal. Comes refusal ⊤ ⊥ ⊥) }
    ensures kept { OnErr result (F.files files.new ≡ F.files files.old) }
{
    match files.create(job.record) {
        Ok(tape) => Ok((disk, tape)),
        Err(refusal) => {
            // Without memory the shelf tells the file as it was, which the disk still holds.
            let _closed = files.close(job.file, disk);
            Err(FileRefusal::from(refusal))
        }
    }
}

/// The disks of the site and of the tape: the file is looked for first, and then the tape's is made.
pub(crate) fn lend<F: Shelf>(files: &mut F, job: FileJob<'_>) -> Result<(F::D, F::D), FileRefusal>
    ensures lends { IfOk result (λ (site, tape). Lends job.entry.file.now job.entry.record.now (F.files files.old) (F.files files.new)
        (F.D.told site) (F.D.told tape)) }
    ensures empty { IfOk result (λ (_, tape). ForSome (F.D.told tape) (λ told. content told ≡ [])) }
    ensures sound { F.sound_disks files.old → IfOk result (λ (site, tape). IsFaultless (F.D.counter site) × IsFaultless (F.D.counter tape)) }
    ensures cause { IfErr result (FileCause job.entry.file.now job.entry.record.now (F.files files.old) ⊥
        (Rose (F.counter files.old) (F.counter files.new)) ⊥) }
    ensures before { IfErr result (λ refusal. Comes refusal ⊤ ⊥ ⊥) }
    ensures kept { OnErr result (F.files files.new ≡ F.files files.old) }
{
    match files.open(job.file) {
        Ok(disk) => make_tape(files, job, disk),
        Err(refusal) => Err(FileRefusal::from(refusal)),
    }
}

/// Gives the disks of the site and of the tape back, the second also where there is no memory to tell of the first.
pub(crate) fn give_back<F: Shelf>(
    files: &mut F,
    job: FileJob<'_>,
    site: F::D,
    tape: F::D,
) -> Result<(), Memory>
    ensures both { OnOk result (TakesBoth job.entry.file.now job.entry.record.now (F.files files.old) (F.D.told site) (F.D.told tape) (F.files files.new)) }
    ensures one { OnErr result (TakesOne job.entry.file.now job.entry.record.now (F.files files.old) (F.D.told site) (F.D.told tape) (F.files files.new)) }
    ensures counter { F.counter files.new ≡ F.counter files.old }
{
    let first = files.close(job.file, site);
    let second = files.close(job.record, tape);
    first?;
    second
}
