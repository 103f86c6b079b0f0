ghost use Rattle.std.specs.Prelude.{◌≡◌, ◌≤◌, ℕ, List, [], IfErr, IfOk, IsErrOf};
ghost use Rattle.std.specs.Option.{ForSome};
ghost use Rattle.zbase.specs.Faults.{IsFaultless, Rose};
ghost use Rattle.zdisk.specs.Disk.{content};
ghost use Rattle.http_in.specs.Messages.{one_message};
ghost use Rattle.file_server.specs.Kept.{FileCause, FileRefused, FileServed};
ghost use Rattle.file_server.specs.Returned.{BackRefused, BackServed};

use crate::lending::{give_back, lend};
use crate::running::{FileSite, serve_disk};
use crate::{FileJob, FileRefusal};
use evaluator::Evaluator;
use http_in::Message;
use schedule::WORKERS;
use std::alloc::Global;
use zdisk::one_image;
use zio::{Clock, Hub, Shelf};
use zserve::Served;

// Serves over the disk of the site and an empty tape, and gives both back to the shelf. Where there is no memory for that, that is the
// refusal.
fn serve_over<F: Shelf, E: Evaluator<Request = Message>, H: Hub, C: Clock>(
    alloc: Global,
    job: FileJob<'_>,
    site: FileSite<F::D, E>,
    tape: F::D,
    files: &mut F,
    hub: &mut H,
    clock: &mut C,
) -> Result<Served, FileRefusal>
where
    F::D: Drop,
    requires plan { (1 ≤ job.plan.clients) × (job.plan.clients ≤ WORKERS) }
    requires empty { ForSome (F.D.told tape) (λ told. content told ≡ []) }
    requires takes { (bytes : List ℕ) → E.takes bytes ≡ one_message bytes }
    ensures served { IfOk result (λ served. BackServed (IsFaultless (F.D.counter site.disk)) E.takes E.meaning job.entry.file.now job.entry.record.now
        job.entry.plan.port job.entry.plan.connections job.entry.plan.clients (F.files files.old) (F.files files.new) (F.D.told site.disk) (F.D.told tape)
        (C.ticks clock.old) (C.counter clock.old) (C.ticks clock.new) (C.counter clock.new) (H.peers hub.old) (H.peers hub.new)
        served.connections served.replies) }
    ensures refused { IfErr result (BackRefused (IsFaultless (F.D.counter site.disk)) E.takes E.meaning job.entry.file.now job.entry.record.now
        job.entry.plan.port job.entry.plan.connections job.entry.plan.clients (F.files files.old) (F.files files.new) (F.D.told site.disk) (F.D.told tape)
        (C.ticks clock.old) (C.counter clock.old) (H.peers hub.old) (H.peers hub.new)) }
    ensures hub { IsErrOf result FileRefusal.Hub → Rose (H.listening hub.old) (H.listening hub.new) }
    ensures disk { IsErrOf result FileRefusal.Disk → IsFaultless (F.D.counter site.disk) → IsFaultless (F.D.counter tape) → ⊥ }
{
    let mut tape = tape;
    let (answer, disk) = serve_disk(alloc, site, job.plan, hub, clock, &mut tape);
    match give_back(files, job, disk, tape) {
        Ok(()) => answer,
        Err(memory) => Err(FileRefusal::from(memory)),
    }
}

/// Serves the site in a file of a shelf, in place, by the job's plan; what happens is recorded in a new file beside it. The file is
/// looked for first, then the record is made, and then the file is opened. Both are given back at each end.
///
/// Refused where the shelf has no such file, or has one of the record's name; where the file is too long or damaged; for the hub
/// where it can't listen or accept; where a disk or the shelf fails outside a step; and for want of memory.
pub fn serve_file<F: Shelf, E: Evaluator<Request = Message>, H: Hub, C: Clock>(
    alloc: Global,
    job: FileJob<'_>,
    evaluator: E,
    files: &mut F,
    hub: &mut H,
    clock: &mut C,
) -> Result<Served, FileRefusal>
where
    F::D: Drop,
    requires plan { (1 ≤ job.plan.clients) × (job.plan.clients ≤ WORKERS) }
    requires takes { (bytes : List ℕ) → E.takes bytes ≡ one_message bytes }
    ensures served { IfOk result (λ served. FileServed (F.sound_disks files.old) E.takes E.meaning job.entry.file.now job.entry.record.now
        job.entry.plan.port job.entry.plan.connections job.entry.plan.clients (F.files files.old) (F.files files.new)
        (C.ticks clock.old) (C.counter clock.old) (C.ticks clock.new) (C.counter clock.new) (H.peers hub.old) (H.peers hub.new)
        served.connections served.replies) }
    ensures cause { IfErr result (FileCause job.entry.file.now job.entry.record.now (F.files files.old) (Rose (H.listening hub.old) (H.listening hub.new))
        (Rose (F.counter files.old) (F.counter files.new)) (F.sound_disks files.old → ⊥)) }
    ensures refused { IfErr result (FileRefused (F.sound_disks files.old) E.takes E.meaning job.entry.file.now job.entry.record.now
        job.entry.plan.port job.entry.plan.connections job.entry.plan.clients (F.files files.old) (F.files files.new)
        (C.ticks clock.old) (C.counter clock.old) (H.peers hub.old) (H.peers hub.new)) }
{
    one_image();
    match lend(files, job) {
        Ok((disk, tape)) => {
            let site = FileSite { disk, evaluator };
            serve_over(alloc, job, site, tape, files, hub, clock)
        }
        Err(refusal) => Err(refusal),
    }
}
