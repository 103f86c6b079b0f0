ghost use Rattle.std.specs.Prelude.{◌≡◌, ◌≤◌, IfErr, IfOk, IsErrOf, OnOk, string_bytes};
ghost use Rattle.std.specs.Io.KnownBytes.{append_known};
ghost use Rattle.zbase.specs.Faults.{Counts, Rose};
ghost use Rattle.zope.specs.CheckCauses.{PrintCause};
ghost use Rattle.zope.specs.ServeCauses.{LeavesServed, ServeCause, SiteServed, served_line};

use crate::last_lines::put_text;
use crate::refusal::Refusal;
use file_server::{FileJob, serve_file};
use publisher::Site;
use schedule::WORKERS;
use std::alloc::Global;
use zbase::Memory;
use zio::{Clock, Hub, OutsideRefusal, Shelf, Sink};
use zserve::Served;

// The line that says how many connections were accepted, and how many replies given.
fn served_line(alloc: Global, served: Served) -> Result<String, Memory>
    ensures { IfOk result (λ line. string_bytes line ≡ served_line served.connections served.replies) }
{
    Ok(format!(in alloc; "served {} {}\n", served.connections, served.replies)?)
}

// Writes that line.
fn put_served<K: Sink>(alloc: Global, served: Served, out: &mut K) -> Result<(), Refusal>
    ensures ok { OnOk result (K.written out.new ≡ append_known (K.written out.old) (served_line served.connections served.replies)) }
    ensures cause { IfErr result (PrintCause (Rose (K.counter out.old) (K.counter out.new)) (served_line served.connections served.replies)
        (K.written out.old) (K.written out.new)) }
    ensures counts { Counts (K.counter out.old) (K.counter out.new) (IsErrOf result Refusal.Output) }
{
    match put_text(served_line(alloc, served), out) {
        Ok(()) => Ok(()),
        Err(OutsideRefusal::Failed) => Err(Refusal::Output),
        Err(OutsideRefusal::Memory) => Err(Refusal::Memory),
    }
}

/// Serves the site in a file, in place, as the job says, and prints how many connections were accepted, and how many replies
/// given.
pub fn serve_site<F: Shelf, K: Sink, H: Hub, C: Clock>(
    alloc: Global,
    job: FileJob<'_>,
    files: &mut F,
    out: &mut K,
    hub: &mut H,
    clock: &mut C,
) -> Result<(), Refusal>
where
    F::D: Drop,
    requires plan { (1 ≤ job.plan.clients) × (job.plan.clients ≤ WORKERS) }
    ensures ok { OnOk result (SiteServed (F.sound_disks files.old) job.entry.file.now job.entry.record.now job.entry.plan.port
        job.entry.plan.connections job.entry.plan.clients (F.files files.old) (F.files files.new) (C.ticks clock.old) (C.counter clock.old)
        (C.ticks clock.new) (C.counter clock.new) (H.peers hub.old) (H.peers hub.new) (K.written out.old) (K.written out.new)) }
    ensures cause { IfErr result (ServeCause (F.sound_disks files.old) job.entry.file.now job.entry.record.now job.entry.plan.port
        job.entry.plan.connections job.entry.plan.clients (F.files files.old) (F.files files.new) (C.ticks clock.old) (C.counter clock.old)
        (C.ticks clock.new) (C.counter clock.new) (H.peers hub.old) (H.peers hub.new)
        (Rose (H.listening hub.old) (H.listening hub.new)) (Rose (K.counter out.old) (K.counter out.new))
        (Rose (F.counter files.old) (F.counter files.new)) (K.written out.old) (K.written out.new)) }
    ensures left { LeavesServed job.entry.file.now job.entry.record.now (F.files files.old) (F.files files.new) }
    ensures counts { Counts (K.counter out.old) (K.counter out.new) (IsErrOf result Refusal.Output) }
{
    let served = serve_file(alloc, job, Site::new(alloc), files, hub, clock)?;
    put_served(alloc, served, out)
}
