ghost use Rattle.std.specs.Prelude.{◌≡◌, ◌≤◌, ℕ, List, [], false, is_some, IfErr, IfOk, IsErrOf};
ghost use Rattle.std.specs.Option.{ForSome};
ghost use Rattle.zbase.specs.Faults.{IsFaultless, Rose};
ghost use Rattle.zdisk.specs.Disk.{content};
ghost use Rattle.http_in.specs.Messages.{one_message};
ghost use Rattle.txn_core.specs.Cores.{IsAtRest};
ghost use Rattle.file_server.specs.Ending.{RefusedOver, ServedOver};
ghost use Rattle.file_server.specs.Refusals.{Comes};
ghost use Rattle.file_server.specs.Running.{DiskRefused, DiskServed};

use crate::FileRefusal;
use crate::closing::close_core;
use crate::opening::open_core;
use evaluator::Evaluator;
use http_in::Message;
use schedule::WORKERS;
use std::alloc::Global;
use txn_core::Core;
use zdisk::Disk;
use zio::{Clock, Hub};
use zserve::{ServePlan, Served, serve};

/// Serves over a core, by the plan, and closes it; its disk comes back. A disk that fails while it is closed is refused, whatever
/// came of the serving.
pub(crate) fn serve_core<D: Disk + Drop, E: Evaluator<Request = Message>, H: Hub, C: Clock>(
    alloc: Global,
    core: Core<D, E>,
    plan: ServePlan,
    hub: &mut H,
    clock: &mut C,
    tape: &mut D,
) -> (Result<Served, FileRefusal>, D)
    requires rest { IsAtRest E.meaning core }
    requires fresh { core.store.stale ≡ false }
    requires plan { (1 ≤ plan.clients) × (plan.clients ≤ WORKERS) }
    requires empty { ForSome (D.told tape.old) (λ told. content told ≡ []) }
    requires takes { (bytes : List ℕ) → E.takes bytes ≡ one_message bytes }
    ensures served { IfOk result.0 (λ served. ServedOver E.takes E.meaning plan.port plan.connections plan.clients core.store (D.told result.1)
        (D.told tape.new) (C.ticks clock.old) (C.counter clock.old) (C.ticks clock.new) (C.counter clock.new)
        (H.peers hub.old) (H.peers hub.new) served.connections served.replies) }
    ensures refused { IfErr result.0 (λ refusal. Comes refusal ⊥ ⊥ (RefusedOver E.takes E.meaning plan.port plan.connections plan.clients core.store
        (D.told result.1) (D.told tape.new) (refusal ≡ FileRefusal.Disk) (C.ticks clock.old) (C.counter clock.old) (H.peers hub.old) (H.peers hub.new))) }
    ensures tells { (is_some (D.told result.1) ≡ is_some core.store.disk.told) × (is_some (D.told tape.new) ≡ is_some (D.told tape.old)) }
    ensures hub { IsErrOf result.0 FileRefusal.Hub → Rose (H.listening hub.old) (H.listening hub.new) }
    ensures disk { IsErrOf result.0 FileRefusal.Disk → IsFaultless core.store.disk.counter → IsFaultless (D.counter tape.old) → ⊥ }
{
    let mut core = core;
    let answer = serve(alloc, &mut core, plan, hub, clock, tape);
    let (failed, disk) = close_core(core);
    if failed {
        return (Err(FileRefusal::Disk), disk);
    }
    match answer {
        Ok(served) => (Ok(served), disk),
        Err(refusal) => (Err(FileRefusal::from(refusal)), disk),
    }
}

/// The site in the file on a disk, and who answers its requests.
pub(crate) struct FileSite<D, E> {
    /// The disk, which wasn't opened yet.
    pub(crate) disk: D,
    /// What a request comes to.
    pub(crate) evaluator: E,
}

/// Opens the file on a disk and serves it, by the plan; the disk comes back.
pub(crate) fn serve_disk<D: Disk + Drop, E: Evaluator<Request = Message>, H: Hub, C: Clock>(
    alloc: Global,
    site: FileSite<D, E>,
    plan: ServePlan,
    hub: &mut H,
    clock: &mut C,
    tape: &mut D,
) -> (Result<Served, FileRefusal>, D)
    requires plan { (1 ≤ plan.clients) × (plan.clients ≤ WORKERS) }
    requires empty { ForSome (D.told tape.old) (λ told. content told ≡ []) }
    requires takes { (bytes : List ℕ) → E.takes bytes ≡ one_message bytes }
    ensures served { IfOk result.0 (λ served. DiskServed (IsFaultless (D.counter site.disk)) E.takes E.meaning plan.port plan.connections plan.clients
        (D.told site.disk) (D.told result.1) (D.told tape.new) (C.ticks clock.old) (C.counter clock.old) (C.ticks clock.new) (C.counter clock.new)
        (H.peers hub.old) (H.peers hub.new) served.connections served.replies) }
    ensures refused { IfErr result.0 (DiskRefused (IsFaultless (D.counter site.disk)) E.takes E.meaning plan.port plan.connections plan.clients
        (D.told site.disk) (D.told result.1) (D.told tape.new) (C.ticks clock.old) (C.counter clock.old) (H.peers hub.old) (H.peers hub.new)) }
    ensures tells { is_some (D.told tape.new) ≡ is_some (D.told tape.old) }
    ensures hub { IsErrOf result.0 FileRefusal.Hub → Rose (H.listening hub.old) (H.listening hub.new) }
    ensures disk { IsErrOf result.0 FileRefusal.Disk → IsFaultless (D.counter site.disk) → IsFaultless (D.counter tape.old) → ⊥ }
{
    let FileSite { disk, evaluator } = site;
    match open_core(alloc, disk, evaluator) {
        Ok(core) => serve_core(alloc, core, plan, hub, clock, tape),
        Err((refusal, disk)) => (Err(refusal), disk),
    }
}
