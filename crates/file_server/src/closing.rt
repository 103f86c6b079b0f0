ghost use Rattle.std.specs.Prelude.{◌≡◌, IfSome, true};
ghost use Rattle.zbase.specs.Faults.{Counts};
ghost use Rattle.zdisk.specs.Disk.{content};
ghost use Rattle.connection.specs.Telling.{TellsOn};
ghost use Rattle.file_server.specs.Ending.{MayHold};

use evaluator::Evaluator;
use txn_core::Core;
use zdisk::{Disk, one_image};

/// Closes a core: whether its disk failed in that, and the disk.
pub(crate) fn close_core<D: Disk + Drop, E: Evaluator>(core: Core<D, E>) -> (bool, D)
    ensures tells { TellsOn core.store.disk.told (D.told result.1) }
    ensures holds { IfSome (D.told result.1) (λ told. MayHold core.store (content told)) }
    ensures counts { Counts core.store.disk.counter (D.counter result.1) (result.0 ≡ true) }
{
    one_image();
    match core.close() {
        Ok((store, _)) => (false, store.into_disk()),
        Err((_, store)) => {
            store.is_sound();
            (true, store.into_disk())
        }
    }
}
