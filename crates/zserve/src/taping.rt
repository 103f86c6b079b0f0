ghost use Rattle.std.specs.Prelude.{◌≡◌, ◌⊎◌, [], length, IfErr, IfOk, IsErrOf, OnOk, is_some};
ghost use Rattle.std.specs.Option.{ForSome};
ghost use Rattle.zbase.specs.Faults.{Counts};
ghost use Rattle.zdisk.specs.Calls.{AnyImage, Follows};
ghost use Rattle.zdisk.specs.Crashes.{IsSynced};
ghost use Rattle.zserve.specs.Taping.{Grows, IsLong, Leaves};

use zdisk::Disk;
use zio::OutsideRefusal;

/// Puts a text at the end of the tape, which is so long. The tape's new length.
#[tactic(auto, using(crate::proofs::Refusing::follows_tells))]
pub(crate) fn put<R: Disk>(tape: &mut R, at: u64, text: &[u8]) -> Result<u64, OutsideRefusal>
    requires long { IsLong (R.told tape.old) at }
    ensures grows { OnOk result (Grows (R.told tape.old) text.now (R.told tape.new)) }
    ensures long { IfOk result (λ end. IsLong (R.told tape.new) end) }
    ensures left { IfErr result (λ refusal. Leaves (refusal ≡ OutsideRefusal.Failed) (R.told tape.old) [] text.now (R.told tape.new)) }
    ensures tells { is_some (R.told tape.new) ≡ is_some (R.told tape.old) }
    ensures counts { Counts (R.counter tape.old) (R.counter tape.new) (IsErrOf result OutsideRefusal.Failed) }
{
    let length = text.len() as u64;
    let Some(end) = at.checked_add(length) else {
        return Err(OutsideRefusal::Memory);
    };
    tape.reserve(1, length)?;
    match tape.write_at(at, text) {
        Ok(()) => Ok(end),
        Err(_) => Err(OutsideRefusal::Failed),
    }
}

/// Brings the tape to the device.
#[tactic(auto, using(crate::proofs::Refusing::follows_tells))]
pub(crate) fn sync<R: Disk>(tape: &mut R) -> Result<(), OutsideRefusal>
    ensures synced { OnOk result (Grows (R.told tape.old) [] (R.told tape.new) × ForSome (R.told tape.new) IsSynced) }
    ensures left { IfErr result (λ refusal. ((R.told tape.new) ≡ (R.told tape.old)) ⊎ ((refusal ≡ OutsideRefusal.Failed)
        × Follows (R.told tape.old) (R.told tape.new) AnyImage)) }
    ensures tells { is_some (R.told tape.new) ≡ is_some (R.told tape.old) }
    ensures counts { Counts (R.counter tape.old) (R.counter tape.new) (IsErrOf result OutsideRefusal.Failed) }
{
    tape.reserve(1, 0)?;
    match tape.sync() {
        Ok(()) => Ok(()),
        Err(_) => Err(OutsideRefusal::Failed),
    }
}
