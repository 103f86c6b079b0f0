ghost use Rattle.std.specs.Prelude.{◌≡◌};
ghost use Rattle.replay.specs.Refusals.{of_outside};

use fs_record::Damage;
use zio::OutsideRefusal;

/// Why a run was broken off, or didn't begin.
#[derive(Clone, Copy, Debug, PartialEq, Eq)]
pub enum RunRefusal {
    /// The file has this damage, in the transaction at that place. Nothing was run.
    Damaged(Damage, u64),
    /// The line with this number can't be run: its request is no message, or its worker has one already.
    BadLine(u64),
    /// The sink failed.
    Output,
    /// Want of memory outside a step.
    Memory,
}

impl From<OutsideRefusal> for RunRefusal {
    ghost from_gives = { λ refusal e. e ≡ of_outside refusal };

    fn from(refusal: OutsideRefusal) -> RunRefusal {
        match refusal {
            OutsideRefusal::Failed => RunRefusal::Output,
            OutsideRefusal::Memory => RunRefusal::Memory,
        }
    }
}
