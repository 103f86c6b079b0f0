//! What a case has done to a disk in memory at one of its calls.
ghost use Rattle.std.specs.Prelude.{◌≡◌};

use cases::{Case, CasesRefusal, Part};
use zdisk::{Disk, MemoryDisk};

// Whether a part of this key plans a stop; none where it plans neither a stop nor a failure.
fn stops_by(key: &str) -> Option<bool> {
    match key {
        "failing" => Some(false),
        "stopping" => Some(true),
        _ => None,
    }
}

// The seed that is the last word of a part, 0 where there is none.
fn seed_of(part: &Part) -> Result<u64, CasesRefusal> {
    match part.word(3) {
        Some(_) => part.number(3),
        None => Ok(0),
    }
}

/// Arms on a disk that has had no call what the parts `failing WHICH NUMBER SEED` and `stopping WHICH NUMBER SEED` of the case
/// plan, where the numbers count the calls behind so many. They have to rise.
pub fn arm(disk: &mut MemoryDisk, case: &Case, which: &str, behind: u64) -> Result<(), CasesRefusal>
    ensures told { ⟦<MemoryDisk as Disk>⟧.told disk.new ≡ ⟦<MemoryDisk as Disk>⟧.told disk.old }
{
    let mut before = 0u64;
    for part in &case.parts {
        let Some(stops) = stops_by(part.key()) else {
            continue;
        };
        if part.word(1) != Some(which) {
            continue;
        }
        let number = part.number(2)?.saturating_add(behind);
        let calls = number.saturating_sub(before);
        if calls == 0 {
            return Err(CasesRefusal::BadPart(part.line));
        }
        if stops {
            disk.arm_stop(calls, seed_of(part)?)?;
        } else {
            disk.arm_fail(calls, seed_of(part)?)?;
        }
        before = number;
    }
    Ok(())
}
