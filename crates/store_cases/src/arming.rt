use cases::{Case, CasesRefusal, Part};
use std::alloc::Global;
use zdisk::MemoryDisk;

/// What a case has done to a disk at one of its calls.
#[derive(Clone, Copy)]
pub struct Planned {
    /// Whether every call fails from then on, until the disk goes on, and not this one alone.
    pub stops: bool,
    /// The number of the call, from 1 on.
    pub number: u64,
    /// Which of the states that the call may leave it leaves.
    pub seed: u64,
}

// Whether a part of this key plans a stop; `None` where it plans none, and no failure either.
fn stops_by(key: &str) -> Option<bool> {
    match key {
        "failing" => Some(false),
        "stopping" => Some(true),
        _ => None,
    }
}

// The seed that is the word of that number, 0 where there is none.
fn seed_of(part: &Part, number: usize) -> Result<u64, CasesRefusal> {
    match part.word(number) {
        Some(_) => part.number(number),
        None => Ok(0),
    }
}

/// Whether each call in turn is to stop the disk or to fail, and with which seed.
pub fn each_of(case: &Case) -> Result<Option<(bool, u64)>, CasesRefusal> {
    for part in &case.parts {
        if let Some(stops) = stops_by(part.key())
            && part.word(1) == Some("each")
        {
            return Ok(Some((stops, seed_of(part, 2)?)));
        }
    }
    Ok(None)
}

/// What is planned by `failing` and `stopping` of one call, in the order of the case's lines, where an opening makes so many
/// calls.
pub fn planned_by(alloc: Global, case: &Case, opening: u64) -> Result<Vec<Planned>, CasesRefusal> {
    let mut planned = Vec::new(alloc);
    for part in &case.parts {
        let Some(stops) = stops_by(part.key()) else {
            continue;
        };
        if part.word(1) == Some("each") {
            continue;
        }
        let before = if part.word(1) == Some("behind") {
            opening
        } else {
            0
        };
        planned.push(Planned {
            stops,
            number: before.saturating_add(part.number(2)?),
            seed: seed_of(part, 3)?,
        })?;
    }
    Ok(planned)
}

/// What is planned, and one call more behind it.
pub fn with_one(
    alloc: Global,
    planned: &[Planned],
    one: Planned,
) -> Result<Vec<Planned>, CasesRefusal> {
    let mut all = Vec::new(alloc);
    for entry in planned {
        all.push(*entry)?;
    }
    all.push(one)?;
    Ok(all)
}

/// Arms what is planned on a disk that has had no call. The numbers of the calls have to rise.
pub fn arm(disk: &mut MemoryDisk, planned: &[Planned]) -> Result<(), CasesRefusal> {
    let mut before = 0u64;
    for entry in planned {
        let calls = entry.number.saturating_sub(before);
        if calls == 0 {
            return Err(CasesRefusal::Missing);
        }
        if entry.stops {
            disk.arm_stop(calls, entry.seed)?;
        } else {
            disk.arm_fail(calls, entry.seed)?;
        }
        before = entry.number;
    }
    Ok(())
}

/// The disk as it goes on behind a stop, with nothing armed on it.
pub fn gone_on(disk: MemoryDisk) -> MemoryDisk {
    let mut disk = if disk.stopped() {
        disk.after_stop()
    } else {
        disk
    };
    disk.disarm();
    disk
}
