//! A tape, replayed over the file as it was.
use crate::disks::bytes_of;
use crate::replies::replies_of;
use crate::serving::limit_of;
use cases::{Case, CasesRefusal};
use fs_record::MAX_LENGTH;
use publisher::Site;
use replay::replay;
use schedule::{Schedule, read_schedule};
use site_links::SiteLinks;
use std::alloc::Global;
use zbase::{Bytes, FaultPlan};
use zio::MemorySink;

/// The last line of a schedule.
const LAST_LINE: &[u8] = b"end\n";

/// What came of a replay.
#[derive(Drop)]
pub struct Replayed {
    /// The replies to the schedule's requests, in their order.
    pub replies: Bytes,
    /// What the disk reads that came back.
    pub file: Bytes,
}

// Replays a schedule over the case's file; none where it doesn't come to its end.
fn replay_over(
    alloc: Global,
    case: &Case,
    schedule: &Schedule,
) -> Result<Option<Replayed>, CasesRefusal> {
    let limit = limit_of(case)?;
    let file = case.bytes(alloc, "file")?;
    if file.len() as u64 > MAX_LENGTH {
        return Err(CasesRefusal::Missing);
    }
    let mut sink = MemorySink::new(alloc, FaultPlan::none(alloc));
    let site = Site::new(alloc);
    let links = SiteLinks::new(alloc);
    let Ok(disk) = replay(alloc, file, limit, schedule, site, &links, &mut sink) else {
        return Ok(None);
    };
    let mut disk = disk;
    Ok(Some(Replayed {
        replies: replies_of(alloc, schedule.as_slice(), sink.bytes())?,
        file: bytes_of(alloc, &mut disk)?,
    }))
}

// The schedule that a tape is, also one that lacks its last line; none where it is no schedule even with that.
fn schedule_of(alloc: Global, tape: &Bytes) -> Result<Option<Schedule>, CasesRefusal> {
    if let Ok(schedule) = read_schedule(alloc, tape.as_slice()) {
        return Ok(Some(schedule));
    }
    let mut whole = tape.copy()?;
    whole.append(LAST_LINE)?;
    Ok(read_schedule(alloc, whole.as_slice()).ok())
}

/// Replays a tape over the case's file; none where it is no schedule, or one that doesn't come to its end.
pub fn replay_tape(
    alloc: Global,
    case: &Case,
    tape: &Bytes,
) -> Result<Option<Replayed>, CasesRefusal> {
    match schedule_of(alloc, tape)? {
        Some(schedule) => replay_over(alloc, case, &schedule),
        None => Ok(None),
    }
}
