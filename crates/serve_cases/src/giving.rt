//! What a case gives to a server.
ghost use Rattle.std.specs.Prelude.{◌≤◌, ◌<◌, IsTrue, IfOk};
ghost use Rattle.std.specs.List.{list_all};
ghost use Rattle.zio.specs.Clocks.{is_tick};

use cases::{Case, CasesRefusal, Part};
use std::alloc::Global;
use zbase::FaultPlan;
use zio::{MemoryClock, MemoryHub};
use zserve::ServePlan;

/// The nanoseconds of a second.
const SECOND: u64 = 1_000_000_000;

/// What the server is to do.
pub fn plan_of(case: &Case) -> Result<ServePlan, CasesRefusal>
    ensures clients { IfOk result (λ plan. (1 ≤ plan.clients) × (plan.clients ≤ 16)) }
{
    let Some(part) = case.part("plan") else {
        return Err(CasesRefusal::Missing);
    };
    let Ok(port) = u16::try_from(part.number(1)?) else {
        return Err(CasesRefusal::BadPart(part.line));
    };
    let connections = part.number(2)?;
    let clients = part.number(3)?;
    if !(1..=16).contains(&clients) {
        return Err(CasesRefusal::BadPart(part.line));
    }
    Ok(ServePlan {
        port,
        connections,
        clients: clients as u32,
    })
}

/// The hub to which the case's connections come.
pub fn hub_of(alloc: Global, case: &Case) -> Result<MemoryHub, CasesRefusal> {
    let plan = FaultPlan::new(case.failing(alloc, "hub")?);
    let piece = usize::try_from(case.number("reads", u64::MAX)?).unwrap_or(usize::MAX);
    let mut coming = Vec::new(alloc);
    for part in &case.parts {
        if part.key() == "connection" {
            coming.push(part.bytes.copy()?)?;
        }
    }
    Ok(MemoryHub::new(alloc, coming, plan).in_pieces(piece))
}

// The moment that a part tells.
fn moment_of(part: &Part) -> Result<(i64, u32), CasesRefusal>
    ensures { IfOk result (λ moment. moment.1 < 1000000000) }
{
    let Ok(seconds) = part.word(1).unwrap_or("").parse::<i64>() else {
        return Err(CasesRefusal::BadPart(part.line));
    };
    let nanos = part.number(2)?;
    if nanos >= SECOND {
        return Err(CasesRefusal::BadPart(part.line));
    }
    Ok((seconds, nanos as u32))
}

// The moments that the case's clock tells.
fn moments_of(alloc: Global, case: &Case) -> Result<Vec<(i64, u32)>, CasesRefusal>
    ensures { IfOk result (λ moments. IsTrue (list_all is_tick moments.items)) }
{
    let mut moments = Vec::new(alloc);
    for part in &case.parts {
        if part.key() == "clock" {
            moments.push(moment_of(part)?)?;
        }
    }
    Ok(moments)
}

/// The case's clock.
pub fn clock_of(alloc: Global, case: &Case) -> Result<MemoryClock, CasesRefusal> {
    let plan = FaultPlan::new(case.failing(alloc, "clock")?);
    Ok(MemoryClock::new(moments_of(alloc, case)?, plan))
}
