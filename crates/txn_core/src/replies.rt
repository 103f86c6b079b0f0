ghost use Rattle.std.specs.Prelude.{◌≡◌, IfOk};
ghost use Rattle.http_out.specs.Replies.{IsStatus};
ghost use Rattle.schedule.specs.Causes.{conflict_reply, fault_reply, memory_reply, unknown_reply};
ghost use Rattle.txn_core.specs.Replying.{final};
ghost use Rattle.txn_core.specs.StepLines.{IsAnswered, latest, spent_reply};

use crate::StepLine;
use evaluator::{Mark, Reply};
use fs_store::Spent;
use http_out::reply_bytes;
use std::alloc::Global;
use zbase::{Bytes, Clash, Memory, Text};

/// The last of the four conflicts for which a request was given up.
pub fn latest(clashes: &[Clash; 4]) -> Clash
    ensures { result ≡ latest clashes.now }
{
    let [_, _, _, last] = *clashes;
    last
}

// The reply to a request that was given up, whose last conflict was over this object.
#[tactic(auto, unfolding(schedule::specs::Causes::conflict_reply))]
fn conflict_reply(alloc: Global, oid: u64) -> Result<Reply, Memory>
    ensures reply { IfOk result (λ reply. reply ≡ conflict_reply oid) }
    ensures status { IfOk result (λ reply. IsStatus reply.status) }
{
    let mut text = Text::from_str(alloc, "conflict: ")?;
    text.push_hex16(oid)?;
    Reply::one_line(alloc, 503, text)
}

// The reply to a request for which something is spent.
#[tactic(auto, unfolding(schedule::specs::Causes::tids_reply, schedule::specs::Causes::oids_reply, schedule::specs::Causes::full_reply))]
fn spent_reply(alloc: Global, spent: Spent) -> Result<Reply, Memory>
    ensures reply { IfOk result (λ reply. reply ≡ spent_reply spent) }
    ensures status { IfOk result (λ reply. IsStatus reply.status) }
{
    let text = match spent {
        Spent::Tids => Text::from_str(alloc, "transaction ids spent")?,
        Spent::Oids { .. } => Text::from_str(alloc, "object ids spent")?,
        Spent::Full { need, limit } => {
            let mut text = Text::from_str(alloc, "full: ")?;
            text.push_str(need.to_string(alloc)?.as_str())?;
            text.push_str(" of ")?;
            text.push_str(limit.to_string(alloc)?.as_str())?;
            text
        }
    };
    Reply::one_line(alloc, 503, text)
}

// The reply to a request that met want of memory.
#[tactic(auto, unfolding(schedule::specs::Causes::memory_reply))]
fn memory_reply(alloc: Global) -> Result<Reply, Memory>
    ensures reply { IfOk result (λ reply. reply ≡ memory_reply) }
    ensures status { IfOk result (λ reply. IsStatus reply.status) }
{
    Reply::one_line(alloc, 503, Text::from_str(alloc, "out of memory")?)
}

// The reply to a request in which the disk failed.
#[tactic(auto, unfolding(schedule::specs::Causes::fault_reply))]
fn fault_reply(alloc: Global) -> Result<Reply, Memory>
    ensures reply { IfOk result (λ reply. reply ≡ fault_reply) }
    ensures status { IfOk result (λ reply. IsStatus reply.status) }
{
    Reply::one_line(alloc, 503, Text::from_str(alloc, "disk fault")?)
}

// The reply to a request in whose finish the disk failed, so that it isn't known whether this transaction stands.
#[tactic(auto, unfolding(schedule::specs::Causes::unknown_reply))]
fn unknown_reply(alloc: Global, tid: u64) -> Result<Reply, Memory>
    ensures reply { IfOk result (λ reply. reply ≡ unknown_reply tid) }
    ensures status { IfOk result (λ reply. IsStatus reply.status) }
{
    let mut text = Text::from_str(alloc, "unknown outcome: ")?;
    text.push_hex16(tid)?;
    Reply::one_line(alloc, 500, text)
}

/// The bytes of the reply by which a step ended its request; none where the request goes on.
pub fn reply_of(alloc: Global, line: &StepLine) -> Result<Option<Bytes>, Memory>
    requires { IsAnswered line.now }
    ensures { IfOk result (λ bytes. bytes ≡ final line.now) }
{
    let reply = match line {
        StepLine::Read(reply, tid) => return Ok(Some(reply_bytes(alloc, reply, Mark::Read(*tid))?)),
        StepLine::Commit(reply, tid) => {
            return Ok(Some(reply_bytes(alloc, reply, Mark::Commit(*tid))?));
        }
        StepLine::GivenUp(clashes) => conflict_reply(alloc, latest(clashes).oid)?,
        StepLine::Spent(spent) => spent_reply(alloc, *spent)?,
        StepLine::DiskFault => fault_reply(alloc)?,
        StepLine::Memory => memory_reply(alloc)?,
        StepLine::Unknown(tid) => unknown_reply(alloc, tid.0)?,
        StepLine::Idle
        | StepLine::Begun(_)
        | StepLine::Fetched(_)
        | StepLine::Computed
        | StepLine::Busy(_)
        | StepLine::Voted(_)
        | StepLine::Conflict(_) => return Ok(None),
    };
    Ok(Some(reply_bytes(alloc, &reply, Mark::Empty)?))
}
