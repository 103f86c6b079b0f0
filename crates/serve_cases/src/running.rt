use crate::disks::{bytes_of, gone_on, kept_of};
use crate::replaying::{Replayed, replay_tape};
use crate::serving::{Came, serve_case};
use cases::{Case, CasesRefusal, Part, Runner, add_bytes, add_line, add_number, put_number};
use std::alloc::Global;
use zbase::Bytes;
use zio::MemoryHub;
use zserve::{ServeRefusal, Served};

/// Servers over a hub, a clock and disks in memory. A case gives
///
/// - `file`: the bytes of the site's file; `limit N`: how many bytes it may have, 100,000 where it isn't said;
/// - `plan PORT CONNECTIONS CLIENTS`;
/// - `connection` with its bytes, one for each that comes, in their order; `reads N`: a read gives N bytes at most;
/// - `clock SECONDS NANOSECONDS` since 1970, one for each question; behind the last one the clock tells the first moment of 1970;
/// - `failing hub N` and `failing clock N`: the calls of these numbers fail. Of the hub's calls the closing of a connection and the
///   question whether one waits don't count;
/// - `failing WHICH N SEED` and `stopping WHICH N SEED`, where WHICH is `tape` or `disk`: that device call fails, or stops the
///   device, and leaves what the seed names, 0 where it isn't said. The calls of the disk are counted behind the file's opening.
///
/// Of it come
///
/// - `served CONNECTIONS REPLIES`, or `refused hub`, `refused tape` or `refused memory`;
/// - `port N` or `port none`: the port on which the hub listens;
/// - `accepted N`, and of each of these connections, in order, `written shut` or `written open` with what was written on it;
/// - `left`: what the file holds, behind a stop what that left;
/// - `tape`: what the tape holds, and `kept whole` where all of it was brought to the device, `kept N` where only the first N bytes
///   were, else `kept other`;
/// - of a replay of the tape over the file as it was, behind which `end` is put where it lacks that: `replies`, those to its requests
///   in their order, and `replayed REPLIES FILE`, with `same` or `other`: whether all that was written on the connections is just
///   these replies, and whether the file is left with the same bytes. `replayed none` where the tape can't be replayed so.
#[derive(Drop)]
pub struct Servings;

// Adds what the server answered.
fn add_answer(
    alloc: Global,
    parts: &mut Vec<Part>,
    answer: Result<Served, ServeRefusal>,
) -> Result<(), CasesRefusal> {
    match answer {
        Ok(served) => {
            let mut line = String::from_str(alloc, "served")?;
            put_number(alloc, &mut line, served.connections)?;
            put_number(alloc, &mut line, served.replies)?;
            add_line(alloc, parts, line.as_str())
        }
        Err(ServeRefusal::Hub) => add_line(alloc, parts, "refused hub"),
        Err(ServeRefusal::Tape) => add_line(alloc, parts, "refused tape"),
        Err(ServeRefusal::Memory) => add_line(alloc, parts, "refused memory"),
    }
}

// Adds what the hub tells of each connection, and adds up what was written on all of them.
fn add_connections(
    alloc: Global,
    parts: &mut Vec<Part>,
    hub: &MemoryHub,
    coming: usize,
) -> Result<Bytes, CasesRefusal> {
    let mut written = Bytes::new(alloc);
    let mut accepted = 0u64;
    for number in 0..coming {
        let Some(connection) = hub.connection(number) else {
            break;
        };
        let key = if connection.is_open {
            "written open"
        } else {
            "written shut"
        };
        add_bytes(alloc, parts, key, connection.written.copy()?)?;
        written.append(connection.written.as_slice())?;
        accepted = accepted.saturating_add(1);
    }
    add_number(alloc, parts, "accepted", accepted)?;
    Ok(written)
}

// Adds the port on which the hub listens.
fn add_port(alloc: Global, parts: &mut Vec<Part>, hub: &MemoryHub) -> Result<(), CasesRefusal> {
    match hub.port() {
        Some(port) => add_number(alloc, parts, "port", u64::from(port)),
        None => add_line(alloc, parts, "port none"),
    }
}

fn word_of(is_same: bool) -> &'static str {
    if is_same { "same" } else { "other" }
}

// Adds what came of a replay, beside what was written on the connections and what the file holds.
fn add_replayed(
    alloc: Global,
    parts: &mut Vec<Part>,
    replayed: Option<Replayed>,
    written: &Bytes,
    left: &Bytes,
) -> Result<(), CasesRefusal> {
    let Some(replayed) = replayed else {
        return add_line(alloc, parts, "replayed none");
    };
    let replies = word_of(replayed.replies.same(written));
    let file = word_of(replayed.file.same(left));
    let line = format!(in alloc; "replayed {replies} {file}")?;
    add_line(alloc, parts, line.as_str())?;
    add_bytes(alloc, parts, "replies", replayed.replies)
}

// Adds how much of what a tape holds was brought to the device.
fn add_kept(
    alloc: Global,
    parts: &mut Vec<Part>,
    tape: &[u8],
    kept: &[u8],
) -> Result<(), CasesRefusal> {
    if !tape.starts_with(kept) {
        add_line(alloc, parts, "kept other")
    } else if kept.len() == tape.len() {
        add_line(alloc, parts, "kept whole")
    } else {
        add_number(alloc, parts, "kept", kept.len() as u64)
    }
}

// The parts that come of serving a case's connections.
fn parts_of(alloc: Global, case: &Case, came: Came) -> Result<Vec<Part>, CasesRefusal> {
    let Came {
        answer,
        hub,
        tape,
        disk,
    } = came;
    let mut parts = Vec::new(alloc);
    add_answer(alloc, &mut parts, answer)?;
    add_port(alloc, &mut parts, &hub)?;
    let written = add_connections(alloc, &mut parts, &hub, case.parts.len())?;
    let left = bytes_of(alloc, &mut gone_on(disk))?;
    let mut tape = gone_on(tape);
    let text = bytes_of(alloc, &mut tape)?;
    let replayed = replay_tape(alloc, case, &text)?;
    add_replayed(alloc, &mut parts, replayed, &written, &left)?;
    add_bytes(alloc, &mut parts, "left", left)?;
    let kept = kept_of(alloc, tape)?;
    add_kept(alloc, &mut parts, text.as_slice(), kept.as_slice())?;
    add_bytes(alloc, &mut parts, "tape", text)?;
    Ok(parts)
}

impl Runner for Servings {
    fn knows(&self, key: &str) -> bool {
        matches!(
            key,
            "file" | "limit" | "plan" | "connection" | "reads" | "clock" | "failing" | "stopping"
        )
    }

    fn run(&self, alloc: Global, case: &Case) -> Result<Vec<Part>, CasesRefusal> {
        let came = serve_case(alloc, case)?;
        parts_of(alloc, case, came)
    }
}
