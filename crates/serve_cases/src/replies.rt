//! The replies that a report has.
use cases::CasesRefusal;
use schedule::Item2;
use std::alloc::Global;
use zbase::Bytes;

// A reply, with the worker that gave it; whether it was taken already.
#[derive(Drop)]
struct Printed {
    worker: u32,
    bytes: Bytes,
    is_taken: bool,
}

// The worker and the length that the words of a line `reply W .. LENGTH` name; none for another line.
fn reply_line(line: &[u8]) -> Option<(u32, usize)> {
    let Ok(text) = str::from_utf8(line) else {
        return None;
    };
    let mut words = text.strip_prefix("reply ")?.split(' ');
    let worker = words.next()?.parse::<u32>();
    let length = words.last()?.parse::<usize>();
    match (worker, length) {
        (Ok(worker), Ok(length)) => Some((worker, length)),
        _ => None,
    }
}

// Takes the next line of a text, without its end.
fn next_line<'a>(rest: &mut &'a [u8]) -> Option<&'a [u8]> {
    let text = *rest;
    let end = text.iter().position(|byte| *byte == b'\n')?;
    *rest = text.get(end.saturating_add(1)..)?;
    text.get(..end)
}

// Takes so many bytes of a text, and the end of line behind them.
fn next_bytes<'a>(rest: &mut &'a [u8], length: usize) -> Option<&'a [u8]> {
    let text = *rest;
    let bytes = text.get(..length)?;
    *rest = text.get(length.saturating_add(1)..)?;
    Some(bytes)
}

// The replies of a report, in its order.
fn printed_in(alloc: Global, report: &[u8]) -> Result<Vec<Printed>, CasesRefusal> {
    let mut all = Vec::new(alloc);
    let mut rest = report;
    for _ in 0..report.len() {
        let Some(line) = next_line(&mut rest) else {
            break;
        };
        if let Some((worker, length)) = reply_line(line)
            && let Some(bytes) = next_bytes(&mut rest, length)
        {
            all.push(Printed {
                worker,
                bytes: Bytes::from_slice(alloc, bytes)?,
                is_taken: false,
            })?;
        }
    }
    Ok(all)
}

// Takes the first reply of a worker that wasn't taken yet.
fn take_next(all: &mut [Printed], worker: u32) -> Option<&Bytes> {
    for reply in all {
        if reply.worker == worker && !reply.is_taken {
            reply.is_taken = true;
            return Some(&reply.bytes);
        }
    }
    None
}

/// The replies of a report to the requests of these items, in the order of the items.
pub fn replies_of(alloc: Global, items: &[Item2], report: &[u8]) -> Result<Bytes, CasesRefusal> {
    let mut printed = printed_in(alloc, report)?;
    let mut replies = Bytes::new(alloc);
    for item in items {
        if let Item2::Request(worker, _) = item
            && let Some(reply) = take_next(printed.as_mut_slice(), *worker)
        {
            replies.append(reply.as_slice())?;
        }
    }
    Ok(replies)
}
