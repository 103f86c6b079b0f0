//! Adapters over readers and writers; clocks and hubs in memory.
use std::alloc::Global;
use std::io::Cursor;
use std::test::Fail;
use zbase::{Bytes, Failed, FaultPlan, Memory};
use zio::{
    Clock, Hub, MemoryClock, MemoryHub, OutsideRefusal, ReaderSource, Sink, Source, WriterSink,
};

/// Two bytes of a source, or how many there were.
fn read_two<S: Source>(source: &mut S) -> Result<(usize, [u8; 2]), Failed> {
    let mut buf = [0u8; 2];
    let count = source.read(&mut buf)?;
    Ok((count, buf))
}

#[test]
fn a_source_over_a_reader_gives_its_bytes_in_turn(rt: HostRuntime) {
    let mut source = ReaderSource::new(Cursor::new(b"abc".as_slice()));
    for wanted in [(2, *b"ab"), (1, *b"c\0"), (0, *b"\0\0")] {
        assert_eq!(rt; read_two(&mut source), Ok(wanted));
    }
}

/// Writes pieces to a sink, one after another.
fn put<K: Sink>(sink: &mut K, pieces: &[&[u8]]) -> Result<(), OutsideRefusal> {
    for piece in pieces {
        sink.write_all(piece)?;
    }
    Ok(())
}

#[test]
fn a_sink_over_a_writer_writes_all_or_fails(rt: HostRuntime) -> Result<(), Fail> {
    let mut out = Vec::new(rt.alloc());
    let mut sink = WriterSink::new(&mut out);
    let is_put = put(&mut sink, &[b"one", b"two"]) == Ok(());
    assert!(rt; is_put && out.as_slice() == b"onetwo".as_slice());
    let mut full = [0u8; 2];
    let mut sink = WriterSink::new(full.as_mut_slice());
    assert_eq!(rt; put(&mut sink, &[b"one"]), Err(OutsideRefusal::Failed));
    Ok(())
}

/// Asks a clock.
fn ask<C: Clock>(clock: &mut C) -> Result<(i64, u32), Failed> {
    clock.now()
}

#[test]
fn a_clock_in_memory_tells_its_moments_in_turn(rt: HostRuntime) -> Result<(), Fail> {
    let ticks = vec![in rt.alloc(); (-1, 999_999_999), (1_700_000_000, 5)]?;
    let plan = FaultPlan::new(Vec::from_slice(rt.alloc(), &[2])?);
    let mut clock = MemoryClock::new(ticks, plan);
    for wanted in [
        Ok((-1, 999_999_999)),
        Err(Failed),
        Ok((1_700_000_000, 5)),
        Ok((0, 0)),
    ] {
        assert_eq!(rt; ask(&mut clock), wanted);
    }
    Ok(())
}

/// Accepts a connection, reads twice of it, writes a reply and closes it. What it read; none where there is no
/// further connection.
fn serve_next<H: Hub>(hub: &mut H, reply: &[u8]) -> Result<Option<[u8; 2]>, OutsideRefusal> {
    let Some(connection) = hub.accept()? else {
        return Ok(None);
    };
    let (mut first, mut second) = ([0u8; 1], [0u8; 1]);
    hub.read(connection, &mut first)?;
    hub.read(connection, &mut second)?;
    hub.write_all(connection, reply)?;
    hub.close(connection);
    Ok(Some([first[0], second[0]]))
}

/// A hub of three connections, each read byte by byte, whose seventh call fails.
fn hub_of_three(alloc: Global) -> Result<MemoryHub, Memory> {
    let mut coming = Vec::new(alloc);
    for bytes in ["ab", "cd", "ef"] {
        coming.push(Bytes::from_slice(alloc, bytes.as_bytes())?)?;
    }
    let plan = FaultPlan::new(Vec::from_slice(alloc, &[7])?);
    Ok(MemoryHub::new(alloc, coming, plan).in_pieces(1))
}

#[test]
fn a_hub_in_memory_serves_its_connections_in_turn(rt: HostRuntime) -> Result<(), Fail> {
    let mut hub = hub_of_three(rt.alloc())?;
    assert_eq!(rt; hub.listen(80), Ok(()));
    assert_eq!(rt; hub.port(), Some(80));
    for (reply, wanted) in [
        ("first", Ok(Some(*b"ab"))),
        ("second", Err(OutsideRefusal::Failed)),
        ("third", Ok(Some(*b"ef"))),
        ("fourth", Ok(None)),
    ] {
        assert_eq!(rt; hub.has_waiting(), wanted != Ok(None));
        assert_eq!(rt; serve_next(&mut hub, reply.as_bytes()), wanted);
    }
    for (number, wanted) in [
        (0, Some(("first", false, 0))),
        (1, Some(("", true, 1))),
        (2, Some(("third", false, 0))),
        (3, None),
    ] {
        let told = hub
            .connection(number)
            .map(|c| (c.written.as_slice(), c.is_open, c.read_faults));
        assert_eq!(rt;
            told,
            wanted.map(|(text, is_open, faults)| (text.as_bytes(), is_open, faults)),
            "on connection {number}"
        );
    }
    Ok(())
}
