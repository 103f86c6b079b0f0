//! The hub of this machine's sockets over loopback. Each test's clients run in its own thread.
#![tactic(auto)]

use http_in::Reader;
use net_hub::NetHub;
use std::io;
use std::io::{ErrorKind, Read, Write};
use std::net::{Ipv4Addr, Shutdown, TcpStream};
use std::test::Fail;
use zio::{Hub, OutsideRefusal};

/// A hub that listens on a port of the system's choice.
fn listening(rt: &HostRuntime) -> Result<NetHub<&HostRuntime>, OutsideRefusal> {
    let mut hub = NetHub::new(rt.alloc(), rt);
    hub.listen(0)?;
    Ok(hub)
}

/// A client of a hub, at an address of this machine.
fn connect(
    rt: &HostRuntime,
    hub: &NetHub<&HostRuntime>,
    address: Ipv4Addr,
) -> io::Result<TcpStream> {
    TcpStream::connect(rt, (address, hub.port().unwrap_or(0)))
}

/// Accepts a connection and reads from it, in small pieces, until there is a message or the end. Its number and what
/// it has read.
fn hear(rt: &HostRuntime, hub: &mut NetHub<&HostRuntime>) -> Result<(u32, Vec<u8>), Fail> {
    let mut reader = Reader::new(rt.alloc());
    let mut bytes = Vec::new(rt.alloc());
    let mut buf = [0u8; 16];
    let connection = hub.accept()?.unwrap_or(0);
    for _ in 0..u32::MAX {
        let count = hub.read(connection, &mut buf)?;
        bytes.extend_from_slice(&buf[..count])?;
        reader.feed(&buf[..count])?;
        if count == 0 || reader.next()?.is_some() {
            break;
        }
    }
    Ok((connection, bytes))
}

/// Answers the next connection with what it has sent.
fn echo(rt: &HostRuntime, hub: &mut NetHub<&HostRuntime>) -> Result<(), Fail> {
    let (connection, bytes) = hear(rt, hub)?;
    hub.write_all(connection, bytes.as_slice())?;
    hub.close(connection);
    Ok(())
}

/// What comes to a client until the end.
fn received(rt: &HostRuntime, client: &mut TcpStream) -> Result<Vec<u8>, Fail> {
    let mut bytes = Vec::new(rt.alloc());
    client.read_to_end(&mut bytes)?;
    Ok(bytes)
}

/// What a client sends, one piece after another, whether it ends there, and what is read of it.
struct Row {
    sent: &'static [&'static str],
    ends: bool,
    heard: &'static str,
}

const ROWS: [Row; 6] = [
    Row {
        sent: &["GET /whole HTTP/1.1\r\n\r\n"],
        ends: false,
        heard: "GET /whole HTTP/1.1\r\n\r\n",
    },
    Row {
        sent: &[
            "POST /pieces HTTP/1.1\r",
            "\nContent-Length: 3\r\n\r",
            "\nab",
            "c",
        ],
        ends: false,
        heard: "POST /pieces HTTP/1.1\r\nContent-Length: 3\r\n\r\nabc",
    },
    Row {
        sent: &["GET /first HTTP/1.1\r\n\r\nGET /second HTTP/1.1\r\n\r\n"],
        ends: false,
        heard: "GET /first HTTP/1.1\r\n\r\n",
    },
    Row {
        sent: &["GET /refused HTTP/1.1\r\nTransfer-Encoding: chunked\r\n\r\n"],
        ends: false,
        heard: "GET /refused HTTP/1.1\r\nTransfer-Encoding: chunked\r\n\r\n",
    },
    Row {
        sent: &["GET /within", " HTTP/1"],
        ends: true,
        heard: "GET /within HTTP/1",
    },
    Row {
        sent: &[],
        ends: true,
        heard: "",
    },
];

#[test]
fn connections_are_read_side_by_side_and_handed_in_when_they_have_a_message(
    rt: HostRuntime,
) -> Result<(), Fail> {
    let mut hub = listening(&rt)?;
    let silent = connect(&rt, &hub, Ipv4Addr::LOCALHOST)?;
    let mut slow = connect(&rt, &hub, Ipv4Addr::LOCALHOST)?;
    slow.write_all(b"GET /slow HTTP/1.1\r\n")?;
    for row in &ROWS {
        let mut client = connect(&rt, &hub, Ipv4Addr::LOCALHOST)?;
        for piece in row.sent {
            assert!(rt; !hub.has_waiting(), "before {piece}");
            client.write_all(piece.as_bytes())?;
        }
        if row.ends {
            client.shutdown(Shutdown::Write)?;
        }
        echo(&rt, &mut hub)?;
        let came = received(&rt, &mut client)?;
        assert_eq!(rt; came.as_slice(), row.heard.as_bytes());
    }
    assert!(rt; !hub.has_waiting());
    slow.write_all(b"\r\n")?;
    echo(&rt, &mut hub)?;
    assert_eq!(rt;
        received(&rt, &mut slow)?.as_slice(),
        "GET /slow HTTP/1.1\r\n\r\n".as_bytes()
    );
    drop(silent);
    let (_, nothing) = hear(&rt, &mut hub)?;
    assert!(rt; nothing.is_empty());
    Ok(())
}

#[test]
fn a_peer_that_goes_on_sending_sees_its_reply(rt: HostRuntime) -> Result<(), Fail> {
    let mut hub = listening(&rt)?;
    let mut client = connect(&rt, &hub, Ipv4Addr::LOCALHOST)?;
    client.write_all(b"POST / HTTP/1.1\r\nContent-Length: 9999999\r\n\r\n")?;
    let body = Vec::from_elem(rt.alloc(), b'x', 20_000)?;
    client.write_all(body.as_slice())?;
    let (connection, _) = hear(&rt, &mut hub)?;
    hub.write_all(connection, b"too large")?;
    hub.close(connection);
    client.write_all(body.as_slice())?;
    hub.has_waiting();
    client.write_all(body.as_slice())?;
    assert_eq!(rt;
        received(&rt, &mut client)?.as_slice(),
        "too large".as_bytes()
    );
    Ok(())
}

/// How many bytes come to a client until the end, while the hub goes on.
fn received_in_turns(client: &mut TcpStream, hub: &mut NetHub<&HostRuntime>) -> io::Result<usize> {
    client.set_nonblocking(true)?;
    let mut buf = [0u8; 4096];
    let mut total = 0usize;
    for _ in 0..u64::MAX {
        match client.read(&mut buf) {
            Ok(0) => break,
            Ok(count) => total = total.saturating_add(count),
            Err(error) if error.kind() == ErrorKind::WouldBlock => {
                hub.has_waiting();
            }
            Err(error) => return Err(error),
        }
    }
    Ok(total)
}

#[test]
fn a_reply_that_is_not_taken_holds_nobody_up_and_comes_whole(rt: HostRuntime) -> Result<(), Fail> {
    const LARGE: usize = 16 << 20;
    let mut hub = listening(&rt)?;
    let mut idle = connect(&rt, &hub, Ipv4Addr::LOCALHOST)?;
    idle.write_all(b"GET /large HTTP/1.1\r\n\r\n")?;
    let (connection, _) = hear(&rt, &mut hub)?;
    let reply = Vec::from_elem(rt.alloc(), b'x', LARGE)?;
    hub.write_all(connection, reply.as_slice())?;
    hub.close(connection);
    let mut other = connect(&rt, &hub, Ipv4Addr::LOCALHOST)?;
    other.write_all(b"GET /other HTTP/1.1\r\n\r\n")?;
    echo(&rt, &mut hub)?;
    assert_eq!(rt;
        received(&rt, &mut other)?.as_slice(),
        "GET /other HTTP/1.1\r\n\r\n".as_bytes()
    );
    assert_eq!(rt; received_in_turns(&mut idle, &mut hub)?, LARGE);
    hub.finish();
    Ok(())
}

#[test]
fn a_connection_that_is_reset_fails_and_the_next_is_served(rt: HostRuntime) -> Result<(), Fail> {
    let mut hub = listening(&rt)?;
    let mut client = connect(&rt, &hub, Ipv4Addr::LOCALHOST)?;
    client.write_all(b"GET / HTTP/1.1\r\n\r\n")?;
    let (connection, _) = hear(&rt, &mut hub)?;
    hub.write_all(connection, b"unread")?;
    // it is reset since the client is dropped with bytes that it hasn't read
    let mut buf = [0u8; 6];
    client.peek(&mut buf)?;
    drop(client);
    assert_eq!(rt; hub.read(connection, &mut buf), Err(OutsideRefusal::Failed));
    assert_eq!(rt;
        hub.write_all(connection, b"more"),
        Err(OutsideRefusal::Failed)
    );
    hub.close(connection);
    let mut next = connect(&rt, &hub, Ipv4Addr::LOCALHOST)?;
    next.write_all(b"GET /next HTTP/1.1\r\n\r\n")?;
    echo(&rt, &mut hub)?;
    assert_eq!(rt;
        received(&rt, &mut next)?.as_slice(),
        "GET /next HTTP/1.1\r\n\r\n".as_bytes()
    );
    Ok(())
}

#[test]
fn it_listens_on_the_loopback_alone(rt: HostRuntime) -> Result<(), Fail> {
    let mut hub = NetHub::new(rt.alloc(), &rt);
    assert_eq!(rt; hub.port(), None);
    assert_eq!(rt; hub.accept(), Err(OutsideRefusal::Failed));
    hub.listen(0)?;
    let mut second = NetHub::new(rt.alloc(), &rt);
    let port = hub.port().unwrap_or(0);
    assert_eq!(rt; second.listen(port), Err(OutsideRefusal::Failed));
    let elsewhere = connect(&rt, &hub, Ipv4Addr::new(127, 0, 0, 2));
    assert!(rt; elsewhere.is_err());
    Ok(())
}
