use crate::clients::Clients;
use crate::limits::MOST_CLIENTS;
use mio::net::TcpListener;
use mio::{Events, Interest, Poll, Registry, Token};
use std::alloc::Global;
use std::io;
use std::io::ErrorKind;
use std::net::{Ipv4Addr, Net, SocketAddr};
use std::time::Duration;
use zbase::Memory;
use zio::OutsideRefusal;

// The token of the listening socket; a connection's is its number.
const LISTENER: Token = Token(usize::MAX);

// The errors of `accept` that are the listener's own: EBADF, EINVAL, ENOTSOCK and EOPNOTSUPP.
const OWN_ERRORS: [i32; 4] = [9, 22, 88, 95];

/// The listening socket, with what tells that something came.
#[derive(Drop)]
pub(crate) struct Listener {
    poll: Poll,
    events: Events,
    socket: TcpListener,
    // Whether a connection may wait in the socket.
    has_more: bool,
}

impl Listener {
    /// Listens on a port of 127.0.0.1.
    pub(crate) fn open(
        net: &impl Net,
        alloc: Global,
        port: u16,
    ) -> Result<Listener, OutsideRefusal> {
        let events = match Events::with_capacity(alloc, MOST_CLIENTS) {
            Ok(events) => events,
            Err(_) => return Err(OutsideRefusal::Memory),
        };
        match Listener::bind(net, port) {
            Ok((poll, socket)) => Ok(Listener {
                poll,
                events,
                socket,
                has_more: true,
            }),
            Err(_) => Err(OutsideRefusal::Failed),
        }
    }

    /// A socket that listens, and the poll that tells of it.
    fn bind(net: &impl Net, port: u16) -> io::Result<(Poll, TcpListener)> {
        let poll = Poll::new(net)?;
        let mut socket = TcpListener::bind(net, SocketAddr::from((Ipv4Addr::LOCALHOST, port)))?;
        poll.registry()
            .register(&mut socket, LISTENER, Interest::READABLE)?;
        Ok((poll, socket))
    }

    /// The port that it listens on.
    pub(crate) fn port(&self) -> Option<u16> {
        match self.socket.local_addr() {
            Ok(address) => Some(address.port()),
            Err(_) => None,
        }
    }

    /// What has the poll tell of connections.
    pub(crate) fn registry(&self) -> &Registry {
        self.poll.registry()
    }

    /// Takes the connections that wait, as long as there is room. Errors of one that was about to come and want of
    /// descriptors are passed over: the next turn tries again. Only an error of the listener's own is a fault.
    pub(crate) fn admit(
        &mut self,
        clients: &mut Clients,
        now: Duration,
    ) -> Result<(), OutsideRefusal> {
        for _ in 0..MOST_CLIENTS {
            if !self.has_more || !clients.has_room(now) {
                break;
            }
            match self.socket.accept() {
                Ok((stream, _)) => clients.admit(self.poll.registry(), stream, now)?,
                Err(error) => {
                    if is_own(&error) {
                        return Err(OutsideRefusal::Failed);
                    }
                    self.has_more = error.kind() != ErrorKind::WouldBlock;
                    break;
                }
            }
        }
        Ok(())
    }

    /// Waits until something comes, and goes on with it.
    pub(crate) fn wait(
        &mut self,
        clients: &mut Clients,
        wait: Duration,
        now: Duration,
    ) -> Result<(), OutsideRefusal> {
        if self.poll.poll(&mut self.events, Some(wait)).is_err() {
            return Err(OutsideRefusal::Failed);
        }
        for event in &self.events {
            if event.token() == LISTENER {
                self.has_more = true;
            } else {
                clients.go_on(self.poll.registry(), event, now)?;
            }
        }
        Ok(())
    }
}

/// Whether an error of `accept` is the listener's own.
fn is_own(error: &io::Error) -> bool {
    match error.raw_os_error() {
        Some(code) => OWN_ERRORS.contains(&code),
        None => false,
    }
}
