ghost use Rattle.std.specs.Prelude.{◌≤◌, length, IfOk, IfSome};

use crate::limits::{LINGER, MOST_DRAINED, PATIENCE};
use http_in::{Message, Reader};
use mio::net::TcpStream;
use mio::{Interest, Registry, Token};
use std::alloc::Global;
use std::io::{ErrorKind, Read, Write};
use std::net::Shutdown;
use std::time::Duration;
use zio::OutsideRefusal;

/// How far a connection has got.
#[derive(Clone, Copy, Debug, PartialEq, Eq)]
pub(crate) enum Stage {
    /// Its message is coming.
    Coming,
    /// It waits to be accepted.
    Ready,
    /// It was accepted.
    Open,
    /// It was closed; what is left of its reply is still to be sent.
    Sending,
    /// It is shut for writing; what the peer goes on sending is read away.
    Draining,
}

/// What came of a read or a write that doesn't wait.
#[derive(Clone, Copy, Debug, PartialEq, Eq)]
pub(crate) enum Went {
    /// There is nothing more to do.
    Done,
    /// The peer has to go on first.
    Waits,
    /// The connection failed.
    Failed,
}

/// The end of what a peer sends, as far as it is known.
#[derive(Clone, Copy, Debug, PartialEq, Eq)]
enum End {
    Unknown,
    Ended,
    Failed,
}

/// A connection.
#[derive(Drop)]
pub(crate) struct Client {
    stream: TcpStream,
    pub(crate) stage: Stage,
    pub(crate) deadline: Duration,
    // What has come, of which so many bytes were handed on.
    input: Reader,
    given: usize,
    end: End,
    // Whether the peer may still send what nobody reads: it hasn't ended, or not at its message's end.
    lingers: bool,
    // What of the reply the peer had not taken at once, from that place on.
    unsent: Vec<u8>,
    sent: usize,
    drained: usize,
    registered: bool,
}

impl Client {
    /// A connection that was just taken.
    pub(crate) fn new(alloc: Global, stream: TcpStream, now: Duration) -> Client {
        Client {
            stream,
            stage: Stage::Coming,
            deadline: now.saturating_add(Duration::from_secs(PATIENCE)),
            input: Reader::new(alloc),
            given: 0,
            end: End::Unknown,
            lingers: true,
            unsent: Vec::new(alloc),
            sent: 0,
            drained: 0,
            registered: false,
        }
    }

    /// How many bytes it holds.
    pub(crate) fn held(&self) -> usize {
        self.input.held().saturating_add(self.unsent.len())
    }

    /// Has the poll tell of it from now on.
    pub(crate) fn watch(&mut self, registry: &Registry, key: usize) -> Went {
        if self.registered {
            return Went::Waits;
        }
        let both = Interest::READABLE | Interest::WRITABLE;
        match registry.register(&mut self.stream, Token(key), both) {
            Ok(()) => {
                self.registered = true;
                Went::Waits
            }
            Err(_) => {
                self.end = End::Failed;
                Went::Failed
            }
        }
    }

    /// Nothing more is read of it or written to it, and it holds nothing.
    pub(crate) fn fail(&mut self) {
        let alloc = *self.unsent.allocator();
        self.end = End::Failed;
        self.input = Reader::new(alloc);
        self.given = 0;
        self.unsent = Vec::new(alloc);
        self.sent = 0;
    }

    /// Takes a piece that has come. Whether the message is there now.
    fn feed(&mut self, piece: &[u8]) -> bool {
        if self.input.feed(piece).is_err() {
            self.end = End::Failed;
            return true;
        }
        match self.input.next() {
            Ok(None) => false,
            Ok(Some(message)) => {
                let is_refused = matches!(&message, Message::Refused(_));
                self.lingers = is_refused || !self.input.rest().is_empty();
                true
            }
            Err(_) => {
                self.end = End::Failed;
                true
            }
        }
    }

    /// Reads what has come, until it begins with a message.
    pub(crate) fn hear(&mut self, piece: &mut [u8]) -> Went {
        for _ in 0..u32::MAX {
            match self.stream.read(piece) {
                Ok(0) => {
                    self.end = End::Ended;
                    self.lingers = false;
                    return Went::Done;
                }
                Ok(count) => {
                    if self.feed(&piece[..count]) {
                        return Went::Done;
                    }
                }
                Err(error) => match error.kind() {
                    ErrorKind::WouldBlock => return Went::Waits,
                    ErrorKind::Interrupted => {}
                    _ => break,
                },
            }
        }
        self.end = End::Failed;
        Went::Done
    }

    /// Hands on what was read before, into the front of the buffer. How many bytes that were.
    fn give(&mut self, buf: &mut [u8]) -> usize
        ensures { result ≤ length buf.new }
    {
        let taken = self.input.taken();
        let from = if self.given < taken.len() {
            taken.split_at(self.given).1
        } else {
            let rest = self.input.rest();
            rest.split_at((self.given - taken.len()).min(rest.len())).1
        };
        let count = from.len().min(buf.len());
        buf[..count].copy_from_slice(&from[..count]);
        self.given = self.given.saturating_add(count);
        count
    }

    /// Reads, first what was read before. None where the peer has to go on first.
    pub(crate) fn read(&mut self, buf: &mut [u8]) -> Result<Option<usize>, OutsideRefusal>
        ensures { IfOk result (λ count. IfSome count (λ n. n ≤ length buf.new)) }
    {
        let count = self.give(buf);
        if count > 0 || buf.is_empty() {
            return Ok(Some(count));
        }
        match self.end {
            End::Ended => return Ok(Some(0)),
            End::Failed => return Err(OutsideRefusal::Failed),
            End::Unknown => {}
        }
        match self.stream.read(buf) {
            Ok(0) => {
                self.end = End::Ended;
                Ok(Some(0))
            }
            Ok(count) => Ok(Some(count)),
            Err(error) => match error.kind() {
                ErrorKind::WouldBlock | ErrorKind::Interrupted => Ok(None),
                _ => {
                    self.end = End::Failed;
                    Err(OutsideRefusal::Failed)
                }
            },
        }
    }

    /// Writes the bytes, or keeps what the peer doesn't take now.
    pub(crate) fn write(&mut self, bytes: &[u8], now: Duration) -> Result<(), OutsideRefusal> {
        if self.end == End::Failed {
            return Err(OutsideRefusal::Failed);
        }
        let sent = if self.unsent.is_empty() {
            match write_some(&mut self.stream, bytes) {
                Some(sent) => sent,
                None => {
                    self.end = End::Failed;
                    return Err(OutsideRefusal::Failed);
                }
            }
        } else {
            0
        };
        self.deadline = now.saturating_add(Duration::from_secs(PATIENCE));
        if sent < bytes.len() && self.unsent.extend_from_slice(&bytes[sent..]).is_err() {
            self.end = End::Failed;
            return Err(OutsideRefusal::Failed);
        }
        Ok(())
    }

    /// Goes on sending.
    fn send(&mut self) -> Went {
        let from = self.sent.min(self.unsent.len());
        let Some(count) = write_some(&mut self.stream, &self.unsent[from..]) else {
            return Went::Failed;
        };
        self.sent = from.saturating_add(count);
        if self.sent < self.unsent.len() {
            Went::Waits
        } else {
            Went::Done
        }
    }

    /// Reads away what the peer goes on sending.
    fn drain(&mut self, piece: &mut [u8]) -> Went {
        for _ in 0..u32::MAX {
            match self.stream.read(piece) {
                Ok(0) => return Went::Done,
                Ok(count) => {
                    self.drained = self.drained.saturating_add(count);
                    if self.drained >= MOST_DRAINED {
                        return Went::Done;
                    }
                }
                Err(error) => match error.kind() {
                    ErrorKind::WouldBlock => return Went::Waits,
                    ErrorKind::Interrupted => {}
                    _ => return Went::Failed,
                },
            }
        }
        Went::Failed
    }

    /// Goes on with the end of a closed connection: sends what is left, shuts it for writing, and reads away what the
    /// peer goes on sending. That is waited for only where it may still come.
    pub(crate) fn part(&mut self, piece: &mut [u8], now: Duration) -> Went {
        if self.end == End::Failed {
            return Went::Failed;
        }
        if self.stage != Stage::Draining {
            self.stage = Stage::Sending;
            match self.send() {
                Went::Done => {}
                went => return went,
            }
            if self.stream.shutdown(Shutdown::Write).is_err() {
                return Went::Failed;
            }
            self.stage = Stage::Draining;
            self.deadline = now.saturating_add(Duration::from_secs(LINGER));
        }
        let went = self.drain(piece);
        if went == Went::Waits && !self.lingers && self.drained == 0 {
            Went::Done
        } else {
            went
        }
    }
}

/// Writes as many of the bytes as the peer takes now. How many that were; none where the connection failed.
fn write_some(stream: &mut TcpStream, bytes: &[u8]) -> Option<usize>
    ensures { IfSome result (λ n. n ≤ length bytes.now) }
{
    let mut sent = 0;
    for _ in 0..u32::MAX {
        if sent >= bytes.len() {
            return Some(sent);
        }
        match stream.write(&bytes[sent..]) {
            Ok(0) => return None,
            Ok(count) => sent += count,
            Err(error) => match error.kind() {
                ErrorKind::WouldBlock => return Some(sent),
                ErrorKind::Interrupted => {}
                _ => return None,
            },
        }
    }
    None
}
