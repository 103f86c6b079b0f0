ghost use Rattle.std.specs.Prelude.{◌≡◌, ◌≤◌, None, length, IfOk};
ghost use Rattle.std.specs.declared.option.Option.{Option};

use crate::clients::Clients;
use crate::faults::Faults;
use crate::limits::TICK;
use crate::listener::Listener;
use std::alloc::Global;
use std::net::Net;
use std::time;
use std::time::Duration;
use zio::{Hub, OutsideRefusal};

/// The hub of this machine's sockets. It listens on 127.0.0.1 alone, and tells only how often it has failed.
///
/// It takes connections as they come, 1,024 at once, and reads them side by side. One is handed in when its bytes
/// begin with a message, whole or refused, when its peer has ended, or when it failed. One that hasn't got so far
/// after 30 seconds fails; where there is no room, so does the oldest that is still coming and older than a second,
/// and where all together hold too many bytes, the oldest that holds any.
///
/// `write_all` keeps what the peer doesn't take at once. `close` then leaves the connection to later turns, which send
/// the rest within 30 seconds, shut it for writing and read away what the peer goes on sending, up to 65,536 bytes or
/// a second. `finish` makes these turns when no `accept` does.
#[derive(Drop)]
pub struct NetHub<R> {
    rt: R,
    alloc: Global,
    faults: Faults,
    listener: Option<Listener>,
    clients: Clients,
}

impl<R: Net + time::Clock> NetHub<R> {
    /// The hub that this handle reaches, which has not failed so far. It listens nowhere yet.
    pub fn new(alloc: Global, rt: R) -> NetHub<R>
        ensures counter { (⟦<NetHub<R> as Hub>⟧.counter result).count ≡ 0 }
        ensures listening { (⟦<NetHub<R> as Hub>⟧.listening result).count ≡ 0 }
        ensures streaming { (⟦<NetHub<R> as Hub>⟧.streaming result).count ≡ 0 }
    {
        NetHub {
            rt,
            alloc,
            faults: Faults::new(),
            listener: None,
            clients: Clients::new(alloc),
        }
    }

    /// The port that it listens on, which the system has picked where `listen` was given 0; none where it doesn't listen.
    pub fn port(&self) -> Option<u16> {
        self.listener.as_ref()?.port()
    }

    /// Goes on until each closed connection has sent its reply or taken too long. It takes no connection.
    pub fn finish(&mut self) {
        for _ in 0..u64::MAX {
            if !self.clients.is_parting() {
                break;
            }
            let Ok(now) = self.now() else {
                break;
            };
            if self.go_on(now, Duration::from_millis(TICK)).is_err() {
                break;
            }
        }
    }

    /// The time on the clock that never goes back.
    fn now(&self) -> Result<Duration, OutsideRefusal> {
        self.rt.monotonic().map_err(|_| OutsideRefusal::Failed)
    }

    /// Listens on a port, with no connection.
    fn start(&mut self, port: u16) -> Result<(), OutsideRefusal>
        ensures { self.new.faults ≡ self.old.faults }
    {
        let clients = Clients::with_room(self.alloc)?;
        self.listener = Some(Listener::open(&self.rt, self.alloc, port)?);
        self.clients = clients;
        Ok(())
    }

    /// Takes the connections that wait in the listener. The time at which it did.
    fn admit(&mut self) -> Result<Duration, OutsideRefusal>
        ensures { self.new.faults ≡ self.old.faults }
    {
        let now = self.now()?;
        let Some(listener) = &mut self.listener else {
            return Err(OutsideRefusal::Failed);
        };
        listener.admit(&mut self.clients, now)?;
        Ok(now)
    }

    /// Waits so long at most until something comes, and goes on with it.
    fn go_on(&mut self, now: Duration, wait: Duration) -> Result<(), OutsideRefusal>
        ensures { self.new.faults ≡ self.old.faults }
    {
        let Some(listener) = &mut self.listener else {
            return Err(OutsideRefusal::Failed);
        };
        listener.wait(&mut self.clients, wait, now)?;
        self.clients.fail_late(now)?;
        Ok(())
    }

    /// The next that is ready to be handed in.
    fn next(&mut self) -> Result<Option<u32>, OutsideRefusal>
        ensures { self.new.faults ≡ self.old.faults }
    {
        if self.clients.is_due() {
            let now = self.now()?;
            self.go_on(now, Duration::ZERO)?;
        }
        for _ in 0..u64::MAX {
            let now = self.admit()?;
            if let Some(key) = self.clients.next() {
                return match u32::try_from(key) {
                    Ok(number) => Ok(Some(number)),
                    Err(_) => Err(OutsideRefusal::Failed),
                };
            }
            self.go_on(now, Duration::from_millis(TICK))?;
        }
        Err(OutsideRefusal::Failed)
    }

    /// Whether one is ready to be handed in, behind a turn that doesn't wait.
    fn peek(&mut self) -> Result<bool, OutsideRefusal>
        ensures { self.new.faults ≡ self.old.faults }
    {
        if !self.clients.has_ready() {
            let now = self.now()?;
            self.go_on(now, Duration::ZERO)?;
            self.admit()?;
        }
        Ok(self.clients.has_ready())
    }

    /// Reads from a connection, and waits for its peer.
    fn receive(&mut self, conn: u32, buf: &mut [u8]) -> Result<usize, OutsideRefusal>
        ensures bound { IfOk result (λ n. n ≤ length buf.new) }
        ensures faults { self.new.faults ≡ self.old.faults }
    {
        for _ in 0..u64::MAX {
            let now = self.now()?;
            let Some(listener) = &self.listener else {
                return Err(OutsideRefusal::Failed);
            };
            let read = self
                .clients
                .read(listener.registry(), conn as usize, buf, now)?;
            if let Some(count) = read {
                return Ok(count);
            }
            if self.admit().is_err() || self.go_on(now, Duration::from_millis(TICK)).is_err() {
                return Err(OutsideRefusal::Failed);
            }
        }
        Err(OutsideRefusal::Failed)
    }

    /// Writes on a connection.
    fn send(&mut self, conn: u32, bytes: &[u8]) -> Result<(), OutsideRefusal>
        ensures { self.new.faults ≡ self.old.faults }
    {
        let now = self.now()?;
        self.clients.write(conn as usize, bytes, now)
    }
}

impl<R: Net + time::Clock> Hub for NetHub<R> {
    ghost peers = { λ _. None };

    ghost counter = { λ hub. hub.faults.all };

    ghost listening = { λ hub. hub.faults.listening };

    ghost streaming = { λ hub. hub.faults.streaming };

    fn listen(&mut self, port: u16) -> Result<(), OutsideRefusal> {
        let answer = self.start(port);
        self.faults.of_listening(answer)
    }

    fn accept(&mut self) -> Result<Option<u32>, OutsideRefusal> {
        let answer = self.next();
        self.faults.of_listening(answer)
    }

    // A failure shows again in the next accept.
    fn has_waiting(&mut self) -> bool {
        self.peek().unwrap_or(false)
    }

    fn read(&mut self, conn: u32, buf: &mut [u8]) -> Result<usize, OutsideRefusal> {
        let answer = self.receive(conn, buf);
        self.faults.of_streaming(answer)
    }

    fn write_all(&mut self, conn: u32, bytes: &[u8]) -> Result<(), OutsideRefusal> {
        let answer = self.send(conn, bytes);
        self.faults.of_streaming(answer)
    }

    fn close(&mut self, conn: u32) {
        let now = self.now().unwrap_or(Duration::ZERO);
        if let Some(listener) = &self.listener {
            self.clients.close(listener.registry(), conn as usize, now);
        }
    }
}
