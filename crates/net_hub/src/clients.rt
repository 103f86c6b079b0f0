ghost use Rattle.std.specs.Prelude.{◌≤◌, length, IfOk, IfSome};

use crate::client::{Client, Stage, Went};
use crate::limits::{GRACE, MOST_CLIENTS, MOST_HANDED, MOST_HELD, PATIENCE, PIECE, TICK};
use mio::Registry;
use mio::event::Event;
use mio::net::TcpStream;
use slab::Slab;
use std::alloc::Global;
use std::collections::VecDeque;
use std::time::Duration;
use zbase::Memory;
use zio::OutsideRefusal;

// There is one place more than connections: where there is no room, one fails and another comes in.
const PLACES: usize = MOST_CLIENTS + 1;

/// The open connections, by their numbers.
#[derive(Drop)]
pub(crate) struct Clients {
    alloc: Global,
    open: Slab<Client>,
    // Those that wait to be handed in, the first first.
    ready: VecDeque<usize>,
    piece: Vec<u8>,
    held: usize,
    // When deadlines are looked at next.
    look_at: Duration,
    // How many were handed in since the others went on.
    handed: usize,
}

impl Clients {
    /// None, and no room for one.
    pub(crate) fn new(alloc: Global) -> Clients {
        Clients {
            alloc,
            open: Slab::new(alloc),
            ready: VecDeque::new(alloc),
            piece: Vec::new(alloc),
            held: 0,
            look_at: Duration::ZERO,
            handed: 0,
        }
    }

    /// None so far, with the room that all of them need.
    pub(crate) fn with_room(alloc: Global) -> Result<Clients, Memory> {
        let mut clients = Clients::new(alloc);
        clients.open.reserve(PLACES)?;
        clients.ready.reserve(PLACES)?;
        clients.piece = Vec::from_elem(alloc, 0, PIECE)?;
        Ok(clients)
    }

    /// Whether one waits to be handed in.
    pub(crate) fn has_ready(&self) -> bool {
        !self.ready.is_empty()
    }

    /// Whether so many were handed in that the others are due to go on.
    pub(crate) fn is_due(&self) -> bool {
        self.handed >= MOST_HANDED
    }

    /// Whether one was closed but isn't done with.
    pub(crate) fn is_parting(&self) -> bool {
        self.open.iter().any(|(_, client)| {
            client.stage == Stage::Sending || client.stage == Stage::Draining
        })
    }

    /// Whether there is room for one more. Where all places but one are taken, there is where one can give way and none
    /// is on its way out already.
    pub(crate) fn has_room(&self, now: Duration) -> bool {
        self.open.len() < MOST_CLIENTS
            || (self.open.len() < PLACES && !self.has_ready() && self.oldest_coming(now).is_some())
    }

    /// The oldest that is still coming, if it came more than a second ago.
    fn oldest_coming(&self, now: Duration) -> Option<usize> {
        let (key, client) = self
            .open
            .iter()
            .filter(|(_, client)| client.stage == Stage::Coming)
            .min_by_key(|(_, client)| client.deadline)?;
        let age_at_deadline = Duration::from_secs(PATIENCE - GRACE);
        if client.deadline < now.saturating_add(age_at_deadline) {
            Some(key)
        } else {
            None
        }
    }

    /// Takes a connection that came. Where there is no room, the oldest that is still coming fails.
    pub(crate) fn admit(
        &mut self,
        registry: &Registry,
        stream: TcpStream,
        now: Duration,
    ) -> Result<(), Memory> {
        if self.open.len() >= MOST_CLIENTS {
            if let Some(key) = self.oldest_coming(now) {
                self.give_up(key)?;
            }
        }
        let client = Client::new(self.alloc, stream, now);
        let key = self.open.insert(client)?;
        self.hear(registry, key)
    }

    /// Reads what has come of a message.
    fn hear(&mut self, registry: &Registry, key: usize) -> Result<(), Memory> {
        let Some(client) = self.open.get_mut(key) else {
            return Ok(());
        };
        let before = client.held();
        let mut went = client.hear(&mut self.piece);
        if went == Went::Waits {
            went = client.watch(registry, key);
        }
        let after = client.held();
        if went != Went::Waits {
            client.stage = Stage::Ready;
            self.ready.push_back(key)?;
        }
        self.hold(before, after);
        self.trim()
    }

    /// Counts the bytes that one holds now, and no longer those that it held before.
    fn hold(&mut self, before: usize, after: usize) {
        self.held = self.held.saturating_sub(before).saturating_add(after);
    }

    /// While all together hold too much, gives up the oldest that holds anything and on which nobody works; one that
    /// waits to be handed in only behind all others.
    fn trim(&mut self) -> Result<(), Memory> {
        for _ in 0..PLACES {
            if self.held <= MOST_HELD {
                break;
            }
            let oldest = self
                .open
                .iter()
                .filter(|(_, client)| client.stage != Stage::Open && client.held() > 0)
                .min_by_key(|(_, client)| (client.stage == Stage::Ready, client.deadline));
            let Some((key, _)) = oldest else {
                break;
            };
            self.give_up(key)?;
        }
        Ok(())
    }

    /// Fails a connection that took too long or holds too much, and lets it go where it was closed already.
    fn give_up(&mut self, key: usize) -> Result<(), Memory> {
        let Some(client) = self.open.get_mut(key) else {
            return Ok(());
        };
        match client.stage {
            Stage::Coming => {
                client.stage = Stage::Ready;
                self.ready.push_back(key)?;
                self.fail(key);
            }
            Stage::Ready => self.fail(key),
            Stage::Sending | Stage::Draining => self.forget(key),
            Stage::Open => {}
        }
        Ok(())
    }

    /// Fails a connection, which then holds nothing.
    fn fail(&mut self, key: usize) {
        if let Some(client) = self.open.get_mut(key) {
            let before = client.held();
            client.fail();
            let after = client.held();
            self.hold(before, after);
        }
    }

    /// Lets a connection go.
    fn forget(&mut self, key: usize) {
        if let Some(client) = self.open.try_remove(key) {
            self.hold(client.held(), 0);
        }
    }

    /// Goes on with the connection that an event is of.
    pub(crate) fn go_on(
        &mut self,
        registry: &Registry,
        event: &Event,
        now: Duration,
    ) -> Result<(), Memory> {
        let key = event.token().0;
        let Some(client) = self.open.get(key) else {
            return Ok(());
        };
        match client.stage {
            Stage::Coming => self.hear(registry, key),
            Stage::Sending | Stage::Draining => {
                self.close(registry, key, now);
                Ok(())
            }
            Stage::Ready | Stage::Open => Ok(()),
        }
    }

    /// Closes a connection, or goes on with that: what is left of its reply is sent first.
    pub(crate) fn close(&mut self, registry: &Registry, key: usize, now: Duration) {
        let Some(client) = self.open.get_mut(key) else {
            return;
        };
        let mut went = client.part(&mut self.piece, now);
        if went == Went::Waits {
            went = client.watch(registry, key);
        }
        if went != Went::Waits {
            self.forget(key);
        }
    }

    /// Fails those whose deadline has passed. It looks for them once a tick.
    pub(crate) fn fail_late(&mut self, now: Duration) -> Result<(), Memory> {
        self.handed = 0;
        if now < self.look_at {
            return Ok(());
        }
        self.look_at = now.saturating_add(Duration::from_millis(TICK));
        for key in 0..PLACES {
            if let Some(client) = self.open.get(key) {
                if client.deadline <= now && client.stage != Stage::Ready {
                    self.give_up(key)?;
                }
            }
        }
        Ok(())
    }

    /// The next that waits to be handed in.
    pub(crate) fn next(&mut self) -> Option<usize> {
        let key = self.ready.pop_front()?;
        if let Some(client) = self.open.get_mut(key) {
            client.stage = Stage::Open;
        }
        self.handed = self.handed.saturating_add(1);
        Some(key)
    }

    /// Reads from one. None where the peer has to go on first.
    pub(crate) fn read(
        &mut self,
        registry: &Registry,
        key: usize,
        buf: &mut [u8],
        now: Duration,
    ) -> Result<Option<usize>, OutsideRefusal>
        ensures { IfOk result (λ count. IfSome count (λ n. n ≤ length buf.new)) }
    {
        let Some(client) = self.open.get_mut(key) else {
            return Err(OutsideRefusal::Failed);
        };
        let count = client.read(buf)?;
        if count.is_none()
            && (client.deadline <= now || client.watch(registry, key) == Went::Failed)
        {
            self.fail(key);
            return Err(OutsideRefusal::Failed);
        }
        Ok(count)
    }

    /// Writes on one, or keeps what the peer doesn't take now.
    pub(crate) fn write(
        &mut self,
        key: usize,
        bytes: &[u8],
        now: Duration,
    ) -> Result<(), OutsideRefusal> {
        let Some(client) = self.open.get_mut(key) else {
            return Err(OutsideRefusal::Failed);
        };
        let before = client.held();
        let answer = client.write(bytes, now);
        let after = client.held();
        self.hold(before, after);
        self.trim()?;
        answer
    }
}
