ghost use Rattle.std.specs.Prelude.{◌≡◌, [], None, Some, option_map, slice_get};
ghost use Rattle.std.specs.Option.{option_copied};
ghost use Rattle.std.specs.declared.option.Option.{Option};
ghost use Rattle.zbase.specs.Faults.{IsFaultless};
ghost use Rattle.zio.specs.MemoryHubs.{connection};

use crate::memory_connection::MemoryConnection;
use crate::part_count::PartCount;
use crate::{Hub, OutsideRefusal};
use std::alloc::Global;
use std::marker::Model;
use std::mem;
use zbase::{Bytes, FaultPlan};

/// A hub in memory, which tells its connections: those that were accepted, and the bytes of those that are
/// going to come.
///
/// The number of a connection is its place among the accepted ones, from 0 on. Each call but `close` and
/// `has_waiting` counts as one call of the plan. Of a piece whose write fails nothing is kept.
#[derive(Drop)]
pub struct MemoryHub {
    port: Option<u16>,
    coming: Vec<Bytes>,
    next: usize,
    accepted: Vec<MemoryConnection>,
    piece: usize,
    plan: FaultPlan,
    listening: PartCount,
    streaming: PartCount,
    alloc: Global,
}

impl Model for MemoryHub {
    ghost use Rattle.std.specs.Prelude.{drop};
    ghost use Rattle.zio.specs.PartCounts.{IsBacked};
    ghost use Rattle.zio.specs.MemoryHubs.{Seen, peers_of};

    ghost Value = { Seen };

    ghost view = { λ hub. record {
      peers = peers_of hub.port hub.accepted.items
          (drop hub.next hub.coming.items);
      counter = hub.plan;
      listening = hub.listening;
      streaming = hub.streaming;
    } };

    ghost invariant = { λ hub. IsBacked hub.listening hub.plan × IsBacked hub.streaming hub.plan };
}

impl MemoryHub {
    /// A hub to which connections with these bytes come in this order, and whose calls fail as the plan says.
    ///
    /// Its counts for some of the calls never say that these can't fail, as those of `faultless` do.
    pub fn new(alloc: Global, coming: Vec<Bytes>, plan: FaultPlan) -> MemoryHub
        ensures peers { ⟦<MemoryHub as Hub>⟧.peers result ≡ Some (record { port = None; accepted = []; coming = coming.items }) }
        ensures counter { ⟦<MemoryHub as Hub>⟧.counter result ≡ plan }
        ensures listening { (⟦<MemoryHub as Hub>⟧.listening result).count ≡ 0 }
        ensures streaming { (⟦<MemoryHub as Hub>⟧.streaming result).count ≡ 0 }
    {
        MemoryHub {
            port: None,
            coming,
            next: 0,
            accepted: Vec::new(alloc),
            piece: usize::MAX,
            plan,
            listening: PartCount::new(),
            streaming: PartCount::new(),
            alloc,
        }
    }

    /// A hub to which connections with these bytes come in this order, and no call of which fails.
    pub fn faultless(alloc: Global, coming: Vec<Bytes>) -> MemoryHub
        ensures peers { ⟦<MemoryHub as Hub>⟧.peers result ≡ Some (record { port = None; accepted = []; coming = coming.items }) }
        ensures counter { IsFaultless (⟦<MemoryHub as Hub>⟧.counter result) }
        ensures listening { IsFaultless (⟦<MemoryHub as Hub>⟧.listening result) }
        ensures streaming { IsFaultless (⟦<MemoryHub as Hub>⟧.streaming result) }
    {
        MemoryHub {
            port: None,
            coming,
            next: 0,
            accepted: Vec::new(alloc),
            piece: usize::MAX,
            plan: FaultPlan::none(alloc),
            listening: PartCount::faultless(),
            streaming: PartCount::faultless(),
            alloc,
        }
    }

    /// The same hub, where a read gives so many bytes at most, and 1 where that is 0.
    pub fn in_pieces(mut self, piece: usize) -> MemoryHub
        ensures { result ≡ self }
    {
        self.piece = piece;
        self
    }

    /// The port that was listened on last.
    pub fn port(&self) -> Option<u16>
        ensures { result ≡ self.now.peers.port }
    {
        self.port
    }

    /// The connection of that number; none where none of that number was accepted.
    pub fn connection(&self, number: usize) -> Option<&MemoryConnection>
        ensures { option_map (connection number) (option_copied result) ≡ slice_get self.now.peers.accepted number }
    {
        self.accepted.get(number)
    }
}

impl Hub for MemoryHub {
    ghost peers = { λ hub. Some hub.peers };

    ghost counter = { λ hub. hub.counter };

    ghost listening = { λ hub. hub.listening };

    ghost streaming = { λ hub. hub.streaming };

    fn listen(&mut self, port: u16) -> Result<(), OutsideRefusal> {
        self.listening.call(&mut self.plan)?;
        self.port = Some(port);
        Ok(())
    }

    fn accept(&mut self) -> Result<Option<u32>, OutsideRefusal> {
        self.listening.call(&mut self.plan)?;
        if self.next >= self.coming.len() {
            return Ok(None);
        }
        let Ok(number) = u32::try_from(self.accepted.len()) else {
            return Err(OutsideRefusal::Memory);
        };
        if self.accepted.try_reserve(1).is_err() {
            return Err(OutsideRefusal::Memory);
        }
        let bytes = mem::replace(&mut self.coming[self.next], Bytes::new(self.alloc));
        self.next += 1;
        self.accepted
            .push_reserved(MemoryConnection::new(self.alloc, bytes, self.piece));
        Ok(Some(number))
    }

    fn has_waiting(&mut self) -> bool {
        self.next < self.coming.len()
    }

    fn read(&mut self, conn: u32, buf: &mut [u8]) -> Result<usize, OutsideRefusal> {
        let connection = &mut self.accepted[conn as usize];
        if self.streaming.call(&mut self.plan).is_err() {
            connection.read_faults = connection.read_faults.saturating_add(1);
            return Err(OutsideRefusal::Failed);
        }
        Ok(connection.left.read(buf))
    }

    fn write_all(&mut self, conn: u32, bytes: &[u8]) -> Result<(), OutsideRefusal> {
        let connection = &mut self.accepted[conn as usize];
        if self.streaming.call(&mut self.plan).is_err() {
            connection.write_faults = connection.write_faults.saturating_add(1);
            return Err(OutsideRefusal::Failed);
        }
        connection.written.append(bytes)?;
        Ok(())
    }

    fn close(&mut self, conn: u32) {
        self.accepted[conn as usize].is_open = false;
    }
}
