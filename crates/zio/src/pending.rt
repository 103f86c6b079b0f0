ghost use Rattle.std.specs.Prelude.{◌≡◌, ◌++◌, [], IfOk, OnOk, IsErrOf};
ghost use Rattle.zbase.specs.Faults.{Counts};
ghost use Rattle.zio.specs.Sinks.{AppendsFront, due};

use crate::{OutsideRefusal, Sink};
use std::alloc::Global;
use std::marker::Model;
use zbase::Memory;

/// The most bytes that are held.
const ROOM: usize = 65_536;

/// Bytes on their way to a sink, to which they go in pieces. Contracts see those that are held.
///
/// The room for them is taken when this is made, so that holding bytes takes no memory. What is held at the end is
/// written by `flush`.
#[derive(Drop)]
pub struct Pending {
    held: Vec<u8>,
}

impl Model for Pending {
    ghost use Rattle.std.specs.Prelude.{◌≤◌, List, ℕ, length, vec_capacity};
    ghost use Rattle.zio.specs.Sinks.{most_held};

    ghost Value = { List ℕ };

    ghost view = { λ pending. pending.held.items };

    ghost invariant = { λ pending. (length pending.held.items ≤ most_held) × (most_held ≤ vec_capacity pending.held) };
}

impl Pending {
    /// No bytes, with room for 65,536.
    pub fn new(alloc: Global) -> Result<Pending, Memory>
        ensures { IfOk result (λ pending. pending ≡ []) }
    {
        Ok(Pending {
            held: Vec::with_capacity(alloc, ROOM)?,
        })
    }

    /// Holds these bytes too. Where there is no room for them, what is held is written first; more bytes than there
    /// ever is room for are written at once.
    pub fn put<K: Sink>(&mut self, bytes: &[u8], out: &mut K) -> Result<(), OutsideRefusal>
        ensures ok { OnOk result (due (K.written out.new) self.new ≡ due (K.written out.old) (self.old ++ bytes.now)) }
        ensures failed { IsErrOf result OutsideRefusal.Failed → (self.new ≡ []) × AppendsFront (K.written out.old) (K.written out.new) (self.old ++ bytes.now) }
        ensures memory { IsErrOf result OutsideRefusal.Memory → due (K.written out.new) self.new ≡ due (K.written out.old) self.old }
        ensures counts { Counts (K.counter out.old) (K.counter out.new) (IsErrOf result OutsideRefusal.Failed) }
    {
        if bytes.len() > ROOM - self.held.len() {
            self.flush(out)?;
        }
        if bytes.len() > ROOM {
            return out.write_all(bytes);
        }
        match self.held.extend_from_slice(bytes) {
            Ok(()) => Ok(()),
            // the room was taken
            Err(_) => unreachable!(),
        }
    }

    /// Writes what is held. After a fault of the sink nothing is held any more.
    pub fn flush<K: Sink>(&mut self, out: &mut K) -> Result<(), OutsideRefusal>
        ensures ok { OnOk result ((self.new ≡ []) × (K.written out.new ≡ due (K.written out.old) self.old)) }
        ensures failed { IsErrOf result OutsideRefusal.Failed → (self.new ≡ []) × AppendsFront (K.written out.old) (K.written out.new) self.old }
        ensures memory { IsErrOf result OutsideRefusal.Memory → (self.new ≡ self.old) × (K.written out.new ≡ K.written out.old) }
        ensures counts { Counts (K.counter out.old) (K.counter out.new) (IsErrOf result OutsideRefusal.Failed) }
    {
        if self.held.is_empty() {
            return Ok(());
        }
        match out.write_all(self.held.as_slice()) {
            Err(OutsideRefusal::Memory) => Err(OutsideRefusal::Memory),
            written => {
                self.held.clear();
                written
            }
        }
    }
}
