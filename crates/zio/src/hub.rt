ghost use Rattle.std.specs.Prelude.{◌≡◌, ◌<◌, IfOk, IfSome, OnOk, OnErr, IsErrOf, option_map};
ghost use Rattle.std.specs.declared.option.Option.{Option};
ghost use Rattle.std.specs.Io.{ReadsAtMost};
ghost use Rattle.zbase.specs.Faults.{Counter, Counts};
ghost use Rattle.zio.specs.Hubs.{Peers, IsWaiting};
ghost use Rattle.zio.specs.HubCalls.{listening_on, WasOpen, Accepted, Reads, ReadFails, Writes, WriteFails, closed};

use crate::OutsideRefusal;

/// A listening socket with the connections that it accepted. `read` may wait for a peer, and so may `accept`;
/// `has_waiting` doesn't.
///
/// Beside the count of all its faults a hub has one for `listen` and `accept` and one for `read` and
/// `write_all`; where it tells, also one for the reads and one for the writes of each connection.
pub trait Hub {
    /// Its connections, where the hub tells.
    ghost peers: { Self → Option Peers };

    /// How often the hub has failed.
    ghost counter: { Self → Counter };

    /// How often `listen` and `accept` have failed.
    ghost listening: { Self → Counter };

    /// How often `read` and `write_all` have failed.
    ghost streaming: { Self → Counter };

    /// Listens on a port of this machine.
    fn listen(&mut self, port: u16) -> Result<(), OutsideRefusal>
        ensures ok { OnOk result (peers self.new ≡ option_map (listening_on port) (peers self.old)) }
        ensures err { OnErr result (peers self.new ≡ peers self.old) }
        ensures counts { Counts (counter self.old) (counter self.new) (IsErrOf result OutsideRefusal.Failed) }
        ensures listening { Counts (listening self.old) (listening self.new) (IsErrOf result OutsideRefusal.Failed) }
        ensures streaming { streaming self.new ≡ streaming self.old };

    /// The next connection, under a number that no open connection has. None exactly where the hub, if it
    /// tells, has no further one; a real hub never answers none.
    fn accept(&mut self) -> Result<Option<u32>, OutsideRefusal>
        ensures ok { IfOk result (λ next. Accepted (peers self.old) (peers self.new) next) }
        ensures err { OnErr result (peers self.new ≡ peers self.old) }
        ensures counts { Counts (counter self.old) (counter self.new) (IsErrOf result OutsideRefusal.Failed) }
        ensures listening { Counts (listening self.old) (listening self.new) (IsErrOf result OutsideRefusal.Failed) }
        ensures streaming { streaming self.new ≡ streaming self.old };

    /// Whether a further connection can be accepted at once; where the hub tells, whether there is one.
    fn has_waiting(&mut self) -> bool
        ensures peers { peers self.new ≡ peers self.old }
        ensures told { IfSome (peers self.old) (λ p. IsWaiting result p) }
        ensures counts { (counter self.new ≡ counter self.old) × (listening self.new ≡ listening self.old) × (streaming self.new ≡ streaming self.old) };

    /// Reads into the front of the buffer. 0 for a buffer that isn't empty is the end of what the peer sent.
    fn read(&mut self, conn: u32, buf: &mut [u8]) -> Result<usize, OutsideRefusal>
        requires open { WasOpen conn (peers self.old) }
        ensures bound { ReadsAtMost result buf.new }
        ensures ok { IfOk result (λ n. Reads conn n buf.new (peers self.old) (peers self.new)) }
        ensures failed { IsErrOf result OutsideRefusal.Failed → ReadFails conn (peers self.old) (peers self.new) }
        ensures memory { IsErrOf result OutsideRefusal.Memory → peers self.new ≡ peers self.old }
        ensures counts { Counts (counter self.old) (counter self.new) (IsErrOf result OutsideRefusal.Failed) }
        ensures listening { listening self.new ≡ listening self.old }
        ensures streaming { Counts (streaming self.old) (streaming self.new) (IsErrOf result OutsideRefusal.Failed) };

    /// Writes all of the bytes. After a failure a front of them was written.
    fn write_all(&mut self, conn: u32, bytes: &[u8]) -> Result<(), OutsideRefusal>
        requires open { WasOpen conn (peers self.old) }
        ensures ok { OnOk result (Writes conn bytes.now (peers self.old) (peers self.new)) }
        ensures failed { IsErrOf result OutsideRefusal.Failed → WriteFails conn bytes.now (peers self.old) (peers self.new) }
        ensures memory { IsErrOf result OutsideRefusal.Memory → peers self.new ≡ peers self.old }
        ensures counts { Counts (counter self.old) (counter self.new) (IsErrOf result OutsideRefusal.Failed) }
        ensures listening { listening self.new ≡ listening self.old }
        ensures streaming { Counts (streaming self.old) (streaming self.new) (IsErrOf result OutsideRefusal.Failed) };

    /// Closes a connection.
    fn close(&mut self, conn: u32)
        requires open { WasOpen conn (peers self.old) }
        ensures closed { peers self.new ≡ option_map (closed conn) (peers self.old) }
        ensures counts { (counter self.new ≡ counter self.old) × (listening self.new ≡ listening self.old) × (streaming self.new ≡ streaming self.old) };
}
