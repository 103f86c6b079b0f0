ghost use Rattle.std.specs.Prelude.{◌≡◌, List, ℕ, OnOk, IsErrOf};
ghost use Rattle.std.specs.declared.option.Option.{Option};
ghost use Rattle.std.specs.Io.KnownBytes.{append_known};
ghost use Rattle.zbase.specs.Faults.{Counter, Counts};
ghost use Rattle.zio.specs.Sinks.{AppendsFront};

use crate::OutsideRefusal;

/// Where bytes go, as standard output.
pub trait Sink {
    /// The bytes that were written, where the sink tells.
    ghost written: { Self → Option (List ℕ) };

    /// How often the sink has failed.
    ghost counter: { Self → Counter };

    /// Writes all of the bytes. A sink that takes only a part has failed, and a front of the bytes was written.
    fn write_all(&mut self, bytes: &[u8]) -> Result<(), OutsideRefusal>
        ensures ok { OnOk result (written self.new ≡ append_known (written self.old) bytes.now) }
        ensures failed { IsErrOf result OutsideRefusal.Failed → AppendsFront (written self.old) (written self.new) bytes.now }
        ensures memory { IsErrOf result OutsideRefusal.Memory → written self.new ≡ written self.old }
        ensures counts { Counts (counter self.old) (counter self.new) (IsErrOf result OutsideRefusal.Failed) };
}
