ghost use Rattle.std.specs.Prelude.{List, ℕ, IsErr};
ghost use Rattle.std.specs.declared.option.Option.{Option};
ghost use Rattle.std.specs.Io.{ReadsAtMost};
ghost use Rattle.std.specs.Io.KnownBytes.{ReadConsumes};
ghost use Rattle.zbase.specs.Faults.{Counter, Counts};

use zbase::Failed;

/// Where bytes come from, as standard input.
pub trait Source {
    /// The bytes that reads will give, where the source tells.
    ghost left: { Self → Option (List ℕ) };

    /// How often the source has failed.
    ghost counter: { Self → Counter };

    /// Reads into the front of the buffer and answers how many bytes. 0 for a buffer that isn't empty is the end
    /// of the input. A read that failed takes nothing.
    fn read(&mut self, buf: &mut [u8]) -> Result<usize, Failed>
        ensures bound { ReadsAtMost result buf.new }
        ensures bytes { ReadConsumes (left self.old) (left self.new) result buf.new }
        ensures counts { Counts (counter self.old) (counter self.new) (IsErr result) };
}
