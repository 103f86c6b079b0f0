ghost use Rattle.std.specs.Prelude.{◌≡◌, ◌<◌, List, IfOk, OnErr, IsErr};
ghost use Rattle.std.specs.declared.option.Option.{Option};
ghost use Rattle.zbase.specs.Faults.{Counter, Counts};
ghost use Rattle.zio.specs.Clocks.{Tick, GivesTick};

use zbase::Failed;

/// What tells the time.
pub trait Clock {
    /// The moments that the clock is going to answer, where it tells.
    ghost ticks: { Self → Option (List Tick) };

    /// How often the clock has failed.
    ghost counter: { Self → Counter };

    /// Whole seconds since 1970-01-01 in UTC, and nanoseconds.
    fn now(&mut self) -> Result<(i64, u32), Failed>
        ensures nanos { IfOk result (λ tick. tick.1 < 1000000000) }
        ensures value { GivesTick (ticks self.old) (ticks self.new) result }
        ensures err { OnErr result (ticks self.new ≡ ticks self.old) }
        ensures counts { Counts (counter self.old) (counter self.new) (IsErr result) };
}
