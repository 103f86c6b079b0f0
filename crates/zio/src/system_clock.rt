ghost use Rattle.std.specs.Prelude.{◌≡◌, None};
ghost use Rattle.std.specs.declared.option.Option.{Option};

use crate::Clock;
use std::time;
use zbase::{Failed, FaultCount};

/// The clock of the system. It tells only how often it has failed; a moment before 1970 is a fault, since the system's
/// clock tells none.
#[derive(Drop)]
pub struct SystemClock<R> {
    rt: R,
    faults: FaultCount,
}

impl<R: time::Clock> SystemClock<R> {
    /// The clock that this handle reaches, which has not failed so far.
    pub fn new(rt: R) -> SystemClock<R>
        ensures count { (⟦<SystemClock<R> as Clock>⟧.counter result).count ≡ 0 }
    {
        SystemClock {
            rt,
            faults: FaultCount::new(),
        }
    }
}

impl<R: time::Clock> Clock for SystemClock<R> {
    ghost ticks = { λ _. None };

    ghost counter = { λ clock. clock.faults };

    fn now(&mut self) -> Result<(i64, u32), Failed> {
        let Ok(since) = self.rt.since_1970() else {
            return Err(self.faults.fault());
        };
        match i64::try_from(since.as_secs()) {
            Ok(seconds) => Ok((seconds, since.subsec_nanos())),
            Err(_) => Err(self.faults.fault()),
        }
    }
}
