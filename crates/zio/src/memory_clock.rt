ghost use Rattle.std.specs.Prelude.{◌≡◌, IsTrue, List, Some, drop};
ghost use Rattle.std.specs.List.{list_all};
ghost use Rattle.std.specs.declared.option.Option.{Option};
ghost use Rattle.zbase.specs.Faults.{Counter};
ghost use Rattle.zio.specs.Clocks.{Tick, is_tick};

use crate::Clock;
use std::marker::Model;
use zbase::{Failed, FaultPlan};

/// A clock that tells the moments of a list, one a call, and then the first moment of 1970.
///
/// Contracts see the moments that it is going to answer, and its count of faults. Each question counts as one
/// call of the plan.
#[derive(Drop)]
pub struct MemoryClock {
    ticks: Vec<(i64, u32)>,
    told: usize,
    plan: FaultPlan,
}

impl Model for MemoryClock {
    ghost Value = { List Tick × Counter };

    ghost view = { λ clock. (drop clock.told clock.ticks.items, clock.plan) };

    ghost invariant = { λ clock. IsTrue (list_all is_tick clock.ticks.items) };
}

impl MemoryClock {
    /// A clock that answers these moments, and whose calls fail as the plan says.
    ///
    /// A moment is whole seconds since 1970-01-01 in UTC, and nanoseconds below 1,000,000,000.
    pub fn new(ticks: Vec<(i64, u32)>, plan: FaultPlan) -> MemoryClock
        requires nanos { IsTrue (list_all is_tick ticks.items) }
        ensures ticks { ⟦<MemoryClock as Clock>⟧.ticks result ≡ Some ticks.items }
        ensures counter { ⟦<MemoryClock as Clock>⟧.counter result ≡ plan }
    {
        MemoryClock {
            ticks,
            told: 0,
            plan,
        }
    }
}

impl Clock for MemoryClock {
    ghost ticks = { λ clock. Some clock.0 };

    ghost counter = { λ clock. clock.1 };

    fn now(&mut self) -> Result<(i64, u32), Failed> {
        self.plan.call()?;
        let Some(tick) = self.ticks.get(self.told) else {
            return Ok((0, 0));
        };
        let tick = *tick;
        self.told += 1;
        Ok(tick)
    }
}
