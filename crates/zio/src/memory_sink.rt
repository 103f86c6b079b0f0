ghost use Rattle.std.specs.Prelude.{◌≡◌, [], Some};
ghost use Rattle.std.specs.declared.option.Option.{Option};

use crate::{OutsideRefusal, Sink};
use std::alloc::Global;
use zbase::{Bytes, FaultPlan};

/// A sink that keeps what was written, and tells it.
///
/// Of a piece whose write fails nothing is kept. Each write counts as one call of the plan.
#[derive(Drop)]
pub struct MemorySink {
    bytes: Bytes,
    plan: FaultPlan,
}

impl MemorySink {
    /// A sink to which nothing was written, and whose writes fail as the plan says.
    pub fn new(alloc: Global, plan: FaultPlan) -> MemorySink
        ensures written { ⟦<MemorySink as Sink>⟧.written result ≡ Some [] }
        ensures counter { ⟦<MemorySink as Sink>⟧.counter result ≡ plan }
    {
        MemorySink {
            bytes: Bytes::new(alloc),
            plan,
        }
    }

    /// What was written.
    pub fn bytes(&self) -> &[u8]
        ensures { ⟦<MemorySink as Sink>⟧.written self.now ≡ Some result.now }
    {
        self.bytes.as_slice()
    }
}

impl Sink for MemorySink {
    ghost written = { λ sink. Some sink.bytes };

    ghost counter = { λ sink. sink.plan };

    fn write_all(&mut self, bytes: &[u8]) -> Result<(), OutsideRefusal> {
        self.plan.call()?;
        self.bytes.append(bytes)?;
        Ok(())
    }
}
