ghost use Rattle.std.specs.Prelude.{◌≡◌, Some};
ghost use Rattle.std.specs.declared.option.Option.{Option};

use crate::Source;
use crate::unread::Unread;
use zbase::{Bytes, Failed, FaultPlan};

/// A source over bytes in memory, which tells those that are left.
///
/// A read gives as many bytes as there are, or as the buffer has room for. Each read counts as one call of the
/// plan.
#[derive(Drop)]
pub struct MemorySource {
    unread: Unread,
    plan: FaultPlan,
}

impl MemorySource {
    /// A source of these bytes, whose reads fail as the plan says.
    pub fn new(bytes: Bytes, plan: FaultPlan) -> MemorySource
        ensures left { ⟦<MemorySource as Source>⟧.left result ≡ Some bytes }
        ensures counter { ⟦<MemorySource as Source>⟧.counter result ≡ plan }
    {
        MemorySource {
            unread: Unread::new(bytes),
            plan,
        }
    }
}

impl Source for MemorySource {
    ghost left = { λ source. Some source.unread };

    ghost counter = { λ source. source.plan };

    fn read(&mut self, buf: &mut [u8]) -> Result<usize, Failed> {
        self.plan.call()?;
        Ok(self.unread.read(buf))
    }
}
