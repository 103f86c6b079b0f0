ghost use Rattle.case_links.specs.Linked.{linked_by};

use packing::Links;
use std::alloc::Global;
use zbase::{Memory, Oid, Oids};

/// Values of cases: each byte is the id of an object to which a value leads, and bytes with an `x` spell no object.
#[derive(Drop)]
pub struct ByteLinks {
    alloc: Global,
}

impl ByteLinks {
    /// Takes no memory.
    pub fn new(alloc: Global) -> ByteLinks {
        ByteLinks { alloc }
    }
}

impl Links for ByteLinks {
    ghost linked = { linked_by };

    fn links(&self, bytes: &[u8]) -> Result<Option<Oids>, Memory> {
        let mut oids = Oids::new(self.alloc);
        for byte in bytes {
            if *byte == b'x' {
                return Ok(None);
            }
            oids.push(Oid(u64::from(*byte)))?;
        }
        Ok(Some(oids))
    }
}
