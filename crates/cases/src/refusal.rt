use std::alloc::{AllocError, AllocFailed};
use zbase::Memory;

/// Why a text of cases was not read, or a case not run.
#[derive(Clone, Copy, Debug, PartialEq, Eq)]
pub enum CasesRefusal {
    /// The line of this number, from 1 on, is none of the format's.
    BadLine(usize),
    /// The part of this line can't be read: a number that is none, say.
    BadPart(usize),
    /// A part is missing that the case needs.
    Missing,
    /// Want of memory.
    Memory,
}

impl From<Memory> for CasesRefusal {
    fn from(_: Memory) -> CasesRefusal {
        CasesRefusal::Memory
    }
}

impl From<AllocError> for CasesRefusal {
    fn from(_: AllocError) -> CasesRefusal {
        CasesRefusal::Memory
    }
}

impl<T: Drop> From<AllocFailed<T>> for CasesRefusal {
    fn from(_: AllocFailed<T>) -> CasesRefusal {
        CasesRefusal::Memory
    }
}
