use std::alloc::{AllocError, AllocFailed};
use stx_base::Memory;

/// Why nothing is told of a row.
#[derive(Clone, Copy)]
pub enum Trouble {
    Memory,
    /// The row can't be read, and why.
    Row(&'static str),
}

impl From<Memory> for Trouble {
    fn from(_memory: Memory) -> Trouble {
        Trouble::Memory
    }
}

impl From<AllocError> for Trouble {
    fn from(_error: AllocError) -> Trouble {
        Trouble::Memory
    }
}

impl<T: Drop> From<AllocFailed<T>> for Trouble {
    fn from(_error: AllocFailed<T>) -> Trouble {
        Trouble::Memory
    }
}
