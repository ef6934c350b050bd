use std::alloc::{AllocError, AllocFailed};

/// Want of memory: an allocation was refused.
#[derive(Clone, Copy, Debug, PartialEq, Eq)]
pub struct Memory;

impl From<AllocError> for Memory {
    fn from(_refused: AllocError) -> Memory {
        Memory
    }
}

impl<T: Drop> From<AllocFailed<T>> for Memory {
    fn from(_refused: AllocFailed<T>) -> Memory {
        Memory
    }
}

/// A sum whose absolute values add up to more than 2^127 - 1.
#[derive(Clone, Copy, Debug, PartialEq, Eq)]
pub struct Wide;
