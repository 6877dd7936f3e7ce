ghost use Rattle.std.specs.Prelude.{◌≡◌};
ghost use Rattle.exact_plane.specs.declared.memory.Memory.{Memory};

use std::alloc::{AllocError, AllocFailed};

/// Memory was wanted. When an allocation is refused no contract says.
#[derive(Clone, Copy, Debug, PartialEq, Eq)]
pub struct Memory;

impl From<AllocError> for Memory {
    fn from(_: AllocError) -> Memory {
        Memory
    }
}

impl<T: Drop> From<AllocFailed<T>> for Memory {
    fn from(_: AllocFailed<T>) -> Memory {
        Memory
    }
}
