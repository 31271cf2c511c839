//! Why fields cannot be read.

ghost use Rattle.std.specs.Prelude.{◌≡◌};
ghost use Rattle.cx_field.specs.declared.fault.ReadFault.TheVariants as faults;

use cx_base::NoMemory;
use cx_wire::Short;
use std::alloc::{AllocError, AllocFailed};
use thiserror::Error;

/// Why fields could not be read.
#[derive(Clone, Copy, Debug, PartialEq, Eq, Error)]
pub enum ReadFault {
    /// The first bad field is out of its range; this many bytes are left from it on.
    #[error("a bad field, {left} bytes before the end")]
    Bad { left: usize },
    /// The first bad field takes `need` bytes, and fewer are left from it on.
    #[error("{left} bytes for a field of {need}")]
    Cut { left: usize, need: usize },
    #[error("no memory")]
    NoMemory,
}

impl From<Short> for ReadFault {
    ghost from_gives = { λ short e. e ≡ faults.Cut short.have short.need };

    fn from(short: Short) -> ReadFault {
        ReadFault::Cut {
            left: short.have,
            need: short.need,
        }
    }
}

impl From<NoMemory> for ReadFault {
    ghost from_gives = { λ _ e. e ≡ faults.NoMemory };

    fn from(_: NoMemory) -> ReadFault {
        ReadFault::NoMemory
    }
}

impl From<AllocError> for ReadFault {
    ghost from_gives = { λ _ e. e ≡ faults.NoMemory };

    fn from(_: AllocError) -> ReadFault {
        ReadFault::NoMemory
    }
}

impl<T: Drop> From<AllocFailed<T>> for ReadFault {
    ghost from_gives = { λ _ e. e ≡ faults.NoMemory };

    fn from(_: AllocFailed<T>) -> ReadFault {
        ReadFault::NoMemory
    }
}
