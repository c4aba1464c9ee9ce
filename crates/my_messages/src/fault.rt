// Why bytes are no message.
ghost use Rattle.std.specs.Prelude.{◌≡◌};

use std::alloc::{AllocError, AllocFailed};
use thiserror::Error;

/// Why bytes are no message.
#[derive(Clone, Copy, Debug, PartialEq, Eq, Error)]
pub enum MessageFault {
    /// The byte at that place, counted from 0, is the first that no message with the same earlier bytes has; or the
    /// bytes end there, too early.
    #[error("byte {place} fits no message")]
    Malformed { place: u64 },
    /// Want of memory.
    #[error("out of memory")]
    NoMemory,
}

/// The first bad byte, by how many bytes are left from it on.
#[derive(Clone, Copy, Debug, PartialEq, Eq)]
pub(crate) struct BadBytes {
    pub(crate) left: usize,
}

/// Why a reader gave nothing.
#[derive(Clone, Copy, Debug, PartialEq, Eq)]
pub(crate) enum ReadFault {
    NoMemory,
    Bad(BadBytes),
}

impl From<AllocError> for ReadFault {
    ghost use Rattle.std.specs.Prelude.{◌≡◌};
    ghost use Rattle.my_messages.specs.declared.fault.ReadFault.TheVariants.{NoMemory};

    ghost from_gives = { λ _ e. e ≡ NoMemory };

    fn from(_e: AllocError) -> ReadFault {
        ReadFault::NoMemory
    }
}

impl<T: Drop> From<AllocFailed<T>> for ReadFault {
    ghost use Rattle.std.specs.Prelude.{◌≡◌};
    ghost use Rattle.my_messages.specs.declared.fault.ReadFault.TheVariants.{NoMemory};

    ghost from_gives = { λ _ e. e ≡ NoMemory };

    fn from(_e: AllocFailed<T>) -> ReadFault {
        ReadFault::NoMemory
    }
}

impl From<BadBytes> for ReadFault {
    ghost use Rattle.std.specs.Prelude.{◌≡◌};
    ghost use Rattle.my_messages.specs.declared.fault.ReadFault.TheVariants.{Bad};

    ghost from_gives = { λ bad e. e ≡ Bad bad };

    fn from(bad: BadBytes) -> ReadFault {
        ReadFault::Bad(bad)
    }
}
