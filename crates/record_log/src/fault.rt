//! Why a call on a log was refused.
use disk_core::{Failed, NoMemory};
use std::alloc::AllocError;
use thiserror::Error;

/// Why a call on a log was refused.
#[derive(Clone, Copy, Debug, PartialEq, Eq, Error)]
pub enum LogFault {
    /// A disk failed: its count of faults rose in this call.
    #[error("the log's disk failed")]
    DiskFault,
    /// The log would pass the length that it may have.
    #[error("the log would have {bytes} bytes")]
    Full {
        /// The length that it would have, or 2^64 - 1 where that is more.
        bytes: u64,
    },
    /// The files aren't those of a log.
    #[error("not a log, of {length} bytes")]
    NotALog {
        /// The first eight bytes of the file that shows it, with 00 in the place of those that aren't there.
        found: [u8; 8],
        /// The length of that file.
        length: u64,
    },
    /// No memory was left.
    #[error("no memory is left")]
    NoMemory,
}

impl From<Failed> for LogFault {
    ghost use Rattle.record_log.specs.declared.fault.LogFault.TheVariants.{DiskFault};
    ghost use Rattle.std.specs.Prelude.{◌≡◌};

    ghost from_gives = { λ _ e. e ≡ DiskFault };

    fn from(_: Failed) -> LogFault {
        LogFault::DiskFault
    }
}

impl From<NoMemory> for LogFault {
    ghost use Rattle.record_log.specs.declared.fault.LogFault.TheVariants.{NoMemory};
    ghost use Rattle.std.specs.Prelude.{◌≡◌};

    ghost from_gives = { λ _ e. e ≡ NoMemory };

    fn from(_: NoMemory) -> LogFault {
        LogFault::NoMemory
    }
}

impl From<AllocError> for LogFault {
    ghost use Rattle.record_log.specs.declared.fault.LogFault.TheVariants.{NoMemory};
    ghost use Rattle.std.specs.Prelude.{◌≡◌};

    ghost from_gives = { λ _ e. e ≡ NoMemory };

    fn from(_: AllocError) -> LogFault {
        LogFault::NoMemory
    }
}
