use std::alloc::{AllocError, AllocFailed};
use thiserror::Error;

/// Why a text isn't a statement, or a request.
#[derive(Clone, Copy, Debug, PartialEq, Eq, Error)]
pub enum ParseFault {
    /// No statement has these bytes: the place is the first byte of the first token that can't stand there or of the first bytes that are no UTF-8, or
    /// the text's length, where it ends too early.
    #[error("syntax error at byte {place}")]
    Syntax { place: u64 },
    /// Too many openings stand inside one another: the place is that of the first one too many.
    #[error("nested too deep at byte {place}")]
    Deep { place: u64 },
    /// Want of memory.
    #[error("out of memory")]
    NoMemory,
}

/// Where reading tokens stops: so many tokens before their end, at an opening too many or at a token that can't stand there.
#[derive(Clone, Copy, Debug, PartialEq, Eq)]
pub struct Stop {
    pub deep: bool,
    pub left: usize,
}

/// Why tokens aren't read.
#[derive(Clone, Copy, Debug)]
pub enum ReadError {
    Stopped(Stop),
    Memory,
}

impl From<AllocError> for ReadError {
    ghost use Rattle.std.specs.Prelude.{◌≡◌};
    ghost use Rattle.sql_text.specs.declared.fault.ReadError.TheVariants.{Memory};

    ghost from_gives = { λ _ e. e ≡ Memory };

    fn from(_error: AllocError) -> ReadError {
        ReadError::Memory
    }
}

impl<T: Drop> From<AllocFailed<T>> for ReadError {
    ghost use Rattle.std.specs.Prelude.{◌≡◌};
    ghost use Rattle.sql_text.specs.declared.fault.ReadError.TheVariants.{Memory};

    ghost from_gives = { λ _ e. e ≡ Memory };

    fn from(_error: AllocFailed<T>) -> ReadError {
        ReadError::Memory
    }
}
