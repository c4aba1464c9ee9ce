//! Literals on their way into columns, and how much room a row takes.

ghost use Rattle.std.specs.Prelude.{◌≡◌, ◌+◌, ◌-◌, ◌^◌, ◌⊎◌, List, ℕ, IfOk, IfErr, IsErrOf, Ok, Err, min};
ghost use Rattle.sql_values.specs.Storing.{is_within as fits_within, stored, row_size, value_size as size_of_value};

use crate::expressions::to_big_int;
use crate::kinds::character_count;
use crate::{Kind, Literal, Row, Text, Value};
use std::alloc::{AllocError, Global};
use thiserror::Error;

/// The most bytes of a text in a column.
const LONGEST_TEXT: usize = 1024;

/// Why a literal can't be stored in a column.
#[derive(Debug, Drop, Error)]
pub enum StoreFault {
    /// No column holds NULL.
    #[error("NULL")]
    IsNull,
    /// A number meets a VARCHAR, or a text a BIGINT.
    #[error("a value of another type")]
    TypeMismatch,
    /// The number is outside the range of a BIGINT.
    #[error("out of the range of a BIGINT")]
    OutOfRange,
    /// The text has more characters than the column allows, or more than 1,024 bytes.
    #[error("a text that is too long")]
    TooLong,
    /// There wasn't enough memory.
    #[error("out of memory")]
    NoMemory,
}

impl From<AllocError> for StoreFault {
    ghost use Rattle.std.specs.Prelude.{◌≡◌};
    ghost use Rattle.sql_values.specs.declared.storage.StoreFault.TheVariants.{NoMemory};

    ghost from_gives = { λ _ fault. fault ≡ NoMemory };

    fn from(_error: AllocError) -> StoreFault {
        StoreFault::NoMemory
    }
}

fn is_within(most: u32, text: &str) -> bool
    ensures { result ≡ fits_within most text.now }
{
    text.len() <= LONGEST_TEXT && character_count(text) <= most as usize
}

fn store_number(number: i128, kind: Kind) -> Result<Value, StoreFault>
    ensures { result ≡ stored (Literal.Number number) kind }
{
    match kind {
        Kind::BigInt => match to_big_int(number) {
            Some(number) => Ok(Value::Number(number)),
            None => Err(StoreFault::OutOfRange),
        },
        Kind::VarChar(_) => Err(StoreFault::TypeMismatch),
    }
}

fn store_text(alloc: Global, text: &str, kind: Kind) -> Result<Value, StoreFault>
    ensures value { IfOk result (λ v. stored (Literal.Text text.now) kind ≡ Ok v) }
    ensures fault { IfErr result (λ f. (f ≡ StoreFault.NoMemory) ⊎ (stored (Literal.Text text.now) kind ≡ Err f)) }
    ensures memory { IsErrOf result StoreFault.NoMemory → stored (Literal.Text text.now) kind ≡ Ok (Value.Text text.now) }
{
    match kind {
        Kind::BigInt => Err(StoreFault::TypeMismatch),
        Kind::VarChar(most) => {
            if is_within(most, text) {
                Ok(Value::Text(Text::from_str(alloc, text)?))
            } else {
                Err(StoreFault::TooLong)
            }
        }
    }
}

/// The value that a column of this kind holds after the literal was stored there.
///
/// Memory is taken for a text that fits alone.
pub fn store(alloc: Global, literal: &Literal, kind: Kind) -> Result<Value, StoreFault>
    ensures value { IfOk result (λ v. stored literal.now kind ≡ Ok v) }
    ensures fault { IfErr result (λ f. (f ≡ StoreFault.NoMemory) ⊎ (stored literal.now kind ≡ Err f)) }
    ensures memory { IsErrOf result StoreFault.NoMemory → (t : List ℕ) × (stored literal.now kind ≡ Ok (Value.Text t)) }
{
    match literal {
        Literal::Null => Err(StoreFault::IsNull),
        Literal::Number(number) => store_number(*number, kind),
        Literal::Text(text) => store_text(alloc, text.as_str(), kind),
    }
}

fn value_size(value: &Value) -> u64
    ensures { result ≡ min (size_of_value value.now) (2 ^ 64 - 1) }
{
    match value {
        Value::Number(_) => 9,
        Value::Text(text) => (text.as_str().len() as u64).saturating_add(5),
    }
}

/// How many bytes a row takes: 4, and 9 for each number, and 5 and its length for each text; 2^64 - 1 where it would be more. It takes no memory.
pub fn size(row: &Row) -> u64
    ensures { result ≡ min (row_size row.now) (2 ^ 64 - 1) }
{
    let mut total: u64 = 4;
    for value in row.as_slice() {
        total = total.saturating_add(value_size(value));
    }
    total
}
