ghost use Rattle.std.specs.Prelude.{◌≡◌, ◌≤◌, List, ℕ, Option, IfOk, IsErrOf};
ghost use Rattle.my_wire.specs.Counts.{HasRisen};

use list_types::Bytes;
use std::alloc::Global;
use thiserror::Error;

/// The most bytes of a file that is read.
pub const LARGEST_FILE: usize = 1_048_576;

/// Why a file wasn't read.
#[derive(Clone, Copy, Debug, PartialEq, Eq, Error)]
pub enum FilesFault {
    /// A call on the outside failed, and the count of faults rose.
    #[error("a call on the outside failed")]
    Failed,
    /// A byte follows the first 1,048,576.
    #[error("the file is too large")]
    TooLarge,
    /// Want of memory.
    #[error("out of memory")]
    NoMemory,
}

/// Where files are read.
pub trait Files {
    /// The file of that path has these bytes, or, at None, more than 1,048,576. One that doesn't tell relates all.
    ghost holds: { Self → List ℕ → Option (List ℕ) → Type 0 };

    /// How often a reading failed.
    ghost faults: { Self → ℕ };

    /// The bytes of the file of that path.
    fn read_file(&mut self, alloc: Global, path: &str) -> Result<Bytes, FilesFault>
        ensures bytes { IfOk result (λ bytes. holds self.old path.now (Some bytes)) }
        ensures too_large { IsErrOf result FilesFault.TooLarge → holds self.old path.now None }
        ensures later { faults self.old ≤ faults self.new }
        ensures cause { IsErrOf result FilesFault.Failed → HasRisen (faults self.old) (faults self.new) };
}
