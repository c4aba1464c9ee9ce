ghost use Rattle.std.specs.Prelude.{List, ℕ, IfOk, IfErr};
ghost use Rattle.conf_file.specs.Files.{IsFirstFault};
ghost use Rattle.catalog.specs.Conf.{IsCatalog, IsEntriesFault, IsConfFault};

use crate::{Catalog, CatalogFault, catalog_of};
use conf_file::{FileFault, read_file};
use std::alloc::Global;
use thiserror::Error;

/// The first rule that a configuration breaks: those of its file, which come first, or those of its entries.
#[derive(Debug, Drop, Error)]
pub enum ConfFault {
    #[error("{0}")]
    File(FileFault),
    #[error("{0}")]
    Entries(CatalogFault),
    /// There wasn't enough memory.
    #[error("out of memory")]
    NoMemory,
}

fn of_file(fault: FileFault) -> ConfFault
    ensures { (bytes : List ℕ) → IsFirstFault bytes fault → IsConfFault bytes result }
{
    match fault {
        FileFault::NoMemory => ConfFault::NoMemory,
        fault => ConfFault::File(fault),
    }
}

fn of_entries(fault: CatalogFault) -> ConfFault
    ensures { (bytes : List ℕ) → IsEntriesFault bytes fault → IsConfFault bytes result }
{
    match fault {
        CatalogFault::NoMemory => ConfFault::NoMemory,
        fault => ConfFault::Entries(fault),
    }
}

/// The catalog of a configuration, or the first rule that it breaks. `NoMemory` may come in place of each other answer but a file that
/// is too large.
pub fn read_catalog(alloc: Global, bytes: &[u8]) -> Result<Catalog, ConfFault>
    ensures ok { IfOk result (IsCatalog bytes.now) }
    ensures err { IfErr result (IsConfFault bytes.now) }
{
    let file = match read_file(alloc, bytes) {
        Ok(file) => file,
        Err(fault) => return Err(of_file(fault)),
    };
    match catalog_of(alloc, file) {
        Ok(catalog) => Ok(catalog),
        Err(fault) => Err(of_entries(fault)),
    }
}
