ghost use Rattle.std.specs.Prelude.{◌≡◌, option_map};
ghost use Rattle.my_wire.specs.MemFile.{contents_at};

use super::{ScriptedCall, bytes_moved};
use crate::files::LARGEST_FILE;
use crate::{Files, FilesFault};
use list_types::{Bytes, Text};
use std::alloc::Global;

/// A file in memory.
#[derive(Debug, Drop)]
pub struct MemFile {
    pub path: Text,
    pub contents: Bytes,
}

/// Files in memory. Reading a path that none of them has fails.
#[derive(Debug, Drop)]
pub struct MemFiles {
    files: Vec<MemFile>,
    script: Vec<ScriptedCall>,
    call: usize,
    faults: u64,
}

/// The contents of the first file with that path.
fn find<'a>(files: &'a [MemFile], path: &str) -> Option<&'a [u8]>
    ensures { option_map (λ c. c.now) result ≡ contents_at files.now path.now }
{
    match files {
        [] => None,
        [first, others @ ..] => {
            if first.path.as_str() == path {
                Some(first.contents.as_slice())
            } else {
                find(others, path)
            }
        }
    }
}

impl MemFiles {
    ghost use Rattle.std.specs.Prelude.{◌≡◌};
    ghost use Rattle.my_wire.specs.Memory.{files_of};

    /// These files. It takes no memory.
    pub fn new(files: Vec<MemFile>, script: Vec<ScriptedCall>) -> MemFiles
        ensures { files_of result ≡ files.items }
    {
        MemFiles {
            files,
            script,
            call: 0,
            faults: 0,
        }
    }
}

impl Files for MemFiles {
    ghost use Rattle.my_wire.specs.Memory.{Holds};

    ghost holds = { Holds };

    ghost faults = { λ s. s.faults };

    fn read_file(&mut self, alloc: Global, path: &str) -> Result<Bytes, FilesFault> {
        let moved = bytes_moved(&self.script, self.call, 1);
        if self.call < self.script.len() {
            self.call += 1;
        }
        let found = find(&self.files, path);
        let (Some(_), Some(contents)) = (moved, found) else {
            self.faults = self.faults.saturating_add(1);
            return Err(FilesFault::Failed);
        };
        if contents.len() > LARGEST_FILE {
            return Err(FilesFault::TooLarge);
        }
        match Vec::from_slice(alloc, contents) {
            Ok(bytes) => Ok(Bytes::from_vec(bytes)),
            Err(_) => Err(FilesFault::NoMemory),
        }
    }
}
