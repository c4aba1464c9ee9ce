// The files of the machine. They tell nothing of content, and keep their count.
use my_wire::{Bytes, Files, FilesFault, LARGEST_FILE};
use std::alloc::Global;
use std::fs::File;
use std::io::{self, ErrorKind, Read};

/// The files of the runtime.
#[derive(Drop)]
pub struct HostFiles<'a, R> {
    rt: &'a R,
    faults: u64,
}

impl<'a, R: std::rt::Files> HostFiles<'a, R> {
    pub fn new(rt: &'a R) -> HostFiles<'a, R> {
        HostFiles { rt, faults: 0 }
    }
}

/// The file's bytes, or one more than are read of any.
fn front_of<R: std::rt::Files>(rt: &R, alloc: Global, path: &str) -> io::Result<Vec<u8>> {
    let mut bytes = Vec::new(alloc);
    File::open(rt, path)?
        .take(LARGEST_FILE as u64 + 1)
        .read_to_end(&mut bytes)?;
    Ok(bytes)
}

impl<'a, R: std::rt::Files> Files for HostFiles<'a, R> {
    ghost holds = { λ _ _ _. Unit {0} };

    ghost faults = { λ s. s.faults };

    fn read_file(&mut self, alloc: Global, path: &str) -> Result<Bytes, FilesFault> {
        match front_of(self.rt, alloc, path) {
            Ok(bytes) if bytes.len() > LARGEST_FILE => Err(FilesFault::TooLarge),
            Ok(bytes) => Ok(Bytes::from_vec(bytes)),
            Err(e) if e.kind() == ErrorKind::OutOfMemory => Err(FilesFault::NoMemory),
            Err(_) => {
                self.faults = self.faults.saturating_add(1);
                Err(FilesFault::Failed)
            }
        }
    }
}
