//! A real file as a disk. What it holds no contract can say: it doesn't tell.
ghost use Rattle.std.specs.Prelude.{◌≡◌, ◌≤◌, ◌<◌, ◌+◌, ◌-◌, ◌^◌, None, length, min, refl, IfOk};
ghost use Rattle.disk_core.specs.Counts.{HasCause, HasRisen};
ghost use Rattle.disk_core.specs.FileDisks.{faults_of};

use crate::{Disk, Failed, NoMemory};
use std::fs::{self, Files, OpenFile, OpenOptions};
use std::io::{self, Read, Seek, SeekFrom, Write};

/// A file that was opened for reading and writing.
///
/// Its `sync` asks the system to put data and length on the disk. That the disk then has them is trusted.
#[derive(Drop)]
pub struct FileDisk<F: OpenFile + Read + Write + Seek + Drop> {
    file: F,
    faults: u64,
}

/// Opens a file as a disk. One that isn't there is made, and its entry in its folder is put on the disk too.
pub fn open_file_disk<R: Files>(files: &R, path: &str) -> io::Result<FileDisk<R::File>>
where
    R::File: OpenFile + Read + Write + Seek + Drop,
    ensures { IfOk result (λ d. faults_of d ≡ 0) }
{
    let file = OpenOptions::new()
        .read(true)
        .write(true)
        .create(true)
        .open(files, path)?;
    file.sync_all()?;
    let folder = match path.rsplit_once('/') {
        Some(("", _)) => "/",
        Some((folder, _)) => folder,
        None => ".",
    };
    fs::open(files, folder)?.sync_all()?;
    Ok(FileDisk { file, faults: 0 })
}

/// Reads until the room is full or the file ends, and answers how many bytes it read.
fn read_full<F: Read>(file: &mut F, into: &mut [u8]) -> Result<usize, Failed>
    ensures { IfOk result (λ n. n ≤ length into.old) }
{
    let mut done = 0;
    while done < into.len() {
        match file.read(&mut into[done..]) {
            Ok(0) => return Ok(done),
            Ok(n) => done += n,
            Err(_) => return Err(Failed),
        }
    }
    Ok(done)
}

impl<F: OpenFile + Read + Write + Seek + Drop> FileDisk<F> {
    fn noted<T>(&mut self, outcome: Result<T, Failed>) -> Result<T, Failed>
        ensures same { result ≡ outcome }
        ensures counted { HasCause self.old.faults self.new.faults result }
    {
        if outcome.is_err() {
            self.faults = self.faults.saturating_add(1);
        }
        outcome
    }

    fn seek_and_read(&mut self, at: u64, into: &mut [u8]) -> Result<usize, Failed>
        ensures within { IfOk result (λ n. n ≤ length into.old) }
        ensures faults { self.new.faults ≡ self.old.faults }
    {
        match self.file.seek(SeekFrom::Start(at)) {
            Ok(_) => read_full(&mut self.file, into),
            Err(_) => Err(Failed),
        }
    }

    fn seek_and_write(&mut self, at: u64, bytes: &[u8]) -> io::Result<()>
        ensures faults { self.new.faults ≡ self.old.faults }
    {
        self.file.seek(SeekFrom::Start(at))?;
        self.file.write_all(bytes)?;
        self.file.flush()
    }
}

/// Forgets why a call on a file failed.
fn told<T: Drop>(outcome: io::Result<T>) -> Result<T, Failed> {
    match outcome {
        Ok(answer) => Ok(answer),
        Err(_) => Err(Failed),
    }
}

impl<F: OpenFile + Read + Write + Seek + Drop> Disk for FileDisk<F> {
    ghost state = { λ _. None };

    ghost trial = { λ _. None };

    ghost faults = { λ d. d.faults };

    ghost room = { λ _. 2 ^ 64 };

    ghost calls = { λ _. 6 };

    ghost seen_may_stay = { λ d s is. Prim.cc };

    ghost all_or_none = { λ d e. refl };

    fn length(&mut self) -> Result<u64, Failed> {
        let length = told(self.file.seek(SeekFrom::End(0)));
        self.noted(length)
    }

    fn read(&mut self, at: u64, into: &mut [u8]) -> Result<usize, Failed> {
        let count = self.seek_and_read(at, into);
        self.noted(count)
    }

    fn write_at(&mut self, at: u64, bytes: &[u8]) -> Result<(), Failed> {
        let written = told(self.seek_and_write(at, bytes));
        self.noted(written)
    }

    fn cut(&mut self, len: u64) -> Result<(), Failed> {
        let cut = told(self.file.set_len(len));
        self.noted(cut)
    }

    fn sync(&mut self) -> Result<(), Failed> {
        let synced = told(self.file.sync_all());
        self.noted(synced)
    }

    fn ready(&mut self, _bytes: u64) -> Result<(), NoMemory> {
        Ok(())
    }
}
