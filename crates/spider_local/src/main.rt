//! `spider_local`: the front, its backends and the network between them in one process, played by a schedule.
//!
//! This is the thin edge: the command's words, standard input, output and error output, and files, each as the object that
//! `spider_cli::spider_local` works on. All that the program promises stands in that call's contract.
#![tactic(auto)]

mod files;
mod streams;

use files::HostFiles;
use my_wire::write_all;
use spider_cli::spider_local;
use std::env;
use std::io::{self, ErrorKind};
use std::process::ExitCode;
use streams::{Input, Output};

/// The exit status at want of memory.
const NO_MEMORY: u8 = 3;

/// The words behind the program's name.
fn words(rt: &HostRuntime) -> io::Result<Vec<String>> {
    let mut words = Vec::new(rt.alloc());
    for word in env::args(rt)?.skip(1) {
        words.push(word)?;
    }
    Ok(words)
}

fn main(rt: HostRuntime) -> ExitCode {
    let mut files = HostFiles::new(&rt);
    let mut input = Input::new(rt.reader());
    let mut out = Output::new(rt.stdout());
    let mut err = Output::new(rt.stderr());
    let words = match words(&rt) {
        Ok(words) => words,
        Err(e) if e.kind() == ErrorKind::OutOfMemory => {
            let _ = write_all(&mut err, b"out of memory\n");
            return ExitCode::from(NO_MEMORY);
        }
        // Words that are no text have none of the forms, as no words have none.
        Err(_) => Vec::new(rt.alloc()),
    };
    let status = spider_local(
        rt.alloc(),
        words.as_slice(),
        &mut files,
        &mut input,
        &mut out,
        &mut err,
    );
    ExitCode::from(status.code)
}
