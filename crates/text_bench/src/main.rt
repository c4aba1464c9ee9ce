//! Parses a text, for the script `bench/text` to measure: `FILE TIMES` parses the file's bytes so many times.
//!
//! The status is 0 where it is a statement, 1 where it is refused, and 2 where the words have no form.
#![tactic(auto)]

use sql_text::parse;
use std::alloc::Global;
use std::process::ExitCode;
use std::{env, fs, io};

/// Whether the text is a statement, told so many times.
fn parse_times(alloc: Global, text: &[u8], times: u32) -> bool {
    let mut all = true;
    for _ in 0..times {
        all &= parse(alloc, text).is_ok();
    }
    all
}

/// What the words say, done; None where they have no form.
fn run(rt: &HostRuntime, alloc: Global, words: &[String]) -> io::Result<Option<bool>> {
    let [path, times] = words else {
        return Ok(None);
    };
    let Ok(times) = times.as_str().parse::<u32>() else {
        return Ok(None);
    };
    let text = fs::read(rt, path.as_str())?;
    Ok(Some(parse_times(alloc, text.as_slice(), times)))
}

fn main(rt: HostRuntime) -> io::Result<ExitCode> {
    let alloc = rt.alloc();
    let mut words = Vec::new(alloc);
    for word in env::args(&rt)?.skip(1) {
        words.push(word)?;
    }
    let status = match run(&rt, alloc, &words)? {
        Some(true) => 0,
        Some(false) => 1,
        None => 2,
    };
    Ok(ExitCode::from(status))
}
