// What is told of a transcript in short.
ghost use Rattle.std.specs.Prelude.{◌≡◌, ◌++◌, OnOk, IfOk};
ghost use Rattle.workload.specs.Summary.{after_word, first_word, kind_word, is_answer, ended, count_line, summary};

use crate::cutting::cut_at;
use crate::statements::push_number;
use std::alloc::{AllocError, Global};

/// What follows the first blank.
fn after_word(line: &[u8]) -> &[u8]
    ensures { result.now ≡ after_word line.now }
{
    match cut_at(b' ', line) {
        Some((_, more)) => more,
        None => b"",
    }
}

fn first_word(line: &[u8]) -> &[u8]
    ensures { result.now ≡ first_word line.now }
{
    match cut_at(b' ', line) {
        Some((word, _)) => word,
        None => line,
    }
}

/// The fourth word: of an answer, behind its session and its transaction, the kind.
fn kind_word(line: &[u8]) -> &[u8]
    ensures { result.now ≡ kind_word line.now }
{
    first_word(after_word(after_word(after_word(line))))
}

/// Whether a line is an answer of this kind.
fn is_answer(kind: &[u8], line: &[u8]) -> bool
    ensures { result ≡ is_answer kind.now line.now }
{
    line.starts_with(b"answer ") && kind_word(line) == kind
}

/// What was counted, and the lines of links.
#[derive(Drop)]
pub struct Tally {
    ok: u64,
    rows: u64,
    refused: u64,
    decided: u64,
    links: Vec<u8>,
}

impl Tally {
    ghost use Rattle.std.specs.Prelude.{◌≡◌, ◌++◌, [], ◌∷◌, OnOk, IfOk, List, ℕ};
    ghost use Rattle.world_runs.specs.Schedule.{lines_of};
    ghost use Rattle.workload.specs.Tally.{Fits, Counts, Counted, tally_text};

    fn new(alloc: Global) -> Tally
        ensures { (lines : List (List ℕ)) → Counts result lines lines }
    {
        Tally {
            ok: 0,
            rows: 0,
            refused: 0,
            decided: 0,
            links: Vec::new(alloc),
        }
    }

    /// Counts a line, by what it is.
    fn count(&mut self, line: &[u8])
        requires { Fits self.old line.now }
        ensures counted { Counted self.old line.now self.new }
        ensures links { self.new.links.items ≡ self.old.links.items }
    {
        self.ok += u64::from(is_answer(b"ok", line));
        self.rows += u64::from(is_answer(b"rows", line));
        self.refused += u64::from(is_answer(b"err", line));
        self.decided += u64::from(line.starts_with(b"decided "));
    }

    /// Counts a line, and keeps that of a link.
    fn add(&mut self, line: &[u8]) -> Result<(), AllocError>
        requires { Fits self.old line.now }
        ensures { OnOk result ((lines all : List (List ℕ)) → Counts self.old (line.now ∷ lines) all → Counts self.new lines all) }
    {
        self.count(line);
        if !line.starts_with(b"link ") {
            return Ok(());
        }
        push_ended(&mut self.links, line)
    }

    /// What the lines of a text tell.
    fn of(alloc: Global, text: &[u8]) -> Result<Tally, AllocError>
        ensures { IfOk result (λ tally. Counts tally [] (lines_of text.now)) }
    {
        let mut tally = Tally::new(alloc);
        let mut left = text;
        while let Some((line, more)) = cut_at(b'\n', left) {
            tally.add(line)?;
            left = more;
        }
        if left.is_empty() {
            return Ok(tally);
        }
        tally.add(left)?;
        Ok(tally)
    }

    /// Adds a line for each count.
    fn push_counts(&self, text: &mut Vec<u8>) -> Result<(), AllocError>
        ensures { OnOk result (text.new.items ≡ text.old.items ++ tally_text self.now) }
    {
        push_count(text, b"ok", self.ok)?;
        push_count(text, b"rows", self.rows)?;
        push_count(text, b"refused", self.refused)?;
        push_count(text, b"decided", self.decided)
    }
}

/// Adds a line with its end.
fn push_ended(text: &mut Vec<u8>, line: &[u8]) -> Result<(), AllocError>
    ensures { OnOk result (text.new.items ≡ text.old.items ++ ended line.now) }
{
    text.extend_from_slice(line)?;
    text.extend_from_slice(b"\n")
}

/// Adds a word and a number.
fn push_count(text: &mut Vec<u8>, word: &[u8], count: u64) -> Result<(), AllocError>
    ensures { OnOk result (text.new.items ≡ text.old.items ++ count_line word.now count) }
{
    text.extend_from_slice(word)?;
    text.extend_from_slice(b" ")?;
    push_number(text, count)?;
    text.extend_from_slice(b"\n")
}

/// What is told in short of a transcript of so many statements: the counts of its answers by their kinds and of its decided transactions, and its links
/// without their rows.
pub fn summary(alloc: Global, played: u64, transcript: &[u8]) -> Result<Vec<u8>, AllocError>
    ensures { IfOk result (λ text. text.items ≡ summary played transcript.now) }
{
    let tally = Tally::of(alloc, transcript)?;
    let mut text = Vec::new(alloc);
    push_count(&mut text, b"statements", played)?;
    tally.push_counts(&mut text)?;
    text.extend_from_slice(tally.links.as_slice())?;
    Ok(text)
}
