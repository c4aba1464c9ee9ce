//! The program `spider_local`: its top call.
//!
//! [`spider_local`] does what the command's words say, over any files, input, output and error output.
//! `check CONF` writes the links of a configuration, or says which rule it breaks. `play CONF` plays the schedule on the input, with the front, its
//! servers' stores and what lies between in memory, and writes the transcript. `wire CONF` serves one session of packets of the MySQL protocol, from the first
//! command on, between the input and the output. `workload CONF SEED N` plays N statements that a seed generates as `play` would, and writes what is told of
//! their transcript in short.
//!
//! The way of a line: `world_play` cuts it out of the input, `schedule` reads it, `world` hands its statement to `front_core` and
//! that one's requests to `branch_store`, and `transcript` writes what the front gave out. `end_text` writes what the servers hold at the end. `workload_play`
//! hands lines that are generated to the same player, and counts in its transcript. `laws` states
//! what the definitions say of one another: each answer is a plain session's, and the decided transactions are a serial history of plain tables.
#![tactic(auto)]

ghost use Rattle.std.specs.Prelude.{◌≡◌, ◌↔◌, ◌⊎◌, None, map, string_bytes, List, ℕ, option_map};
ghost use Rattle.my_wire.specs.Counts.{HasRisen};
ghost use Rattle.world_runs.specs.History.{IsPlain};
ghost use Rattle.spider_cli.specs.Outcome.{code_of, text_of};
ghost use Rattle.spider_cli.specs.Top.{Play, Wire, form_of, word_form, numbers_form, path_of, Does, DoesOn, Runs, Says, IsFrontOf, IsWhole, IsStopped, IsRefused, RunsOn, Checked, Worked};
ghost use Rattle.catalog.specs.Conf.{IsCatalog};
ghost use Rattle.catalog.specs.Views.{View};
ghost use Rattle.plain_sessions.specs.Held.{CanBeServed};
ghost use Rattle.spider_cli.specs.Forms.{form_view};
ghost use Rattle.spider_cli.specs.declared.outcome.Outcome.{Outcome};
ghost use Rattle.world_runs.specs.declared.schedule.LineRule.{LineRule};

mod conf;
mod end_text;
mod laws;
mod numbers;
mod outcome;
mod schedule;
mod transcript;
mod workload_play;
mod world;
mod world_play;

use catalog::{Catalog, read_catalog};
use conf::refused;
use conf_check::links_text;
use laws::is_plain;
use list_types::Text;
use my_wire::{End, Files, FilesFault, Sink, Source, Status, write_all};
use numbers::number_within;
use outcome::{Object, Outcome, say, status_code};
use phase_law::configurations_can_be_served;
use std::alloc::Global;
use wire_play::{WireEnd, wire};
use workload_play::play_workload;
use world_play::{PlayEnd, play};

/// What the words ask for, with the path of the configuration.
#[derive(Clone, Copy)]
enum Form<'a> {
    /// To check the configuration.
    Check(&'a str),
    /// To play the schedule on the input.
    Play(&'a str),
    /// To serve one session of packets, between the input and the output.
    Wire(&'a str),
    /// To play so many statements that a seed generates.
    Workload {
        path: &'a str,
        seed: u64,
        count: u64,
    },
}

/// A workload has no more statements.
const MOST_STATEMENTS: u64 = 100_000;

/// The form of a first word and a path.
fn word_form<'a>(word: &str, path: &'a str) -> Option<Form<'a>>
    ensures { option_map form_view result ≡ word_form word.now path.now }
{
    if path.as_bytes().starts_with(b"-") {
        return None;
    }
    match word {
        "check" => Some(Form::Check(path)),
        "play" => Some(Form::Play(path)),
        "wire" => Some(Form::Wire(path)),
        _ => None,
    }
}

/// The form of a first word, a path and two numbers.
fn numbers_form<'a>(word: &str, path: &'a str, seed: &str, count: &str) -> Option<Form<'a>>
    ensures { option_map form_view result ≡ numbers_form word.now path.now seed.now count.now }
{
    if path.as_bytes().starts_with(b"-") {
        return None;
    }
    if word != "workload" {
        return None;
    }
    let seed = number_within(0, u64::MAX, seed)?;
    let count = number_within(1, MOST_STATEMENTS, count)?;
    Some(Form::Workload { path, seed, count })
}

/// The form of the words, where they have one.
fn form_of(words: &[String]) -> Option<Form<'_>>
    ensures { option_map form_view result ≡ form_of (map string_bytes words.now) }
{
    match words {
        [word, path] => word_form(word.as_str(), path.as_str()),
        [word, path, seed, count] => numbers_form(
            word.as_str(),
            path.as_str(),
            seed.as_str(),
            count.as_str(),
        ),
        _ => None,
    }
}

/// Plays the input on a catalog.
fn play_catalog<I: Source, O: Sink>(
    alloc: Global,
    catalog: Catalog,
    input: &mut I,
    out: &mut O,
) -> Outcome
    requires { CanBeServed catalog }
    ensures { (path : List ℕ) → Does I.gives I.has_ended I.faults O.takes O.faults input.old input.new out.old out.new catalog (Play path) result }
{
    match play(alloc, catalog, input, out) {
        PlayEnd::Done => Outcome::Done,
        PlayEnd::Refused { line, rule } => Outcome::Refused { line, rule },
        PlayEnd::ReadFault => Outcome::Fault(Object::Input),
        PlayEnd::WriteFault => Outcome::Fault(Object::Output),
        PlayEnd::NoMemory => Outcome::NoMemory,
    }
}

/// Plays the input on a configuration.
fn play_on<I: Source, O: Sink>(alloc: Global, conf: &[u8], input: &mut I, out: &mut O) -> Outcome
    ensures { (path : List ℕ) → RunsOn I.gives I.has_ended I.faults O.takes O.faults input.old input.new out.old out.new conf.now (Play path) result }
{
    configurations_can_be_served();
    match read_catalog(alloc, conf) {
        Ok(catalog) => play_catalog(alloc, catalog, input, out),
        Err(fault) => refused(alloc, &fault),
    }
}

/// Serves one session of packets on a catalog.
fn wire_catalog<I: Source, O: Sink>(
    alloc: Global,
    catalog: Catalog,
    input: &mut I,
    out: &mut O,
) -> Outcome
    requires { CanBeServed catalog }
    ensures { (path : List ℕ) → Does I.gives I.has_ended I.faults O.takes O.faults input.old input.new out.old out.new catalog (Wire path) result }
{
    match wire(alloc, catalog, input, out) {
        WireEnd::Done => Outcome::Done,
        WireEnd::Failed(End::Source) => Outcome::Fault(Object::Input),
        WireEnd::Failed(End::Sink) => Outcome::Fault(Object::Output),
        WireEnd::NoMemory => Outcome::NoMemory,
    }
}

/// Serves one session of packets on a configuration.
fn wire_on<I: Source, O: Sink>(alloc: Global, conf: &[u8], input: &mut I, out: &mut O) -> Outcome
    ensures { (path : List ℕ) → RunsOn I.gives I.has_ended I.faults O.takes O.faults input.old input.new out.old out.new conf.now (Wire path) result }
{
    configurations_can_be_served();
    match read_catalog(alloc, conf) {
        Ok(catalog) => wire_catalog(alloc, catalog, input, out),
        Err(fault) => refused(alloc, &fault),
    }
}

/// Writes the links of a catalog.
fn write_links<O: Sink>(alloc: Global, catalog: &Catalog, out: &mut O) -> Outcome
    ensures { (conf : List ℕ) → IsCatalog conf catalog.now → Checked O.takes O.faults out.old out.new conf result }
{
    let Ok(text) = links_text(alloc, catalog) else {
        return Outcome::NoMemory;
    };
    match write_all(out, text.as_slice()) {
        Ok(()) => Outcome::Done,
        Err(_) => Outcome::Fault(Object::Output),
    }
}

/// Checks a configuration.
fn check_on<O: Sink>(alloc: Global, conf: &[u8], out: &mut O) -> Outcome
    ensures { Checked O.takes O.faults out.old out.new conf.now result }
{
    match read_catalog(alloc, conf) {
        Ok(catalog) => write_links(alloc, &catalog, out),
        Err(fault) => refused(alloc, &fault),
    }
}

/// Plays generated statements on a configuration.
fn workload_on<O: Sink>(alloc: Global, conf: &[u8], seed: u64, count: u64, out: &mut O) -> Outcome
    ensures { Worked O.takes O.faults out.old out.new conf.now seed count result }
{
    configurations_can_be_served();
    match read_catalog(alloc, conf) {
        Ok(catalog) => play_workload(alloc, &catalog, seed, count, out),
        Err(fault) => refused(alloc, &fault),
    }
}

/// Does what the form asks for, on a configuration.
fn carry_out<I: Source, O: Sink>(
    alloc: Global,
    form: Form<'_>,
    conf: &[u8],
    input: &mut I,
    out: &mut O,
) -> Outcome
    ensures { DoesOn I.gives I.has_ended I.faults O.takes O.faults input.old input.new out.old out.new conf.now (form_view form.entry) result }
{
    match form {
        Form::Check(_path) => check_on(alloc, conf, out),
        Form::Play(_path) => play_on(alloc, conf, input, out),
        Form::Wire(_path) => wire_on(alloc, conf, input, out),
        Form::Workload {
            path: _path,
            seed,
            count,
        } => workload_on(alloc, conf, seed, count, out),
    }
}

/// The path of the configuration.
fn path_of<'a>(form: Form<'a>) -> &'a str
    ensures { result.now ≡ path_of (form_view form.entry) }
{
    match form {
        Form::Check(path) => path,
        Form::Play(path) => path,
        Form::Wire(path) => path,
        Form::Workload {
            path,
            seed: _seed,
            count: _count,
        } => path,
    }
}

/// Does what the words say.
fn run<F: Files, I: Source, O: Sink>(
    alloc: Global,
    words: &[String],
    files: &mut F,
    input: &mut I,
    out: &mut O,
) -> Outcome
    ensures { Runs F.holds F.faults I.gives I.has_ended I.faults O.takes O.faults (map string_bytes words.now) files.old files.new input.old input.new out.old out.new result }
{
    let Some(form) = form_of(words) else {
        return Outcome::Usage;
    };
    match files.read_file(alloc, path_of(form)) {
        Ok(conf) => carry_out(alloc, form, conf.as_slice(), input, out),
        Err(FilesFault::TooLarge) => match Text::from_str(alloc, "too large") {
            Ok(rule) => Outcome::Conf(rule),
            Err(_) => Outcome::NoMemory,
        },
        Err(FilesFault::Failed) => Outcome::Fault(Object::Conf),
        Err(FilesFault::NoMemory) => Outcome::NoMemory,
    }
}

/// The program: does what the words say, and answers the exit status.
///
/// The statuses are 0 done, 1 a call on the outside failed, 2 the words have no form, 3 want of memory, 4 the configuration is refused,
/// 5 a line of the schedule breaks a rule. What is said of it on error output takes no memory, and a fault of
/// the error output changes no status. The words leave out the program's name.
pub fn spider_local<F: Files, I: Source, O: Sink, E: Sink>(
    alloc: Global,
    words: &[String],
    files: &mut F,
    input: &mut I,
    out: &mut O,
    err: &mut E,
) -> Status
    // What is written is always a front: of a catalog's links, of the transcript of the schedule that was read, of what is told of the transcript of
    // generated statements, or of what the client of a session of packets is sent for its bytes, in which the statements' answers are a plain session's.
    // Else nothing was read or written.
    ensures prefix { IsFrontOf F.holds F.faults I.gives I.has_ended I.faults O.takes O.faults (map string_bytes words.now) files.old files.new input.old input.new out.old out.new }

    // Status 0: it is the whole, of a schedule that was read to its end or is generated, or of a session to its end.
    ensures done { result.code ≡ 0 → IsWhole F.holds F.faults I.gives I.has_ended I.faults O.takes O.faults (map string_bytes words.now) files.old files.new input.old input.new out.old out.new }

    // Status 1 comes only where a count rose, 4 only where the file that the words name is refused by a rule, and 5 only at the first line that breaks
    // a rule. Status 2 says exactly that the words have no form.
    ensures fault { result.code ≡ 1 →
        HasRisen (F.faults files.old) (F.faults files.new) ⊎ HasRisen (I.faults input.old) (I.faults input.new) ⊎ HasRisen (O.faults out.old) (O.faults out.new) }
    ensures usage { (result.code ≡ 2) ↔ (form_of (map string_bytes words.now) ≡ None) }
    ensures conf { result.code ≡ 4 → (rule : List ℕ) × IsRefused F.holds (map string_bytes words.now) files.old rule }
    ensures refused { result.code ≡ 5 → (line : ℕ) × (rule : LineRule)
        × IsStopped F.holds F.faults I.gives I.has_ended I.faults O.takes O.faults (map string_bytes words.now) files.old files.new input.old input.new out.old out.new line rule }

    // Each status with its cause, its text on error output and all that was read and written by then.
    ensures ends { (how : Outcome) × (result.code ≡ code_of how) × Says E.takes E.faults err.old (text_of how) err.new
        × Runs F.holds F.faults I.gives I.has_ended I.faults O.takes O.faults (map string_bytes words.now) files.old files.new input.old input.new out.old out.new how }

    // The run that a schedule names is that of a plain session over plain tables: its answers, its decided transactions, its rows at the end.
    ensures plain { (conf : List ℕ) (catalog : View) → IsCatalog conf catalog → (schedule : List ℕ) → IsPlain catalog schedule }
{
    is_plain();
    let how = run(alloc, words, files, input, out);
    let code = status_code(&how);
    say(&how, err);
    Status { code }
}
