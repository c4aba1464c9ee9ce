// How a call of the program ended, its exit status, and what it says of it on error output.
ghost use Rattle.std.specs.Prelude.{◌≡◌, ◌++◌, OnOk, OnErr, codes};
ghost use Rattle.my_wire.specs.Counts.{HasRisen, TakesFront};
ghost use Rattle.spider_cli.specs.Outcome.{code_of, text_of, rule_text};
ghost use Rattle.spider_cli.specs.Top.{Says};

use itoa::Buffer;
use list_types::Text;
use my_wire::{Failed, Sink, write_all, write_three};
use world_runs::LineRule;

/// Every form of the words.
const USAGE: &[u8] =
    b"usage: spider_local check CONF / play CONF / wire CONF / workload CONF SEED N\n";

/// What of the outside failed.
#[derive(Clone, Copy, Debug, PartialEq, Eq)]
pub enum Object {
    /// Reading the configuration's file.
    Conf,
    /// Reading standard input.
    Input,
    /// Writing standard output.
    Output,
}

/// How a call of the program ended.
#[derive(Debug, Drop)]
pub enum Outcome {
    /// All is done: status 0.
    Done,
    /// A call on the outside failed: status 1.
    Fault(Object),
    /// The words have no form: status 2.
    Usage,
    /// Want of memory: status 3.
    NoMemory,
    /// The configuration is refused by this rule: status 4.
    Conf(Text),
    /// A line of the schedule breaks a rule: status 5.
    Refused { line: u64, rule: LineRule },
}

/// The exit status.
pub fn status_code(how: &Outcome) -> u8
    ensures { result ≡ code_of how.now }
{
    match how {
        Outcome::Done => 0,
        Outcome::Fault(_) => 1,
        Outcome::Usage => 2,
        Outcome::NoMemory => 3,
        Outcome::Conf(_) => 4,
        Outcome::Refused { .. } => 5,
    }
}

/// The end of what is said of a line that breaks a rule.
fn rule_end(rule: LineRule) -> &'static [u8]
    ensures { result.now ≡ codes ": " ++ (rule_text rule ++ codes "\n") }
{
    match rule {
        LineRule::NotText => b": not text\n",
        LineRule::LineTooLong => b": line too long\n",
        LineRule::TooManyLines => b": too many lines\n",
        LineRule::UnknownWord => b": unknown word\n",
        LineRule::BadNumber => b": bad number\n",
    }
}

/// Says that a line breaks a rule.
fn write_refusal<E: Sink>(line: u64, rule: LineRule, err: &mut E) -> Result<(), Failed>
    ensures whole { OnOk result (E.takes err.old (text_of (Outcome.Refused line rule)) err.new) }
    ensures front { TakesFront E.takes err.old (text_of (Outcome.Refused line rule)) err.new }
    ensures cause { OnErr result (HasRisen (E.faults err.old) (E.faults err.new)) }
{
    let mut buffer = Buffer::new();
    let number = buffer.format(line).as_bytes();
    write_three(err, b"schedule line ", number, rule_end(rule))
}

/// Says how a call ended. It takes no memory, since that may be what is wanting.
fn write_outcome<E: Sink>(how: &Outcome, err: &mut E) -> Result<(), Failed>
    ensures whole { OnOk result (E.takes err.old (text_of how.now) err.new) }
    ensures front { TakesFront E.takes err.old (text_of how.now) err.new }
    ensures cause { OnErr result (HasRisen (E.faults err.old) (E.faults err.new)) }
{
    match how {
        Outcome::Done => write_all(err, b""),
        Outcome::Fault(Object::Conf) => write_all(err, b"outside fault: conf\n"),
        Outcome::Fault(Object::Input) => write_all(err, b"outside fault: input\n"),
        Outcome::Fault(Object::Output) => write_all(err, b"outside fault: output\n"),
        Outcome::Usage => write_all(err, USAGE),
        Outcome::NoMemory => write_all(err, b"out of memory\n"),
        Outcome::Conf(rule) => write_three(err, b"conf: ", rule.as_str().as_bytes(), b"\n"),
        Outcome::Refused { line, rule } => write_refusal(*line, *rule, err),
    }
}

/// The same. A fault of the error output changes nothing.
pub fn say<E: Sink>(how: &Outcome, err: &mut E)
    ensures { Says E.takes E.faults err.old (text_of how.now) err.new }
{
    let _ = write_outcome(how, err);
}
