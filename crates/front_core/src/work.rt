//! What a session's statement waits for.
ghost use Rattle.std.specs.Prelude.{◌≡◌, ℕ, [], true, Some, None, IfOk, IfErr};
ghost use Rattle.txn_phases.specs.Phases.{owed_next, owed_undoes};
ghost use Rattle.front_core.specs.Outputs.{AnswersHaveBytes};
ghost use Rattle.front_core.specs.Core.{Starves, takes as takes_meant, is_server as is_server_meant, clears, undoes, owing as owing_meant, is_settled as settled, comes, got};
ghost use Rattle.front_core.specs.declared.event.Event.{Event};

use crate::going::hear;
use crate::outputs::{only, push_asks, room};
use crate::texts::{Stepped, begin};
use crate::{Output, TxNo};
use catalog::Catalog;
use list_types::{Bytes, Listed};
use sql_text::LinkAnswer;
use sql_values::{ServerNo, TableNo};
use std::alloc::Global;
use stmt_plan::AnswerColumns;
use txn_phases::{Job, Owed};

/// A statement at work.
#[derive(Debug, Drop)]
pub struct Running {
    pub tx: TxNo,
    pub table: TableNo,
    /// The columns of the answer, where it has some.
    pub columns: Option<AnswerColumns>,
    pub job: Job,
}

/// What a session's statement waits for.
#[derive(Debug, Drop)]
pub enum Work {
    /// No statement is at work.
    Idle,
    /// None is at work, and one that was given up for want of memory owes this.
    Owing(Owed),
    /// A statement with this text waits for what an earlier one owes.
    Clearing { owed: Owed, text: Bytes },
    /// A statement waits for answers.
    Runs(Running),
}

fn is_server(next: Option<ServerNo>, server: ServerNo) -> bool
    ensures { result ≡ is_server_meant next server }
{
    match next {
        Some(next) => next == server,
        None => false,
    }
}

impl Work {
    ghost use Rattle.std.specs.Prelude.{◌≡◌, Some};
    ghost use Rattle.front_core.specs.Core.{is_idle as rests, takes as may_come};

    /// Whether no statement is at work.
    pub(crate) fn is_idle(&self) -> bool
        ensures { result ≡ rests self.now }
    {
        match self {
            Work::Idle | Work::Owing(_) => true,
            Work::Clearing { .. } | Work::Runs(_) => false,
        }
    }

    /// Whether the session reads from that server, and the answer has the form of the one that is awaited.
    pub(crate) fn takes(&self, server: ServerNo, answer: &LinkAnswer) -> bool
        ensures { result ≡ may_come (Some self.now) server answer.now }
    {
        match self {
            Work::Idle | Work::Owing(_) => false,
            Work::Clearing { owed, .. } => is_server(owed.next(), server),
            Work::Runs(run) => is_server(run.job.awaited(), server) && run.job.awaits(answer),
        }
    }
}

/// Whether all was read that was due, and nothing has to be rolled back.
fn is_settled(owed: &Owed) -> bool
    ensures { result ≡ settled owed.now }
{
    owed.next().is_none() && owed.undo_count() == 0
}

/// What is owed, where something is.
pub(crate) fn owing(owed: Owed) -> Work
    ensures { result ≡ owing_meant owed }
{
    if is_settled(&owed) {
        return Work::Idle;
    }
    Work::Owing(owed)
}

/// All was read: the ROLLBACKs go out, or, where there are none, the text is run.
fn undo(
    alloc: Global,
    catalog: &Catalog,
    drawn: u64,
    text: Bytes,
    owed: Owed,
) -> Result<Stepped, Work>
    requires { owed_next owed ≡ None }
    ensures step { IfOk result (λ stepped. stepped ≡ undoes catalog.now drawn text (owed_undoes owed)) }
    ensures bytes { IfOk result (λ stepped. AnswersHaveBytes stepped.2) }
    ensures owed { IfErr result (λ left. left ≡ owing_meant owed) }
{
    let mut owed = owed;
    let count = owed.undo_count();
    if count == 0 {
        return match begin(alloc, catalog, drawn, text.as_slice()) {
            Ok(stepped) => Ok(stepped),
            Err(_) => Err(Work::Idle),
        };
    }
    let Ok(mut outputs) = room(alloc, count) else {
        return Err(Work::Owing(owed));
    };
    let Ok(asks) = owed.undo(alloc) else {
        return Err(Work::Owing(owed));
    };
    push_asks(&mut outputs, asks);
    Ok((
        drawn,
        Work::Clearing { owed, text },
        Listed::from_vec(outputs),
    ))
}

/// What is owed is cleared before the text is run: the answers still due are read first.
fn clear(
    alloc: Global,
    catalog: &Catalog,
    drawn: u64,
    text: Bytes,
    owed: Owed,
) -> Result<Stepped, Work>
    ensures step { IfOk result (λ stepped. stepped ≡ clears catalog.now drawn text owed) }
    ensures bytes { IfOk result (λ stepped. AnswersHaveBytes stepped.2) }
    ensures owed { IfErr result (λ left. left ≡ owing_meant owed) }
{
    let Some(server) = owed.next() else {
        return undo(alloc, catalog, drawn, text, owed);
    };
    match only(alloc, Output::Await { server }) {
        Ok(outputs) => Ok((drawn, Work::Clearing { owed, text }, outputs)),
        Err(_) => Err(Work::Owing(owed)),
    }
}

/// A text comes to a session that is idle. After want of memory it owes what it owed.
pub(crate) fn come(
    alloc: Global,
    catalog: &Catalog,
    drawn: u64,
    text: Bytes,
    work: Work,
) -> Result<Stepped, Work>
    ensures step { IfOk result (λ stepped. stepped ≡ comes catalog.now drawn text work) }
    ensures bytes { IfOk result (λ stepped. AnswersHaveBytes stepped.2) }
    ensures owed { IfErr result (λ left. (n : ℕ) → Starves catalog.now work (Event.Statement n text) left) }
{
    match work {
        Work::Idle => match begin(alloc, catalog, drawn, text.as_slice()) {
            Ok(stepped) => Ok(stepped),
            Err(_) => Err(Work::Idle),
        },
        Work::Owing(owed) => clear(alloc, catalog, drawn, text, owed),
        work => Ok((drawn, work, Listed::new(alloc))),
    }
}

/// An answer comes to a session that awaits it. After want of memory its statement is over.
pub(crate) fn receive(
    alloc: Global,
    catalog: &Catalog,
    drawn: u64,
    work: Work,
    server: ServerNo,
    answer: LinkAnswer,
) -> Result<Stepped, Work>
    requires { takes_meant (Some work) server answer ≡ true }
    ensures step { IfOk result (λ stepped. stepped ≡ got catalog.now drawn work answer) }
    ensures bytes { IfOk result (λ stepped. AnswersHaveBytes stepped.2) }
    ensures owed { IfErr result (λ left. (n : ℕ) → Starves catalog.now work (Event.Got n server answer) left) }
{
    match work {
        Work::Runs(run) => match hear(alloc, catalog, run, answer) {
            Ok((work, outputs)) => Ok((drawn, work, outputs)),
            Err(left) => Err(left),
        },
        Work::Clearing { mut owed, text } => {
            owed.hear(alloc, &answer);
            clear(alloc, catalog, drawn, text, owed)
        }
        work => Ok((drawn, work, Listed::new(alloc))),
    }
}
