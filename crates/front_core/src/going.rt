//! How a statement at work goes on.
ghost use Rattle.std.specs.Prelude.{◌≡◌, ◌≤◌, [], true, IfOk, IfErr, OnErr, vec_capacity};
ghost use Rattle.sql_text.specs.declared.link.LinkAnswer.{LinkAnswer};
ghost use Rattle.txn_phases.specs.Phases.{begins as job_begins, hears as job_hears, awaits, owed_noted};
ghost use Rattle.front_core.specs.Outputs.{AnswersHaveBytes};
ghost use Rattle.front_core.specs.Core.{goes_on, owing as owing_meant};
ghost use Rattle.front_core.specs.Planned.{needed, is_over};

use crate::Output;
use crate::outputs::{only, push_asks, push_ended, room};
use crate::replying::reply_to;
use crate::work::{Running, Work, owing};
use catalog::Catalog;
use list_types::Listed;
use sql_text::LinkAnswer;
use std::alloc::{AllocError, Global};
use txn_phases::{Ending, Job, Outcome, Progress};

/// What a statement waits for, and what is given out.
pub(crate) type Went = (Work, Listed<Output>);

/// The statement is over: its client is told so.
fn end(
    alloc: Global,
    catalog: &Catalog,
    outputs: Vec<Output>,
    run: Running,
    ending: Ending,
    outcome: Outcome,
) -> Result<Went, AllocError>
    requires empty { outputs.items ≡ [] }
    requires room { 3 ≤ vec_capacity outputs }
    ensures step { IfOk result (λ went. went ≡ goes_on catalog.now run (run.job, Progress.Over ending outcome)) }
    ensures bytes { IfOk result (λ went. AnswersHaveBytes went.1) }
{
    let mut outputs = outputs;
    let reply = reply_to(alloc, catalog, &run, &outcome)?;
    push_ended(&mut outputs, run.tx, ending, reply);
    Ok((Work::Idle, Listed::from_vec(outputs)))
}

/// What is given out of a job that has come so far. It takes memory only for the reply to a statement that is over.
fn go_on(
    alloc: Global,
    catalog: &Catalog,
    outputs: Vec<Output>,
    run: Running,
    progress: Progress,
) -> Result<Went, AllocError>
    requires empty { outputs.items ≡ [] }
    requires room { needed progress ≤ vec_capacity outputs }
    ensures step { IfOk result (λ went. went ≡ goes_on catalog.now run (run.job, progress)) }
    ensures bytes { IfOk result (λ went. AnswersHaveBytes went.1) }
    ensures over { OnErr result (is_over progress ≡ true) }
{
    let mut outputs = outputs;
    match progress {
        Progress::Waits(server) => outputs.push_reserved(Output::Await { server }),
        Progress::Asks(asks) => push_asks(&mut outputs, asks),
        Progress::Decides(asks) => {
            outputs.push_reserved(Output::Decided { tx: run.tx });
            push_asks(&mut outputs, asks);
        }
        Progress::Over { ending, outcome } => {
            return end(alloc, catalog, outputs, run, ending, outcome);
        }
    }
    Ok((Work::Runs(run), Listed::from_vec(outputs)))
}

/// The statement begins. After want of memory nothing was asked.
pub(crate) fn start(alloc: Global, catalog: &Catalog, run: Running) -> Result<Went, AllocError>
    ensures step { IfOk result (λ went. went ≡ goes_on catalog.now run (job_begins run.job)) }
    ensures bytes { IfOk result (λ went. AnswersHaveBytes went.1) }
{
    let mut run = run;
    let outputs = room(alloc, run.job.most_asked())?;
    let progress = run.job.begin(alloc)?;
    go_on(alloc, catalog, outputs, run, progress)
}

/// Room for what the next answer makes the job give out.
fn room_for(alloc: Global, job: &Job) -> Result<Vec<Output>, AllocError>
    ensures empty { IfOk result (λ outputs. outputs.items ≡ []) }
    ensures room { IfOk result (λ outputs. (answer : LinkAnswer) → needed (job_hears job.now answer).1 ≤ vec_capacity outputs) }
{
    if job.is_last() {
        return room(alloc, job.most_asked());
    }
    Vec::with_capacity(alloc, 1)
}

/// What is owed of a job whose next answer this is, where there was no room for more.
fn note_alone(alloc: Global, job: Job, answer: &LinkAnswer) -> Work
    requires { awaits job answer.now ≡ true }
    ensures { result ≡ owing_meant (owed_noted job answer.now) }
{
    let mut owed = job.into_owed();
    owed.hear(alloc, answer);
    owing(owed)
}

/// The answer that is awaited comes. After want of memory the statement is over, and what it owes is left.
pub(crate) fn hear(
    alloc: Global,
    catalog: &Catalog,
    run: Running,
    answer: LinkAnswer,
) -> Result<Went, Work>
    requires { awaits run.job answer ≡ true }
    ensures step { IfOk result (λ went. went ≡ goes_on catalog.now run (job_hears run.job answer)) }
    ensures bytes { IfOk result (λ went. AnswersHaveBytes went.1) }
    ensures owed { IfErr result (λ left. left ≡ owing_meant (owed_noted run.job answer)) }
{
    let mut run = run;
    let Ok(outputs) = room_for(alloc, &run.job) else {
        return Err(note_alone(alloc, run.job, &answer));
    };
    let Ok(progress) = run.job.hear(alloc, answer) else {
        return Err(owing(run.job.into_owed()));
    };
    match go_on(alloc, catalog, outputs, run, progress) {
        Ok(went) => Ok(went),
        Err(_) => Err(Work::Idle),
    }
}
