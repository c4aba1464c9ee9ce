// A session's statement is run, from its text to its answer.
ghost use Rattle.std.specs.Prelude.{◌≡◌, ◌++◌, ◌∷◌, [], List, Option, IfOk, IfSome, OnOk};
ghost use Rattle.my_messages.specs.Reply.{HasBytes};
ghost use Rattle.my_messages.specs.declared.reply.Reply.{Reply};
ghost use Rattle.sql_replies.specs.Errors.{no_memory_reply};
ghost use Rattle.front_core.specs.declared.event.Output.{Output};
ghost use Rattle.front_core.specs.Outputs.{sends, outputs_of, AnswersHaveBytes};
ghost use Rattle.front_node.specs.Asking.{Busy, Node, Turn, Turns, Runs, reply_in};

use crate::{Backs, Kernel};
use front_core::{Event, Output, Outputs};
use list_types::{Bytes, Listed};
use my_messages::Reply;
use sql_replies::no_memory;
use sql_text::LinkRequest;
use sql_values::ServerNo;
use std::alloc::{AllocError, Global};
use std::collections::VecDeque;

/// The requests of a statement that weren't asked yet, in order.
pub type Requests = VecDeque<(ServerNo, LinkRequest)>;

/// What a step gave out. Want of memory stands for one answer.
fn given_list(alloc: Global, given: Outputs) -> Result<Listed<Output>, AllocError>
    ensures { IfOk result (λ outputs. outputs ≡ outputs_of given) }
{
    match given {
        Outputs::Given(outputs) => Ok(outputs),
        Outputs::NoRoom => {
            let mut outputs = Listed::new(alloc);
            outputs.push(Output::Answer {
                tx: None,
                reply: no_memory(alloc)?,
            })?;
            Ok(outputs)
        }
    }
}

/// Keeps the request that an output is, and answers with the reply that it is.
fn pass_on(output: Output, requests: &mut Requests) -> Result<Option<Reply>, AllocError>
    ensures sent { OnOk result (requests.new.items ≡ requests.old.items ++ sends (output ∷ [])) }
    ensures reply { IfOk result (λ reply. reply ≡ reply_in (output ∷ [])) }
{
    match output {
        Output::Send { server, request } => {
            requests.push_back((server, request))?;
            Ok(None)
        }
        Output::Answer { tx: _tx, reply } => Ok(Some(reply)),
        Output::Await { server: _server } => Ok(None),
        Output::Decided { tx: _tx } => Ok(None),
        Output::Acked { tx: _tx } => Ok(None),
    }
}

/// Keeps the requests among what a step gave out, and answers with the reply among it.
fn pass_all(
    alloc: Global,
    given: Outputs,
    requests: &mut Requests,
) -> Result<Option<Reply>, AllocError>
    requires { AnswersHaveBytes (outputs_of given) }
    ensures sent { OnOk result (requests.new.items ≡ requests.old.items ++ sends (outputs_of given)) }
    ensures reply { IfOk result (λ reply. reply ≡ reply_in (outputs_of given)) }
    ensures bytes { IfOk result (λ reply. IfSome reply HasBytes) }
{
    let reply = pass_each(alloc, given, requests)?;
    Ok(reply)
}

fn pass_each(
    alloc: Global,
    given: Outputs,
    requests: &mut Requests,
) -> Result<Option<Reply>, AllocError>
    ensures sent { OnOk result (requests.new.items ≡ requests.old.items ++ sends (outputs_of given)) }
    ensures reply { IfOk result (λ reply. reply ≡ reply_in (outputs_of given)) }
{
    let mut reply = None;
    for output in given_list(alloc, given)?.into_vec() {
        let told = pass_on(output, requests)?;
        reply = told.or(reply);
    }
    Ok(reply)
}

/// Asks a server the request, and the front gets its answer.
fn turn<B: Backs>(
    alloc: Global,
    session: u32,
    front: &mut Kernel,
    backs: &mut B,
    asked: &(ServerNo, LinkRequest),
    requests: &mut Requests,
) -> Result<Option<Reply>, AllocError>
    ensures bytes { IfOk result (λ reply. IfSome reply HasBytes) }
    ensures asked { IfOk result (λ reply. (outputs : List Output) × (reply ≡ reply_in outputs)
        × Turn B.asks session (record { front = front.old; requests = asked.now ∷ requests.old.items; backs = backs.old }) outputs
        (record { front = front.new; requests = requests.new.items; backs = backs.new })) }
{
    let (server, request) = asked;
    let server = *server;
    let answer = backs.ask(alloc, server, request)?;
    let given = front.step(Event::Got {
        session,
        server,
        answer,
    });
    pass_all(alloc, given, requests)
}

/// Turns until the session is idle or no request is left, at most so many.
fn turns<B: Backs>(
    alloc: Global,
    session: u32,
    front: &mut Kernel,
    backs: &mut B,
    most: u64,
    requests: &mut Requests,
) -> Result<Option<Reply>, AllocError>
    ensures bytes { IfOk result (λ reply. IfSome reply HasBytes) }
    ensures asked { IfOk result (λ reply. (outputs : List Output) × (reply ≡ reply_in outputs)
        × Turns B.asks session most (record { front = front.old; requests = requests.old.items; backs = backs.old }) outputs
        (record { front = front.new; requests = requests.new.items; backs = backs.new })) }
{
    let mut reply = None;
    for _ in 0..most {
        if front.is_idle(session) {
            return Ok(reply);
        }
        let Some(asked) = requests.pop_front() else {
            return Ok(reply);
        };
        let told = turn(alloc, session, front, backs, &asked, requests)?;
        reply = told.or(reply);
    }
    Ok(reply)
}

/// Runs a statement of the session, and answers with the reply to its client.
pub fn run<B: Backs>(
    alloc: Global,
    session: u32,
    front: &mut Kernel,
    backs: &mut B,
    text: Bytes,
) -> Result<Option<Reply>, AllocError>
    ensures bytes { IfOk result (λ reply. IfSome reply HasBytes) }
    ensures asked { IfOk result (λ reply. (outputs : List Output) × (reply ≡ reply_in outputs)
        × Runs B.asks session (record { front = front.old; backs = backs.old }) text outputs (record { front = front.new; backs = backs.new })) }
{
    let given = front.step(Event::Statement { session, text });
    let mut requests = VecDeque::new(alloc);
    let reply = pass_all(alloc, given, &mut requests)?;
    let told = turns(alloc, session, front, backs, u64::MAX, &mut requests)?;
    Ok(told.or(reply))
}
