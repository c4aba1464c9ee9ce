//! Outputs, put into room that was made before.
ghost use Rattle.std.specs.Prelude.{◌≡◌, ◌+◌, ◌≤◌, ◌++◌, ◌∷◌, [], Some, length, vec_capacity, IfOk};
ghost use Rattle.my_messages.specs.Reply.{HasBytes};
ghost use Rattle.front_core.specs.Core.{sent, asked, ended};
ghost use Rattle.front_core.specs.Outputs.{AnswersHaveBytes};

use crate::{Output, TxNo};
use list_types::Listed;
use my_messages::Reply;
use std::alloc::{AllocError, Global};
use txn_phases::{Ask, Asks, Ending};

/// One output alone.
pub(crate) fn only(alloc: Global, output: Output) -> Result<Listed<Output>, AllocError>
    ensures { IfOk result (λ outputs. outputs ≡ output ∷ []) }
{
    let mut outputs = Listed::new(alloc);
    outputs.push(output)?;
    Ok(outputs)
}

/// Room for so many requests, and for what goes with them.
pub(crate) fn room(alloc: Global, asks: usize) -> Result<Vec<Output>, AllocError>
    ensures empty { IfOk result (λ outputs. outputs.items ≡ []) }
    ensures room { IfOk result (λ outputs. asks + 3 ≤ vec_capacity outputs) }
{
    let Some(count) = asks.checked_add(3) else {
        return Err(AllocError);
    };
    Vec::with_capacity(alloc, count)
}

/// The requests.
fn push_sent(outputs: &mut Vec<Output>, asks: Asks)
    requires { length outputs.old.items + length asks ≤ vec_capacity outputs.old }
    ensures items { outputs.new.items ≡ outputs.old.items ++ sent asks }
    ensures capacity { vec_capacity outputs.new ≡ vec_capacity outputs.old }
{
    for ask in asks.into_vec() {
        let Ask { server, request } = ask;
        outputs.push_reserved(Output::Send { server, request });
    }
}

/// The requests, and then the first one's answer is read.
pub(crate) fn push_asks(outputs: &mut Vec<Output>, asks: Asks)
    requires { length outputs.old.items + length asks + 1 ≤ vec_capacity outputs.old }
    ensures { outputs.new.items ≡ outputs.old.items ++ asked asks }
{
    let server = match asks.as_slice() {
        [first, ..] => first.server,
        [] => return,
    };
    push_sent(outputs, asks);
    outputs.push_reserved(Output::Await { server });
}

/// What is told of a statement that is over.
pub(crate) fn push_ended(outputs: &mut Vec<Output>, tx: TxNo, ending: Ending, reply: Reply)
    requires { length outputs.old.items + 3 ≤ vec_capacity outputs.old }
    ensures { outputs.new.items ≡ outputs.old.items ++ ended tx ending reply }
{
    match ending {
        Ending::Committed => outputs.push_reserved(Output::Acked { tx }),
        Ending::Alone => {
            outputs.push_reserved(Output::Decided { tx });
            outputs.push_reserved(Output::Acked { tx });
        }
        Ending::RolledBack => {}
    }
    outputs.push_reserved(Output::Answer {
        tx: Some(tx),
        reply,
    });
}
