// The answers to commands that are no statements, and to headers that are refused.
ghost use Rattle.std.specs.Prelude.{◌≡◌, ◌≤◌, length, IfOk};
ghost use Rattle.my_messages.specs.Command.{IsDatabase};
ghost use Rattle.my_messages.specs.Reply.{HasBytes};
ghost use Rattle.front_node.specs.Session.{done_reply, unknown_command_reply, unknown_database_reply, database_reply, too_large_reply, out_of_order_reply};

use list_types::Text;
use my_messages::Reply;
use std::alloc::{AllocError, Global};

/// The name of the one database.
const DATABASE: &str = "spider";

/// Done, with the session's status.
pub fn done(status: u16) -> Reply
    ensures { result ≡ done_reply status }
{
    Reply::Ok {
        affected: 0,
        status,
        warnings: 0,
    }
}

fn refused(alloc: Global, number: u16, state: [u8; 5], message: &str) -> Result<Reply, AllocError>
    ensures { IfOk result (λ reply. reply ≡ Reply.Err number state message.now) }
{
    Ok(Reply::Err {
        number,
        state,
        message: Text::from_str(alloc, message)?,
    })
}

/// The command isn't served.
pub fn unknown_command(alloc: Global) -> Result<Reply, AllocError>
    ensures reply { IfOk result (λ reply. reply ≡ unknown_command_reply) }
    ensures bytes { IfOk result HasBytes }
{
    refused(alloc, 1047, *b"08S01", "Unknown command")
}

/// There is no such database.
fn unknown_database(alloc: Global, name: &Text) -> Result<Reply, AllocError>
    requires { length name.now ≤ 1048548 }
    ensures reply { IfOk result (λ reply. reply ≡ unknown_database_reply name.now) }
    ensures bytes { IfOk result HasBytes }
{
    Ok(Reply::Err {
        number: 1049,
        state: *b"42000",
        message: Text::from_string(format!(in alloc; "Unknown database '{name}'")?),
    })
}

/// A database is chosen.
pub fn database(alloc: Global, status: u16, name: &Text) -> Result<Reply, AllocError>
    requires { length name.now ≤ 1048548 }
    ensures reply { IfOk result (λ reply. reply ≡ database_reply status name.now) }
    ensures bytes { IfOk result HasBytes }
{
    if name.as_str() == DATABASE {
        Ok(done(status))
    } else {
        unknown_database(alloc, name)
    }
}

/// A packet's payload is too large.
pub fn too_large(alloc: Global) -> Result<Reply, AllocError>
    ensures reply { IfOk result (λ reply. reply ≡ too_large_reply) }
    ensures bytes { IfOk result HasBytes }
{
    refused(
        alloc,
        1153,
        *b"08S01",
        "Got a packet bigger than 1048576 bytes",
    )
}

/// A packet has another number than the one that was expected.
pub fn out_of_order(alloc: Global, expected: u8, found: u8) -> Result<Reply, AllocError>
    ensures reply { IfOk result (λ reply. reply ≡ out_of_order_reply expected found) }
    ensures bytes { IfOk result HasBytes }
{
    Ok(Reply::Err {
        number: 1156,
        state: *b"08S01",
        message: Text::from_string(format!(in alloc;
            "Got packets out of order: expected {expected}, found {found}"
        )?),
    })
}
