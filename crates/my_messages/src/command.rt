// What a client asks of a server ("Command Phase").
ghost use Rattle.std.specs.Prelude.{◌≡◌, IfOk};
ghost use Rattle.my_messages.specs.Command.{IsCommand, IsKnown, command_bytes};

use list_types::{Bytes, Text};
use std::alloc::{AllocError, Global};

/// The most bytes of a database's name in `COM_INIT_DB`: of a longer one the refusal would not fit a packet.
pub const LONGEST_DATABASE: usize = 1_048_548;

/// A command.
#[derive(Clone, Debug, PartialEq, Eq, Drop)]
pub enum Command {
    /// The client leaves (`COM_QUIT`). There is no answer.
    Quit,
    /// The client chooses a database (`COM_INIT_DB`).
    InitDb(Text),
    /// A statement, whose bytes need be no text (`COM_QUERY`).
    Query(Bytes),
    /// Whether the server is there (`COM_PING`).
    Ping,
    /// Another command, by its first byte, or an empty payload.
    Unknown(Option<u8>),
}

/// The command of this payload. Each payload has exactly one.
pub fn decode_command(alloc: Global, payload: &[u8]) -> Result<Command, AllocError>
    ensures { IfOk result (λ command. IsCommand command payload.now) }
{
    match payload {
        [] => Ok(Command::Unknown(None)),
        [0x01, ..] => Ok(Command::Quit),
        [0x02, text @ ..] => match std::str::from_utf8(text) {
            Ok(name) if text.len() <= LONGEST_DATABASE => {
                Ok(Command::InitDb(Text::from_str(alloc, name)?))
            }
            _ => Ok(Command::Unknown(Some(0x02))),
        },
        [0x03, text @ ..] => Ok(Command::Query(Bytes::from_vec(Vec::from_slice(alloc, text)?))),
        [0x0E, ..] => Ok(Command::Ping),
        [first, ..] => Ok(Command::Unknown(Some(*first))),
    }
}

/// The payload of a command that is known.
pub fn encode_command(alloc: Global, command: &Command) -> Result<Bytes, AllocError>
    requires { IsKnown command.now }
    ensures bytes { IfOk result (λ bytes. bytes ≡ command_bytes command.now) }
    ensures command { IfOk result (λ bytes. IsCommand command.now bytes) }
{
    let mut out = Bytes::new(alloc);
    match command {
        Command::Quit => out.extend_from_slice(&[0x01])?,
        Command::InitDb(name) => {
            out.extend_from_slice(&[0x02])?;
            out.extend_from_slice(name.as_str().as_bytes())?;
        }
        Command::Query(text) => {
            out.extend_from_slice(&[0x03])?;
            out.extend_from_slice(text.as_slice())?;
        }
        Command::Ping => out.extend_from_slice(&[0x0E])?,
        Command::Unknown(_) => unreachable!(),
    }
    Ok(out)
}
