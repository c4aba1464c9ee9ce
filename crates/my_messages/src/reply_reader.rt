// Replies out of the payloads of their packets.
ghost use Rattle.std.specs.Prelude.{◌≡◌, ◌+◌, ◌-◌, ◌^◌, ◌<◌, length, Err};
ghost use Rattle.my_messages.specs.Reading.{Gives};
ghost use Rattle.my_messages.specs.Replies.{first_at, row_or_end, push_at, Pushed, Tells};
ghost use Rattle.my_messages.specs.declared.fault.MessageFault.TheVariants as faults;
ghost use Rattle.my_messages.specs.declared.stage.Stage.TheVariants as stages;

use crate::fault::{BadBytes, ReadFault};
use crate::reading::{column_count, definition, eof_packet, err_packet, ok_packet, switch_request};
use crate::row::row;
use crate::stage::{FirstPayload, RowPayload, Stage};
use crate::{CellRows, Columns, MessageFault, Reply};
use list_types::Listed;
use std::alloc::Global;
use std::marker::Model;
use std::mem;

/// What the first payload of a reply is.
#[tactic(auto, unfolding(crate::specs::Replies::first_at))]
fn first_payload(alloc: Global, payload: &[u8]) -> Result<FirstPayload, ReadFault>
    ensures { Gives (λ x. x) result (first_at payload.now) }
{
    let ok = match ok_packet(payload) {
        Ok(reply) => return Ok(FirstPayload::Whole(reply)),
        Err(bad) => bad,
    };
    let err = match err_packet(alloc, payload) {
        Ok(reply) => return Ok(FirstPayload::Whole(reply)),
        Err(ReadFault::NoMemory) => return Err(ReadFault::NoMemory),
        Err(ReadFault::Bad(bad)) => bad,
    };
    let count = match column_count(payload) {
        Ok(count) => return Ok(FirstPayload::Columns(count)),
        Err(bad) => bad,
    };
    match switch_request(alloc, payload) {
        Ok(reply) => Ok(FirstPayload::Whole(reply)),
        Err(ReadFault::NoMemory) => Err(ReadFault::NoMemory),
        Err(ReadFault::Bad(bad)) => Err(ReadFault::Bad(BadBytes {
            left: ok.left.min(err.left.min(count.left.min(bad.left))),
        })),
    }
}

/// What a payload after the definitions is: the end of the rows, or a row.
#[tactic(auto, unfolding(crate::specs::Replies::row_or_end))]
fn row_payload(alloc: Global, width: u64, payload: &[u8]) -> Result<RowPayload, ReadFault>
    ensures { Gives (λ x. x) result (row_or_end width payload.now) }
{
    let end = match eof_packet(payload) {
        Ok(status) => return Ok(RowPayload::End(status)),
        Err(bad) => bad,
    };
    match row(alloc, width, payload) {
        Ok(cells) => Ok(RowPayload::Row(cells)),
        Err(ReadFault::NoMemory) => Err(ReadFault::NoMemory),
        Err(ReadFault::Bad(bad)) => Err(ReadFault::Bad(BadBytes {
            left: end.left.min(bad.left),
        })),
    }
}

/// A stage and the answer to the payload that led to it.
struct Answered {
    stage: Stage,
    answer: Result<Option<Reply>, MessageFault>,
}

/// The refusal of a payload at its first bad byte.
fn refused(payload: &[u8], bad: BadBytes) -> Answered
    ensures stage { result.stage ≡ stages.Refused (length payload.now - bad.left) }
    ensures answer { result.answer ≡ Err (faults.Malformed (length payload.now - bad.left)) }
{
    let place = payload.len().saturating_sub(bad.left) as u64;
    Answered {
        stage: Stage::Refused { place },
        answer: Err(MessageFault::Malformed { place }),
    }
}

/// The first payload of a reply.
#[tactic(auto, unfolding(crate::specs::Replies::push_at))]
fn push_first(alloc: Global, payload: &[u8]) -> Answered
    ensures { Tells stages.First payload.now result.answer result.stage }
{
    match first_payload(alloc, payload) {
        Ok(FirstPayload::Whole(reply)) => Answered {
            stage: Stage::First,
            answer: Ok(Some(reply)),
        },
        Ok(FirstPayload::Columns(owed)) => Answered {
            stage: Stage::Definitions {
                owed,
                columns: Listed::new(alloc),
            },
            answer: Ok(None),
        },
        Err(ReadFault::NoMemory) => Answered {
            stage: Stage::First,
            answer: Err(MessageFault::NoMemory),
        },
        Err(ReadFault::Bad(bad)) => refused(payload, bad),
    }
}

/// A column's definition, of which so many and one more are owed.
#[tactic(auto, unfolding(crate::specs::Replies::push_at))]
fn push_definition(alloc: Global, owed: u64, columns: Columns, payload: &[u8]) -> Answered
    requires { owed + 1 < 2 ^ 64 }
    ensures { Tells (stages.Definitions (owed + 1) columns) payload.now result.answer result.stage }
{
    let mut columns = columns;
    match definition(alloc, payload) {
        Ok(column) => match columns.push(column) {
            Ok(()) => Answered {
                stage: Stage::Definitions { owed, columns },
                answer: Ok(None),
            },
            Err(_) => Answered {
                stage: Stage::Definitions {
                    owed: owed + 1,
                    columns,
                },
                answer: Err(MessageFault::NoMemory),
            },
        },
        Err(ReadFault::NoMemory) => Answered {
            stage: Stage::Definitions {
                owed: owed + 1,
                columns,
            },
            answer: Err(MessageFault::NoMemory),
        },
        Err(ReadFault::Bad(bad)) => refused(payload, bad),
    }
}

/// The end of a result's definitions.
#[tactic(auto, unfolding(crate::specs::Replies::push_at))]
fn push_end(alloc: Global, columns: Columns, payload: &[u8]) -> Answered
    ensures { Tells (stages.Definitions 0 columns) payload.now result.answer result.stage }
{
    match eof_packet(payload) {
        Ok(_) => Answered {
            stage: Stage::Rows {
                columns,
                rows: Listed::new(alloc),
            },
            answer: Ok(None),
        },
        Err(bad) => refused(payload, bad),
    }
}

/// A row, or the end of the rows.
#[tactic(auto, unfolding(crate::specs::Replies::push_at))]
fn push_row(alloc: Global, columns: Columns, rows: CellRows, payload: &[u8]) -> Answered
    ensures { Tells (stages.Rows columns rows) payload.now result.answer result.stage }
{
    let mut rows = rows;
    match row_payload(alloc, columns.len() as u64, payload) {
        Ok(RowPayload::Row(cells)) => match rows.push(cells) {
            Ok(()) => Answered {
                stage: Stage::Rows { columns, rows },
                answer: Ok(None),
            },
            Err(_) => Answered {
                stage: Stage::Rows { columns, rows },
                answer: Err(MessageFault::NoMemory),
            },
        },
        Ok(RowPayload::End(status)) => Answered {
            stage: Stage::First,
            answer: Ok(Some(Reply::Rows {
                columns,
                rows,
                status,
            })),
        },
        Err(ReadFault::NoMemory) => Answered {
            stage: Stage::Rows { columns, rows },
            answer: Err(MessageFault::NoMemory),
        },
        Err(ReadFault::Bad(bad)) => refused(payload, bad),
    }
}

/// A payload in a stage.
#[tactic(auto, unfolding(crate::specs::Replies::push_at))]
fn pushed(alloc: Global, stage: Stage, payload: &[u8]) -> Answered
    ensures { Tells stage payload.now result.answer result.stage }
{
    match stage {
        Stage::First => push_first(alloc, payload),
        Stage::Definitions { owed, columns } => {
            if owed == 0 {
                push_end(alloc, columns, payload)
            } else {
                push_definition(alloc, owed - 1, columns, payload)
            }
        }
        Stage::Rows { columns, rows } => push_row(alloc, columns, rows, payload),
        Stage::Refused { place } => Answered {
            stage: Stage::Refused { place },
            answer: Err(MessageFault::Malformed { place }),
        },
    }
}

/// Reads the replies of a server out of the payloads of its packets.
#[derive(Debug, Drop)]
pub struct ReplyReader {
    alloc: Global,
    caps: u32,
    stage: Stage,
}

impl Model for ReplyReader {
    ghost use Rattle.my_messages.specs.declared.stage.Stage.{Stage};

    ghost Value = { Stage };

    ghost view = { λ r. r.stage };
}

impl ReplyReader {
    /// A reader to which no payload came yet. It takes no memory. The capabilities change nothing yet.
    pub fn new(alloc: Global, caps: u32) -> ReplyReader
        ensures { result ≡ stages.First }
    {
        ReplyReader {
            alloc,
            caps,
            stage: Stage::First,
        }
    }

    /// Takes the payload of the next packet. None where the reply isn't whole yet; after a whole reply the next one begins.
    ///
    /// A payload that no reply can have there is Malformed, with the place of its first bad byte, and so is every
    /// payload after it. Want of memory changes nothing.
    pub fn push(&mut self, payload: &[u8]) -> Result<Option<Reply>, MessageFault>
        ensures { Tells self.old payload.now result self.new }
    {
        let stage = mem::replace(&mut self.stage, Stage::First);
        let Answered { stage, answer } = pushed(self.alloc, stage, payload);
        self.stage = stage;
        answer
    }
}
