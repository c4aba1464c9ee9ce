// The transcript's text.
ghost use Rattle.std.specs.Prelude.{◌≡◌, ◌++◌, ◌∷◌, [], OnOk, codes};
ghost use Rattle.std.specs.Fmt.{decimal};
ghost use Rattle.std.specs.List.{flat_map};
ghost use Rattle.sql_text.specs.LinkPrinting.{link_printed};
ghost use Rattle.world_runs.specs.Transcript.{tx_text, tx_or_none, cell_text, cells_text, row_line, reply_text, sent_text, output_text};
ghost use Rattle.spider_cli.specs.Shown.{shown_as};

use conf_check::server_text;
use conf_file::HostEntry;
use front_core::{Output, TxNo};
use itoa::Buffer;
use my_messages::{Cell, CellRow, Column, Reply};
use sql_text::{LinkRequest, print_link, push_quoted};
use sql_values::ServerNo;
use std::alloc::{AllocError, Global};

/// The type of a column of texts.
const TEXT_KIND: u8 = 253;

/// How what the front gives out is shown: its servers by their names, requests only where they are traced, and the session by its number.
#[derive(Clone, Copy)]
pub struct Style<'a> {
    pub servers: &'a [HostEntry],
    pub traced: bool,
    pub session: u32,
}

/// Adds a number in decimal.
pub fn push_number(text: &mut Vec<u8>, number: u64) -> Result<(), AllocError>
    ensures { OnOk result (text.new.items ≡ text.old.items ++ decimal number) }
{
    let mut buffer = Buffer::new();
    text.extend_from_slice(buffer.format(number).as_bytes())
}

fn push_tx(text: &mut Vec<u8>, tx: TxNo) -> Result<(), AllocError>
    ensures { OnOk result (text.new.items ≡ text.old.items ++ tx_text tx) }
{
    push_number(text, tx.boot)?;
    text.extend_from_slice(b".")?;
    push_number(text, tx.number)
}

fn push_tx_or_none(text: &mut Vec<u8>, tx: Option<TxNo>) -> Result<(), AllocError>
    ensures { OnOk result (text.new.items ≡ text.old.items ++ tx_or_none tx) }
{
    match tx {
        None => text.extend_from_slice(b"-"),
        Some(tx) => push_tx(text, tx),
    }
}

fn push_cell(text: &mut Vec<u8>, column: &Column, cell: &Cell) -> Result<(), AllocError>
    ensures { OnOk result (text.new.items ≡ text.old.items ++ cell_text column.now cell.now) }
{
    match cell {
        None => text.extend_from_slice(b"NULL"),
        Some(value) => {
            if column.kind == TEXT_KIND {
                push_quoted(text, value.as_str().as_bytes())
            } else {
                text.extend_from_slice(value.as_str().as_bytes())
            }
        }
    }
}

fn push_cells(text: &mut Vec<u8>, columns: &[Column], cells: &[Cell]) -> Result<(), AllocError>
    ensures { OnOk result (text.new.items ≡ text.old.items ++ cells_text columns.now cells.now) }
{
    let [column, others @ ..] = columns else {
        return Ok(());
    };
    let [cell, more @ ..] = cells else {
        return Ok(());
    };
    push_cell(text, column, cell)?;
    if !others.is_empty() {
        text.extend_from_slice(b",")?;
    }
    push_cells(text, others, more)
}

fn push_row(text: &mut Vec<u8>, columns: &[Column], row: &CellRow) -> Result<(), AllocError>
    ensures { OnOk result (text.new.items ≡ text.old.items ++ row_line columns.now row.now) }
{
    text.extend_from_slice(b"row ")?;
    push_cells(text, columns, row.as_slice())?;
    text.extend_from_slice(b"\n")
}

fn push_rows(text: &mut Vec<u8>, columns: &[Column], rows: &[CellRow]) -> Result<(), AllocError>
    ensures { OnOk result (text.new.items ≡ text.old.items ++ flat_map (row_line columns.now) rows.now) }
{
    for row in rows {
        push_row(text, columns, row)?;
    }
    Ok(())
}

fn push_error_number(text: &mut Vec<u8>, number: u16) -> Result<(), AllocError>
    ensures { OnOk result (text.new.items ≡ text.old.items ++ (codes "err " ++ (decimal number ++ (32 ∷ [])))) }
{
    text.extend_from_slice(b"err ")?;
    push_number(text, u64::from(number))?;
    text.extend_from_slice(b" ")
}

fn push_reply(text: &mut Vec<u8>, reply: &Reply) -> Result<(), AllocError>
    ensures { OnOk result (text.new.items ≡ text.old.items ++ reply_text reply.now) }
{
    match reply {
        Reply::Ok { affected, .. } => {
            text.extend_from_slice(b"ok ")?;
            push_number(text, *affected)?;
            text.extend_from_slice(b"\n")
        }
        Reply::Err {
            number,
            state,
            message,
        } => {
            push_error_number(text, *number)?;
            text.extend_from_slice(state)?;
            text.extend_from_slice(b" ")?;
            text.extend_from_slice(message.as_str().as_bytes())?;
            text.extend_from_slice(b"\n")
        }
        Reply::Rows { columns, rows, .. } => {
            text.extend_from_slice(b"rows ")?;
            push_number(text, rows.len() as u64)?;
            text.extend_from_slice(b"\n")?;
            push_rows(text, columns.as_slice(), rows.as_slice())
        }
        Reply::Switch { .. } => Ok(()),
    }
}

/// Adds a word, the session's number and a blank.
fn push_for(text: &mut Vec<u8>, word: &[u8], session: u32) -> Result<(), AllocError>
    ensures { OnOk result (text.new.items ≡ text.old.items ++ (word.now ++ (decimal session ++ (32 ∷ [])))) }
{
    text.extend_from_slice(word)?;
    push_number(text, u64::from(session))?;
    text.extend_from_slice(b" ")
}

/// Adds the line of a request, where requests are traced.
fn push_sent(
    alloc: Global,
    text: &mut Vec<u8>,
    style: Style<'_>,
    server: ServerNo,
    request: &LinkRequest,
) -> Result<(), AllocError>
    ensures { OnOk result (text.new.items ≡ text.old.items ++ sent_text (shown_as style.entry) server (link_printed request.now)) }
{
    if !style.traced {
        return Ok(());
    }
    let printed = print_link(alloc, request)?;
    push_for(text, b"sent ", style.session)?;
    text.extend_from_slice(server_text(style.servers, server).as_bytes())?;
    text.extend_from_slice(b" ")?;
    text.extend_from_slice(printed.as_slice())?;
    text.extend_from_slice(b"\n")
}

/// Adds the lines of one output.
#[tactic(auto, unfolding(world_runs::specs::Transcript::output_text))]
pub fn push_output(
    alloc: Global,
    text: &mut Vec<u8>,
    style: Style<'_>,
    output: &Output,
) -> Result<(), AllocError>
    ensures { OnOk result (text.new.items ≡ text.old.items ++ output_text (shown_as style.entry) output.now) }
{
    match output {
        Output::Send { server, request } => push_sent(alloc, text, style, *server, request),
        Output::Await { .. } => Ok(()),
        Output::Decided { tx } => {
            text.extend_from_slice(b"decided ")?;
            push_tx(text, *tx)?;
            text.extend_from_slice(b"\n")
        }
        Output::Acked { tx } => {
            push_for(text, b"ack ", style.session)?;
            push_tx(text, *tx)?;
            text.extend_from_slice(b"\n")
        }
        Output::Answer { tx, reply } => {
            push_for(text, b"answer ", style.session)?;
            push_tx_or_none(text, *tx)?;
            text.extend_from_slice(b" ")?;
            push_reply(text, reply)
        }
    }
}
