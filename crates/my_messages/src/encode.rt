// Replies as packets.
ghost use Rattle.std.specs.Prelude.{◌≡◌, ◌++◌, ◌∷◌, ◌≤◌, [], length, map, IfOk, OnOk};
ghost use Rattle.std.specs.List.{AllByRecursion};
ghost use Rattle.my_wire.specs.Packets.{most, packet, packets, next, next_after};
ghost use Rattle.my_messages.specs.Fields.{text_bytes};
ghost use Rattle.my_messages.specs.Reply.{HasBytes, DefinitionFits, RowFits, payloads_of, result_payloads, ok_bytes, err_bytes, eof_bytes, switch_bytes, names_bytes, traits_bytes, definition_bytes, cell_bytes, row_bytes};

use crate::{Cell, CellRow, Column, Reply};
use list_types::{Bytes, Text};
use my_wire::{write_lenenc, write_packet};
use std::alloc::{AllocError, Global};

/// Adds a text with its length.
fn put_text(out: &mut Bytes, text: &Text) -> Result<(), AllocError>
    ensures { OnOk result (out.new ≡ out.old ++ text_bytes text.now) }
{
    let text = text.as_str();
    write_lenenc(text.len() as u64, out)?;
    out.extend_from_slice(text.as_bytes())
}

/// Adds a value of a row.
fn put_cell(out: &mut Bytes, cell: &Cell) -> Result<(), AllocError>
    ensures { OnOk result (out.new ≡ out.old ++ cell_bytes cell.now) }
{
    match cell {
        None => out.extend_from_slice(&[0xFB]),
        Some(text) => put_text(out, text),
    }
}

/// Adds the values of a row.
fn put_row(out: &mut Bytes, row: &CellRow) -> Result<(), AllocError>
    ensures { OnOk result (out.new ≡ out.old ++ row_bytes row.now) }
{
    for cell in row.as_slice() {
        put_cell(out, cell)?;
    }
    Ok(())
}

/// Adds the texts of a column's definition.
fn put_names(out: &mut Bytes, column: &Column) -> Result<(), AllocError>
    ensures { OnOk result (out.new ≡ out.old ++ names_bytes column.now) }
{
    out.extend_from_slices(&[3], b"def")?;
    put_text(out, &column.schema)?;
    put_text(out, &column.table)?;
    put_text(out, &column.org_table)?;
    put_text(out, &column.name)?;
    put_text(out, &column.org_name)
}

/// Adds the numbers of a column's definition.
fn put_traits(out: &mut Bytes, column: &Column) -> Result<(), AllocError>
    ensures { OnOk result (out.new ≡ out.old ++ traits_bytes column.now) }
{
    out.extend_from_slices(&[0x0C], &column.charset.to_le_bytes())?;
    out.extend_from_slices(&column.length.to_le_bytes(), &[column.kind])?;
    out.extend_from_slices(&column.flags.to_le_bytes(), &[0, 0, 0])
}

/// Adds a column's definition.
fn put_definition(out: &mut Bytes, column: &Column) -> Result<(), AllocError>
    ensures { OnOk result (out.new ≡ out.old ++ definition_bytes column.now) }
{
    put_names(out, column)?;
    put_traits(out, column)
}

/// Adds a packet with each column's definition, and answers the next number. The payload is room to work in.
fn put_definitions(
    out: &mut Bytes,
    payload: &mut Bytes,
    seq: u8,
    columns: &[Column],
) -> Result<u8, AllocError>
    requires { AllByRecursion DefinitionFits columns.now }
    ensures bytes { OnOk result (out.new ≡ out.old ++ packets seq (map definition_bytes columns.now)) }
    ensures next { IfOk result (λ number. number ≡ next_after seq (map definition_bytes columns.now)) }
{
    let mut number = seq;
    for column in columns {
        payload.clear();
        put_definition(payload, column)?;
        number = write_packet(number, payload.as_slice(), out)?;
    }
    Ok(number)
}

/// Adds a packet with each row, and answers the next number. The payload is room to work in.
fn put_rows(
    out: &mut Bytes,
    payload: &mut Bytes,
    seq: u8,
    width: usize,
    rows: &[CellRow],
) -> Result<u8, AllocError>
    requires { AllByRecursion (RowFits width) rows.now }
    ensures bytes { OnOk result (out.new ≡ out.old ++ packets seq (map row_bytes rows.now)) }
    ensures next { IfOk result (λ number. number ≡ next_after seq (map row_bytes rows.now)) }
{
    let _width = width;
    let mut number = seq;
    for row in rows {
        payload.clear();
        put_row(payload, row)?;
        number = write_packet(number, payload.as_slice(), out)?;
    }
    Ok(number)
}

/// Adds a packet that ends the definitions or the rows, and answers the next number.
fn put_eof(out: &mut Bytes, seq: u8, status: u16) -> Result<u8, AllocError>
    ensures bytes { OnOk result (out.new ≡ out.old ++ packet seq (eof_bytes status)) }
    ensures next { IfOk result (λ number. number ≡ next seq) }
{
    let [low, high] = status.to_le_bytes();
    write_packet(seq, &[0xFE, 0, 0, low, high], out)
}

/// The payload of an OK.
fn ok_payload(alloc: Global, affected: u64, status: u16, warnings: u16) -> Result<Bytes, AllocError>
    ensures { IfOk result (λ bytes. bytes ≡ ok_bytes affected status warnings) }
{
    let mut payload = Bytes::new(alloc);
    payload.extend_from_slice(&[0x00])?;
    write_lenenc(affected, &mut payload)?;
    payload.extend_from_slice(&[0])?;
    payload.extend_from_slices(&status.to_le_bytes(), &warnings.to_le_bytes())?;
    Ok(payload)
}

/// The payload of an ERR.
fn err_payload(
    alloc: Global,
    number: u16,
    state: &[u8; 5],
    message: &Text,
) -> Result<Bytes, AllocError>
    ensures { IfOk result (λ bytes. bytes ≡ err_bytes number state.now message.now) }
{
    let mut payload = Bytes::new(alloc);
    payload.extend_from_slices(&[0xFF], &number.to_le_bytes())?;
    payload.extend_from_slices(b"#", state)?;
    payload.extend_from_slice(message.as_str().as_bytes())?;
    Ok(payload)
}

/// The payload of a request to log in by another plugin.
fn switch_payload(alloc: Global, plugin: &Text, nonce: &[u8; 20]) -> Result<Bytes, AllocError>
    ensures { IfOk result (λ bytes. bytes ≡ switch_bytes plugin.now nonce.now) }
{
    let mut payload = Bytes::new(alloc);
    payload.extend_from_slices(&[0xFE], plugin.as_str().as_bytes())?;
    payload.extend_from_slices(&[0], nonce)?;
    payload.extend_from_slice(&[0])?;
    Ok(payload)
}

/// A reply of one packet.
fn one_packet(alloc: Global, seq: u8, payload: &Bytes) -> Result<Bytes, AllocError>
    requires { length payload.now ≤ most }
    ensures { IfOk result (λ bytes. bytes ≡ packets seq (payload.now ∷ [])) }
{
    let mut out = Bytes::new(alloc);
    write_packet(seq, payload.as_slice(), &mut out)?;
    Ok(out)
}

/// The packets of a result.
fn resultset(
    alloc: Global,
    seq: u8,
    columns: &[Column],
    rows: &[CellRow],
    status: u16,
) -> Result<Bytes, AllocError>
    requires columns { AllByRecursion DefinitionFits columns.now }
    requires rows { AllByRecursion (RowFits (length columns.now)) rows.now }
    ensures { IfOk result (λ bytes. bytes ≡ packets seq (result_payloads columns.now rows.now status)) }
{
    let mut out = Bytes::new(alloc);
    let mut payload = Bytes::new(alloc);
    write_lenenc(columns.len() as u64, &mut payload)?;
    let number = write_packet(seq, payload.as_slice(), &mut out)?;
    let number = put_definitions(&mut out, &mut payload, number, columns)?;
    let number = put_eof(&mut out, number, status)?;
    let number = put_rows(&mut out, &mut payload, number, columns.len(), rows)?;
    put_eof(&mut out, number, status)?;
    Ok(out)
}

/// The packets of a reply, numbered from `seq` on. The capabilities change nothing yet.
pub fn encode_reply(alloc: Global, reply: &Reply, seq: u8, caps: u32) -> Result<Bytes, AllocError>
    requires { HasBytes reply.now }
    ensures { IfOk result (λ bytes. bytes ≡ packets seq (payloads_of reply.now)) }
{
    let _caps = caps;
    match reply {
        Reply::Ok {
            affected,
            status,
            warnings,
        } => {
            one_packet(
                alloc,
                seq,
                &ok_payload(alloc, *affected, *status, *warnings)?,
            )
        }
        Reply::Err {
            number,
            state,
            message,
        } => { one_packet(alloc, seq, &err_payload(alloc, *number, state, message)?) }
        Reply::Rows {
            columns,
            rows,
            status,
        } => { resultset(alloc, seq, columns.as_slice(), rows.as_slice(), *status) }
        Reply::Switch { plugin, nonce } => {
            one_packet(alloc, seq, &switch_payload(alloc, plugin, nonce)?)
        }
    }
}
