//! Rows that are put, and keys of rows that go.
ghost use Rattle.std.specs.Prelude.{◌≡◌, ◌++◌, [], ◌∷◌, length};
ghost use Rattle.sql_text.specs.declared.token.Fixed.TheVariants as fixed;
ghost use Rattle.sql_text.specs.LinkGrammar.{key_of as value_of_key, value_of as value_of_token};
ghost use Rattle.sql_text.specs.Reading.{Gives, one_at, series_at, further_at, with_front, parenthesized_at};
ghost use Rattle.sql_text.specs.LinkReading.{row_at, put_at, keys_at, del_at, clear_at, which_at, delete_at};

use crate::cursor::{begins, behind, expect, name, open, syntax_error};
use crate::fault::ReadError;
use crate::link::LinkRequest;
use crate::token::{Fixed, Token};
use list_types::Listed;
use sql_values::{Keys, Name, Row, Rows, Value};
use std::alloc::Global;

/// A value of a row.
fn value(tokens: &[Token]) -> Result<(Value, &[Token]), ReadError>
    ensures { Gives (λ x. (x.0, x.1.now)) result (one_at value_of_token tokens.now) }
{
    match tokens {
        [Token::Text(text), rest @ ..] => Ok((Value::Text(text.clone()?), rest)),
        [Token::Digits(number), rest @ ..] | [Token::Signed(number), rest @ ..] => {
            match i64::try_from(*number) {
                Ok(number) => Ok((Value::Number(number), rest)),
                Err(_) => Err(syntax_error(tokens)),
            }
        }
        _ => Err(syntax_error(tokens)),
    }
}

/// Further values, each behind a comma, behind those that are there.
fn further_values(
    most: usize,
    first: Vec<Value>,
    tokens: &[Token],
) -> Result<(Vec<Value>, &[Token]), ReadError>
    ensures { Gives (λ x. (x.0.items, x.1.now)) result (with_front first.items (further_at most fixed.Comma (one_at value_of_token) tokens.now)) }
{
    let mut values = first;
    let mut rest = tokens;
    for _ in 0..most {
        if !begins(Fixed::Comma, rest) {
            return Ok((values, rest));
        }
        match value(behind(rest)) {
            Ok((part, more)) => {
                values.push(part)?;
                rest = more;
            }
            Err(error) => return Err(error),
        }
    }
    Ok((values, rest))
}

/// Values with commas between them.
fn values(alloc: Global, tokens: &[Token]) -> Result<(Row, &[Token]), ReadError>
    ensures { Gives (λ x. (x.0, x.1.now)) result (series_at fixed.Comma (one_at value_of_token) tokens.now) }
{
    let (first, rest) = value(tokens)?;
    let first = vec![in alloc; first]?;
    let (values, rest) = further_values(rest.len(), first, rest)?;
    Ok((Listed::from_vec(values), rest))
}

/// A row: values in parentheses.
#[tactic(auto, unfolding(crate::specs::LinkReading::row_at))]
fn row(alloc: Global, depth: u32, tokens: &[Token]) -> Result<(Row, &[Token]), ReadError>
    ensures { Gives (λ x. (x.0, x.1.now)) result (row_at depth tokens.now) }
{
    let rest = open(Fixed::Open, depth, tokens)?;
    let (values, rest) = values(alloc, rest)?;
    let rest = expect(Fixed::Close, rest)?;
    Ok((values, rest))
}

/// Further rows, each behind a comma, behind those that are there.
fn further_rows(
    alloc: Global,
    depth: u32,
    most: usize,
    first: Vec<Row>,
    tokens: &[Token],
) -> Result<(Vec<Row>, &[Token]), ReadError>
    ensures { Gives (λ x. (x.0.items, x.1.now)) result (with_front first.items (further_at most fixed.Comma (row_at depth) tokens.now)) }
{
    let mut rows = first;
    let mut rest = tokens;
    for _ in 0..most {
        if !begins(Fixed::Comma, rest) {
            return Ok((rows, rest));
        }
        match row(alloc, depth, behind(rest)) {
            Ok((part, more)) => {
                rows.push(part)?;
                rest = more;
            }
            Err(error) => return Err(error),
        }
    }
    Ok((rows, rest))
}

/// Rows with commas between them.
fn rows(alloc: Global, depth: u32, tokens: &[Token]) -> Result<(Rows, &[Token]), ReadError>
    ensures { Gives (λ x. (x.0, x.1.now)) result (series_at fixed.Comma (row_at depth) tokens.now) }
{
    let (first, rest) = row(alloc, depth, tokens)?;
    let first = vec![in alloc; first]?;
    let (rows, rest) = further_rows(alloc, depth, rest.len(), first, rest)?;
    Ok((Listed::from_vec(rows), rest))
}

/// REPLACE: rows that are put.
#[tactic(auto, unfolding(crate::specs::LinkReading::put_at))]
pub fn put(
    alloc: Global,
    depth: u32,
    tokens: &[Token],
) -> Result<(LinkRequest, &[Token]), ReadError>
    ensures { Gives (λ x. (x.0, x.1.now)) result (put_at depth tokens.now) }
{
    let rest = expect(Fixed::Replace, tokens)?;
    let rest = expect(Fixed::Into, rest)?;
    let (table, rest) = name(rest)?;
    let rest = expect(Fixed::Values, rest)?;
    let (rows, rest) = rows(alloc, depth, rest)?;
    Ok((LinkRequest::Put { table, rows }, rest))
}

/// A key.
fn key(tokens: &[Token]) -> Result<(i64, &[Token]), ReadError>
    ensures { Gives (λ x. (x.0, x.1.now)) result (one_at value_of_key tokens.now) }
{
    match tokens {
        [Token::Digits(number), rest @ ..] | [Token::Signed(number), rest @ ..] => {
            match i64::try_from(*number) {
                Ok(number) => Ok((number, rest)),
                Err(_) => Err(syntax_error(tokens)),
            }
        }
        _ => Err(syntax_error(tokens)),
    }
}

/// Further keys, each behind a comma, behind those that are there.
fn further_keys(
    most: usize,
    first: Vec<i64>,
    tokens: &[Token],
) -> Result<(Vec<i64>, &[Token]), ReadError>
    ensures { Gives (λ x. (x.0.items, x.1.now)) result (with_front first.items (further_at most fixed.Comma (one_at value_of_key) tokens.now)) }
{
    let mut keys = first;
    let mut rest = tokens;
    for _ in 0..most {
        if !begins(Fixed::Comma, rest) {
            return Ok((keys, rest));
        }
        match key(behind(rest)) {
            Ok((part, more)) => {
                keys.push(part)?;
                rest = more;
            }
            Err(error) => return Err(error),
        }
    }
    Ok((keys, rest))
}

/// Keys with commas between them.
fn key_list(alloc: Global, tokens: &[Token]) -> Result<(Keys, &[Token]), ReadError>
    ensures { Gives (λ x. (x.0, x.1.now)) result (series_at fixed.Comma (one_at value_of_key) tokens.now) }
{
    let (first, rest) = key(tokens)?;
    let first = vec![in alloc; first]?;
    let (keys, rest) = further_keys(rest.len(), first, rest)?;
    Ok((Listed::from_vec(keys), rest))
}

/// Keys in parentheses.
#[tactic(auto, unfolding(crate::specs::LinkReading::keys_at))]
fn keys(alloc: Global, depth: u32, tokens: &[Token]) -> Result<(Keys, &[Token]), ReadError>
    ensures { Gives (λ x. (x.0, x.1.now)) result (keys_at depth tokens.now) }
{
    let rest = open(Fixed::Open, depth, tokens)?;
    let (keys, rest) = key_list(alloc, rest)?;
    let rest = expect(Fixed::Close, rest)?;
    Ok((keys, rest))
}

/// BETWEEN and its bounds.
#[tactic(auto, unfolding(crate::specs::LinkReading::clear_at))]
fn clear(
    table: Name,
    key_name: Name,
    tokens: &[Token],
) -> Result<(LinkRequest, &[Token]), ReadError>
    ensures { Gives (λ x. (x.0, x.1.now)) result (clear_at table key_name tokens.now) }
{
    let rest = expect(Fixed::Between, tokens)?;
    let (low, rest) = key(rest)?;
    let rest = expect(Fixed::And, rest)?;
    let (high, rest) = key(rest)?;
    let request = LinkRequest::Clear {
        table,
        key: key_name,
        low,
        high,
    };
    Ok((request, rest))
}

/// Which rows go: those with keys of a list, or between two.
#[tactic(auto, unfolding(crate::specs::LinkReading::which_at, crate::specs::LinkReading::del_at))]
fn which(
    alloc: Global,
    depth: u32,
    table: Name,
    key_name: Name,
    tokens: &[Token],
) -> Result<(LinkRequest, &[Token]), ReadError>
    ensures { Gives (λ x. (x.0, x.1.now)) result (which_at depth table key_name tokens.now) }
{
    if !begins(Fixed::In, tokens) {
        return clear(table, key_name, tokens);
    }
    let (keys, rest) = keys(alloc, depth, behind(tokens))?;
    let request = LinkRequest::Del {
        table,
        key: key_name,
        keys,
    };
    Ok((request, rest))
}

/// DELETE: rows that go.
#[tactic(auto, unfolding(crate::specs::LinkReading::delete_at))]
pub fn delete(
    alloc: Global,
    depth: u32,
    tokens: &[Token],
) -> Result<(LinkRequest, &[Token]), ReadError>
    ensures { Gives (λ x. (x.0, x.1.now)) result (delete_at depth tokens.now) }
{
    let rest = expect(Fixed::Delete, tokens)?;
    let rest = expect(Fixed::From, rest)?;
    let (table, rest) = name(rest)?;
    let rest = expect(Fixed::Where, rest)?;
    let (key, rest) = name(rest)?;
    which(alloc, depth, table, key, rest)
}
