//! Tables, columns, aliases and lists of literals.
ghost use Rattle.std.specs.Prelude.{◌≡◌, ◌++◌, ◌-◌, [], ◌∷◌, length};
ghost use Rattle.sql_text.specs.declared.token.Fixed.TheVariants as fixed;
ghost use Rattle.sql_text.specs.Grammar.{is_spider as word_is_spider};
ghost use Rattle.sql_text.specs.Reading.{Gives, behind_head_at, table_at, column_at, alias_at, name_at, literal_at, literal_list_at, series_at, further_at, with_front, parenthesized_at};

use crate::cursor::{
    begins, behind, expect, literal, name, name_of, name_stands, open, syntax_error,
};
use crate::fault::ReadError;
use crate::token::{Fixed, Token};
use list_types::Listed;
use sql_values::{ColumnName, Literal, Literals, Name};
use std::alloc::Global;

/// Whether this is the word that may stand before a table's name.
fn is_spider(token: &Token) -> bool
    ensures { result ≡ word_is_spider token.now }
{
    match token {
        Token::Bare(name) => name.as_str() == "spider",
        _ => false,
    }
}

/// The table at the front.
#[tactic(auto, unfolding(crate::specs::Reading::table_at))]
pub fn table(tokens: &[Token]) -> Result<(Name, &[Token]), ReadError>
    ensures { Gives (λ x. (x.0, x.1.now)) result (table_at tokens.now) }
{
    let [first, rest @ ..] = tokens else {
        return Err(syntax_error(tokens));
    };
    let Some(head) = name_of(first) else {
        return Err(syntax_error(tokens));
    };
    if is_spider(first) && begins(Fixed::Dot, rest) {
        return name(behind(rest));
    }
    Ok((head.clone()?, rest))
}

/// The column at the front.
#[tactic(auto, unfolding(crate::specs::Reading::column_at))]
pub fn column(tokens: &[Token]) -> Result<(ColumnName, &[Token]), ReadError>
    ensures { Gives (λ x. (x.0, x.1.now)) result (column_at tokens.now) }
{
    let (first, rest) = name(tokens)?;
    if begins(Fixed::Dot, rest) {
        let (column, rest) = name(behind(rest))?;
        let table = Some(first);
        return Ok((ColumnName { table, column }, rest));
    }
    let column = ColumnName {
        table: None,
        column: first,
    };
    Ok((column, rest))
}

/// The alias at the front, where one stands there.
#[tactic(auto, unfolding(crate::specs::Reading::alias_at))]
pub fn alias(tokens: &[Token]) -> Result<(Option<Name>, &[Token]), ReadError>
    ensures { Gives (λ x. (x.0, x.1.now)) result (alias_at tokens.now) }
{
    if begins(Fixed::As, tokens) {
        let (alias, rest) = name(behind(tokens))?;
        return Ok((Some(alias), rest));
    }
    if name_stands(tokens) {
        let (alias, rest) = name(tokens)?;
        return Ok((Some(alias), rest));
    }
    Ok((None, tokens))
}

/// Further literals, each behind a comma, behind those that are there.
fn further_literals(
    most: usize,
    first: Vec<Literal>,
    tokens: &[Token],
) -> Result<(Vec<Literal>, &[Token]), ReadError>
    ensures { Gives (λ x. (x.0.items, x.1.now)) result (with_front first.items (further_at most fixed.Comma literal_at tokens.now)) }
{
    let mut literals = first;
    let mut rest = tokens;
    for _ in 0..most {
        if !begins(Fixed::Comma, rest) {
            return Ok((literals, rest));
        }
        match literal(behind(rest)) {
            Ok((part, more)) => {
                literals.push(part)?;
                rest = more;
            }
            Err(error) => return Err(error),
        }
    }
    Ok((literals, rest))
}

/// Literals with commas between them.
fn literals(alloc: Global, tokens: &[Token]) -> Result<(Literals, &[Token]), ReadError>
    ensures { Gives (λ x. (x.0, x.1.now)) result (series_at fixed.Comma literal_at tokens.now) }
{
    let (first, rest) = literal(tokens)?;
    let first = vec![in alloc; first]?;
    let (literals, rest) = further_literals(rest.len(), first, rest)?;
    Ok((Listed::from_vec(literals), rest))
}

/// Literals in parentheses.
#[tactic(auto, unfolding(crate::specs::Reading::literal_list_at))]
pub fn literal_list(
    alloc: Global,
    depth: u32,
    tokens: &[Token],
) -> Result<(Literals, &[Token]), ReadError>
    ensures { Gives (λ x. (x.0, x.1.now)) result (literal_list_at depth tokens.now) }
{
    let rest = open(Fixed::Open, depth, tokens)?;
    let (literals, rest) = literals(alloc, rest)?;
    let rest = expect(Fixed::Close, rest)?;
    Ok((literals, rest))
}
