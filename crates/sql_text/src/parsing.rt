//! A statement out of its text, and a request out of a link text.
ghost use Rattle.std.specs.Prelude.{◌≡◌, ◌⊎◌, IfOk, IfErr, Err, Ok};
ghost use Rattle.std.specs.Str.{IsUtf8};
ghost use Rattle.sql_text.specs.declared.statement.Statement.{Statement};
ghost use Rattle.sql_text.specs.Tokens.{tokens_of, link_tokens_of};
ghost use Rattle.sql_text.specs.Grammar.{IsStatement};
ghost use Rattle.sql_text.specs.declared.link.LinkRequest.{LinkRequest};
ghost use Rattle.sql_text.specs.LinkGrammar.{IsRequest};
ghost use Rattle.sql_text.specs.Parsing.{lefts_of, place_of, wrong_byte as first_wrong_byte, first_fault as first_of_faults, with_bytes, parsed, link_parsed, IsParsed, IsNoStatement, IsNoRequest};

use crate::fault::{ParseFault, ReadError, Stop};
use crate::lexer::read_tokens;
use crate::link::LinkRequest;
use crate::reading::requests::request;
use crate::reading::statements::statement;
use crate::statement::Statement;
use crate::token::Dialect;
use std::alloc::Global;

/// How many openings may stand inside one another: parentheses of any use, and NOTs.
pub const MOST_OPENINGS: u32 = 64;

/// The same of link text, where the conjuncts of ON and WHERE, joined to one condition, may have one more.
pub const MOST_LINK_OPENINGS: u32 = 65;

/// The first byte that isn't UTF-8.
fn wrong_byte(text: &[u8]) -> Option<usize>
    ensures { result ≡ first_wrong_byte text.now }
{
    match str::from_utf8(text) {
        Ok(_) => None,
        Err(error) => Some(error.valid_up_to()),
    }
}

/// The first byte of the token that stands so many before the end, or the text's length.
fn place(text: &[u8], lefts: &[usize], left: usize) -> u64
    requires { lefts.now ≡ lefts_of text.now }
    ensures { result ≡ place_of text.now left }
{
    let at = lefts.len().saturating_sub(left);
    let behind = match lefts.get(at) {
        Some(behind) => *behind,
        None => 0,
    };
    text.len().saturating_sub(behind) as u64
}

/// The first fault of a text whose tokens aren't read.
fn first_fault(text: &[u8], lefts: &[usize], wrong: Option<usize>, stop: Stop) -> ParseFault
    requires { lefts.now ≡ lefts_of text.now }
    ensures { result ≡ first_of_faults text.now wrong stop }
{
    let place = place(text, lefts, stop.left);
    if let Some(wrong) = wrong {
        let wrong = wrong as u64;
        if place >= wrong {
            return ParseFault::Syntax { place: wrong };
        }
    }
    if stop.deep {
        ParseFault::Deep { place }
    } else {
        ParseFault::Syntax { place }
    }
}

#[tactic(auto, unfolding(crate::specs::Parsing::parsed))]
fn parse_text(alloc: Global, text: &[u8]) -> Result<Statement, ParseFault>
    ensures { IsParsed result (parsed text.now) }
{
    let Ok(tokens) = read_tokens(alloc, Dialect::Statements, text) else {
        return Err(ParseFault::NoMemory);
    };
    let wrong = wrong_byte(text);
    match statement(alloc, MOST_OPENINGS, tokens.tokens.as_slice()) {
        Ok(statement) => match wrong {
            None => Ok(statement),
            Some(wrong) => Err(ParseFault::Syntax {
                place: wrong as u64,
            }),
        },
        Err(ReadError::Memory) => Err(ParseFault::NoMemory),
        Err(ReadError::Stopped(stop)) => {
            Err(first_fault(text, tokens.lefts.as_slice(), wrong, stop))
        }
    }
}

/// The statement of a text, by the grammar that `specs/Grammar.antt` states.
pub fn parse(alloc: Global, text: &[u8]) -> Result<Statement, ParseFault>
    // What is answered is the statement of the text's tokens, and the text is UTF-8.
    ensures found { IfOk result (λ s. IsUtf8 text.now × IsStatement (tokens_of text.now) s) }
    // A statement of the text is answered, unless memory runs out, and so there is no other.
    ensures only { (s : Statement) → IsUtf8 text.now → IsStatement (tokens_of text.now) s → result ≡ Err ParseFault.NoMemory ⊎ (result ≡ Ok s) }
    // A refusal names the first token that can't stand there, the first opening too many, or the first wrong byte.
    ensures refused { IfErr result (λ e. IsNoStatement text.now e) }
    // The same as a function.
    ensures exact { IsParsed result (parsed text.now) }
{
    parse_text(alloc, text)
}

#[tactic(auto, unfolding(crate::specs::Parsing::link_parsed))]
fn parse_link_text(alloc: Global, text: &[u8]) -> Result<LinkRequest, ParseFault>
    ensures { IsParsed result (link_parsed text.now) }
{
    let Ok(tokens) = read_tokens(alloc, Dialect::Links, text) else {
        return Err(ParseFault::NoMemory);
    };
    let wrong = wrong_byte(text);
    match request(alloc, MOST_LINK_OPENINGS, tokens.tokens.as_slice()) {
        Ok(request) => match wrong {
            None => Ok(request),
            Some(wrong) => Err(ParseFault::Syntax {
                place: wrong as u64,
            }),
        },
        Err(ReadError::Memory) => Err(ParseFault::NoMemory),
        Err(ReadError::Stopped(stop)) => {
            Err(first_fault(text, tokens.lefts.as_slice(), wrong, stop))
        }
    }
}

/// The request of a link text, by the grammar that `specs/LinkGrammar.antt` states.
pub fn parse_link(alloc: Global, text: &[u8]) -> Result<LinkRequest, ParseFault>
    // What is answered is the request of the text's tokens, and the text is UTF-8.
    ensures found { IfOk result (λ r. IsUtf8 text.now × IsRequest (link_tokens_of text.now) r) }
    // A request of the text is answered, unless memory runs out, and so there is no other.
    ensures only { (r : LinkRequest) → IsUtf8 text.now → IsRequest (link_tokens_of text.now) r → result ≡ Err ParseFault.NoMemory ⊎ (result ≡ Ok r) }
    // A refusal names the first token that can't stand there, the first opening too many, or the first wrong byte.
    ensures refused { IfErr result (λ e. IsNoRequest text.now e) }
    // The same as a function.
    ensures exact { IsParsed result (link_parsed text.now) }
{
    parse_link_text(alloc, text)
}
