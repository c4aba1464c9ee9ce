//! What holds of the calls together. Each law is the contract of a function with an empty body.
ghost use Rattle.std.specs.Prelude.{◌≡◌, ℕ, List, Ok};
ghost use Rattle.std.specs.Str.{IsUtf8};
ghost use Rattle.sql_text.specs.declared.statement.Statement.{Statement};
ghost use Rattle.sql_text.specs.declared.link.LinkRequest.{LinkRequest};
ghost use Rattle.sql_text.specs.Tokens.{tokens_of, link_tokens_of};
ghost use Rattle.sql_text.specs.Grammar.{IsStatement};
ghost use Rattle.sql_text.specs.LinkGrammar.{IsRequest};
ghost use Rattle.sql_text.specs.Parsing.{parsed, link_parsed};
ghost use Rattle.sql_text.specs.Printing.{printed};
ghost use Rattle.sql_text.specs.LinkPrinting.{link_printed};

/// A statement that has a text, as each has that [`parse`](crate::parse) answers, is read again from what [`print`](crate::print) writes of it.
pub fn printed_statements_are_read()
    // The canonical text is one of the statement's texts.
    ensures spells { (text : List ℕ) (s : Statement) → IsStatement (tokens_of text) s → IsUtf8 (printed s) × IsStatement (tokens_of (printed s)) s }
    // So `parse` gives the statement again.
    ensures again { (text : List ℕ) (s : Statement) → IsStatement (tokens_of text) s → parsed (printed s) ≡ Ok s }
{}

/// A request that has a text, as each has that [`parse_link`](crate::parse_link) answers, is read again from what [`print_link`](crate::print_link) writes
/// of it.
pub fn printed_requests_are_read()
    // The canonical text is one of the request's texts.
    ensures spells { (text : List ℕ) (r : LinkRequest) → IsRequest (link_tokens_of text) r → IsUtf8 (link_printed r) × IsRequest (link_tokens_of (link_printed r)) r }
    // So `parse_link` gives the request again.
    ensures again { (text : List ℕ) (r : LinkRequest) → IsRequest (link_tokens_of text) r → link_parsed (link_printed r) ≡ Ok r }
{}
