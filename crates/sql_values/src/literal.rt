use list_types::{Listed, Text};

/// A value as a statement's text has it, before it is stored.
#[derive(Clone, Debug, PartialEq, Eq, Drop)]
pub enum Literal {
    /// Digits with a sign or without one.
    Number(i128),
    /// A text in quotes.
    Text(Text),
    /// NULL.
    Null,
}

/// Literals, in order.
pub type Literals = Listed<Literal>;
