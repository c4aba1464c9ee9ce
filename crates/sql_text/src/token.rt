use list_types::Text;
use sql_values::Name;

/// A keyword or a symbol. The words from `Commit` to `Xa` are keywords of link text alone.
#[derive(Clone, Copy, Debug, PartialEq, Eq)]
pub enum Fixed {
    And,
    As,
    Asc,
    Between,
    By,
    Count,
    Database,
    Databases,
    Delete,
    Desc,
    For,
    From,
    In,
    Inner,
    Insert,
    Into,
    Join,
    Limit,
    Lock,
    Max,
    Min,
    Mode,
    Not,
    Null,
    Offset,
    On,
    Or,
    Order,
    Select,
    Set,
    Share,
    Show,
    Sum,
    Tables,
    Update,
    Values,
    Where,
    /// `@@version_comment`
    VersionComment,
    Commit,
    End,
    Prepare,
    Recover,
    Replace,
    Rollback,
    Start,
    Xa,
    /// `(`
    Open,
    /// `)`
    Close,
    /// `,`
    Comma,
    /// `.`
    Dot,
    /// `*`
    Star,
    /// `+`
    Plus,
    /// `-`
    Minus,
    /// `;`
    Semicolon,
    /// `=`
    Equal,
    /// `<>` or `!=`
    NotEqual,
    /// `<`
    Less,
    /// `<=`
    AtMost,
    /// `>`
    Greater,
    /// `>=`
    AtLeast,
}

/// A token of a statement's text.
#[derive(Clone, Debug, PartialEq, Eq, Drop)]
pub enum Token {
    /// A keyword or a symbol.
    Fixed(Fixed),
    /// A name without quotes.
    Bare(Name),
    /// A name in backquotes.
    Quoted(Name),
    /// Digits.
    Digits(i128),
    /// Digits with a sign directly before them that belongs to them.
    Signed(i128),
    /// A text in quotes.
    Text(Text),
    /// What is no token. Nothing behind it is looked at.
    Bad,
}

/// What stands before a place of a text.
#[derive(Clone, Copy, Debug, PartialEq, Eq)]
pub struct Before {
    /// Whether a word, digits or a variable stand directly before it.
    pub touching: bool,
    /// Whether the token before it ends an operand, so that a sign there is an operator.
    pub operand: bool,
}

/// Which words of a text are keywords.
#[derive(Clone, Copy, Debug, PartialEq, Eq)]
pub enum Dialect {
    /// Those of statements.
    Statements,
    /// Those of statements, and the others of link text.
    Links,
}
