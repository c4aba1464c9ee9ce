/// The rule that a line of a schedule breaks.
#[derive(Clone, Copy, Debug, PartialEq, Eq)]
pub enum LineRule {
    /// It isn't UTF-8.
    NotText,
    /// It has more than 65,536 bytes, without its end.
    LineTooLong,
    /// It comes after the 1,000,000th.
    TooManyLines,
    /// It begins with no word of a schedule, or lacks a word, or has one too many.
    UnknownWord,
    /// A number isn't in decimal digits, or is out of its range.
    BadNumber,
}
