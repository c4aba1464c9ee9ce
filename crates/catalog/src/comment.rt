//! Comments of tables and partitions: a list of pairs, each a key and a text in quotes, as `srv "s1 s2", lst "1 3"`.
ghost use Rattle.std.specs.Prelude.{◌≡◌, ℕ, ◌-◌, ◌≤◌, Result, Ok, Err, Some, None, IfOk, OnErr, length, map};
ghost use Rattle.std.specs.Option.{option_map, ok_or};
ghost use Rattle.catalog.specs.Comment.{is_text, key_of as key_meant, has_key as has, free_key as key_here, status_of as status_meant, monitored_by as monitoring_by, monitored_of as monitoring, is_wrapper as wraps, with_words as adding_words, with_text as adding_text, with_value as adding_value, pair_at, next_at, step_at, pairs_at, begun_at, comment_at, nothing, Gives};
ghost use Rattle.catalog.specs.CommentText.{skipped};
ghost use Rattle.catalog.specs.Searches.{each, name_of as name_meant};

use crate::Status;
use crate::columns::name_of;
use crate::comment_text::{closed, opened, skip_blanks, word_run, words};
use list_types::{Listed, Text};
use sql_values::Name;
use std::alloc::{AllocError, AllocFailed, Global};

/// How many keys there are.
const KEYS: usize = 5;

const COMMA: u8 = b',';

/// A key of a comment.
#[derive(Clone, Copy, Debug, PartialEq, Eq)]
pub(crate) enum Key {
    /// The links' protocol, which is `mysql`.
    Wrapper,
    /// The links' servers.
    Srv,
    /// The remote tables' names.
    Table,
    /// The links' statuses.
    Lst,
    /// Whether the links are monitored.
    Mbk,
}

/// What a comment says. A key that it lacks is None.
#[derive(Debug, Drop)]
pub(crate) struct Comment {
    pub(crate) wrapper: bool,
    pub(crate) servers: Option<Listed<Text>>,
    pub(crate) remotes: Option<Listed<Name>>,
    pub(crate) statuses: Option<Listed<Status>>,
    pub(crate) monitored: Option<bool>,
}

/// Why a comment isn't read.
#[derive(Debug, Drop)]
pub(crate) enum CommentFault {
    /// It leaves the form where so many bytes are left.
    Form(usize),
    /// There wasn't enough memory.
    NoMemory,
}

impl From<AllocError> for CommentFault {
    ghost use Rattle.std.specs.Prelude.{◌≡◌};
    ghost use Rattle.catalog.specs.declared.comment.CommentFault.TheVariants.{NoMemory};

    ghost from_gives = { λ _ fault. fault ≡ NoMemory };

    fn from(_error: AllocError) -> CommentFault {
        CommentFault::NoMemory
    }
}

fn is(word: &[u8], text: &[u8]) -> bool
    ensures { result ≡ is_text word.now text.now }
{
    word == text
}

/// The key that a word is.
fn key_of(word: &[u8]) -> Option<Key>
    ensures { result ≡ key_meant word.now }
{
    if is(b"wrapper", word) {
        return Some(Key::Wrapper);
    }
    if is(b"srv", word) {
        return Some(Key::Srv);
    }
    if is(b"table", word) {
        return Some(Key::Table);
    }
    if is(b"lst", word) {
        return Some(Key::Lst);
    }
    if is(b"mbk", word) {
        return Some(Key::Mbk);
    }
    None
}

impl Comment {
    /// A comment that says nothing.
    pub(crate) fn new() -> Comment
        ensures { result ≡ nothing }
    {
        Comment {
            wrapper: false,
            servers: None,
            remotes: None,
            statuses: None,
            monitored: None,
        }
    }

    fn has_key(&self, key: Key) -> bool
        ensures { result ≡ has self.now key }
    {
        match key {
            Key::Wrapper => self.wrapper,
            Key::Srv => self.servers.is_some(),
            Key::Table => self.remotes.is_some(),
            Key::Lst => self.statuses.is_some(),
            Key::Mbk => self.monitored.is_some(),
        }
    }

    /// The key that a word is, where it doesn't stand in the comment yet.
    fn free_key(&self, word: &[u8]) -> Option<Key>
        ensures { result ≡ key_here self.now word.now }
    {
        match key_of(word) {
            Some(key) => { if self.has_key(key) { None } else { Some(key) } }
            None => None,
        }
    }
}

fn is_wrapper(words: &[Text]) -> bool
    ensures { result ≡ wraps words.now }
{
    match words {
        [word] => is(b"mysql", word.as_str().as_bytes()),
        _ => false,
    }
}

fn monitored_of(words: &[Text]) -> Option<bool>
    ensures { result ≡ monitoring words.now }
{
    match words {
        [word] => monitored_by(word.as_str().as_bytes()),
        _ => None,
    }
}

fn monitored_by(word: &[u8]) -> Option<bool>
    ensures { result ≡ monitoring_by word.now }
{
    if is(b"0", word) {
        return Some(false);
    }
    if is(b"1", word) || is(b"2", word) {
        return Some(true);
    }
    None
}

fn status_of(word: &[u8]) -> Option<Status>
    ensures { result ≡ status_meant word.now }
{
    if is(b"1", word) {
        return Some(Status::Ok);
    }
    if is(b"3", word) {
        return Some(Status::Ng);
    }
    None
}

fn statuses_of(alloc: Global, words: &[Text]) -> Result<Option<Listed<Status>>, AllocError>
    ensures { IfOk result (λ found. found ≡ each status_meant words.now) }
{
    let mut statuses = Listed::new(alloc);
    for word in words {
        match status_of(word.as_str().as_bytes()) {
            Some(status) => statuses.push(status)?,
            None => return Ok(None),
        }
    }
    Ok(Some(statuses))
}

fn names_of(alloc: Global, words: &[Text]) -> Result<Option<Listed<Name>>, AllocError>
    ensures { IfOk result (λ found. found ≡ each name_meant words.now) }
{
    let mut names = Listed::new(alloc);
    for word in words {
        match name_of(alloc, word)? {
            Some(name) => names.push(name)?,
            None => return Ok(None),
        }
    }
    Ok(Some(names))
}

/// The comment with this key, or None where the words are no value of it.
fn with_words(
    alloc: Global,
    comment: Comment,
    key: Key,
    words: Vec<Text>,
) -> Result<Option<Comment>, AllocError>
    ensures { IfOk result (λ found. found ≡ adding_words comment key words.items) }
{
    let mut comment = comment;
    match key {
        Key::Wrapper => {
            if !is_wrapper(words.as_slice()) {
                return Ok(None);
            }
            comment.wrapper = true;
        }
        Key::Srv => {
            comment.servers = Some(Listed::from_vec(words));
        }
        Key::Table => match names_of(alloc, words.as_slice())? {
            Some(names) => {
                comment.remotes = Some(names);
            }
            None => return Ok(None),
        },
        Key::Lst => match statuses_of(alloc, words.as_slice())? {
            Some(statuses) => {
                comment.statuses = Some(statuses);
            }
            None => return Ok(None),
        },
        Key::Mbk => match monitored_of(words.as_slice()) {
            Some(monitored) => {
                comment.monitored = Some(monitored);
            }
            None => return Ok(None),
        },
    }
    Ok(Some(comment))
}

/// The comment with the value in quotes of this key, or None where the text is no value of it.
fn with_text(
    alloc: Global,
    comment: Comment,
    key: Key,
    text: &[u8],
) -> Result<Option<Comment>, AllocError>
    ensures { IfOk result (λ found. found ≡ adding_text comment key text.now) }
{
    match words(alloc, text)? {
        Some(words) => with_words(alloc, comment, key, words),
        None => Ok(None),
    }
}

/// Reads the value of a key: the comment with it, and the bytes behind it.
fn with_value(
    alloc: Global,
    comment: Comment,
    key: Key,
    bytes: &[u8],
) -> Result<(Comment, &[u8]), CommentFault>
    ensures { Gives (λ x. (x.0, x.1.now)) result (ok_or (adding_value comment key bytes.now) (length (skipped bytes.now))) }
{
    let fault = CommentFault::Form(skip_blanks(bytes).len());
    let Some(inside) = opened(bytes) else {
        return Err(fault);
    };
    let Some((text, rest)) = closed(inside) else {
        return Err(fault);
    };
    match with_text(alloc, comment, key, text)? {
        Some(comment) => Ok((comment, rest)),
        None => Err(fault),
    }
}

/// Reads a pair at the front: the comment with it, and the bytes behind it.
fn pair(alloc: Global, comment: Comment, bytes: &[u8]) -> Result<(Comment, &[u8]), CommentFault>
    ensures { Gives (λ x. (x.0, x.1.now)) result (pair_at comment bytes.now) }
{
    let (word, rest) = word_run(bytes);
    match comment.free_key(word) {
        Some(key) => with_value(alloc, comment, key, rest),
        None => Err(CommentFault::Form(bytes.len())),
    }
}

/// What stands behind a pair: None at the end, or the bytes behind a comma.
fn next_pair(bytes: &[u8]) -> Result<Option<&[u8]>, CommentFault>
    ensures { Gives (λ x. option_map (λ r. r.now) x) result (next_at bytes.now) }
{
    match bytes {
        [] => Ok(None),
        [byte, others @ ..] => {
            if *byte == COMMA {
                Ok(Some(skip_blanks(others)))
            } else {
                Err(CommentFault::Form(bytes.len()))
            }
        }
    }
}

/// Reads a pair at the front, and what stands behind it: the comment with it, and the next pair's bytes.
fn step(
    alloc: Global,
    comment: Comment,
    bytes: &[u8],
) -> Result<(Comment, Option<&[u8]>), CommentFault>
    ensures { Gives (λ x. (x.0, option_map (λ r. r.now) x.1)) result (step_at comment bytes.now) }
{
    let (comment, behind) = pair(alloc, comment, bytes)?;
    let next = next_pair(skip_blanks(behind))?;
    Ok((comment, next))
}

/// Reads so many pairs at most, up to the end.
#[tactic(auto, using(crate::proofs::Pieces::pairs_step))]
fn pairs(
    alloc: Global,
    count: usize,
    comment: Comment,
    bytes: &[u8],
) -> Result<Comment, CommentFault>
    ensures { Gives (λ x. x) result (pairs_at count comment bytes.now) }
{
    let mut comment = comment;
    let mut bytes = bytes;
    for _ in 0..count {
        let (more, next) = match step(alloc, comment, bytes) {
            Ok(found) => found,
            Err(fault) => return Err(fault),
        };
        let Some(others) = next else {
            return Ok(more);
        };
        comment = more;
        bytes = others;
    }
    Err(CommentFault::Form(bytes.len()))
}

/// Reads a comment.
#[tactic(auto, unfolding(crate::specs::Comment::comment_at))]
pub(crate) fn read_comment(alloc: Global, text: &[u8]) -> Result<Comment, CommentFault>
    ensures { Gives (λ x. x) result (comment_at text.now) }
{
    begun(alloc, skip_blanks(text))
}

fn begun(alloc: Global, bytes: &[u8]) -> Result<Comment, CommentFault>
    ensures { Gives (λ x. x) result (begun_at bytes.now) }
{
    match bytes {
        [] => Ok(Comment::new()),
        [_byte, ..] => pairs(alloc, KEYS, Comment::new(), bytes),
    }
}
