use list_types::{Bytes, Listed};
use my_messages::Reply;
use sql_text::{LinkAnswer, LinkRequest};
use sql_values::ServerNo;

/// A transaction's number, and the boot of the front that drew it.
#[derive(Clone, Copy, Debug, PartialEq, Eq)]
pub struct TxNo {
    pub boot: u64,
    pub number: u64,
}

/// What happens to the front. Sessions are named by numbers from 1 on.
#[derive(Debug, Drop)]
pub enum Event {
    /// A session begins.
    Open {
        session: u32,
    },
    /// The session's client sent a statement, whose text need be no UTF-8.
    Statement {
        session: u32,
        text: Bytes,
    },
    /// The server answered the oldest request of the session that it hasn't answered yet.
    Got {
        session: u32,
        server: ServerNo,
        answer: LinkAnswer,
    },
    /// The session's client left, or is gone.
    Closed {
        session: u32,
    },
}

/// What a step asks for or tells, for the session of its event.
#[derive(Debug, Drop)]
pub enum Output {
    /// This request goes to that server.
    Send {
        server: ServerNo,
        request: LinkRequest,
    },
    /// The session reads that server's answer next.
    Await {
        server: ServerNo,
    },
    /// The transaction is decided.
    Decided {
        tx: TxNo,
    },
    /// The next answer acknowledges its commit.
    Acked {
        tx: TxNo,
    },
    /// The answer to the statement, with its transaction where it had one.
    Answer {
        tx: Option<TxNo>,
        reply: Reply,
    },
}

/// What a step gives out.
#[derive(Debug, Drop)]
pub enum Outputs {
    /// These, in order.
    Given(Listed<Output>),
    /// Want of memory, which stands for one answer with error 1037: the statement is over. It takes no memory.
    NoRoom,
}
