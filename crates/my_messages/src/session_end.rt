/// How a session with a client ended.
#[derive(Clone, Copy, Debug, PartialEq, Eq)]
pub enum SessionEnd {
    /// The client left (`COM_QUIT`), or its bytes ended, inside a packet too.
    Closed,
    /// Reading from the client or writing to it failed.
    ClientFault,
    /// The error of this number was written, and ends the session: 1153 for a packet that is too large, 1156 for one out of order.
    Refused(u16),
    /// Want of memory.
    NoMemory,
}
