//! How a connection ends.

use sm_resume::Cause;
use stream_grammar::FrameFault;

/// Why a stream header is refused (RFC 6120, 4.7), in the order in which they are looked at.
#[derive(Clone, Copy, Debug, PartialEq, Eq)]
pub enum HeaderFault {
    /// The root is no `stream` of streams, or the default namespace is not `jabber:client` (4.9.3.10).
    InvalidNamespace,
    /// The version is absent or below 1.0 (4.9.3.25).
    UnsupportedVersion,
    /// The address that is asked for is not the server's domain (4.9.3.6).
    HostUnknown,
}

/// Why a top element ends the stream.
#[derive(Clone, Copy, Debug, PartialEq, Eq)]
pub enum ItemFault {
    /// A stanza's `from` can't be read, or is another user's (RFC 6120, 4.9.3.9).
    InvalidFrom,
    /// It is no stanza, nor one of stream management (RFC 6120, 4.9.3.24).
    UnsupportedStanzaType,
    /// An element of stream management without what it needs (RFC 6120, 4.9.3.1).
    BadFormat,
    /// It may not come before login, or before binding (RFC 6120, 4.9.3.12).
    NotAuthorized,
}

/// How a connection ended. Items are numbered from 1 over the whole connection, headers and close tags included.
#[derive(Clone, Copy, Debug, PartialEq, Eq)]
pub enum Ended {
    /// The client closed its stream.
    Closed,
    /// The link was at its end before that.
    Hung,
    /// The link failed.
    LinkFault,
    /// No random bytes were to be had.
    DiceFault,
    /// The bytes of the present stream have this fault, at the byte of this number.
    Broken(FrameFault, u64),
    /// The last header heard has this fault.
    BadHeader(HeaderFault),
    /// The item of this number has this fault.
    BadItem(ItemFault, u64),
    /// The third login on the connection failed.
    ThirdFailure,
    /// Nothing was heard for an hour, or nobody logged in within a minute, at this moment.
    Idle(u64),
    /// The house ended the connection.
    Over(Cause),
    /// The house takes no more turns.
    Spent,
    /// There was no memory.
    NoMemory,
}
