//! The errors that end a stream.

ghost use Rattle.std.specs.Prelude.{◌≡◌};
ghost use Rattle.conn_asks.specs.StreamErrors.{condition_name, error_of, error_of_cause, error_of_fault, error_of_header, error_of_item};

use crate::ended::{Ended, HeaderFault, ItemFault};
use sm_resume::Cause;
use stream_grammar::FrameFault;

/// A stream error by its condition (RFC 6120, 4.9.3).
#[derive(Clone, Copy, Debug, PartialEq, Eq)]
pub enum StreamError {
    BadFormat,
    BadNamespacePrefix,
    Conflict,
    ConnectionTimeout,
    HostUnknown,
    InvalidFrom,
    InvalidNamespace,
    NotAuthorized,
    NotWellFormed,
    PolicyViolation,
    ResourceConstraint,
    RestrictedXml,
    UnsupportedEncoding,
    UnsupportedStanzaType,
    UnsupportedVersion,
    /// `undefined-condition`, with the condition of XEP-0198, 4, in it: the client counts `h`, of which only `sent` were sent.
    HandledCountTooHigh { h: u32, sent: u32 },
}

impl StreamError {
    /// The name of the condition's element.
    pub fn name(self) -> &'static [u8]
        ensures { result.now ≡ condition_name self }
    {
        match self {
            StreamError::BadFormat => b"bad-format",
            StreamError::BadNamespacePrefix => b"bad-namespace-prefix",
            StreamError::Conflict => b"conflict",
            StreamError::ConnectionTimeout => b"connection-timeout",
            StreamError::HostUnknown => b"host-unknown",
            StreamError::InvalidFrom => b"invalid-from",
            StreamError::InvalidNamespace => b"invalid-namespace",
            StreamError::NotAuthorized => b"not-authorized",
            StreamError::NotWellFormed => b"not-well-formed",
            StreamError::PolicyViolation => b"policy-violation",
            StreamError::ResourceConstraint => b"resource-constraint",
            StreamError::RestrictedXml => b"restricted-xml",
            StreamError::UnsupportedEncoding => b"unsupported-encoding",
            StreamError::UnsupportedStanzaType => b"unsupported-stanza-type",
            StreamError::UnsupportedVersion => b"unsupported-version",
            StreamError::HandledCountTooHigh { .. } => b"undefined-condition",
        }
    }
}

impl Ended {
    /// The error that is said before the stream is closed. None where the client closed it, and where nothing is said.
    pub fn error(self) -> Option<StreamError>
        ensures { result ≡ error_of self }
    {
        match self {
            Ended::Broken(fault, _) => Some(error_of_fault(fault)),
            Ended::BadHeader(fault) => Some(error_of_header(fault)),
            Ended::BadItem(fault, _) => Some(error_of_item(fault)),
            Ended::ThirdFailure => Some(StreamError::PolicyViolation),
            Ended::Idle(_) => Some(StreamError::ConnectionTimeout),
            Ended::Over(cause) => error_of_cause(cause),
            Ended::Closed
            | Ended::Hung
            | Ended::LinkFault
            | Ended::DiceFault
            | Ended::Spent
            | Ended::NoMemory => None,
        }
    }
}

fn error_of_fault(fault: FrameFault) -> StreamError
    ensures { result ≡ error_of_fault fault }
{
    match fault {
        FrameFault::NotWellFormed => StreamError::NotWellFormed,
        FrameFault::Restricted => StreamError::RestrictedXml,
        FrameFault::BadPrefix => StreamError::BadNamespacePrefix,
        FrameFault::BadFormat => StreamError::BadFormat,
        FrameFault::TooLong | FrameFault::TooDeep | FrameFault::TooManyAttrs => {
            StreamError::PolicyViolation
        }
        FrameFault::BadEncoding => StreamError::UnsupportedEncoding,
    }
}

fn error_of_header(fault: HeaderFault) -> StreamError
    ensures { result ≡ error_of_header fault }
{
    match fault {
        HeaderFault::InvalidNamespace => StreamError::InvalidNamespace,
        HeaderFault::UnsupportedVersion => StreamError::UnsupportedVersion,
        HeaderFault::HostUnknown => StreamError::HostUnknown,
    }
}

fn error_of_item(fault: ItemFault) -> StreamError
    ensures { result ≡ error_of_item fault }
{
    match fault {
        ItemFault::InvalidFrom => StreamError::InvalidFrom,
        ItemFault::UnsupportedStanzaType => StreamError::UnsupportedStanzaType,
        ItemFault::BadFormat => StreamError::BadFormat,
        ItemFault::NotAuthorized => StreamError::NotAuthorized,
    }
}

/// A connection isn't over because a session was closed or lost: its own session ends so only as the line is emptied.
fn error_of_cause(cause: Cause) -> Option<StreamError>
    ensures { result ≡ error_of_cause cause }
{
    match cause {
        Cause::Moved(_) | Cause::Replaced(_) => Some(StreamError::Conflict),
        Cause::Overfull { .. } => Some(StreamError::ResourceConstraint),
        Cause::TooHigh { h, sent, .. } => Some(StreamError::HandledCountTooHigh { h, sent }),
        Cause::Flood(_) => Some(StreamError::PolicyViolation),
        Cause::Closed | Cause::Lost => None,
    }
}
