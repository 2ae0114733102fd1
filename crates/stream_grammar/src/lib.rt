//! XMPP streams (RFC 6120): what they are, what is made of them, and where their faults are.
#![tactic(auto)]

mod item;
mod namespaces;
mod rules;

pub use item::{Item, Limits};
pub use namespaces::{Binding, NameFault, Written};
pub use rules::Rules;

/// Why no stream goes on with a byte, or why a stream is not read further.
#[derive(Clone, Copy, Debug, PartialEq, Eq)]
pub enum FrameFault {
    /// `not-well-formed` (RFC 6120, 4.9.3.13).
    NotWellFormed,
    /// `restricted-xml` (RFC 6120, 4.9.3.18).
    Restricted,
    /// `bad-namespace-prefix` (RFC 6120, 4.9.3.2).
    BadPrefix,
    /// `bad-format` (RFC 6120, 4.9.3.1): words other than white space between top elements.
    BadFormat,
    /// A header or a top element is longer than the limit.
    TooLong,
    /// A top element has more levels than the limit.
    TooDeep,
    /// A tag has more attributes than the limit.
    TooManyAttrs,
    /// `unsupported-encoding` (RFC 6120, 4.9.3.22), or bytes that are not UTF-8.
    BadEncoding,
}
