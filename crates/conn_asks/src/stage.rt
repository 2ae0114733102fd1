//! How far a client came, and what it needs random bytes for.

use crate::login::Exchanging;
use jid_core::Part;
use scram_core::{Hello, Mechanism};
use stanza_tree::Text;

/// How far a client came.
#[derive(Drop)]
pub enum Stage {
    /// It is to log in (RFC 6120, 6).
    Login(Exchanging),
    /// This user is to bind a session or to resume one (RFC 6120, 7; XEP-0198, 5).
    Logged(Part),
    /// This user has a session.
    Bound(Part),
}

/// What random bytes are for.
#[derive(Drop)]
pub enum Purpose {
    /// The server's part of the nonce in the answer to this first text (RFC 5802, 5.1).
    Challenge(Mechanism, Hello),
    /// A resource, where none is asked for (RFC 6120, 7.6).
    Bind { id: Text, resource: Option<Part> },
    /// The id of a session that can be resumed (XEP-0198, 3).
    Enable { resume: bool },
}
