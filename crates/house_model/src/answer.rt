//! What waits for a connection to be answered.

use sm_resume::ResumeId;
use stanza_tree::Text;

/// A frame that waits for a connection and is not an entry of its session.
#[derive(Drop)]
pub enum Answer {
    /// The request with this id made a session of this address (RFC 6120, 7.6.1).
    Bound { id: Text, jid: Text },
    /// The user, or the house, has too many sessions (RFC 6120, 7.6.2.1).
    Refused { id: Text },
    /// The request came at a time when it can't be taken (XEP-0198, 3 and 5).
    Unexpected,
    /// No session that can be resumed has the id (XEP-0198, 5).
    NotFound,
    /// Stanzas are counted; with an id the session can be resumed (XEP-0198, 3).
    Enabled { id: Option<ResumeId> },
    /// The session of this id goes on, and the server handled `h` stanzas (XEP-0198, 5).
    Resumed { h: u32, id: ResumeId },
    /// The server handled so many stanzas (XEP-0198, 4).
    Counted { h: u32 },
}
