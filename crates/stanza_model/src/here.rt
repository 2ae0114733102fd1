//! Sessions, as the rules on stanzas see them.
use jid_core::Jid;

/// A session that goes on, as it is when a stanza is acted on.
#[derive(Drop)]
pub struct Here {
    /// Its number.
    pub session: u64,
    /// Its full address (RFC 6120, 7.1).
    pub address: Jid,
    /// Whether it sent presence and is available (RFC 6121, 4.2).
    pub available: bool,
    /// The priority in that presence, from -128 to 127 (RFC 6121, 4.7.2.3).
    pub priority: i16,
    /// Whether it asked for its roster, so that changes are pushed to it (RFC 6121, 2.1.6).
    pub wants_roster: bool,
    /// How many roster pushes were queued for it.
    pub pushes: u64,
}
