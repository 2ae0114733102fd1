//! What the definitions of XMPP streams (RFC 6120) say.
#![tactic(auto)]

pub mod calls;
pub mod laws;
pub mod round_trip;
