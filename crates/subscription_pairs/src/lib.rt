//! What comes of a subscription's stanza between two users of the server (RFC 6121, 3 and appendix A).
#![tactic(auto)]

pub mod change;
pub mod delivery;
pub mod laws;
pub mod limit;
pub mod outcome;
pub mod party;
pub mod removing;

pub use change::subscription;
pub use outcome::{outbound, state};
pub use party::Party;
pub use removing::removal;
