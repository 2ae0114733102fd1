//! Which place a stanza is for, what comes of a message, and what discovery answers (RFC 6120, 10; RFC 6121, 8.5; XEP-0030).
#![tactic(auto)]

pub mod discovery;
mod giving;
pub mod listed;
pub mod message;
pub mod places;
pub mod room;
pub mod routing;

pub use discovery::discover;
pub use giving::is_to_oneself;
pub use listed::Listed;
pub use message::{copy_to, deliver, deliver_to, keep_receivers, message_receivers};
pub use places::Place;
pub use routing::place;
