//! What comes of requests about a user's own roster (RFC 6121, 2.1 to 2.5).
#![tactic(auto)]

pub mod item;
pub mod refusal;
pub mod request;

pub use request::{removed_by, roster_get, roster_set};
