//! What comes of presence: broadcasts, and directed presence (RFC 6121, 4).
#![tactic(auto)]

pub mod broadcast;
mod copies;
pub mod direct;
mod priority;

pub use broadcast::{available, unavailable};
pub use direct::directed;
