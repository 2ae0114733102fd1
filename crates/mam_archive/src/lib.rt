//! Archives of messages: each keeps the last 10,000 rows that were added (XEP-0313, 2).
#![tactic(auto)]

pub mod archive;
pub mod ids;
pub mod index;
pub mod laws;
mod lists;
pub mod peers;

pub use archive::Archive;
