//! Many links at one worker: each is served at a place of its own, in rounds.
#![tactic(auto)]

mod begin;
mod farewell;
mod many;
mod place;

pub use many::{ManyEnded, serve_many};
pub use place::{Line, Place};
