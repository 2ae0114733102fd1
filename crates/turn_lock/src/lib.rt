//! A lock whose turns are counted. Threads draw tickets and are served in their order, and the lock
//! keeps, in its proof alone, the one history of all turns: each turn adds one entry, and what a
//! caller has seen is a beginning of it.
//!
//! `Turnstile::start` makes the lock and its passes; with a pass a thread calls `enter` and `leave`.
//! `meet` hands on what was seen, and `close` gives the value back. Only `start` takes memory.
//!
//! `laws` has what follows from the contracts of several calls, and `rule` what proofs alone name.
#![tactic(auto)]

pub mod laws;
mod lock;
mod parking;
pub mod rule;
mod story;
mod tokens;

pub use lock::Turnstile;
pub use story::Storied;
pub use tokens::{NoMemory, Pass, Spent, Turn};
