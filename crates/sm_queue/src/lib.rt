//! The queue of the stanzas that wait for a session's client (XEP-0198): what was not sent yet, and
//! what was sent and not acknowledged.
//!
//! A queue stands for the whole list of the session's stanzas with true numbers, of which it has the
//! end that is not done with, and counts modulo 2^32. Only `SmQueue::reserve` takes memory.
#![tactic(auto)]

mod queue;

pub use queue::{MAX_WAITING_BYTES, MAX_WAITING_ENTRIES, SmQueue, TooHigh};
