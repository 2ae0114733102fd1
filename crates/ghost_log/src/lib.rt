//! A log that stands in proofs alone. The running program keeps no byte of it and can't ask for its length.
#![tactic(auto)]

mod log;

pub use log::{GhostLog, Tells};
