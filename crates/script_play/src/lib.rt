//! Plays a script: reads its lines from a source, and prints the reply of each to a sink.
#![tactic(auto)]

pub mod laws;
mod lines;
mod output;
mod place;
pub mod replay;
pub mod status;
mod streams;

pub use output::write_all;
pub use status::Status;
