//! Runs the server: the list of accounts is read, the ports are opened, and workers serve what comes until all doors shut or failed.
#![tactic(auto)]

pub mod laws;
mod limits;
mod list;
mod opening;
mod report;
mod serving;

pub use serving::{Serving, serve};
