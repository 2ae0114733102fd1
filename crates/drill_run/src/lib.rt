//! Runs a drill: its clients' events over a house, and one line that tells how it went.
#![tactic(auto)]

mod counts;
mod course;
pub mod drill;
mod opening;
