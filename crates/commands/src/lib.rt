//! The commands of the server's program: what its words ask for, and what each command reads, writes and ends with.
#![tactic(auto)]

pub mod account;
pub mod laws;
pub mod run;
pub mod status_line;
pub mod words;
