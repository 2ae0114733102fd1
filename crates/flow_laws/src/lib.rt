//! What the calls of a flow make of a connection: each is a move that may follow. Each function's contract is a law, and its body is empty.
#![tactic(auto)]

pub mod causes;
pub mod laws;
