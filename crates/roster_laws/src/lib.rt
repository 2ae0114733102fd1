//! What holds of rosters, whatever code keeps them: each function's contract is a law, and its body is empty.
#![tactic(auto)]

pub mod laws;
