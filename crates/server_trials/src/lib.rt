//! Whole servers over loopback, with threads: tests of the commands over `outside_net`, by their public calls. They stand apart from these crates,
//! since a crate with tests is proved twice.
#![tactic(auto)]

#[cfg(test)]
mod servers;
