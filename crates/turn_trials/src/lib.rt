//! Threads that take turns, at a tally and at a house: tests of `turn_lock` and `hall` by their public calls. They stand apart from these
//! crates, since a crate with tests is proved twice.
#![tactic(auto)]

#[cfg(test)]
mod halls;
#[cfg(test)]
mod turns;
