//! Pollers, clock and dice as they are, over loopback and with threads: tests of `outside_net` by its public calls. They stand apart from it, since a
//! crate with tests is proved twice.
#![tactic(auto)]

#[cfg(test)]
mod pollers;
