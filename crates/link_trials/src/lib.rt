//! Servers of several workers over links in memory, and their words: tests of `conn_staff`, `serve_run` and `serve_words` by their
//! public calls. They stand apart from these crates, since a crate with tests is proved twice.
#![tactic(auto)]

#[cfg(test)]
mod conflicts;
#[cfg(test)]
mod full;
#[cfg(test)]
mod places;
#[cfg(test)]
mod servers;
#[cfg(test)]
mod words;
