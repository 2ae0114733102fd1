//! The outside in memory, and values that no script and no story of a connection shows: tests of `outside`, `stanza_tree`, `jid_core`,
//! `stanza_model`, `stanza_router`, `stream_frames` and `conn_asks` by their public calls. They stand apart from these crates, since a crate with
//! tests is proved twice.
#![tactic(auto)]

#[cfg(test)]
mod addresses;
#[cfg(test)]
mod devices;
#[cfg(test)]
mod elements;
#[cfg(test)]
mod heard;
#[cfg(test)]
mod syntax;
#[cfg(test)]
mod texts;
#[cfg(test)]
mod values;
