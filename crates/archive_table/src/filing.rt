//! What becomes of archives.
use jid_core::{Jid, Part};
use stanza_tree::Text;

/// What becomes of an archive.
#[derive(Drop)]
pub enum Filing {
    /// A message is kept for a user, by the local part of its address: with whom it was exchanged, its canonical spelling, and when, in
    /// milliseconds since 1970.
    OfUser {
        user: Part,
        peer: Jid,
        text: Text,
        moment: u64,
    },
    /// A message is kept for the room of a number: who said it, its spelling without its `to`, and when.
    OfRoom {
        room: u64,
        peer: Jid,
        text: Text,
        moment: u64,
    },
    /// The room of a number is there no more, and neither is its archive.
    NoRoom {
        room: u64,
    },
}
