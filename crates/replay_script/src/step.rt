//! What a line of a script does.
use house_model::Event;
use jid_core::{Jid, Part};
use stanza_tree::Several;

/// The step of a line.
#[derive(Drop)]
pub enum Step {
    /// The house is made: its domain, its users, and how many connections there is room for.
    Begin {
        domain: Jid,
        users: Several<Part>,
        workers: u32,
    },
    /// An event happens in the house.
    Event(Event),
    /// The bytes go to the framer of connection `w`.
    Feed {
        w: u32,
        bytes: Several<u8>,
    },
    /// The framer of connection `w` begins a new stream.
    Fresh {
        w: u32,
    },
}
