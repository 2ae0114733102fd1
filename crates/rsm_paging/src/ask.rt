//! The rows of an archive, what is asked of them, and what the answer is.
ghost use Rattle.std.specs.Prelude.{◌≡◌};

use jid_core::Jid;
use stanza_tree::{NoMemory, Several, Text};

/// A message that an archive keeps (XEP-0313, 2).
#[derive(Drop)]
pub struct Row {
    /// Its number in the archive, from 1 on.
    pub id: u64,
    /// When it was kept, in milliseconds since 1970.
    pub stamp: u64,
    /// With whom it was exchanged, or who said it in a room.
    pub peer: Jid,
    /// The canonical spelling of the message.
    pub text: Text,
}

/// Which rows are asked for (XEP-0313, 4.1).
#[derive(Drop)]
pub struct Filter {
    /// Of this peer: a bare address is that of each peer with it, a full one of the equal peer alone.
    pub peer: Option<Jid>,
    /// Of this moment or later.
    pub start: Option<u64>,
    /// Of this moment or earlier.
    pub end: Option<u64>,
}

/// Which of them are wanted now (XEP-0059, 2). Not both `after` and `before`.
#[derive(Drop)]
pub struct PageAsk {
    /// At most so many; past 50 it counts as 50.
    pub max: u32,
    /// Those after the row of this id.
    pub after: Option<Text>,
    /// The last of those before the row of this id; the last of all where it is empty.
    pub before: Option<Text>,
}

/// A page (XEP-0059, 2).
#[derive(Drop)]
pub struct Page {
    /// The ids of its rows, rising.
    pub rows: Several<u64>,
    /// How many of the rows that are asked for stand before its first row; 0 where it is empty.
    pub first_index: u64,
    /// How many rows are asked for in all.
    pub count: u64,
    /// Whether no row that was wanted is left out.
    pub complete: bool,
}

/// Why there is no page.
#[derive(Drop)]
pub enum PageFault {
    NoMemory,
    /// No row has this id.
    UnknownId(Text),
}

impl From<NoMemory> for PageFault {
    ghost use Rattle.rsm_paging.specs.declared.ask.PageFault.TheVariants as fault;

    ghost from_gives = { λ _ f. f ≡ fault.NoMemory };

    fn from(_error: NoMemory) -> PageFault {
        PageFault::NoMemory
    }
}
