//! Rooms, as the rules on them see them (XEP-0045).
ghost use Rattle.std.specs.Prelude.{◌≡◌};
ghost use Rattle.stanza_model.specs.Rooms.{affiliation_name, affiliation_named, role_name, role_named};

use crate::condition::Condition;
use crate::shared::Config;
use jid_core::{Jid, Part};
use stanza_tree::{Element, Several, Text};

/// What a user is to a room, whether it is in it or not (XEP-0045, 5.2).
#[derive(Clone, Copy, Debug, PartialEq, Eq)]
pub enum Affiliation {
    Owner,
    Admin,
    Member,
    /// `none`.
    Neither,
    Outcast,
}

/// What an occupant may do, as long as it is in the room (XEP-0045, 5.1).
#[derive(Clone, Copy, Debug, PartialEq, Eq)]
pub enum Role {
    Moderator,
    Participant,
    Visitor,
    /// `none`.
    Nobody,
}

/// Whether something may be done.
#[derive(Clone, Copy, Debug, PartialEq, Eq)]
pub enum Verdict {
    Allowed,
    Refused(Condition),
}

/// A session in a room.
#[derive(Drop)]
pub struct Seat {
    pub session: u64,
    /// The session's full address.
    pub address: Jid,
    /// The number of its stay.
    pub stay: u64,
}

/// A nick in a room, and the sessions of one user that have it.
#[derive(Drop)]
pub struct Occupant {
    /// In the order of joining; at least one.
    pub seats: Several<Seat>,
    pub nick: Part,
    pub affiliation: Affiliation,
    pub role: Role,
    /// The spelling of those children of its presence that others are shown.
    pub presence: Text,
    /// The session that sent this presence.
    pub spoke: u64,
}

/// What is known of a bare address in a room.
#[derive(Drop)]
pub struct Affiliated {
    pub address: Jid,
    pub affiliation: Affiliation,
}

/// A message that was said earlier, without its `to`, and when (XEP-0203; XEP-0082).
#[derive(Drop)]
pub struct Delayed {
    pub text: Text,
    pub stamp: Text,
}

#[derive(Drop)]
pub struct Room {
    pub number: u64,
    /// The room's bare address.
    pub address: Jid,
    pub config: Config,
    /// Whether only its owner may enter, since it isn't configured yet (XEP-0045, 10.1).
    pub locked: bool,
    /// In the order of setting.
    pub affiliations: Several<Affiliated>,
    /// In the order of entering.
    pub occupants: Several<Occupant>,
    /// The message that set the subject.
    pub subject: Option<Delayed>,
}

/// What a room broadcasts to its occupants, each of which gets its own view.
#[derive(Drop)]
pub enum RoomItem {
    /// The presence of an occupant (XEP-0045, 7.2.2).
    Presence {
        /// The sessions of its seats.
        sessions: Several<u64>,
        nick: Part,
        /// The full address of the session that sent it.
        address: Jid,
        affiliation: Affiliation,
        role: Role,
        /// Whether the nick is in the room no more.
        gone: bool,
        /// The nick that it has now (XEP-0045, 7.6).
        renamed: Option<Part>,
        /// The spelling of those children that are shown.
        children: Text,
        /// The status codes that each view has (XEP-0045, 15.6).
        statuses: Several<u16>,
        /// Those that the occupant's own views have before them.
        own_statuses: Several<u16>,
    },
    /// A message (XEP-0045, 7.4).
    Message {
        /// Its text, without its `to`.
        text: Text,
        /// Whether it has a body, so that it is kept.
        body: bool,
        /// The nick that said it, with the room's address.
        from: Jid,
        /// When, in milliseconds since 1970.
        moment: u64,
    },
    /// The room is there no more (XEP-0045, 10.9).
    Destroyed {
        reason: Option<Element>,
        /// The nick of each session in the room.
        nicks: Several<Nicked>,
    },
}

/// A session in a room, and the nick that it has there.
#[derive(Drop)]
pub struct Nicked {
    pub session: u64,
    pub nick: Part,
}

impl Affiliation {
    /// How it is written (XEP-0045, 5.2).
    pub fn name(self) -> &'static str
        ensures { result.now ≡ affiliation_name self }
    {
        match self {
            Affiliation::Owner => "owner",
            Affiliation::Admin => "admin",
            Affiliation::Member => "member",
            Affiliation::Neither => "none",
            Affiliation::Outcast => "outcast",
        }
    }

    /// The affiliation that is written so.
    pub fn named(name: &[u8]) -> Option<Affiliation>
        ensures { result ≡ affiliation_named name.now }
    {
        if name == b"owner".as_slice() {
            Some(Affiliation::Owner)
        } else if name == b"admin".as_slice() {
            Some(Affiliation::Admin)
        } else if name == b"member".as_slice() {
            Some(Affiliation::Member)
        } else if name == b"none".as_slice() {
            Some(Affiliation::Neither)
        } else if name == b"outcast".as_slice() {
            Some(Affiliation::Outcast)
        } else {
            None
        }
    }
}

impl Role {
    /// How it is written (XEP-0045, 5.1).
    pub fn name(self) -> &'static str
        ensures { result.now ≡ role_name self }
    {
        match self {
            Role::Moderator => "moderator",
            Role::Participant => "participant",
            Role::Visitor => "visitor",
            Role::Nobody => "none",
        }
    }

    /// The role that is written so.
    pub fn named(name: &[u8]) -> Option<Role>
        ensures { result ≡ role_named name.now }
    {
        if name == b"moderator".as_slice() {
            Some(Role::Moderator)
        } else if name == b"participant".as_slice() {
            Some(Role::Participant)
        } else if name == b"visitor".as_slice() {
            Some(Role::Visitor)
        } else if name == b"none".as_slice() {
            Some(Role::Nobody)
        } else {
            None
        }
    }
}
