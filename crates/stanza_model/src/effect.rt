//! What comes of a stanza, as a list of effects that are applied one after another.
use crate::room::{Affiliation, Role, RoomItem};
use crate::shared::Config;
use jid_core::{Jid, Part};
use stanza_tree::{Origin, Several, Text};

/// One effect.
#[derive(Drop)]
pub enum Effect {
    /// A stanza is queued for the session of this number: its address, its text without the address, and why it is queued.
    Queue {
        session: u64,
        to: Text,
        rest: Text,
        origin: Origin,
    },
    /// A room broadcasts: the item is the next of the room's order, and each session in the room gets its view (XEP-0045, 7).
    Broadcast {
        room: u64,
        item: RoomItem,
    },
    /// A session of this full address enters a room (XEP-0045, 7.2): its stay begins at the present length of the room's order. It is a
    /// seat of the occupant that has this nick, or of a new one in this role.
    Enter {
        room: u64,
        session: u64,
        address: Jid,
        nick: Part,
        role: Role,
    },
    /// A session leaves a room (XEP-0045, 7.14): its stay ends at the present length of the room's order.
    Leave {
        room: u64,
        session: u64,
    },
    /// A message is kept for a user, by its local part (XEP-0313, 2): with whom it was exchanged, its canonical spelling, and when, in
    /// milliseconds since 1970.
    Keep {
        user: Part,
        peer: Jid,
        text: Text,
        moment: u64,
    },
    /// Something that the server keeps is set.
    Set(Change),
}

/// What is set (RFC 6121, 2 to 4; XEP-0045).
#[derive(Drop)]
pub enum Change {
    /// A session asked for its roster, and is told of changes from then on.
    WantsRoster {
        session: u64,
    },
    /// So many pushes were queued for a session.
    Pushed {
        session: u64,
        pushes: u64,
    },
    /// A contact of a user has this name and these groups, in its place, or as the last one where it is new.
    Contact {
        user: Part,
        address: Jid,
        name: Text,
        groups: Several<Text>,
    },
    /// A user has this contact no more.
    NoContact {
        user: Part,
        address: Jid,
    },
    /// Whether `a` sees the presence of `b`. Both are bare addresses.
    Sees {
        a: Jid,
        b: Jid,
        yes: bool,
    },
    /// Whether `a` has asked `b` to be allowed to.
    Asked {
        a: Jid,
        b: Jid,
        yes: bool,
    },
    /// A session is available, with this presence and this priority.
    Available {
        session: u64,
        stanza: Text,
        priority: i16,
    },
    /// A session is unavailable.
    Unavailable {
        session: u64,
    },
    /// These addresses were sent presence by a session alone (RFC 6121, 4.6).
    Directed {
        session: u64,
        addresses: Several<Jid>,
    },
    /// A room of this number, the next, is at this bare address, locked, with this owner.
    RoomMade {
        room: u64,
        address: Jid,
        owner: Jid,
    },
    /// A room is there no more, and all stays in it end.
    RoomGone {
        room: u64,
    },
    /// Others than a room's owner may enter it.
    Unlocked {
        room: u64,
    },
    /// A room is configured so.
    Configured {
        room: u64,
        config: Config,
    },
    /// A bare address has this affiliation in a room. It stands last among those that have one.
    Affiliated {
        room: u64,
        address: Jid,
        affiliation: Affiliation,
    },
    /// The occupant that has a seat of this session has this role.
    RoleSet {
        room: u64,
        session: u64,
        role: Role,
    },
    /// That occupant has this nick.
    Renamed {
        room: u64,
        session: u64,
        nick: Part,
    },
    /// This session sent the presence that others are shown of that occupant.
    OccupantShown {
        room: u64,
        session: u64,
        presence: Text,
    },
    /// A room's subject is this message, without its `to`, which was sent then (XEP-0082).
    Subject {
        room: u64,
        text: Text,
        stamp: Text,
    },
    /// A message is kept for a room (XEP-0313, 2): who said it, its text without its `to`, and when, in milliseconds since 1970.
    RoomRow {
        room: u64,
        peer: Jid,
        text: Text,
        moment: u64,
    },
}
