//! What the rules on rosters, subscriptions, presence and rooms speak of (RFC 6121, XEP-0045).
use crate::kinds::PresenceForm;
use jid_core::Jid;
use stanza_tree::{Several, Text};

/// How a room is configured (XEP-0045, 10.2).
#[derive(Drop)]
pub struct Config {
    /// Whether it stays when its last occupant leaves.
    pub persistent: bool,
    /// Whether only members may enter.
    pub members_only: bool,
    /// Whether only those with voice may speak.
    pub moderated: bool,
    /// Whether anyone sees the occupants' addresses, and not moderators alone.
    pub anyone: bool,
    /// The password for entering it; empty where it needs none.
    pub secret: Text,
    /// The most occupants, from 1 to 256.
    pub max: u32,
    pub title: Text,
    /// Whether participants may change the subject.
    pub change_subject: bool,
}

/// What one user is to another, by the presence that they see (RFC 6121, 3 and appendix A).
#[derive(Clone, Copy, Debug, PartialEq, Eq)]
pub struct Side {
    /// Whether it sees the other's presence.
    pub sees: bool,
    /// Whether the other sees its presence.
    pub seen: bool,
    /// Whether it has asked the other to be allowed to.
    pub asked: bool,
    /// Whether the other has asked it.
    pub asked_by: bool,
    /// Whether the other is a contact in its roster.
    pub listed: bool,
}

/// The presence that is shown because a subscription changed (RFC 6121, 3.1.5, 3.2.2 and 3.3.3).
#[derive(Clone, Copy, Debug, PartialEq, Eq)]
pub enum Show {
    Nothing,
    /// The other sees the presence of each of my available sessions.
    MineAvailable,
    /// The other sees that each of them is unavailable.
    MineUnavailable,
    /// I see that each available session of the other is unavailable.
    TheirsUnavailable,
}

/// What comes of a subscription's stanza, by the two sides.
#[derive(Clone, Copy, Debug, PartialEq, Eq)]
pub struct Outcome {
    /// What the sender is to the other afterwards.
    pub mine: Side,
    /// What the other is to the sender afterwards.
    pub theirs: Side,
    /// What is delivered, if anything.
    pub deliver: Option<PresenceForm>,
    /// Whether it goes back to the sender, from the other.
    pub back: bool,
    /// Whether the sender's sessions are pushed their contact.
    pub push_mine: bool,
    /// Whether the other's sessions are pushed theirs.
    pub push_theirs: bool,
    pub show: Show,
}

/// The state of a contact in a roster (RFC 6121, 2.1.2.5).
#[derive(Clone, Copy, Debug, PartialEq, Eq)]
pub enum Subscription {
    /// `none`.
    Neither,
    /// `to`: its owner sees the contact's presence.
    To,
    /// `from`: the contact sees its owner's.
    From,
    /// `both`.
    Both,
}

/// A contact of a roster (RFC 6121, 2.1.2).
#[derive(Drop)]
pub struct Contact {
    /// Its bare address.
    pub address: Jid,
    /// The name that the owner gave it; may be empty.
    pub name: Text,
    pub groups: Several<Text>,
    pub subscription: Subscription,
    /// Whether the owner has asked for its presence.
    pub asked: bool,
}

/// A user's contacts, in the order in which they were made (RFC 6121, 2.1).
#[derive(Drop)]
pub struct Roster {
    /// The user's bare address.
    pub owner: Jid,
    pub contacts: Vec<Contact>,
}

/// A stanza for an address, without its `to`.
#[derive(Drop)]
pub struct Shown {
    pub to: Text,
    pub rest: Text,
}
