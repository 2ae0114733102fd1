//! The users between whom a subscription is, and what each is to the other (RFC 6121, 2.1 and 3).
ghost use Rattle.std.specs.Prelude.{◌≡◌, IfOk};
ghost use Rattle.std.specs.Option.{option_copied};
ghost use Rattle.stanza_model.specs.Rosters.{item};
ghost use Rattle.subscription_pairs.specs.Users.{asked_by, contact_by, contact_of, new_contact, seen_by, sees_by, side_in, side_of, user_of};

use crate::outcome::state;
use jid_core::{Jid, Part};
use stanza_model::{Contact, Here, Side, Subscription, item, item_as};
use stanza_tree::{Element, NoMemory, Several, Text};
use std::alloc::Global;
use std::marker::Model;

/// A user of the server.
#[derive(Drop)]
pub struct Party<'a> {
    /// Its bare address.
    pub bare: &'a Jid,
    /// The contacts of its roster.
    pub contacts: &'a [Contact],
    /// Its sessions that go on.
    pub sessions: &'a [Here],
    /// The presence of each available session, without `to`, in the order of `sessions`.
    pub presences: &'a [Text],
}

impl<'a> Model for Party<'a> {
    ghost use Rattle.subscription_pairs.specs.Users.{User};

    ghost Value = { User };

    ghost view = { λ p. record { bare = p.bare.now; contacts = p.contacts.now; sessions = p.sessions.now; presences = p.presences.now } };
}

/// The user of an address.
pub(crate) fn user_of(address: &Jid) -> &Part
    ensures { result.now ≡ user_of address.now }
{
    match &address.local {
        Some(local) => local,
        None => &address.domain,
    }
}

/// The contact of that address.
pub(crate) fn contact_of<'a>(contacts: &'a [Contact], address: &Jid) -> Option<&'a Contact>
    ensures { option_copied result ≡ contact_of contacts.entry.now address.now }
{
    contacts.iter().find(|c| c.address.is_same(address))
}

fn sees_by(subscription: Subscription) -> bool
    ensures { result ≡ sees_by subscription }
{
    matches!(subscription, Subscription::To | Subscription::Both)
}

fn seen_by(subscription: Subscription) -> bool
    ensures { result ≡ seen_by subscription }
{
    matches!(subscription, Subscription::From | Subscription::Both)
}

fn asked_by(contact: Option<&Contact>) -> bool
    ensures { result ≡ asked_by (option_copied contact.entry) }
{
    match contact {
        Some(contact) => contact.asked,
        None => false,
    }
}

fn side_in(own: Option<&Contact>, other: Option<&Contact>) -> Side
    ensures { result ≡ side_in (option_copied own.entry) (option_copied other.entry) }
{
    match own {
        Some(own) => Side {
            sees: sees_by(own.subscription),
            seen: seen_by(own.subscription),
            asked: own.asked,
            asked_by: asked_by(other),
            listed: true,
        },
        None => Side {
            sees: false,
            seen: false,
            asked: false,
            asked_by: asked_by(other),
            listed: false,
        },
    }
}

/// What the one is to the other.
pub(crate) fn side_of(one: &Party, other: &Party) -> Side
    ensures { result ≡ side_of one.now other.now }
{
    let own = contact_of(one.contacts, other.bare);
    let others = contact_of(other.contacts, one.bare);
    side_in(own, others)
}

/// A contact without a name and groups.
pub(crate) fn new_contact(alloc: Global, address: &Jid, side: Side) -> Result<Contact, NoMemory>
    ensures { IfOk result (λ c. c ≡ new_contact address.now side) }
{
    Ok(Contact {
        address: address.copy(alloc)?,
        name: Text::empty(alloc),
        groups: Several::of(Vec::new(alloc)),
        subscription: state(side),
        asked: side.asked,
    })
}

/// The item of the contact of that address, as it stands by this side.
pub(crate) fn item_by(
    alloc: Global,
    party: &Party,
    address: &Jid,
    side: Side,
) -> Result<Element, NoMemory>
    ensures { IfOk result (λ e. e ≡ item (contact_by address.now side (contact_of party.now.contacts address.now))) }
{
    match contact_of(party.contacts, address) {
        Some(contact) => item_as(alloc, contact, state(side), side.asked),
        None => item(alloc, &new_contact(alloc, address, side)?),
    }
}
