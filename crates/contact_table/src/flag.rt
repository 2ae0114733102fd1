//! What a contact has of the pairs.
ghost use Rattle.std.specs.Prelude.{◌≡◌, map};
ghost use Rattle.stanza_model.specs.Subscriptions.{state_by};
ghost use Rattle.contact_table.specs.Marks.{flagged, marked, seen_in, sees_in};

use crate::address::is_user;
use jid_core::Part;
use stanza_model::{Contact, Subscription};

/// What a pair says of a contact.
#[derive(Clone, Copy)]
pub(crate) enum Flag {
    /// Whether the owner sees the contact's presence.
    Sees,
    /// Whether the contact sees the owner's.
    Seen,
    /// Whether the owner has asked to see the contact's.
    Asked,
}

/// The state of a subscription (RFC 6121, 2.1.2.5), by whether the owner sees the contact's presence and the contact the owner's.
pub(crate) fn state_by(sees: bool, seen: bool) -> Subscription
    ensures { result ≡ state_by sees seen }
{
    match (sees, seen) {
        (true, true) => Subscription::Both,
        (true, false) => Subscription::To,
        (false, true) => Subscription::From,
        (false, false) => Subscription::Neither,
    }
}

fn is_to(state: Subscription) -> bool
    ensures { result ≡ sees_in state }
{
    match state {
        Subscription::To | Subscription::Both => true,
        Subscription::Neither | Subscription::From => false,
    }
}

fn is_from(state: Subscription) -> bool
    ensures { result ≡ seen_in state }
{
    match state {
        Subscription::From | Subscription::Both => true,
        Subscription::Neither | Subscription::To => false,
    }
}

fn set_flag(contact: &mut Contact, flag: Flag, yes: bool)
    ensures { contact.new ≡ flagged flag yes contact.old }
{
    match flag {
        Flag::Sees => contact.subscription = state_by(yes, is_from(contact.subscription)),
        Flag::Seen => contact.subscription = state_by(is_to(contact.subscription), yes),
        Flag::Asked => contact.asked = yes,
    }
}

/// Sets a flag of each contact that is this user.
pub(crate) fn mark(contacts: &mut [Contact], domain: &Part, other: &Part, flag: Flag, yes: bool)
    ensures { contacts.new ≡ map (marked domain.now other.now flag yes) contacts.old }
{
    for contact in contacts.iter_mut() {
        if is_user(domain, other, &contact.address) {
            set_flag(contact, flag, yes);
        }
    }
}
