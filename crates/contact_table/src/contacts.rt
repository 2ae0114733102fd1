//! A list of contacts.
ghost use Rattle.std.specs.Prelude.{◌≡◌, ◌<◌, ◌≤◌, ◌+◌, not, vec_len, vec_capacity};
ghost use Rattle.std.specs.List.{filter, position};
ghost use Rattle.jid_core.specs.Addresses.{same_address};
ghost use Rattle.contact_table.specs.Marks.{with_listed};

use jid_core::Jid;
use stanza_model::Contact;

fn place_of(contacts: &[Contact], address: &Jid) -> Option<usize>
    ensures { result ≡ position (λ c. same_address c.address address.now) contacts.now }
{
    contacts.iter().position(|c| c.address.is_same(address))
}

/// A contact takes the place of the first one of its address, or else comes last (RFC 6121, 2.3).
pub(crate) fn put(contacts: &mut Vec<Contact>, contact: Contact)
    requires { vec_len contacts.old < vec_capacity contacts.old }
    ensures contacts { contacts.new.items ≡ with_listed contact contacts.old.items }
    ensures longer { vec_len contacts.new ≤ vec_len contacts.old + 1 }
    ensures capacity { vec_capacity contacts.new ≡ vec_capacity contacts.old }
{
    match place_of(contacts.as_slice(), &contact.address) {
        Some(place) => contacts[place] = contact,
        None => contacts.push_reserved(contact),
    }
}

/// Takes out each contact of an address (RFC 6121, 2.5).
pub(crate) fn take_out(contacts: &mut Vec<Contact>, address: &Jid)
    ensures contacts { contacts.new.items ≡ filter (λ c. not (same_address c.address address.now)) contacts.old.items }
    ensures shorter { vec_len contacts.new ≤ vec_len contacts.old }
    ensures capacity { vec_capacity contacts.new ≡ vec_capacity contacts.old }
{
    contacts.retain(|c| !c.address.is_same(address));
}
