//! Why a roster set is refused (RFC 6121, 2.3.3 and 2.5.3).
ghost use Rattle.std.specs.Prelude.{◌≡◌, IfOk, bytes_eq, nat_lt};
ghost use Rattle.std.specs.List.{list_any};
ghost use Rattle.std.specs.Option.{option_copied};
ghost use Rattle.stanza_model.specs.RosterLimits.{most_text};
ghost use Rattle.roster_book.specs.Refusals.{contact_at, has_double, has_wrong_groups, has_wrong_texts, is_missing};
ghost use Rattle.roster_book.specs.Refusals.{is_too_large, is_wrong_group, refusal, text_after};

use crate::item::Wanted;
use jid_core::Jid;
use stanza_model::{Condition, Contact, MOST_CONTACTS, MOST_ROSTER_BYTES, counted};
use stanza_tree::{NoMemory, Text};
use std::alloc::Global;

/// The most bytes of a name, and of a group: as many as a part of an address has (RFC 7622, 3.2).
const MOST_BYTES: usize = 1023;

/// The most groups of a contact: so that one contact takes a third of a roster at most.
const MOST_GROUPS: usize = 64;

/// The condition by which a set is refused, if it is.
pub fn refusal(
    alloc: Global,
    contacts: &[Contact],
    wanted: &Wanted,
) -> Result<Option<Condition>, NoMemory>
    ensures { IfOk result (λ c. c ≡ refusal contacts.now wanted.now) }
{
    if has_wrong_texts(&wanted.contact) {
        return Ok(Some(Condition::NotAcceptable));
    }
    if has_wrong_groups(wanted.contact.groups.slice()) {
        return Ok(Some(Condition::BadRequest));
    }
    if is_missing(contacts, wanted) {
        return Ok(Some(Condition::ItemNotFound));
    }
    if is_too_large(alloc, contacts, &wanted.contact)? {
        return Ok(Some(Condition::ResourceConstraint));
    }
    Ok(None)
}

/// The contact that has this address.
pub(crate) fn contact_at<'a>(contacts: &'a [Contact], address: &Jid) -> Option<&'a Contact>
    ensures { option_copied result ≡ contact_at address.now contacts.now }
{
    for contact in contacts {
        if contact.address.is_same(address) {
            return Some(contact);
        }
    }
    None
}

fn has_wrong_texts(contact: &Contact) -> bool
    ensures { result ≡ has_wrong_texts contact.now }
{
    contact.name.bytes().len() > MOST_BYTES || has_wrong_group(contact.groups.slice())
}

fn has_wrong_group(groups: &[Text]) -> bool
    ensures { result ≡ list_any is_wrong_group groups.now }
{
    groups.iter().any(|group| is_wrong_group(group))
}

fn is_wrong_group(group: &Text) -> bool
    ensures { result ≡ is_wrong_group group.now }
{
    let bytes = group.bytes().len();
    bytes == 0 || bytes > MOST_BYTES
}

fn has_wrong_groups(groups: &[Text]) -> bool
    ensures { result ≡ has_wrong_groups groups.now }
{
    groups.len() > MOST_GROUPS || has_double(groups)
}

/// Whether two groups are the same.
fn has_double(groups: &[Text]) -> bool
    ensures { result ≡ has_double groups.now }
{
    for (i, group) in groups.iter().enumerate() {
        if is_among(group, &groups[i + 1..]) {
            return true;
        }
    }
    false
}

fn is_among(group: &Text, groups: &[Text]) -> bool
    ensures { result ≡ list_any (λ h. bytes_eq h group.now) groups.now }
{
    groups.iter().any(|other| other.bytes() == group.bytes())
}

/// Whether a contact that is to be removed isn't there.
fn is_missing(contacts: &[Contact], wanted: &Wanted) -> bool
    ensures { result ≡ is_missing contacts.now wanted.now }
{
    wanted.remove && contact_at(contacts, &wanted.contact.address).is_none()
}

/// Whether the roster would have too many contacts or too much text.
fn is_too_large(alloc: Global, contacts: &[Contact], contact: &Contact) -> Result<bool, NoMemory>
    ensures { IfOk result (λ b. b ≡ is_too_large contacts.now contact.now) }
{
    if contact_at(contacts, &contact.address).is_none() && contacts.len() >= MOST_CONTACTS {
        return Ok(true);
    }
    has_too_much_text(alloc, contacts, contact)
}

fn has_too_much_text(
    alloc: Global,
    contacts: &[Contact],
    contact: &Contact,
) -> Result<bool, NoMemory>
    ensures { IfOk result (λ b. b ≡ nat_lt most_text (text_after contacts.now contact.now)) }
{
    let mut sum = counted(alloc, contact)?;
    for other in contacts {
        if sum > MOST_ROSTER_BYTES {
            return Ok(true);
        }
        if !other.address.is_same(&contact.address) {
            sum = sum.saturating_add(counted(alloc, other)?);
        }
    }
    Ok(sum > MOST_ROSTER_BYTES)
}
