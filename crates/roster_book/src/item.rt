//! What a roster set says (RFC 6121, 2.1.2 and 2.1.5).
ghost use Rattle.std.specs.Prelude.{◌≡◌, ◌&&◌, IfOk, bytes_eq, codes, length, map};
ghost use Rattle.std.specs.Option.{option_copied};
ghost use Rattle.stanza_tree.specs.Children.{words_of};
ghost use Rattle.stanza_model.specs.Rosters.{roster_space};
ghost use Rattle.roster_book.specs.Items.{address_in, contact_in, is_other, is_removal, name_in, only_item, parts_of, query_in, wanted_by, wanted_in};

use jid_core::{Jid, JidFault};
use stanza_model::{Contact, IqForm, Stanza, Subscription};
use stanza_tree::{Element, NoMemory, Node, Several, Text};
use std::alloc::Global;

/// The namespace of rosters (RFC 6121, 2.1).
pub(crate) const ROSTER_SPACE: &[u8] = b"jabber:iq:roster";

/// What a roster set wants.
#[derive(Drop)]
pub struct Wanted {
    /// The contact as the item has it, without a subscription.
    pub contact: Contact,
    /// Whether it is to be removed (RFC 6121, 2.5.1).
    pub remove: bool,
}

/// What a set wants of the roster of this owner. None where it hasn't exactly one item, or the item's address is absent, can't be
/// read, is full or is the owner's.
pub fn wanted_in(alloc: Global, owner: &Jid, request: &Stanza) -> Result<Option<Wanted>, NoMemory>
    ensures { IfOk result (λ w. w ≡ wanted_in owner.now request.now) }
{
    let Some(query) = query_in(request) else {
        return Ok(None);
    };
    match only_item(query) {
        Some(item) => wanted_by(alloc, owner, item),
        None => Ok(None),
    }
}

fn query_in(request: &Stanza) -> Option<&Element>
    ensures { option_copied result ≡ query_in request.now }
{
    match request {
        Stanza::Iq {
            form: IqForm::Set,
            element,
            ..
        } => element.child(ROSTER_SPACE, b"query"),
        _ => None,
    }
}

fn only_item(query: &Element) -> Option<&Element>
    ensures { option_copied result ≡ only_item query.now }
{
    if item_count(query.children.slice()) == 1 {
        query.child(ROSTER_SPACE, b"item")
    } else {
        None
    }
}

/// Whether an element has that name in the namespace of rosters.
fn is_part(e: &Element, local: &[u8]) -> bool
    ensures { result ≡ (bytes_eq e.now.name.space roster_space && bytes_eq e.now.name.local local.now) }
{
    e.name.space.bytes() == ROSTER_SPACE && e.name.local.bytes() == local
}

fn item_count(nodes: &[Node]) -> usize
    ensures { result ≡ length (parts_of (codes "item") nodes.now) }
{
    let mut count = 0usize;
    for node in nodes {
        if let Node::Child(e) = node {
            if is_part(e, b"item") {
                count += 1;
            }
        }
    }
    count
}

fn wanted_by(alloc: Global, owner: &Jid, item: &Element) -> Result<Option<Wanted>, NoMemory>
    ensures { IfOk result (λ w. w ≡ wanted_by owner.now item.now) }
{
    match address_in(alloc, item)? {
        Some(address) if is_other(owner, &address) => {
            let contact = contact_in(alloc, item, address)?;
            let remove = is_removal(item);
            Ok(Some(Wanted { contact, remove }))
        }
        _ => Ok(None),
    }
}

/// The address in its `jid`, where that can be read (RFC 6121, 2.1.2.3).
fn address_in(alloc: Global, item: &Element) -> Result<Option<Jid>, NoMemory>
    ensures { IfOk result (λ a. a ≡ address_in item.now) }
{
    let Some(value) = item.attr(b"jid") else {
        return Ok(None);
    };
    match Jid::read(alloc, value.bytes()) {
        Ok(address) => Ok(Some(address)),
        Err(JidFault::NoMemory) => Err(NoMemory),
        Err(JidFault::Empty(_)) => Ok(None),
        Err(JidFault::Long(_)) => Ok(None),
        Err(JidFault::Bad(_, _)) => Ok(None),
    }
}

/// Whether an address is a bare one, and not the owner's.
fn is_other(owner: &Jid, address: &Jid) -> bool
    ensures { result ≡ is_other owner.now address.now }
{
    address.resource.is_none() && !address.is_same_bare(owner)
}

fn contact_in(alloc: Global, item: &Element, address: Jid) -> Result<Contact, NoMemory>
    ensures { IfOk result (λ x. x ≡ contact_in item.now address) }
{
    Ok(Contact {
        address,
        name: name_in(alloc, item)?,
        groups: Several::of(groups_in(alloc, item.children.slice())?),
        subscription: Subscription::Neither,
        asked: false,
    })
}

/// The value of its `name`, or else nothing (RFC 6121, 2.1.2.4).
fn name_in(alloc: Global, item: &Element) -> Result<Text, NoMemory>
    ensures { IfOk result (λ t. t ≡ name_in item.now) }
{
    match item.attr(b"name") {
        Some(name) => name.copy(alloc),
        None => Ok(Text::empty(alloc)),
    }
}

/// The words of each `group` (RFC 6121, 2.1.2.6).
fn groups_in(alloc: Global, nodes: &[Node]) -> Result<Vec<Text>, NoMemory>
    ensures { IfOk result (λ groups. groups.items ≡ map (λ g. words_of g.children) (parts_of (codes "group") nodes.now)) }
{
    let mut groups = Vec::new(alloc);
    for node in nodes {
        if let Node::Child(e) = node {
            if is_part(e, b"group") {
                groups.push(e.words(alloc)?)?;
            }
        }
    }
    Ok(groups)
}

fn is_removal(item: &Element) -> bool
    ensures { result ≡ is_removal item.now }
{
    match item.attr(b"subscription") {
        Some(value) => value.bytes() == b"remove".as_slice(),
        None => false,
    }
}
