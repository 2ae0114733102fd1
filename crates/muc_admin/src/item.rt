//! What the items of a request ask for (XEP-0045, 8 to 10).
ghost use Rattle.std.specs.Prelude.{◌≡◌, length, map, IfOk};
ghost use Rattle.std.specs.Option.{option_copied};
ghost use Rattle.jid_core.specs.Preparation.{resource_of};
ghost use Rattle.muc_admin.specs.Items.{address_at, affiliation_wanted, is_garbled, is_item, items_of, nick_as, only_item, role_wanted, wanted_as};
ghost use Rattle.muc_admin.specs.Items.{wanted_by};

use jid_core::{Jid, JidFault, Part};
use stanza_model::{Affiliation, Role};
use stanza_tree::{Element, NoMemory, Node, Text};
use std::alloc::Global;

/// The namespace of requests about roles and affiliations (XEP-0045, 15.1).
pub(crate) const ADMIN_SPACE: &str = "http://jabber.org/protocol/muc#admin";

/// What an item of a set wants.
#[derive(Drop)]
pub enum Wanted {
    /// The occupant that has this nick has this role from then on (XEP-0045, 8.2 to 8.4, 9.6 and 9.7).
    Role {
        nick: Text,
        role: Role,
    },
    /// The user of this bare address has this affiliation (XEP-0045, 9.1 to 9.5 and 10.3 to 10.8).
    Affiliation {
        address: Jid,
        affiliation: Affiliation,
    },
    /// Neither of these, or both.
    Garbled,
}

fn is_item(e: &Element) -> bool
    ensures { result ≡ is_item e.now }
{
    e.name.space.bytes() == ADMIN_SPACE.as_bytes() && e.name.local.bytes() == b"item".as_slice()
}

/// How many items a query has.
pub(crate) fn item_count(nodes: &[Node]) -> usize
    ensures { result ≡ length (items_of nodes.now) }
{
    let mut count = 0usize;
    for node in nodes {
        if let Node::Child(e) = node {
            if is_item(e) {
                count += 1;
            }
        }
    }
    count
}

/// The item of a query that has one and no other.
pub(crate) fn only_item(query: &Element) -> Option<&Element>
    ensures { option_copied result ≡ only_item query.now }
{
    if item_count(query.children.slice()) == 1 {
        query.child(ADMIN_SPACE.as_bytes(), b"item")
    } else {
        None
    }
}

/// The address in an attribute, where that can be read.
pub fn address_at(alloc: Global, e: &Element, local: &[u8]) -> Result<Option<Jid>, NoMemory>
    ensures { IfOk result (λ a. a ≡ address_at local.now e.now) }
{
    let Some(value) = e.attr(local) else {
        return Ok(None);
    };
    match Jid::read(alloc, value.bytes()) {
        Ok(address) => Ok(Some(address)),
        Err(JidFault::NoMemory) => Err(NoMemory),
        Err(JidFault::Empty(_)) => Ok(None),
        Err(JidFault::Long(_)) => Ok(None),
        Err(JidFault::Bad(_, _)) => Ok(None),
    }
}

/// A nick as nicks are compared: prepared (RFC 7622, 3.4). One that can't be is empty, which nobody's is.
fn prepared_nick(alloc: Global, nick: &[u8]) -> Result<Text, NoMemory>
    ensures { IfOk result (λ t. t ≡ nick_as (resource_of nick.now)) }
{
    match Part::resource(alloc, nick) {
        Ok(part) => Ok(Text::of_vec(part.bytes().to_vec(alloc)?)),
        Err(JidFault::NoMemory) => Err(NoMemory),
        Err(JidFault::Empty(_)) => Ok(Text::empty(alloc)),
        Err(JidFault::Long(_)) => Ok(Text::empty(alloc)),
        Err(JidFault::Bad(_, _)) => Ok(Text::empty(alloc)),
    }
}

fn role_wanted(alloc: Global, nick: Option<&Text>, role: Option<Role>) -> Result<Wanted, NoMemory>
    ensures { IfOk result (λ w. w ≡ role_wanted (option_copied nick.entry) role) }
{
    match (nick, role) {
        (Some(nick), Some(role)) => Ok(Wanted::Role {
            nick: prepared_nick(alloc, nick.bytes())?,
            role,
        }),
        _ => Ok(Wanted::Garbled),
    }
}

fn affiliation_wanted(
    alloc: Global,
    address: Option<&Jid>,
    affiliation: Option<Affiliation>,
) -> Result<Wanted, NoMemory>
    ensures { IfOk result (λ w. w ≡ affiliation_wanted (option_copied address.entry) affiliation) }
{
    match (address, affiliation) {
        (Some(address), Some(affiliation)) => Ok(Wanted::Affiliation {
            address: address.bare(alloc)?,
            affiliation,
        }),
        _ => Ok(Wanted::Garbled),
    }
}

fn wanted_as(
    alloc: Global,
    item: &Element,
    affiliation: Option<&Text>,
    role: Option<&Text>,
) -> Result<Wanted, NoMemory>
    ensures { IfOk result (λ w. w ≡ wanted_as item.now (option_copied affiliation.entry) (option_copied role.entry)) }
{
    match (affiliation, role) {
        (None, Some(role)) => role_wanted(alloc, item.attr(b"nick"), Role::named(role.bytes())),
        (Some(affiliation), None) => {
            let address = address_at(alloc, item, b"jid")?;
            let affiliation = Affiliation::named(affiliation.bytes());
            affiliation_wanted(alloc, address.as_ref(), affiliation)
        }
        _ => Ok(Wanted::Garbled),
    }
}

fn wanted_by(alloc: Global, item: &Element) -> Result<Wanted, NoMemory>
    ensures { IfOk result (λ w. w ≡ wanted_by item.now) }
{
    wanted_as(alloc, item, item.attr(b"affiliation"), item.attr(b"role"))
}

/// What each item of a set wants, in their order. Costs a copy of their nicks and addresses.
pub(crate) fn wanted_in(alloc: Global, nodes: &[Node]) -> Result<Vec<Wanted>, NoMemory>
    ensures { IfOk result (λ ws. ws.items ≡ map wanted_by (items_of nodes.now)) }
{
    let mut all = Vec::new(alloc);
    for node in nodes {
        if let Node::Child(e) = node {
            if is_item(e) {
                all.push(wanted_by(alloc, e)?)?;
            }
        }
    }
    Ok(all)
}

pub(crate) fn is_garbled(wanted: &Wanted) -> bool
    ensures { result ≡ is_garbled wanted.now }
{
    match wanted {
        Wanted::Garbled => true,
        Wanted::Role { .. } | Wanted::Affiliation { .. } => false,
    }
}
