//! The affiliations and occupants of a room as they are listed (XEP-0045, 9.5, 9.8, 10.5 and 10.8).
ghost use Rattle.std.specs.Prelude.{◌≡◌, ◌^◌, [], codes, length as list_length, map, min, IfOk};
ghost use Rattle.stanza_tree.specs.Spelling.{text_under};
ghost use Rattle.stanza_model.specs.Errors.{element_of};
ghost use Rattle.muc_room.specs.Views.{child_node};
ghost use Rattle.muc_admin.specs.Items.{admin_space};
ghost use Rattle.muc_admin.specs.Listings.{affiliation_item, affiliation_items, counted, fitting, is_same_affiliation, is_same_role};
ghost use Rattle.muc_admin.specs.Listings.{is_too_large, most_text, role_item, role_items};

use crate::item::ADMIN_SPACE;
use jid_core::Part;
use muc_room::spoken_from;
use stanza_model::make::{element_of, push_attr, text_of, written};
use stanza_model::{Affiliated, Affiliation, Occupant, Role, Room};
use stanza_tree::{Element, NoMemory, Node, Text, length};
use std::alloc::Global;

/// The most bytes of all items of a list.
const MOST_TEXT: u64 = 196_608;

/// The bytes by which an item is longer where it stands alone: ` xmlns='http://jabber.org/protocol/muc#admin'`.
const DECLARATION: u64 = 45;

pub(crate) fn is_same_affiliation(one: Affiliation, other: Affiliation) -> bool
    ensures { result ≡ is_same_affiliation one other }
{
    one.name().as_bytes() == other.name().as_bytes()
}

pub(crate) fn is_same_role(one: Role, other: Role) -> bool
    ensures { result ≡ is_same_role one other }
{
    one.name().as_bytes() == other.name().as_bytes()
}

/// `<item affiliation='A' jid='J'/>`.
fn affiliation_item(alloc: Global, known: &Affiliated) -> Result<Element, NoMemory>
    ensures { IfOk result (λ e. e ≡ affiliation_item known.now) }
{
    let mut attrs = Vec::new(alloc);
    push_attr(
        &mut attrs,
        alloc,
        "affiliation",
        text_of(alloc, known.affiliation.name())?,
    )?;
    push_attr(&mut attrs, alloc, "jid", written(alloc, &known.address)?)?;
    element_of(alloc, ADMIN_SPACE, "item", attrs, Vec::new(alloc))
}

fn part_text(alloc: Global, part: &Part) -> Result<Text, NoMemory>
    ensures { IfOk result (λ t. t ≡ part.now) }
{
    let mut bytes = Vec::new(alloc);
    bytes.extend_from_slice(part.bytes())?;
    Ok(Text::of_vec(bytes))
}

/// `<item affiliation='A' jid='J' nick='N' role='R'/>`.
fn role_item(alloc: Global, room: &Room, occupant: &Occupant) -> Result<Element, NoMemory>
    ensures { IfOk result (λ e. e ≡ role_item room.now occupant.now) }
{
    let address = written(alloc, spoken_from(&room.address, occupant))?;
    let mut attrs = Vec::new(alloc);
    push_attr(
        &mut attrs,
        alloc,
        "affiliation",
        text_of(alloc, occupant.affiliation.name())?,
    )?;
    push_attr(&mut attrs, alloc, "jid", address)?;
    push_attr(&mut attrs, alloc, "nick", part_text(alloc, &occupant.nick)?)?;
    push_attr(
        &mut attrs,
        alloc,
        "role",
        text_of(alloc, occupant.role.name())?,
    )?;
    element_of(alloc, ADMIN_SPACE, "item", attrs, Vec::new(alloc))
}

/// The query of an answer, with these items.
pub(crate) fn query_of(alloc: Global, nodes: Vec<Node>) -> Result<Element, NoMemory>
    ensures { IfOk result (λ e. e ≡ element_of admin_space (codes "query") [] nodes.items) }
{
    element_of(alloc, ADMIN_SPACE, "query", Vec::new(alloc), nodes)
}

/// The bytes of an item within its query; a number of 2^63 or more stands for any such number.
#[tactic(auto, using(crate::proofs::ItemLemmas::length_item))]
fn item_length(item: &Element) -> u64
    requires { item.now.name.space ≡ admin_space }
    ensures { min result (2 ^ 63) ≡ min (list_length (text_under admin_space item.now)) (2 ^ 63) }
{
    length(item).saturating_sub(DECLARATION)
}

/// The bytes of the item of an affiliation; a number of 2^63 or more stands for any such number.
fn counted(alloc: Global, known: &Affiliated) -> Result<u64, NoMemory>
    ensures { IfOk result (λ bytes. min bytes (2 ^ 63) ≡ min (counted known.now) (2 ^ 63)) }
{
    let item = affiliation_item(alloc, known)?;
    Ok(item_length(&item))
}

/// Whether a room's affiliations would have too much text in all.
pub(crate) fn is_too_large(alloc: Global, known: &[Affiliated]) -> Result<bool, NoMemory>
    ensures { IfOk result (λ b. b ≡ is_too_large known.now) }
{
    let mut sum = 0u64;
    for x in known {
        if sum > MOST_TEXT {
            return Ok(true);
        }
        sum = sum.saturating_add(counted(alloc, x)?);
    }
    Ok(sum > MOST_TEXT)
}

/// The items of those who have this affiliation.
pub(crate) fn affiliation_nodes(
    alloc: Global,
    affiliation: Affiliation,
    known: &[Affiliated],
) -> Result<Vec<Node>, NoMemory>
    ensures { IfOk result (λ nodes. nodes.items ≡ map child_node (affiliation_items affiliation known.now)) }
{
    let mut nodes = Vec::new(alloc);
    for x in known {
        if is_same_affiliation(x.affiliation, affiliation) {
            nodes.push(Node::Child(affiliation_item(alloc, x)?))?;
        }
    }
    Ok(nodes)
}

/// The items of the occupants that have this role, as many as fit.
pub(crate) fn role_nodes(
    alloc: Global,
    room: &Room,
    role: Role,
    occupants: &[Occupant],
) -> Result<Vec<Node>, NoMemory>
    ensures { IfOk result (λ nodes. nodes.items ≡ map child_node (fitting most_text (role_items room.now role occupants.now))) }
{
    let mut nodes = Vec::new(alloc);
    let mut left = MOST_TEXT;
    for occupant in occupants {
        if is_same_role(occupant.role, role) {
            let item = role_item(alloc, room, occupant)?;
            let bytes = item_length(&item);
            if bytes > left {
                return Ok(nodes);
            }
            left -= bytes;
            nodes.push(Node::Child(item))?;
        }
    }
    Ok(nodes)
}
