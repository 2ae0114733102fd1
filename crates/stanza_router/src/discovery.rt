//! Service discovery (XEP-0030).
ghost use Rattle.std.specs.Prelude.{◌≡◌, ◌∷◌, ◌^◌, ◌++◌, [], codes, length as list_length, map, min, true, IfOk};
ghost use Rattle.std.specs.Option.{option_copied};
ghost use Rattle.stanza_tree.specs.Spelling.{text_under};
ghost use Rattle.stanza_model.specs.Errors.{element_of};
ghost use Rattle.stanza_model.specs.Replies.{may_be_answered};
ghost use Rattle.stanza_router.specs.Discovery.{described, described_as, discovery, feature, fitting, found, identity, info_of, item, items_of, items_space};
ghost use Rattle.stanza_router.specs.Discovery.{listed_at, listed_under, most_items, no_items_if, node_of, query_in, room_item, server_items, unless_node};
ghost use Rattle.stanza_router.specs.Places.{service_domain};

use crate::listed::Listed;
use crate::places::Place;
use crate::room::info_if;
use crate::routing::SERVICE_PREFIX;
use jid_core::{Jid, Part};
use stanza_model::make::{element_of, one_child, push_attr, text_of, written};
use stanza_model::{Condition, IqForm, Stanza, error_of, result_of};
use stanza_tree::{Element, NoMemory, Node, Text, length};
use std::alloc::Global;

/// The namespace of who an entity is (XEP-0030, 3.1).
pub(crate) const INFO_SPACE: &str = "http://jabber.org/protocol/disco#info";

/// The namespace of what items it has (XEP-0030, 4.1).
const ITEMS_SPACE: &str = "http://jabber.org/protocol/disco#items";

/// The namespace of pings (XEP-0199).
const PING_SPACE: &str = "urn:xmpp:ping";

/// The namespace of archives (XEP-0313, 12).
pub(crate) const ARCHIVE_SPACE: &str = "urn:xmpp:mam:2";

/// The namespace of their ids (XEP-0359, 4).
pub(crate) const IDS_SPACE: &str = "urn:xmpp:sid:0";

/// The namespace of rooms (XEP-0045).
pub(crate) const ROOMS_SPACE: &str = "http://jabber.org/protocol/muc";

/// The most bytes of all items of an answer: so it fits a frame.
const MOST_ITEMS: u64 = 196_608;

/// What an entity answers, or why not.
pub(crate) type Found = Result<Element, Condition>;

/// The reply to a request for what is known of a place, without its `to`. `rooms` are the rooms that aren't locked, in the order
/// of making; no other room is known.
pub fn discover(
    alloc: Global,
    place: &Place,
    request: &Stanza,
    rooms: &[Listed],
) -> Result<Element, NoMemory>
    requires { may_be_answered request.now ≡ true }
    ensures { IfOk result (λ e. e ≡ discovery place.now request.now rooms.now) }
{
    match found(alloc, place, request, rooms)? {
        Ok(query) => result_of(alloc, request, one_child(alloc, query)?),
        Err(condition) => error_of(alloc, request, condition),
    }
}

/// The child of a request in that namespace.
fn query_in<'a>(request: &'a Stanza, space: &str) -> Option<&'a Element>
    ensures { option_copied result ≡ query_in space.now request.now }
{
    match request {
        Stanza::Iq {
            form: IqForm::Get,
            element,
            ..
        } => element.child(space.as_bytes(), b"query"),
        _ => None,
    }
}

fn found(
    alloc: Global,
    place: &Place,
    request: &Stanza,
    rooms: &[Listed],
) -> Result<Found, NoMemory>
    ensures { IfOk result (λ answer. answer ≡ found place.now request.now rooms.now) }
{
    if let Some(query) = query_in(request, INFO_SPACE) {
        return Ok(unless_node(query, info_of(alloc, place, request.to(), rooms)?));
    }
    match query_in(request, ITEMS_SPACE) {
        Some(query) => Ok(unless_node(query, items_of(alloc, place, request.to(), rooms)?)),
        None => Ok(Err(Condition::ServiceUnavailable)),
    }
}

/// What was found, unless a node is asked for (XEP-0030, 3.2).
fn unless_node(query: &Element, found: Found) -> Found
    ensures { result ≡ unless_node query.now found }
{
    match query.attr(b"node") {
        Some(_) => Err(Condition::ItemNotFound),
        None => found,
    }
}

fn listed_under<'a>(to: &Jid, rooms: &'a [Listed]) -> Option<&'a Listed>
    ensures { option_copied result ≡ listed_under to.now rooms.entry.now }
{
    rooms.iter().find(|room| room.address.is_same_bare(to))
}

/// The room of an address, among those that are listed.
fn listed_at<'a>(to: Option<&Jid>, rooms: &'a [Listed]) -> Option<&'a Listed>
    ensures { option_copied result ≡ listed_at (option_copied to.entry) rooms.entry.now }
{
    match to {
        Some(to) => listed_under(to, rooms),
        None => None,
    }
}

/// The identity and the features of a place. `to` is the address of the request.
fn info_of(
    alloc: Global,
    place: &Place,
    to: Option<&Jid>,
    rooms: &[Listed],
) -> Result<Found, NoMemory>
    ensures { IfOk result (λ answer. answer ≡ info_of place.now (option_copied to.entry) rooms.now) }
{
    let described = match place {
        Place::Server => described(
            alloc,
            "server",
            "im",
            &[INFO_SPACE, ITEMS_SPACE, PING_SPACE],
        ),
        Place::Account => described(
            alloc,
            "account",
            "registered",
            &[INFO_SPACE, ARCHIVE_SPACE, IDS_SPACE],
        ),
        Place::Service => described(
            alloc,
            "conference",
            "text",
            &[INFO_SPACE, ITEMS_SPACE, ROOMS_SPACE],
        ),
        Place::Room(_) => return info_if(alloc, listed_at(to, rooms)),
        _ => return Ok(Err(Condition::ItemNotFound)),
    };
    Ok(Ok(described?))
}

fn described(
    alloc: Global,
    category: &str,
    form: &str,
    features: &[&str],
) -> Result<Element, NoMemory>
    ensures { IfOk result (λ e. e ≡ described category.now form.now (map (λ f. f.now) features.now)) }
{
    described_as(alloc, identity(alloc, category, form)?, features)
}

/// An identity, and these features.
pub(crate) fn described_as(
    alloc: Global,
    identity: Element,
    features: &[&str],
) -> Result<Element, NoMemory>
    ensures { IfOk result (λ e. e ≡ described_as identity (map (λ f. f.now) features.now)) }
{
    let mut nodes = one_child(alloc, identity)?;
    for var in features {
        nodes.push(Node::Child(feature(alloc, var)?))?;
    }
    element_of(alloc, INFO_SPACE, "query", Vec::new(alloc), nodes)
}

fn identity(alloc: Global, category: &str, form: &str) -> Result<Element, NoMemory>
    ensures { IfOk result (λ e. e ≡ identity category.now form.now) }
{
    let mut attrs = Vec::new(alloc);
    push_attr(&mut attrs, alloc, "category", text_of(alloc, category)?)?;
    push_attr(&mut attrs, alloc, "type", text_of(alloc, form)?)?;
    element_of(alloc, INFO_SPACE, "identity", attrs, Vec::new(alloc))
}

fn feature(alloc: Global, var: &str) -> Result<Element, NoMemory>
    ensures { IfOk result (λ e. e ≡ feature var.now) }
{
    let mut attrs = Vec::new(alloc);
    push_attr(&mut attrs, alloc, "var", text_of(alloc, var)?)?;
    element_of(alloc, INFO_SPACE, "feature", attrs, Vec::new(alloc))
}

/// Who is in a room is not told.
fn no_items_if(alloc: Global, room: Option<&Listed>) -> Result<Found, NoMemory>
    ensures { IfOk result (λ answer. answer ≡ no_items_if (option_copied room.entry)) }
{
    match room {
        Some(_) => Ok(Ok(element_of(
            alloc,
            ITEMS_SPACE,
            "query",
            Vec::new(alloc),
            Vec::new(alloc),
        )?)),
        None => Ok(Err(Condition::ItemNotFound)),
    }
}

/// The items of a place. `to` is the address of the request.
fn items_of(
    alloc: Global,
    place: &Place,
    to: Option<&Jid>,
    rooms: &[Listed],
) -> Result<Found, NoMemory>
    ensures { IfOk result (λ answer. answer ≡ items_of place.now (option_copied to.entry) rooms.now) }
{
    let nodes = match place {
        Place::Server => server_items(alloc, to)?,
        Place::Account => Vec::new(alloc),
        Place::Service => room_items(alloc, rooms)?,
        Place::Room(_) => return no_items_if(alloc, listed_at(to, rooms)),
        _ => return Ok(Err(Condition::ItemNotFound)),
    };
    Ok(Ok(element_of(alloc, ITEMS_SPACE, "query", Vec::new(alloc), nodes)?))
}

/// The item of the service of rooms, which the server has.
fn server_items(alloc: Global, to: Option<&Jid>) -> Result<Vec<Node>, NoMemory>
    ensures { IfOk result (λ nodes. nodes.items ≡ map node_of (server_items (option_copied to.entry))) }
{
    match to {
        Some(to) => {
            let jid = service_domain(alloc, &to.domain)?;
            one_child(alloc, item(alloc, jid)?)
        }
        None => Ok(Vec::new(alloc)),
    }
}

fn service_domain(alloc: Global, domain: &Part) -> Result<Text, NoMemory>
    ensures { IfOk result (λ t. t ≡ service_domain domain.now) }
{
    let mut bytes = Vec::new(alloc);
    bytes.extend_from_slice(SERVICE_PREFIX.as_bytes())?;
    bytes.extend_from_slice(domain.bytes())?;
    Ok(Text::of_vec(bytes))
}

fn item(alloc: Global, jid: Text) -> Result<Element, NoMemory>
    ensures { IfOk result (λ e. e ≡ item jid) }
{
    let mut attrs = Vec::new(alloc);
    push_attr(&mut attrs, alloc, "jid", jid)?;
    element_of(alloc, ITEMS_SPACE, "item", attrs, Vec::new(alloc))
}

/// The items of the rooms, as many as fit.
fn room_items(alloc: Global, rooms: &[Listed]) -> Result<Vec<Node>, NoMemory>
    ensures { IfOk result (λ nodes. nodes.items ≡ map node_of (fitting most_items (map room_item rooms.now))) }
{
    let mut nodes = Vec::new(alloc);
    let mut left = MOST_ITEMS;
    for room in rooms {
        let item = room_item(alloc, room)?;
        let bytes = item_length(&item);
        if bytes > left {
            return Ok(nodes);
        }
        left -= bytes;
        nodes.push(Node::Child(item))?;
    }
    Ok(nodes)
}

fn room_item(alloc: Global, room: &Listed) -> Result<Element, NoMemory>
    ensures { IfOk result (λ e. e ≡ room_item room.now) }
{
    let mut attrs = Vec::new(alloc);
    push_attr(&mut attrs, alloc, "jid", written(alloc, &room.address)?)?;
    push_attr(&mut attrs, alloc, "name", room.title.copy(alloc)?)?;
    element_of(alloc, ITEMS_SPACE, "item", attrs, Vec::new(alloc))
}

/// The bytes of an item within its query, which declares the namespace for it; a number far above `MOST_ITEMS` stands for more.
#[tactic(auto, using(crate::proofs::ListingLemmas::length_item))]
fn item_length(item: &Element) -> u64
    requires { item.now.name.space ≡ items_space }
    ensures { min result (2 ^ 63) ≡ min (list_length (text_under items_space item.now)) (2 ^ 63) }
{
    // ` xmlns='SPACE'`
    length(item).saturating_sub(ITEMS_SPACE.len() as u64 + 9)
}
