//! Requests for a session (RFC 6120, 7).

ghost use Rattle.std.specs.Prelude.{◌≡◌, ◌==◌, IfOk};
ghost use Rattle.std.specs.Option.{option_copied};
ghost use Rattle.jid_core.specs.Addresses.{part_of};
ghost use Rattle.jid_core.specs.Preparation.{resource_of};
ghost use Rattle.stanza_model.specs.Stanzas.{element_count};
ghost use Rattle.conn_asks.specs.Requests.{binding_by, binding_of, binding_with, is_binding_iq, is_set, resource_in};

use jid_core::{JidFault, Part};
use stanza_tree::{Element, NoMemory, Node, Text};
use std::alloc::Global;

/// The namespace of binding (RFC 6120, 7.1).
const BIND_SPACE: &[u8] = b"urn:ietf:params:xml:ns:xmpp-bind";

/// The most bytes that an item of a stream, and so its id, may have.
const MOST_ID: usize = 65_536;

/// A request for a session.
#[derive(Drop)]
pub struct Binding {
    /// The id of the request.
    pub id: Text,
    /// The resource as it is written, if one is asked for.
    pub resource: Option<Text>,
}

/// The request for a session that an element is, if it is one (RFC 6120, 7.6 and 7.7).
pub fn binding_of(alloc: Global, e: &Element) -> Result<Option<Binding>, NoMemory>
    ensures { IfOk result (λ b. b ≡ binding_of e.now) }
{
    if is_binding_iq(e) {
        binding_with(alloc, e.attr(b"id"), e.child(BIND_SPACE, b"bind"))
    } else {
        Ok(None)
    }
}

/// Whether it is an iq of the type `set` with one child element.
fn is_binding_iq(e: &Element) -> bool
    ensures { result ≡ is_binding_iq e.now }
{
    e.name.space.bytes() == b"jabber:client".as_slice()
        && e.name.local.bytes() == b"iq".as_slice()
        && is_set(e.attr(b"type"))
        && has_one_element(e.children.slice())
}

fn is_set(value: Option<&Text>) -> bool
    ensures { result ≡ is_set (option_copied value.entry) }
{
    match value {
        Some(value) => value.bytes() == b"set".as_slice(),
        None => false,
    }
}

fn has_one_element(children: &[Node]) -> bool
    ensures { result ≡ (element_count children.now == 1) }
{
    let mut count = 0usize;
    for node in children {
        if let Node::Child(_) = node {
            count += 1;
        }
    }
    count == 1
}

fn binding_with(
    alloc: Global,
    id: Option<&Text>,
    bind: Option<&Element>,
) -> Result<Option<Binding>, NoMemory>
    ensures { IfOk result (λ b. b ≡ binding_with (option_copied id.entry) (option_copied bind.entry)) }
{
    match (id, bind) {
        (Some(id), Some(bind)) => binding_by(alloc, id, bind),
        _ => Ok(None),
    }
}

fn binding_by(alloc: Global, id: &Text, bind: &Element) -> Result<Option<Binding>, NoMemory>
    ensures { IfOk result (λ b. b ≡ binding_by id.now bind.now) }
{
    if id.bytes().len() <= MOST_ID {
        Ok(Some(Binding {
            id: id.copy(alloc)?,
            resource: resource_in(alloc, bind)?,
        }))
    } else {
        Ok(None)
    }
}

/// The words of the resource in a `bind`.
fn resource_in(alloc: Global, bind: &Element) -> Result<Option<Text>, NoMemory>
    ensures { IfOk result (λ r. r ≡ resource_in bind.now) }
{
    match bind.child(BIND_SPACE, b"resource") {
        Some(resource) => Ok(Some(resource.words(alloc)?)),
        None => Ok(None),
    }
}

/// A resource, prepared (RFC 7622, 3.4). The inner refusal is of one that can't be read.
pub fn prepared(
    alloc: Global,
    resource: &Option<Text>,
) -> Result<Result<Option<Part>, JidFault>, NoMemory>
    ensures { IfOk result (λ r. r ≡ part_of resource_of resource.now) }
{
    let Some(resource) = resource else {
        return Ok(Ok(None));
    };
    match Part::resource(alloc, resource.bytes()) {
        Ok(part) => Ok(Ok(Some(part))),
        Err(JidFault::NoMemory) => Err(NoMemory),
        Err(fault) => Ok(Err(fault)),
    }
}
