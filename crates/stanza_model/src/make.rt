//! Makes the texts and elements that the server itself says.
ghost use Rattle.std.specs.Prelude.{◌≡◌, [], ◌∷◌, ◌++◌, IfOk, OnOk};
ghost use Rattle.jid_core.specs.Addresses.{address_text};
ghost use Rattle.stanza_tree.specs.Spelling.{text};
ghost use Rattle.stanza_model.specs.Errors.{plain_attr, element_of};
ghost use Rattle.stanza_model.specs.Replies.{one_child};

use jid_core::{Jid, Part};
use stanza_tree::{Attr, Element, Name, NoMemory, Node, Several, Text, write};
use std::alloc::Global;

/// The namespace of stanzas (RFC 6120, 4.8.2).
pub(crate) const CLIENT_SPACE: &str = "jabber:client";

/// In bytes, what nearly every element that the server itself says takes at most: room that is asked for at once, and given back where it isn't used.
const USUAL_LENGTH: usize = 512;

/// A text of these bytes.
pub fn text_of(alloc: Global, text: &str) -> Result<Text, NoMemory>
    ensures { IfOk result (λ t. t ≡ text.now) }
{
    Text::of_str(alloc, text)
}

/// How many bytes an optional part takes, with its mark.
fn room_of(part: Option<&Part>) -> usize {
    match part {
        Some(part) => part.bytes().len().saturating_add(1),
        None => 0,
    }
}

/// The text of an address.
pub fn written(alloc: Global, address: &Jid) -> Result<Text, NoMemory>
    ensures { IfOk result (λ t. t ≡ address_text address.now) }
{
    let room = room_of(address.local.as_ref())
        .saturating_add(address.domain.bytes().len())
        .saturating_add(room_of(address.resource.as_ref()));
    let mut bytes = Vec::with_capacity(alloc, room)?;
    address.write(&mut bytes)?;
    Ok(Text::of_vec(bytes))
}

/// The canonical spelling of a top element.
pub fn spelt(alloc: Global, element: &Element) -> Result<Text, NoMemory>
    ensures { IfOk result (λ t. t ≡ text element.now) }
{
    let mut bytes = Vec::with_capacity(alloc, USUAL_LENGTH)?;
    write(element, &mut bytes)?;
    bytes.shrink_to_fit();
    Ok(Text::of_vec(bytes))
}

fn name_of(alloc: Global, space: &str, local: &str) -> Result<Name, NoMemory>
    ensures { IfOk result (λ n. n ≡ record { space = space.now; local = local.now }) }
{
    Ok(Name {
        space: text_of(alloc, space)?,
        local: text_of(alloc, local)?,
    })
}

/// Adds an attribute in no namespace.
pub fn push_attr(
    attrs: &mut Vec<Attr>,
    alloc: Global,
    local: &str,
    value: Text,
) -> Result<(), NoMemory>
    ensures { OnOk result (attrs.new.items ≡ attrs.old.items ++ plain_attr local.now value ∷ []) }
{
    let name = name_of(alloc, "", local)?;
    attrs.push(Attr { name, value })?;
    Ok(())
}

/// An element of this name with these attributes and children.
pub fn element_of(
    alloc: Global,
    space: &str,
    local: &str,
    attrs: Vec<Attr>,
    children: Vec<Node>,
) -> Result<Element, NoMemory>
    ensures { IfOk result (λ e. e ≡ element_of space.now local.now attrs.items children.items) }
{
    Ok(Element {
        name: name_of(alloc, space, local)?,
        attrs: Several::of(attrs),
        children: Several::of(children),
    })
}

/// A child alone.
pub fn one_child(alloc: Global, child: Element) -> Result<Vec<Node>, NoMemory>
    ensures { IfOk result (λ nodes. nodes.items ≡ one_child child) }
{
    let mut nodes = Vec::new(alloc);
    nodes.push(Node::Child(child))?;
    Ok(nodes)
}
