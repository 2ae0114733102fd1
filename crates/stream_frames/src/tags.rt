//! A tag becomes an element without children: its names get their namespaces (Namespaces in XML 1.0).

ghost use Rattle.std.specs.Prelude.{◌≡◌, ◌+◌, ◌≤◌, [], ◌∷◌, ◌++◌, length, None, map, IfOk, IfErr, OnOk, IsUtf8, vec_len, vec_capacity};
ghost use Rattle.stream_grammar.specs.grammar.Namespaces.{local_of, fault_in, tag_fault};
ghost use Rattle.stream_frames.specs.Expanded.{full_name, spaces_of};
ghost use Rattle.stream_frames.specs.Filled.{attr_in, attrs_in, element_in};
ghost use Rattle.stream_grammar.specs.machine.Texts.{HaveTextNames};
ghost use Rattle.stream_grammar.specs.grammar.Resolving.{or_none, name_on, attrs_on};
ghost use Rattle.stream_frames.specs.TagFaults.{IsTagFault};
ghost use Rattle.stream_frames.specs.Spaces.{bound_space};
ghost use Rattle.stream_frames.specs.Unprefixed.{IsFaultIn};

use crate::expanded::{Expanded, expanded_names};
use crate::namespaces::{Space, bound, colon_place, declares, local, name_fault, prefix};
use crate::unprefixed::{are_unprefixed, unprefixed_fault};
use stanza_tree::{Attr, Element, FEW, Name, NoMemory, Several, Text};
use std::alloc::{AllocError, Global};
use std::{mem, str};
use stream_grammar::{Binding, NameFault, Written};

/// Why a tag did not become an element.
#[derive(Clone, Copy, Debug, PartialEq, Eq)]
pub(crate) enum TagFault {
    /// There was no memory.
    NoMemory,
    /// Its names are refused.
    Names(NameFault),
}

impl From<AllocError> for TagFault {
    ghost use Rattle.stream_frames.specs.declared.tags.TagFault.TheVariants as fault;

    ghost from_gives = { λ _ f. f ≡ fault.NoMemory };

    fn from(_error: AllocError) -> TagFault {
        TagFault::NoMemory
    }
}

/// A namespace as a text, or none. One that a tag declared shares its bytes with the binding.
pub(crate) fn space_text(alloc: Global, space: Option<Space<'_>>) -> Result<Text, NoMemory>
    ensures { IfOk result (λ t. t ≡ or_none (bound_space space.entry)) }
{
    match space {
        Some(Space::Fixed(text)) => Text::of_str(alloc, text),
        Some(Space::Bound(text)) => text.copy(alloc),
        None => Ok(Text::empty(alloc)),
    }
}

fn add(spaces: &mut Vec<Text>, space: Text) -> Result<(), AllocError>
    ensures { OnOk result (spaces.new.items ≡ spaces.old.items ++ space ∷ []) }
{
    spaces.push(space)?;
    Ok(())
}

/// The namespaces of the attributes that are no declarations.
fn attribute_spaces(alloc: Global, names: &[Expanded<'_>]) -> Result<Vec<Text>, NoMemory>
    ensures { IfOk result (λ v. v.items ≡ spaces_of (map full_name names.now)) }
{
    let mut spaces = Vec::with_capacity(alloc, names.len())?;
    for name in names {
        if !declares(name.written.name.slice()) {
            add(&mut spaces, space_text(alloc, name.space)?)?;
        }
    }
    Ok(spaces)
}

/// What a tag needs to become an element, besides its names and values: the namespaces that these names are in, and room for
/// its attributes.
#[derive(Drop)]
pub(crate) struct Resolved {
    pub(crate) space: Text,
    pub(crate) spaces: Vec<Text>,
    pub(crate) room: Vec<Attr>,
}

/// The namespaces of the attributes of a tag whose element is in this one, or the fault of its names. Where no attribute has a
/// prefix they are in none, and nothing is listed. The prefix of each name is looked up once, so the time grows with the
/// attributes times the bindings; and with the attributes times the bytes of their names and namespaces, since each two names
/// are compared.
#[tactic(auto, using(crate::proofs::ExpandedLemmas::fault_by_names, crate::proofs::ExpandedLemmas::spaces_by_names, crate::proofs::FillLemmas::attrs_filled, crate::proofs::UnprefixedLemmas::fault_is, crate::proofs::UnprefixedLemmas::none_filled))]
fn spaces_within(
    alloc: Global,
    layers: &[Several<Binding>],
    space: Option<Space<'_>>,
    attributes: &[Written],
) -> Result<Vec<Text>, TagFault>
    ensures spaces { IfOk result (λ v. attrs_in v.items attributes.now ≡ attrs_on layers.now attributes.now) }
    ensures ok { OnOk result (fault_in layers.now (bound_space space.entry) attributes.now ≡ None) }
    ensures fault { IfErr result (IsFaultIn layers.now (bound_space space.entry) attributes.now) }
{
    if are_unprefixed(attributes) {
        return match unprefixed_fault(space, attributes) {
            Some(fault) => Err(TagFault::Names(fault)),
            None => Ok(Vec::new(alloc)),
        };
    }
    let names = expanded_names(alloc, layers, attributes)?;
    if let Some(fault) = name_fault(space, names.as_slice(), attributes) {
        return Err(TagFault::Names(fault));
    }
    Ok(attribute_spaces(alloc, names.as_slice())?)
}

/// What a tag with this name and these attributes needs to become an element, or why it can't. The bindings are those of each
/// element round it, outermost first, and then its own.
pub(crate) fn resolve(
    alloc: Global,
    layers: &[Several<Binding>],
    name: &[u8],
    attributes: &[Written],
) -> Result<Resolved, TagFault>
    ensures element { IfOk result (λ r. element_in r.space r.spaces.items name.now attributes.now
        ≡ record { name = name_on layers.now name.now; attrs = attrs_on layers.now attributes.now; children = [] }) }
    ensures room { IfOk result (λ r. (r.room.items ≡ []) × (vec_len r.room + length attributes.now ≤ vec_capacity r.room)) }
    ensures ok { OnOk result (tag_fault layers.now name.now attributes.now ≡ None) }
    ensures fault { IfErr result (IsTagFault layers.now name.now attributes.now) }
{
    let space = bound(layers, prefix(name));
    let spaces = spaces_within(alloc, layers, space, attributes)?;
    let space = space_text(alloc, space)?;
    let room = Vec::with_capacity(alloc, attributes.len())?;
    Ok(Resolved {
        space,
        spaces,
        room,
    })
}

/// The local part of a name, in the name's own bytes. Takes no memory.
fn local_part(mut name: Vec<u8>) -> Vec<u8>
    ensures { result.items ≡ local_of name.items }
{
    let place = colon_place(name.as_slice());
    if place < name.len() {
        let local = name.len() - (place + 1);
        name.rotate_left(place + 1);
        name.truncate(local);
    }
    name
}

fn local_text(name: Vec<u8>) -> Text
    requires { IsUtf8 name.items }
    ensures { result ≡ local_of name.items }
{
    Text::of_string(unsafe { String::from_utf8_unchecked(local_part(name)) })
}

/// The same as a copy.
fn copied_local(alloc: Global, name: &[u8]) -> Result<Text, NoMemory>
    requires { IsUtf8 name.now }
    ensures { IfOk result (λ t. t ≡ local_of name.now) }
{
    Text::of_str(alloc, unsafe { str::from_utf8_unchecked(local(name)) })
}

/// The local part of a name. Few bytes are copied, so that the room for them stays; else they become the text's.
pub(crate) fn take_local(alloc: Global, name: &mut Vec<u8>) -> Text
    requires { IsUtf8 name.old.items }
    ensures { result ≡ local_of name.old.items }
{
    if name.len() <= FEW {
        if let Ok(text) = copied_local(alloc, name.as_slice()) {
            return text;
        }
    }
    local_text(mem::replace(name, Vec::new(alloc)))
}

fn full_attr(space: Text, attribute: Written) -> Attr
    requires { IsUtf8 attribute.name }
    ensures { result ≡ attr_in space attribute }
{
    let Written { name, value } = attribute;
    let local = local_text(name.into_vec());
    Attr {
        name: Name { space, local },
        value,
    }
}

fn full_attrs(
    alloc: Global,
    spaces: Vec<Text>,
    mut room: Vec<Attr>,
    attributes: Vec<Written>,
) -> Several<Attr>
    requires none { room.items ≡ [] }
    requires room { vec_len room + length attributes.items ≤ vec_capacity room }
    requires names { HaveTextNames attributes.items }
    ensures { result ≡ attrs_in spaces.items attributes.items }
{
    let mut spaces = spaces.into_iter();
    for attribute in attributes {
        if !declares(attribute.name.slice()) {
            let space = match spaces.next() {
                Some(space) => space,
                None => Text::empty(alloc),
            };
            room.push_reserved(full_attr(space, attribute));
        }
    }
    Several::of(room)
}

/// The element that a tag begins, without children. Its names and values become the element's: takes no memory, and costs the
/// bytes of its names.
pub(crate) fn element(
    alloc: Global,
    resolved: Resolved,
    name: &mut Vec<u8>,
    attributes: Vec<Written>,
) -> Element
    requires none { resolved.room.items ≡ [] }
    requires room { vec_len resolved.room + length attributes.items ≤ vec_capacity resolved.room }
    requires name { IsUtf8 name.old.items }
    requires names { HaveTextNames attributes.items }
    ensures { result ≡ element_in resolved.space resolved.spaces.items name.old.items attributes.items }
{
    let Resolved {
        space,
        spaces,
        room,
    } = resolved;
    let local = take_local(alloc, name);
    Element {
        name: Name { space, local },
        attrs: full_attrs(alloc, spaces, room, attributes),
        children: Several::of(Vec::new(alloc)),
    }
}
