//! The names on a tag, with the namespaces that are declared (Namespaces in XML 1.0).

ghost use Rattle.std.specs.Prelude.{◌≡◌, None, map, IfOk, vec_len, vec_capacity};
ghost use Rattle.std.specs.Option.{option_copied};
ghost use Rattle.stream_frames.specs.Expanded.{full_name, fault_of_names};
ghost use Rattle.stream_frames.specs.Begins.{begins_with_x};
ghost use Rattle.stream_frames.specs.Spaces.{space_bytes, bound_space};
ghost use Rattle.stream_grammar.specs.grammar.Namespaces.{colon_at, has_prefix, prefix_of, local_of, is_declaration, declared_prefix};
ghost use Rattle.stream_grammar.specs.grammar.Namespaces.{may_undo, may_declare, last_space, last_layer, space_of, attribute_space};
ghost use Rattle.stream_grammar.specs.grammar.Namespaces.{is_forbidden, has_forbidden, own, space_before, is_bound_to, xml_space};

use crate::expanded::{Expanded, any_repeat, any_unbound};
use stanza_tree::{NoMemory, Several, Text};
use std::alloc::Global;
use stream_grammar::{Binding, NameFault, Written};

const XML_SPACE: &str = "http://www.w3.org/XML/1998/namespace";

const XMLNS_SPACE: &str = "http://www.w3.org/2000/xmlns/";

/// What a prefix is bound to: before any tag, or by one.
#[derive(Clone, Copy)]
pub(crate) enum Space<'a> {
    Fixed(&'static str),
    Bound(&'a Text),
}

impl<'a> Space<'a> {
    pub(crate) fn bytes(self) -> &'a [u8]
        ensures { result.now ≡ space_bytes self.entry }
    {
        match self {
            Space::Fixed(text) => text.as_bytes(),
            Space::Bound(text) => text.bytes(),
        }
    }
}

/// The place of the colon, or the number of all bytes.
pub(crate) fn colon_place(name: &[u8]) -> usize
    ensures { result ≡ colon_at name.now }
{
    for (i, byte) in name.iter().enumerate() {
        if *byte == b':' {
            return i;
        }
    }
    name.len()
}

pub(crate) fn has_a_prefix(name: &[u8]) -> bool
    ensures { result ≡ has_prefix name.now }
{
    colon_place(name) < name.len()
}

pub(crate) fn prefix(name: &[u8]) -> &[u8]
    ensures { result.now ≡ prefix_of name.now }
{
    let place = colon_place(name);
    if place < name.len() {
        &name[..place]
    } else {
        &[]
    }
}

pub(crate) fn local(name: &[u8]) -> &[u8]
    ensures { result.now ≡ local_of name.now }
{
    let place = colon_place(name);
    if place < name.len() {
        &name[place + 1..]
    } else {
        name
    }
}

/// Whether a name begins as each that declares does.
fn begins_with_x(name: &[u8]) -> bool
    ensures { result ≡ begins_with_x name.now }
{
    match name {
        [first, ..] => *first == b'x',
        [] => false,
    }
}

#[tactic(auto, using(crate::proofs::DeclareLemmas::undeclared))]
pub(crate) fn declares(name: &[u8]) -> bool
    ensures { result ≡ is_declaration name.now }
{
    if !begins_with_x(name) {
        return false;
    }
    if has_a_prefix(name) {
        prefix(name) == b"xmlns".as_slice()
    } else {
        name == b"xmlns".as_slice()
    }
}

/// Only the default namespace may be bound to nothing.
fn may_be_undone(prefix: &[u8], space: &[u8]) -> bool
    ensures { result ≡ may_undo prefix.now space.now }
{
    prefix == b"".as_slice() || space != b"".as_slice()
}

fn may_be_declared(prefix: &[u8], space: &[u8]) -> bool
    ensures { result ≡ may_declare prefix.now space.now }
{
    if prefix == b"xmlns".as_slice() {
        false
    } else if prefix == b"xml".as_slice() {
        space == XML_SPACE.as_bytes()
    } else {
        space != XML_SPACE.as_bytes()
            && space != XMLNS_SPACE.as_bytes()
            && may_be_undone(prefix, space)
    }
}

/// What the last of these bindings of the prefix binds it to.
pub(crate) fn last_bound<'a>(bindings: &'a [Binding], prefix: &[u8]) -> Option<&'a Text>
    ensures { option_copied result ≡ last_space None bindings.entry.now prefix.now }
{
    for i in (0..bindings.len()).rev() {
        let binding = &bindings[i];
        if binding.prefix.slice() == prefix {
            return Some(&binding.space);
        }
    }
    None
}

/// The same through the bindings of each element, which come outermost first, or else what was given. The innermost are
/// looked at first.
pub(crate) fn last_in_layers<'a>(
    given: Option<Space<'a>>,
    layers: &'a [Several<Binding>],
    prefix: &[u8],
) -> Option<Space<'a>>
    ensures { bound_space result ≡ last_layer (bound_space given.entry) layers.now prefix.now }
{
    for i in (0..layers.len()).rev() {
        if let Some(space) = last_bound(layers[i].slice(), prefix) {
            return Some(Space::Bound(space));
        }
    }
    given
}

/// What the prefix is bound to before any tag: the default namespace to nothing, and `xml`.
pub(crate) fn bound_before(prefix: &[u8]) -> Option<Space<'static>>
    ensures { bound_space result ≡ space_before prefix.now }
{
    if prefix == b"".as_slice() {
        Some(Space::Fixed(""))
    } else if prefix == b"xml".as_slice() {
        Some(Space::Fixed(XML_SPACE))
    } else {
        None
    }
}

/// What the prefix stands for.
pub(crate) fn bound<'a>(bindings: &'a [Several<Binding>], prefix: &[u8]) -> Option<Space<'a>>
    ensures { bound_space result ≡ space_of bindings.now prefix.now }
{
    if prefix == b"xmlns".as_slice() {
        None
    } else {
        last_in_layers(bound_before(prefix), bindings, prefix)
    }
}

/// The namespace of an attribute of that name.
pub(crate) fn attribute_bound<'a>(
    bindings: &'a [Several<Binding>],
    name: &[u8],
) -> Option<Space<'a>>
    ensures { bound_space result ≡ attribute_space bindings.now name.now }
{
    if declares(name) {
        Some(Space::Fixed(XMLNS_SPACE))
    } else if has_a_prefix(name) {
        bound(bindings, prefix(name))
    } else {
        Some(Space::Fixed(""))
    }
}

fn is_forbidden_here(attribute: &Written) -> bool
    ensures { result ≡ is_forbidden attribute.now }
{
    let name = attribute.name.slice();
    declares(name) && !may_be_declared(declared(name), attribute.value.bytes())
}

pub(crate) fn any_forbidden(attributes: &[Written]) -> bool
    ensures { result ≡ has_forbidden attributes.now }
{
    for attribute in attributes {
        if is_forbidden_here(attribute) {
            return true;
        }
    }
    false
}

/// Whether this is the namespace of `xml`, in which no element may be.
pub(crate) fn is_xml(space: Option<Space<'_>>) -> bool
    ensures { result ≡ is_bound_to (bound_space space.entry) xml_space }
{
    match space {
        Some(space) => space.bytes() == XML_SPACE.as_bytes(),
        None => false,
    }
}

/// The fault of a tag by the namespace of its element and the expanded names of its attributes. Each two names are
/// compared, so the time grows with the attributes times the bytes of their names and namespaces.
pub(crate) fn name_fault(
    space: Option<Space<'_>>,
    names: &[Expanded<'_>],
    attributes: &[Written],
) -> Option<NameFault>
    ensures { result ≡ fault_of_names (bound_space space.entry) (map full_name names.now) attributes.now }
{
    if space.is_none() || any_unbound(names) {
        return Some(NameFault::BadPrefix);
    }
    if is_xml(space) || any_forbidden(attributes) || any_repeat(names) {
        return Some(NameFault::NotWellFormed);
    }
    None
}

fn bind(alloc: Global, prefix: &[u8], space: &Text) -> Result<Binding, NoMemory>
    ensures { IfOk result (λ b. b ≡ record { prefix = prefix.now; space = space.now }) }
{
    let mut copied = Vec::new(alloc);
    copied.extend_from_slice(prefix)?;
    Ok(Binding {
        prefix: Several::of(copied),
        space: space.copy(alloc)?,
    })
}

/// The prefix that a declaration of that name declares; empty for the default namespace.
fn declared(name: &[u8]) -> &[u8]
    ensures { result.now ≡ declared_prefix name.now }
{
    if has_a_prefix(name) { local(name) } else { &[] }
}

/// From now on what a tag declares shares its bytes with the bindings, and so with the names that are in it.
pub(crate) fn share_declared(alloc: Global, attributes: &mut Vec<Written>) -> Result<(), NoMemory>
    ensures items { attributes.new.items ≡ attributes.old.items }
    ensures len { vec_len attributes.new ≡ vec_len attributes.old }
    ensures capacity { vec_capacity attributes.new ≡ vec_capacity attributes.old }
{
    for i in 0..attributes.len() {
        let attribute = &mut attributes[i];
        if declares(attribute.name.slice()) {
            attribute.value.share(alloc)?;
        }
    }
    Ok(())
}

/// The bindings that a tag with these attributes declares, in their order.
pub(crate) fn own_bindings(
    alloc: Global,
    attributes: &[Written],
) -> Result<Several<Binding>, NoMemory>
    ensures { IfOk result (λ s. s ≡ own attributes.now) }
{
    let mut bindings = Vec::new(alloc);
    for attribute in attributes {
        let name = attribute.name.slice();
        if declares(name) {
            if bindings.is_empty() {
                bindings.reserve_exact(1)?;
            }
            bindings.push(bind(alloc, declared(name), &attribute.value)?)?;
        }
    }
    bindings.shrink_to_fit();
    Ok(Several::of(bindings))
}
