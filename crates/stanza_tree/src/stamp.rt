//! A stanza as the server hands it on: with the sender's address as its `from`, and without its `to` (RFC 6120, 8.1.2.1).
ghost use Rattle.std.specs.Prelude.{◌≡◌, ◌++◌, ◌^◌, ◌-◌, false, min, length as list_length, IfOk, OnOk, OnErr, IsUtf8};
ghost use Rattle.stanza_tree.specs.Appending.{Keeps};
ghost use Rattle.stanza_tree.specs.Attributes.{is_named};
ghost use Rattle.stanza_tree.specs.Spelling.{assigned, text};
ghost use Rattle.stanza_tree.specs.Stamps.{sent_by, from_text, stamped_text};

use crate::measure::{
    assigned_length, closed_length, declarations_length, name_length, nodes_length,
    prefixed_length, unprefixed_length,
};
use crate::node::{Attr, Element};
use crate::spell::{
    CLIENT_SPACE, is_foreign, know_utf8, push_assigned, push_content, push_declarations, push_name,
    push_prefixed, push_unprefixed,
};
use crate::text::{NoMemory, Text};
use std::alloc::Global;

/// In bytes, what nearly every stanza takes at most: room that is asked for at once, and given back where it isn't used.
const USUAL_LENGTH: usize = 512;

/// Whether an attribute is the one of that name in no namespace.
fn is_plain(attr: &Attr, local: &[u8]) -> bool
    ensures { result ≡ is_named local.now attr.now }
{
    attr.name.local.bytes() == local && attr.name.space.bytes().is_empty()
}

fn push_from(from: &[u8], out: &mut Vec<u8>) -> Result<(), NoMemory>
    ensures ok { OnOk result (out.new.items ≡ out.old.items ++ from_text from.now) }
    ensures kept { Keeps out.old out.new }
{
    out.extend_from_slice(b" from")?;
    push_assigned(from, out)
}

fn push_stamped(attrs: &[Attr], from: &[u8], out: &mut Vec<u8>) -> Result<(), NoMemory>
    ensures ok { OnOk result (out.new.items ≡ out.old.items ++ stamped_text false 0 from.now attrs.now) }
    ensures kept { Keeps out.old out.new }
{
    let mut number = 0u64;
    let mut is_stamped = false;
    for attr in attrs {
        if is_plain(attr, b"to") {
            continue;
        }
        if is_foreign(attr) {
            push_prefixed(number, attr, out)?;
            number += 1;
        } else if is_plain(attr, b"from") && !is_stamped {
            push_from(from, out)?;
            is_stamped = true;
        } else {
            push_unprefixed(attr, out)?;
        }
    }
    if is_stamped {
        Ok(())
    } else {
        push_from(from, out)
    }
}

fn stamped_length(attrs: &[Attr], from: &[u8]) -> u64
    ensures { result ≡ min (list_length (stamped_text false 0 from.now attrs.now)) (2 ^ 64 - 1) }
{
    let stamp = assigned_length(from).saturating_add(5);
    let mut number = 0u64;
    let mut sum = 0u64;
    let mut is_stamped = false;
    for attr in attrs {
        if is_plain(attr, b"to") {
            continue;
        }
        if is_foreign(attr) {
            sum = sum.saturating_add(prefixed_length(number, attr));
            number += 1;
        } else if is_plain(attr, b"from") && !is_stamped {
            sum = sum.saturating_add(stamp);
            is_stamped = true;
        } else {
            sum = sum.saturating_add(unprefixed_length(attr));
        }
    }
    if is_stamped {
        sum
    } else {
        sum.saturating_add(stamp)
    }
}

fn push_sent(element: &Element, from: &[u8], out: &mut Vec<u8>) -> Result<(), NoMemory>
    requires { IsUtf8 from.now }
    ensures ok { OnOk result (out.new.items ≡ out.old.items ++ text (sent_by from.now element.now)) }
    ensures utf8 { OnOk result (IsUtf8 (text (sent_by from.now element.now))) }
    ensures kept { Keeps out.old out.new }
{
    know_utf8(&element.name, element.attrs.slice());
    push_name(CLIENT_SPACE, &element.name, out)?;
    push_declarations(element.attrs.slice(), out)?;
    push_stamped(element.attrs.slice(), from, out)?;
    push_content(&element.name, element.children.slice(), out)
}

/// Appends the spelling of a stanza sent from this address, without its `to`; whole or not at all. Costs its length.
pub fn write_sent(element: &Element, from: &[u8], out: &mut Vec<u8>) -> Result<(), NoMemory>
    requires { IsUtf8 from.now }
    ensures ok { OnOk result (out.new.items ≡ out.old.items ++ text (sent_by from.now element.now)) }
    ensures utf8 { OnOk result (IsUtf8 (text (sent_by from.now element.now))) }
    ensures err { OnErr result (out.new.items ≡ out.old.items) }
{
    let before = out.len();
    let done = push_sent(element, from, out);
    if done.is_err() {
        out.truncate(before);
    }
    done
}

/// That spelling as a text of its own.
pub fn sent_text(alloc: Global, element: &Element, from: &[u8]) -> Result<Text, NoMemory>
    requires { IsUtf8 from.now }
    ensures { IfOk result (λ t. t ≡ text (sent_by from.now element.now)) }
{
    let mut bytes = Vec::with_capacity(alloc, USUAL_LENGTH)?;
    write_sent(element, from, &mut bytes)?;
    bytes.shrink_to_fit();
    Ok(Text::of_vec(bytes))
}

/// The number of bytes of that spelling; 2^64 - 1 stands for more. Costs the size of the tree, and no memory.
pub fn sent_length(element: &Element, from: &[u8]) -> u64
    ensures { result ≡ min (list_length (text (sent_by from.now element.now))) (2 ^ 64 - 1) }
{
    let content = nodes_length(element.children.slice(), element.name.space.bytes());
    name_length(CLIENT_SPACE, &element.name)
        .saturating_add(declarations_length(element.attrs.slice()))
        .saturating_add(stamped_length(element.attrs.slice(), from))
        .saturating_add(closed_length(element.name.local.bytes(), content))
}
