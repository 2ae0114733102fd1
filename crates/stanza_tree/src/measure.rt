//! Measures the canonical spelling of an element, without memory.
ghost use Rattle.std.specs.Prelude.{◌≡◌, ◌<◌, ◌^◌, ◌-◌, ℕ, List, min, nat_lt, length as list_length};
ghost use Rattle.std.specs.Fmt.{decimal};
ghost use Rattle.stanza_tree.specs.Spelling.{words_text, value_text, assigned, declaration, declarations, prefixed, unprefixed};
ghost use Rattle.stanza_tree.specs.Spelling.{attributes, named, opened, closed, text_under, texts_under, text};

use crate::node::{Attr, Element, Name, Node};
use crate::spell::{
    CLIENT_SPACE, are_plain_in_value, are_plain_in_words, is_foreign, value_escape, words_escape,
};

fn words_length(bytes: &[u8]) -> u64
    ensures { result ≡ min (list_length (words_text bytes.now)) (2 ^ 64 - 1) }
{
    if are_plain_in_words(bytes) {
        return bytes.len() as u64;
    }
    let mut sum = 0u64;
    for byte in bytes {
        sum = sum.saturating_add(words_escape(byte).len() as u64);
    }
    sum
}

pub(crate) fn value_length(bytes: &[u8]) -> u64
    ensures { result ≡ min (list_length (value_text bytes.now)) (2 ^ 64 - 1) }
{
    if are_plain_in_value(bytes) {
        return bytes.len() as u64;
    }
    let mut sum = 0u64;
    for byte in bytes {
        sum = sum.saturating_add(value_escape(byte).len() as u64);
    }
    sum
}

pub(crate) fn assigned_length(value: &[u8]) -> u64
    ensures { result ≡ min (list_length (assigned value.now)) (2 ^ 64 - 1) }
{
    value_length(value).saturating_add(3)
}

fn decimal_length(number: u64) -> u64
    ensures { result ≡ list_length (decimal number) }
{
    let mut rest = number;
    let mut digits = 1u64;
    while rest >= 10 {
        rest /= 10;
        digits += 1;
    }
    digits
}

#[tactic(auto, unfolding(crate::specs::Spelling::declaration))]
fn declaration_length(number: u64, attr: &Attr) -> u64
    ensures { result ≡ min (list_length (declaration number attr.now)) (2 ^ 64 - 1) }
{
    assigned_length(attr.name.space.bytes())
        .saturating_add(8)
        .saturating_add(decimal_length(number))
}

pub(crate) fn declarations_length(attrs: &[Attr]) -> u64
    ensures { result ≡ min (list_length (declarations 0 attrs.now)) (2 ^ 64 - 1) }
{
    let mut number = 0u64;
    let mut sum = 0u64;
    for attr in attrs {
        if is_foreign(attr) {
            sum = sum.saturating_add(declaration_length(number, attr));
            number += 1;
        }
    }
    sum
}

#[tactic(auto, unfolding(crate::specs::Spelling::prefixed))]
pub(crate) fn prefixed_length(number: u64, attr: &Attr) -> u64
    ensures { result ≡ min (list_length (prefixed number attr.now)) (2 ^ 64 - 1) }
{
    assigned_length(attr.value.bytes())
        .saturating_add(3)
        .saturating_add(decimal_length(number))
        .saturating_add(attr.name.local.bytes().len() as u64)
}

#[tactic(auto, unfolding(crate::specs::Spelling::unprefixed))]
pub(crate) fn unprefixed_length(attr: &Attr) -> u64
    ensures { result ≡ min (list_length (unprefixed attr.now)) (2 ^ 64 - 1) }
{
    let before = if attr.name.space.bytes().is_empty() {
        1
    } else {
        5
    };
    assigned_length(attr.value.bytes())
        .saturating_add(before)
        .saturating_add(attr.name.local.bytes().len() as u64)
}

fn attributes_length(attrs: &[Attr]) -> u64
    ensures { result ≡ min (list_length (attributes 0 attrs.now)) (2 ^ 64 - 1) }
{
    let mut number = 0u64;
    let mut sum = 0u64;
    for attr in attrs {
        if is_foreign(attr) {
            sum = sum.saturating_add(prefixed_length(number, attr));
            number += 1;
        } else {
            sum = sum.saturating_add(unprefixed_length(attr));
        }
    }
    sum
}

#[tactic(auto, unfolding(crate::specs::Spelling::named))]
pub(crate) fn name_length(parent: &[u8], name: &Name) -> u64
    ensures { result ≡ min (list_length (named parent.now name.now)) (2 ^ 64 - 1) }
{
    let bare = (name.local.bytes().len() as u64).saturating_add(1);
    if parent == name.space.bytes() {
        return bare;
    }
    bare.saturating_add(6)
        .saturating_add(assigned_length(name.space.bytes()))
}

#[tactic(auto, unfolding(crate::specs::Spelling::opened))]
fn opened_length(parent: &[u8], name: &Name, attrs: &[Attr]) -> u64
    ensures { result ≡ min (list_length (opened parent.now name.now attrs.now)) (2 ^ 64 - 1) }
{
    name_length(parent, name)
        .saturating_add(declarations_length(attrs))
        .saturating_add(attributes_length(attrs))
}

#[tactic(auto, unfolding(crate::specs::Spelling::closed))]
pub(crate) fn closed_length(local: &[u8], content: u64) -> u64
    ensures whole { (bytes : List ℕ) → content ≡ min (list_length bytes) (2 ^ 64 - 1) → result ≡ min (list_length (closed local.now bytes)) (2 ^ 64 - 1) }
    ensures counted { (bytes : List ℕ) (most : ℕ) → most < 2 ^ 64 → min content most ≡ min (list_length bytes) most
        → min result most ≡ min (list_length (closed local.now bytes)) most }
{
    if content == 0 {
        2
    } else {
        content.saturating_add(4).saturating_add(local.len() as u64)
    }
}

/// The number of bytes of an element's spelling, as far as `most`: it stops once the children have so many.
fn element_length(element: &Element, parent: &[u8], most: u64) -> u64
    ensures { min result most ≡ min (list_length (text_under parent.now element.now)) most }
{
    let mut content = 0u64;
    for node in element.children.slice() {
        if content >= most {
            return most;
        }
        let more = match node {
            Node::Child(child) => element_length(child, element.name.space.bytes(), most),
            Node::Words(words) => words_length(words.bytes()),
        };
        content = content.saturating_add(more);
    }
    opened_length(parent, &element.name, element.attrs.slice()).saturating_add(closed_length(
        element.name.local.bytes(),
        content,
    ))
}

pub(crate) fn nodes_length(nodes: &[Node], parent: &[u8]) -> u64
    ensures { result ≡ min (list_length (texts_under parent.now nodes.now)) (2 ^ 64 - 1) }
{
    let mut sum = 0u64;
    for node in nodes {
        let more = match node {
            Node::Child(child) => element_length(child, parent, u64::MAX),
            Node::Words(words) => words_length(words.bytes()),
        };
        sum = sum.saturating_add(more);
    }
    sum
}

/// The number of bytes of the canonical spelling of a top element; 2^64 - 1 stands for more. Costs the size of the tree.
pub fn length(element: &Element) -> u64
    ensures { result ≡ min (list_length (text element.now)) (2 ^ 64 - 1) }
{
    element_length(element, CLIENT_SPACE, u64::MAX)
}

/// Whether the canonical spelling of a top element has more bytes than `most`. Stops once it is known: costs `most` and the
/// largest of the tags and words in the tree.
pub fn is_longer(element: &Element, most: u64) -> bool
    ensures { result ≡ nat_lt most (min (list_length (text element.now)) (2 ^ 64 - 1)) }
{
    element_length(element, CLIENT_SPACE, most.saturating_add(1)) > most
}
