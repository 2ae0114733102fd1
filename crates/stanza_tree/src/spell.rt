//! Writes the canonical spelling of an element.
ghost use Rattle.std.specs.Prelude.{◌≡◌, ◌++◌, ◌∷◌, [], ◌↔◌, ◌<◌, ◌^◌, ℕ, List, length, nat_lt, codes, IsTrue, OnOk, OnErr, IsUtf8};
ghost use Rattle.stanza_tree.specs.Appending.{Keeps};
ghost use Rattle.std.specs.Fmt.{decimal};
ghost use Rattle.stanza_tree.specs.Utf8.{NameIsUtf8, AttrsAreUtf8};
ghost use Rattle.stanza_tree.specs.Spelling.{escaped_in_words, escaped_in_value, words_text, value_text, assigned};
ghost use Rattle.stanza_tree.specs.Spelling.{needs_prefix, declaration, declarations, prefixed, unprefixed, attributes};
ghost use Rattle.stanza_tree.specs.Spelling.{client_space, named, opened, closed, text_under, text_with, texts_under, text};

use crate::node::{Attr, Element, Name, Node};
use crate::text::NoMemory;
use std::slice;

/// The namespace that the prefix `xml` is bound to (Namespaces in XML 1.0, 3).
const XML_SPACE: &[u8] = b"http://www.w3.org/XML/1998/namespace";

/// The namespace of stanzas, which a top element's parent has (RFC 6120, 4.8.2).
pub(crate) const CLIENT_SPACE: &[u8] = b"jabber:client";

/// What stands for a byte in words (XML 1.0, 2.4 and 2.11).
#[tactic(auto, unfolding(crate::specs::Spelling::escaped_in_words))]
pub(crate) fn words_escape(byte: &u8) -> &[u8]
    ensures { result.now ≡ escaped_in_words byte.now }
{
    match *byte {
        b'&' => b"&amp;",
        b'<' => b"&lt;",
        b'>' => b"&gt;",
        b'\n' => b"&#10;",
        b'\r' => b"&#13;",
        _ => slice::from_ref(byte),
    }
}

/// What stands for a byte in a value that is quoted by `'` (XML 1.0, 3.3.3).
#[tactic(auto, unfolding(crate::specs::Spelling::escaped_in_value))]
pub(crate) fn value_escape(byte: &u8) -> &[u8]
    ensures { result.now ≡ escaped_in_value byte.now }
{
    match *byte {
        b'\'' => b"&apos;",
        b'\t' => b"&#9;",
        _ => words_escape(byte),
    }
}

/// Whether a byte stands for itself in words.
#[tactic(auto, unfolding(crate::specs::Spelling::escaped_in_words))]
pub(crate) fn is_plain_in_words(byte: u8) -> bool
    ensures { IsTrue result ↔ escaped_in_words byte ≡ byte ∷ [] }
{
    // Without branches, so that a test of many bytes looks at several at a time.
    (byte != b'&') & (byte != b'<') & (byte != b'>') & (byte != b'\n') & (byte != b'\r')
}

/// Whether all bytes stand for themselves in words.
pub(crate) fn are_plain_in_words(bytes: &[u8]) -> bool
    ensures { IsTrue result ↔ words_text bytes.now ≡ bytes.now }
{
    let mut escapes = 0u8;
    for byte in bytes {
        escapes = escapes.max(!is_plain_in_words(*byte) as u8);
    }
    escapes == 0
}

/// Appends one byte, without the call that copies several.
fn push_byte(byte: u8, out: &mut Vec<u8>) -> Result<(), NoMemory>
    ensures ok { OnOk result (out.new.items ≡ out.old.items ++ byte ∷ []) }
    ensures kept { Keeps out.old out.new }
{
    Ok(out.push(byte)?)
}

fn push_words(bytes: &[u8], out: &mut Vec<u8>) -> Result<(), NoMemory>
    ensures ok { OnOk result (out.new.items ≡ out.old.items ++ words_text bytes.now) }
    ensures kept { Keeps out.old out.new }
{
    if are_plain_in_words(bytes) {
        return out.extend_from_slice(bytes);
    }
    let mut from = 0;
    for (i, byte) in bytes.iter().enumerate() {
        if is_plain_in_words(*byte) {
            continue;
        }
        out.extend_from_slice(&bytes[from..i])?;
        out.extend_from_slice(words_escape(byte))?;
        from = i + 1;
    }
    out.extend_from_slice(&bytes[from..])
}

/// Whether a byte stands for itself in a value that is quoted by `'`.
#[tactic(auto, unfolding(crate::specs::Spelling::escaped_in_value))]
pub(crate) fn is_plain_in_value(byte: u8) -> bool
    ensures { IsTrue result ↔ escaped_in_value byte ≡ byte ∷ [] }
{
    (byte != b'\'') & (byte != b'\t') & is_plain_in_words(byte)
}

/// Whether all bytes stand for themselves in a value that is quoted by `'`.
pub(crate) fn are_plain_in_value(bytes: &[u8]) -> bool
    ensures { IsTrue result ↔ value_text bytes.now ≡ bytes.now }
{
    let mut escapes = 0u8;
    for byte in bytes {
        escapes = escapes.max(!is_plain_in_value(*byte) as u8);
    }
    escapes == 0
}

fn push_value(bytes: &[u8], out: &mut Vec<u8>) -> Result<(), NoMemory>
    ensures ok { OnOk result (out.new.items ≡ out.old.items ++ value_text bytes.now) }
    ensures kept { Keeps out.old out.new }
{
    if are_plain_in_value(bytes) {
        return out.extend_from_slice(bytes);
    }
    let mut from = 0;
    for (i, byte) in bytes.iter().enumerate() {
        if is_plain_in_value(*byte) {
            continue;
        }
        out.extend_from_slice(&bytes[from..i])?;
        out.extend_from_slice(value_escape(byte))?;
        from = i + 1;
    }
    out.extend_from_slice(&bytes[from..])
}

pub(crate) fn push_assigned(value: &[u8], out: &mut Vec<u8>) -> Result<(), NoMemory>
    ensures ok { OnOk result (out.new.items ≡ out.old.items ++ assigned value.now) }
    ensures kept { Keeps out.old out.new }
{
    push_byte(b'=', out)?;
    push_byte(b'\'', out)?;
    push_value(value, out)?;
    push_byte(b'\'', out)
}

fn push_decimal(number: u64, out: &mut Vec<u8>) -> Result<(), NoMemory>
    ensures ok { OnOk result (out.new.items ≡ out.old.items ++ decimal number) }
    ensures kept { Keeps out.old out.new }
{
    let digits = number.to_string(*out.allocator())?;
    out.extend_from_slice(digits.as_bytes())
}

/// Whether an attribute is in a namespace other than that of `xml`, so that its prefix has to be declared.
#[tactic(auto, unfolding(crate::specs::Spelling::needs_prefix))]
pub(crate) fn is_foreign(attr: &Attr) -> bool
    ensures { result ≡ needs_prefix attr.now }
{
    !attr.name.space.bytes().is_empty() && attr.name.space.bytes() != XML_SPACE
}

#[tactic(auto, unfolding(crate::specs::Spelling::declaration))]
fn push_declaration(number: u64, attr: &Attr, out: &mut Vec<u8>) -> Result<(), NoMemory>
    ensures ok { OnOk result (out.new.items ≡ out.old.items ++ declaration number attr.now) }
    ensures kept { Keeps out.old out.new }
{
    out.extend_from_slice(b" xmlns:n")?;
    push_decimal(number, out)?;
    push_assigned(attr.name.space.bytes(), out)
}

pub(crate) fn push_declarations(attrs: &[Attr], out: &mut Vec<u8>) -> Result<(), NoMemory>
    ensures ok { OnOk result (out.new.items ≡ out.old.items ++ declarations 0 attrs.now) }
    ensures kept { Keeps out.old out.new }
{
    let mut number = 0u64;
    for attr in attrs {
        if is_foreign(attr) {
            push_declaration(number, attr, out)?;
            number += 1;
        }
    }
    Ok(())
}

#[tactic(auto, unfolding(crate::specs::Spelling::prefixed))]
pub(crate) fn push_prefixed(number: u64, attr: &Attr, out: &mut Vec<u8>) -> Result<(), NoMemory>
    ensures ok { OnOk result (out.new.items ≡ out.old.items ++ prefixed number attr.now) }
    ensures kept { Keeps out.old out.new }
{
    out.extend_from_slice(b" n")?;
    push_decimal(number, out)?;
    out.extend_from_slice(b":")?;
    out.extend_from_slice(attr.name.local.bytes())?;
    push_assigned(attr.value.bytes(), out)
}

#[tactic(auto, unfolding(crate::specs::Spelling::unprefixed))]
pub(crate) fn push_unprefixed(attr: &Attr, out: &mut Vec<u8>) -> Result<(), NoMemory>
    ensures ok { OnOk result (out.new.items ≡ out.old.items ++ unprefixed attr.now) }
    ensures kept { Keeps out.old out.new }
{
    push_byte(b' ', out)?;
    if !attr.name.space.bytes().is_empty() {
        out.extend_from_slice(b"xml:")?;
    }
    out.extend_from_slice(attr.name.local.bytes())?;
    push_assigned(attr.value.bytes(), out)
}

fn push_attributes(attrs: &[Attr], out: &mut Vec<u8>) -> Result<(), NoMemory>
    ensures ok { OnOk result (out.new.items ≡ out.old.items ++ attributes 0 attrs.now) }
    ensures kept { Keeps out.old out.new }
{
    let mut number = 0u64;
    for attr in attrs {
        if is_foreign(attr) {
            push_prefixed(number, attr, out)?;
            number += 1;
        } else {
            push_unprefixed(attr, out)?;
        }
    }
    Ok(())
}

#[tactic(auto, unfolding(crate::specs::Spelling::named))]
pub(crate) fn push_name(parent: &[u8], name: &Name, out: &mut Vec<u8>) -> Result<(), NoMemory>
    ensures ok { OnOk result (out.new.items ≡ out.old.items ++ named parent.now name.now) }
    ensures kept { Keeps out.old out.new }
{
    push_byte(b'<', out)?;
    out.extend_from_slice(name.local.bytes())?;
    if parent != name.space.bytes() {
        out.extend_from_slice(b" xmlns")?;
        push_assigned(name.space.bytes(), out)?;
    }
    Ok(())
}

#[tactic(auto, unfolding(crate::specs::Spelling::opened))]
fn push_opened(
    parent: &[u8],
    name: &Name,
    attrs: &[Attr],
    out: &mut Vec<u8>,
) -> Result<(), NoMemory>
    ensures ok { OnOk result (out.new.items ≡ out.old.items ++ opened parent.now name.now attrs.now) }
    ensures kept { Keeps out.old out.new }
{
    push_name(parent, name, out)?;
    push_declarations(attrs, out)?;
    push_attributes(attrs, out)
}

/// Says of the texts of a start tag that they are UTF-8, as each text is. Nothing of it is left in the built program.
pub(crate) fn know_utf8(name: &Name, attrs: &[Attr])
    ensures name { NameIsUtf8 name.now }
    ensures attrs { AttrsAreUtf8 attrs.now }
    ensures few { length attrs.now < 2 ^ 64 }
{
    let _ = name.space.bytes();
    let _ = name.local.bytes();
    for attr in attrs {
        let _ = attr.name.space.bytes();
        let _ = attr.name.local.bytes();
        let _ = attr.value.bytes();
    }
}

/// Whether children spell anything: a child element does, and words that are not empty.
fn has_content(nodes: &[Node]) -> bool
    ensures { (parent : List ℕ) → result ≡ nat_lt 0 (length (texts_under parent nodes.now)) }
{
    for node in nodes {
        match node {
            Node::Child(_) => return true,
            Node::Words(words) if words.bytes().is_empty() => {}
            Node::Words(_) => return true,
        }
    }
    false
}

fn push_end_tag(local: &[u8], out: &mut Vec<u8>) -> Result<(), NoMemory>
    ensures ok { OnOk result (out.new.items ≡ out.old.items ++ codes "</" ++ local.now ++ codes ">") }
    ensures kept { Keeps out.old out.new }
{
    push_byte(b'<', out)?;
    push_byte(b'/', out)?;
    out.extend_from_slice(local)?;
    push_byte(b'>', out)
}

#[tactic(auto, unfolding(crate::specs::Spelling::closed))]
fn push_element(element: &Element, parent: &[u8], out: &mut Vec<u8>) -> Result<(), NoMemory>
    ensures ok { OnOk result (out.new.items ≡ out.old.items ++ text_under parent.now element.now) }
    ensures utf8 { OnOk result (IsUtf8 (text_under parent.now element.now)) }
    ensures kept { Keeps out.old out.new }
{
    know_utf8(&element.name, element.attrs.slice());
    let space = element.name.space.bytes();
    push_opened(parent, &element.name, element.attrs.slice(), out)?;
    let children = element.children.slice();
    if !has_content(children) {
        return out.extend_from_slice(b"/>");
    }
    push_byte(b'>', out)?;
    for node in children {
        match node {
            Node::Child(child) => push_element(child, space, out)?,
            Node::Words(words) => push_words(words.bytes(), out)?,
        }
    }
    push_end_tag(element.name.local.bytes(), out)
}

fn push_nodes(nodes: &[Node], parent: &[u8], out: &mut Vec<u8>) -> Result<(), NoMemory>
    ensures ok { OnOk result (out.new.items ≡ out.old.items ++ texts_under parent.now nodes.now) }
    ensures utf8 { OnOk result (IsUtf8 (texts_under parent.now nodes.now)) }
    ensures kept { Keeps out.old out.new }
{
    for node in nodes {
        match node {
            Node::Child(child) => push_element(child, parent, out)?,
            Node::Words(words) => push_words(words.bytes(), out)?,
        }
    }
    Ok(())
}

/// Appends the rest of an element after its start tag's attributes.
#[tactic(auto, unfolding(crate::specs::Spelling::closed))]
pub(crate) fn push_content(
    name: &Name,
    children: &[Node],
    out: &mut Vec<u8>,
) -> Result<(), NoMemory>
    ensures ok { OnOk result (out.new.items ≡ out.old.items ++ closed name.now.local (texts_under name.now.space children.now)) }
    ensures utf8 { OnOk result (IsUtf8 (texts_under name.now.space children.now)) }
    ensures kept { Keeps out.old out.new }
{
    if !has_content(children) {
        return out.extend_from_slice(b"/>");
    }
    push_byte(b'>', out)?;
    push_nodes(children, name.space.bytes(), out)?;
    push_end_tag(name.local.bytes(), out)
}

/// Appends the canonical spellings of children of a top element, one after another, whole or not at all. Costs their length.
pub fn write_nodes(nodes: &[Node], out: &mut Vec<u8>) -> Result<(), NoMemory>
    ensures ok { OnOk result (out.new.items ≡ out.old.items ++ texts_under client_space nodes.now) }
    ensures utf8 { OnOk result (IsUtf8 (texts_under client_space nodes.now)) }
    ensures err { OnErr result (out.new.items ≡ out.old.items) }
{
    let before = out.len();
    let done = push_nodes(nodes, CLIENT_SPACE, out);
    if done.is_err() {
        out.truncate(before);
    }
    done
}

/// Appends the spelling of a top element whose children are spelt already.
#[tactic(auto, unfolding(crate::specs::Spelling::closed))]
fn push_with(element: &Element, content: &[u8], out: &mut Vec<u8>) -> Result<(), NoMemory>
    requires { IsUtf8 content.now }
    ensures ok { OnOk result (out.new.items ≡ out.old.items ++ text_with element.now content.now) }
    ensures utf8 { OnOk result (IsUtf8 (text_with element.now content.now)) }
    ensures kept { Keeps out.old out.new }
{
    know_utf8(&element.name, element.attrs.slice());
    push_opened(CLIENT_SPACE, &element.name, element.attrs.slice(), out)?;
    if content.is_empty() {
        return out.extend_from_slice(b"/>");
    }
    push_byte(b'>', out)?;
    out.extend_from_slice(content)?;
    push_end_tag(element.name.local.bytes(), out)
}

/// Appends the spelling of a top element whose children are spelt already, whole or not at all. Its own children are left out. Costs
/// the length.
pub fn write_with(element: &Element, content: &[u8], out: &mut Vec<u8>) -> Result<(), NoMemory>
    requires { IsUtf8 content.now }
    ensures ok { OnOk result (out.new.items ≡ out.old.items ++ text_with element.now content.now) }
    ensures utf8 { OnOk result (IsUtf8 (text_with element.now content.now)) }
    ensures err { OnErr result (out.new.items ≡ out.old.items) }
{
    let before = out.len();
    let done = push_with(element, content, out);
    if done.is_err() {
        out.truncate(before);
    }
    done
}

/// Appends the canonical spelling of a top element, whole or not at all. Costs its length.
pub fn write(element: &Element, out: &mut Vec<u8>) -> Result<(), NoMemory>
    ensures ok { OnOk result (out.new.items ≡ out.old.items ++ text element.now) }
    ensures utf8 { OnOk result (IsUtf8 (text element.now)) }
    ensures err { OnErr result (out.new.items ≡ out.old.items) }
{
    let before = out.len();
    let done = push_element(element, CLIENT_SPACE, out);
    if done.is_err() {
        out.truncate(before);
    }
    done
}
