//! The ids that archives give to messages (XEP-0359).
ghost use Rattle.std.specs.Prelude.{◌≡◌, ◌++◌, IfOk, OnOk, IsUtf8};
ghost use Rattle.std.specs.Fmt.{decimal};
ghost use Rattle.std.specs.List.{filter};
ghost use Rattle.std.specs.Option.{option_copied};
ghost use Rattle.stanza_tree.specs.Spelling.{text};
ghost use Rattle.stanza_tree.specs.Stamps.{sent_by};
ghost use Rattle.stanza_model.specs.Growing.{before_end, grown, is_open};
ghost use Rattle.stanza_model.specs.Ids.{has_body, has_id, is_id_by, is_stanza_id, may_stay, names, stanza_id, told_with_id, with_id, without_ids};
ghost use Rattle.stanza_model.specs.Replies.{one_child};

use crate::make::{CLIENT_SPACE, element_of, push_attr, spelt, written};
use jid_core::{Jid, JidFault};
use stanza_tree::{Element, NoMemory, Node, Several, Text, sent_text};
use std::alloc::Global;
use std::mem;

/// The namespace of ids of stanzas (XEP-0359, 3).
const ID_SPACE: &str = "urn:xmpp:sid:0";

/// Whether a message has a body (RFC 6121, 5.2.3).
pub fn has_body(message: &Element) -> bool
    ensures { result ≡ has_body message.now }
{
    message.child(CLIENT_SPACE.as_bytes(), b"body").is_some()
}

fn is_stanza_id(element: &Element) -> bool
    ensures { result ≡ is_stanza_id element.now }
{
    element.name.space.bytes() == ID_SPACE.as_bytes()
        && element.name.local.bytes() == b"stanza-id".as_slice()
}

/// Whether an attribute has the owner's address.
fn names(alloc: Global, owner: &Jid, by: Option<&Text>) -> Result<bool, NoMemory>
    ensures { IfOk result (λ b. b ≡ names owner.now (option_copied by.entry)) }
{
    let Some(by) = by else {
        return Ok(false);
    };
    match Jid::read(alloc, by.bytes()) {
        Ok(address) => Ok(address.is_same(owner)),
        Err(JidFault::NoMemory) => Err(NoMemory),
        Err(JidFault::Empty(_)) => Ok(false),
        Err(JidFault::Long(_)) => Ok(false),
        Err(JidFault::Bad(_, _)) => Ok(false),
    }
}

fn is_id_by(alloc: Global, owner: &Jid, element: &Element) -> Result<bool, NoMemory>
    ensures { IfOk result (λ b. b ≡ is_id_by owner.now element.now) }
{
    if is_stanza_id(element) {
        names(alloc, owner, element.attr(b"by"))
    } else {
        Ok(false)
    }
}

fn may_stay(alloc: Global, owner: &Jid, node: &Node) -> Result<bool, NoMemory>
    ensures { IfOk result (λ b. b ≡ may_stay owner.now node.now) }
{
    match node {
        Node::Child(element) => Ok(!is_id_by(alloc, owner, element)?),
        Node::Words(_) => Ok(true),
    }
}

fn copy_node(alloc: Global, node: &Node) -> Result<Node, NoMemory>
    ensures { IfOk result (λ n. n ≡ node.now) }
{
    match node {
        Node::Child(element) => Ok(Node::Child(element.copy(alloc)?)),
        Node::Words(words) => Ok(Node::Words(words.copy(alloc)?)),
    }
}

fn kept_nodes(alloc: Global, owner: &Jid, nodes: &[Node]) -> Result<Vec<Node>, NoMemory>
    ensures { IfOk result (λ kept. kept.items ≡ filter (may_stay owner.now) nodes.now) }
{
    let mut kept = Vec::new(alloc);
    for node in nodes {
        if may_stay(alloc, owner, node)? {
            kept.push(copy_node(alloc, node)?)?;
        }
    }
    Ok(kept)
}

/// A message without ids in the owner's name.
fn without_ids(alloc: Global, owner: &Jid, message: &Element) -> Result<Element, NoMemory>
    ensures { IfOk result (λ e. e ≡ without_ids owner.now message.now) }
{
    let kept = kept_nodes(alloc, owner, message.children.slice())?;
    let mut message = message.copy(alloc)?;
    message.children = Several::of(kept);
    Ok(message)
}

fn stanza_id(alloc: Global, owner: &Jid, id: u64) -> Result<Element, NoMemory>
    ensures { IfOk result (λ e. e ≡ stanza_id owner.now id) }
{
    let mut attrs = Vec::new(alloc);
    push_attr(&mut attrs, alloc, "by", written(alloc, owner)?)?;
    push_attr(&mut attrs, alloc, "id", decimal_text(alloc, id)?)?;
    element_of(alloc, ID_SPACE, "stanza-id", attrs, Vec::new(alloc))
}

fn decimal_text(alloc: Global, number: u64) -> Result<Text, NoMemory>
    ensures { IfOk result (λ t. t ≡ decimal number) }
{
    Ok(Text::of_string(format!(in alloc; "{}", number)?))
}

/// Adds a child last.
fn add_child(alloc: Global, element: &mut Element, child: Element) -> Result<(), NoMemory>
    ensures { OnOk result (element.new ≡ record element.old { children = element.old.children ++ one_child child }) }
{
    let mut children = mem::replace(&mut element.children, Several::of(Vec::new(alloc))).into_vec();
    let done = children.push(Node::Child(child));
    element.children = Several::of(children);
    Ok(done?)
}

/// A message with the id that it has in the owner's archive, and with no other in its name.
fn told_with_id(alloc: Global, owner: &Jid, id: u64, message: &Element) -> Result<Element, NoMemory>
    ensures { IfOk result (λ e. e ≡ told_with_id owner.now id message.now) }
{
    let mut told = without_ids(alloc, owner, message)?;
    add_child(alloc, &mut told, stanza_id(alloc, owner, id)?)?;
    Ok(told)
}

fn has_id(message: &Element) -> bool
    ensures { result ≡ has_id message.now }
{
    message.child(ID_SPACE.as_bytes(), b"stanza-id").is_some()
}

/// The spelling of a message of this sender without ids in the owner's name, which its archive alone gives (XEP-0359, 5). Costs the size of the
/// message, and a copy of it where it has an id.
#[tactic(auto, using(crate::proofs::IdLemmas::stays))]
pub fn sent_without_ids(
    alloc: Global,
    owner: &Jid,
    message: &Element,
    from: &Text,
) -> Result<Text, NoMemory>
    ensures { IfOk result (λ t. t ≡ text (sent_by from.now (without_ids owner.now message.now))) }
{
    if !has_id(message) {
        return sent_text(alloc, message, from.bytes());
    }
    let message = without_ids(alloc, owner, message)?;
    sent_text(alloc, &message, from.bytes())
}

/// Whether a spelling ends by an end tag, and not by `/>`.
fn is_open(spelt: &[u8]) -> bool
    ensures { result ≡ is_open spelt.now }
{
    !spelt.ends_with(b"/>".as_slice())
}

fn spelt_id(alloc: Global, owner: &Jid, id: u64) -> Result<Text, NoMemory>
    ensures { IfOk result (λ t. t ≡ text (stanza_id owner.now id)) }
{
    let id = stanza_id(alloc, owner, id)?;
    spelt(alloc, &id)
}

fn push_grown(spelt: &[u8], local: &[u8], child: &[u8], out: &mut Vec<u8>) -> Result<(), NoMemory>
    ensures { OnOk result (out.new.items ≡ out.old.items ++ grown local.now spelt.now child.now) }
{
    let front = spelt.len().saturating_sub(local.len()).saturating_sub(3);
    out.extend_from_slice(&spelt[..front])?;
    out.extend_from_slice(child)?;
    out.extend_from_slice(b"</")?;
    out.extend_from_slice(local)?;
    out.extend_from_slice(b">")
}

/// The spelling of an element with one child more, by its own and the child's.
fn grown(alloc: Global, spelt: &Text, local: &Text, child: &Text) -> Result<Text, NoMemory>
    requires { IsUtf8 (before_end local.now spelt.now) }
    ensures { IfOk result (λ t. t ≡ grown local.now spelt.now child.now) }
{
    let (spelt, local, child) = (spelt.bytes(), local.bytes(), child.bytes());
    let mut out = Vec::with_capacity(alloc, spelt.len().saturating_add(child.len()))?;
    push_grown(spelt, local, child, &mut out)?;
    Ok(Text::of_vec(out))
}

/// The spelling of a message of this sender with the id that it has in the owner's archive as its last child, and with no other in the owner's
/// name. Costs the size of the message.
pub fn sent_with_id(
    alloc: Global,
    owner: &Jid,
    id: u64,
    message: &Element,
    from: &Text,
) -> Result<Text, NoMemory>
    ensures { IfOk result (λ t. t ≡ text (sent_by from.now (told_with_id owner.now id message.now))) }
{
    let spelt = sent_without_ids(alloc, owner, message, from)?;
    spelt_with_id(alloc, owner, id, message, from, &spelt)
}

/// The spelling of a message of this sender with the id that it has in the owner's archive as its last child, and with no other in the owner's
/// name, by `spelt`, the one without ids in the owner's name. Costs a copy of that, or, where the message has no content or is of another
/// namespace, a copy of the message.
#[tactic(auto, using(crate::proofs::GrowingLemmas::sent_grown, crate::proofs::GrowingLemmas::sent_utf8))]
pub fn spelt_with_id(
    alloc: Global,
    owner: &Jid,
    id: u64,
    message: &Element,
    from: &Text,
    spelt: &Text,
) -> Result<Text, NoMemory>
    requires { spelt.now ≡ text (sent_by from.now (without_ids owner.now message.now)) }
    ensures { IfOk result (λ t. t ≡ text (sent_by from.now (told_with_id owner.now id message.now))) }
{
    if is_open(spelt.bytes()) && message.name.space.bytes() == CLIENT_SPACE.as_bytes() {
        let id = spelt_id(alloc, owner, id)?;
        return grown(alloc, spelt, &message.name.local, &id);
    }
    let message = told_with_id(alloc, owner, id, message)?;
    sent_text(alloc, &message, from.bytes())
}
