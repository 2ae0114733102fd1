//! What is told of why something is done in a room (XEP-0045, 7.8.2 and 10.9).
ghost use Rattle.std.specs.Prelude.{◌≡◌, IfOk};
ghost use Rattle.std.specs.List.{filter};
ghost use Rattle.std.specs.Option.{option_copied, option_map};
ghost use Rattle.muc_owner.specs.Owning.{is_long, is_said, told_reason};

use crate::invitation::USER_SPACE;
use stanza_model::make::text_of;
use stanza_tree::{Element, NoMemory, Node, Several, is_longer};
use std::alloc::Global;

/// The most bytes of the canonical spelling of an element of a stanza.
const MOST_REASON: u64 = 196_608;

/// A copy of a reason, where there is one.
pub(crate) fn copy_reason(
    alloc: Global,
    reason: Option<&Element>,
) -> Result<Option<Element>, NoMemory>
    ensures { IfOk result (λ e. e ≡ option_copied reason.entry) }
{
    match reason {
        Some(reason) => Ok(Some(reason.copy(alloc)?)),
        None => Ok(None),
    }
}

/// The words among these.
fn words_of(alloc: Global, nodes: &[Node]) -> Result<Vec<Node>, NoMemory>
    ensures { IfOk result (λ words. words.items ≡ filter is_said nodes.now) }
{
    let mut words = Vec::new(alloc);
    for node in nodes {
        if let Node::Words(text) = node {
            words.push(Node::Words(text.copy(alloc)?))?;
        }
    }
    Ok(words)
}

/// Whether the canonical spelling of a reason is longer than an element of a stanza may be.
fn is_long(reason: &Element) -> bool
    ensures { result ≡ is_long reason.now }
{
    is_longer(reason, MOST_REASON)
}

/// A reason of an owner as those in the room are told it: in their namespace, and as it is otherwise; or its words alone, where it is long.
fn told_reason(alloc: Global, reason: &Element) -> Result<Element, NoMemory>
    ensures { IfOk result (λ e. e ≡ told_reason reason.now) }
{
    let mut told = reason.copy(alloc)?;
    told.name.space = text_of(alloc, USER_SPACE)?;
    if is_long(&told) {
        let words = words_of(alloc, told.children.slice())?;
        told.children = Several::of(words);
    }
    Ok(told)
}

/// The same, where there is one.
pub(crate) fn told_if(alloc: Global, reason: Option<&Element>) -> Result<Option<Element>, NoMemory>
    ensures { IfOk result (λ e. e ≡ option_map told_reason (option_copied reason.entry)) }
{
    match reason {
        Some(reason) => Ok(Some(told_reason(alloc, reason)?)),
        None => Ok(None),
    }
}
