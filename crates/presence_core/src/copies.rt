//! Presence as it goes to the sessions that get it.
ghost use Rattle.std.specs.Prelude.{◌≡◌, ◌++◌, IfOk, OnOk};
ghost use Rattle.presence_core.specs.Copies.{copies, copy_to, presence_text};

use stanza_model::make::written;
use stanza_model::{Effect, Here};
use stanza_tree::{Element, NoMemory, Origin, Text, sent_text};
use std::alloc::Global;

/// The text of a presence that a session sends, which its copies share.
pub(crate) fn presence_text(alloc: Global, who: &Here, element: &Element) -> Result<Text, NoMemory>
    ensures { IfOk result (λ t. t ≡ presence_text who.now element.now) }
{
    let from = written(alloc, &who.address)?;
    let mut rest = sent_text(alloc, element, from.bytes())?;
    rest.share(alloc)?;
    Ok(rest)
}

/// A copy of a presence for a session, at its full address.
pub(crate) fn copy_to(alloc: Global, rest: &Text, receiver: &Here) -> Result<Effect, NoMemory>
    ensures { IfOk result (λ effect. effect ≡ copy_to rest.now receiver.now) }
{
    Ok(Effect::Queue {
        session: receiver.session,
        to: written(alloc, &receiver.address)?,
        rest: rest.copy(alloc)?,
        origin: Origin::Direct,
    })
}

/// Adds a copy of a presence for each receiver.
pub(crate) fn push_copies(
    alloc: Global,
    rest: &Text,
    receivers: &[Here],
    effects: &mut Vec<Effect>,
) -> Result<(), NoMemory>
    ensures { OnOk result (effects.new.items ≡ effects.old.items ++ copies rest.now receivers.now) }
{
    for receiver in receivers {
        effects.push(copy_to(alloc, rest, receiver)?)?;
    }
    Ok(())
}
