//! Directed presence to a user (RFC 6121, 4.6).
ghost use Rattle.std.specs.Prelude.{◌≡◌, IfOk};
ghost use Rattle.presence_core.specs.DirectedPresence.{delivered, directed, has_room, is_listed, with_address, without_address};

use crate::copies::{presence_text, push_copies};
use jid_core::Jid;
use stanza_model::{Change, Condition, Effect, Here, PresenceForm, Stanza, refuse};
use stanza_tree::{Element, NoMemory, Several};
use std::alloc::Global;

/// The most addresses of a session's directed list: each is looked for when the session goes.
const MOST_DIRECTED: usize = 1000;

/// What comes of directed presence of `who` (RFC 6121, 4.6.3). `receivers` are the sessions that its address names, and `list` is the
/// directed list: the addresses to which `who` sent presence, and not since unavailable presence. Costs one spelling of the presence
/// and a copy of the list.
pub fn directed(
    alloc: Global,
    who: &Here,
    stanza: &Stanza,
    receivers: &[Here],
    list: &[Jid],
) -> Result<Vec<Effect>, NoMemory>
    ensures { IfOk result (λ effects. effects.items ≡ directed who.now stanza.now receivers.now list.now) }
{
    let Stanza::Presence {
        to: Some(to),
        form,
        element,
    } = stanza
    else {
        return Ok(Vec::new(alloc));
    };
    match form {
        PresenceForm::Available if !has_room(to, list) => {
            refuse(alloc, who, stanza, Condition::ResourceConstraint)
        }
        PresenceForm::Available => {
            let addresses = with_address(alloc, to, list)?;
            delivered(alloc, who, element, receivers, addresses)
        }
        PresenceForm::Unavailable => {
            let addresses = without_address(alloc, to, list)?;
            delivered(alloc, who, element, receivers, addresses)
        }
        _ => Ok(Vec::new(alloc)),
    }
}

/// A copy of a presence for each receiver; then the directed list has these addresses.
fn delivered(
    alloc: Global,
    who: &Here,
    element: &Element,
    receivers: &[Here],
    addresses: Vec<Jid>,
) -> Result<Vec<Effect>, NoMemory>
    ensures { IfOk result (λ effects. effects.items ≡ delivered who.now element.now receivers.now addresses.items) }
{
    let mut effects = Vec::new(alloc);
    let rest = presence_text(alloc, who, element)?;
    push_copies(alloc, &rest, receivers, &mut effects)?;
    effects.push(Effect::Set(Change::Directed {
        session: who.session,
        addresses: Several::of(addresses),
    }))?;
    Ok(effects)
}

fn is_listed(to: &Jid, list: &[Jid]) -> bool
    ensures { result ≡ is_listed to.now list.now }
{
    list.iter().any(|address| address.is_same(to))
}

/// Whether the list has the address or can take one more.
fn has_room(to: &Jid, list: &[Jid]) -> bool
    ensures { result ≡ has_room to.now list.now }
{
    is_listed(to, list) || list.len() < MOST_DIRECTED
}

/// The list with this address, which stands last where it is new.
fn with_address(alloc: Global, to: &Jid, list: &[Jid]) -> Result<Vec<Jid>, NoMemory>
    ensures { IfOk result (λ addresses. addresses.items ≡ with_address to.now list.now) }
{
    let mut addresses = Vec::new(alloc);
    for address in list {
        addresses.push(address.copy(alloc)?)?;
    }
    if !is_listed(to, list) {
        addresses.push(to.copy(alloc)?)?;
    }
    Ok(addresses)
}

/// The list without this address.
fn without_address(alloc: Global, to: &Jid, list: &[Jid]) -> Result<Vec<Jid>, NoMemory>
    ensures { IfOk result (λ addresses. addresses.items ≡ without_address to.now list.now) }
{
    let mut addresses = Vec::new(alloc);
    for address in list {
        if !address.is_same(to) {
            addresses.push(address.copy(alloc)?)?;
        }
    }
    Ok(addresses)
}
