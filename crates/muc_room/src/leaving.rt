//! Leaving a room (XEP-0045, 7.14).
ghost use Rattle.std.specs.Prelude.{◌≡◌, ◌++◌, IfOk, OnOk};
ghost use Rattle.std.specs.Option.{option_copied};
ghost use Rattle.muc_room.specs.Leaving.{farewell, goes, gone_if_empty, last_words, leave, leaves_as, occupant_leaves, seat_address, seat_leaves};

use crate::seats::{address_of, occupant_of};
use crate::views::{seen, shown_children};
use jid_core::Jid;
use stanza_model::make::written;
use stanza_model::{Change, Effect, Occupant, PresenceForm, Role, Room, RoomItem, Stanza};
use stanza_tree::{NoMemory, Origin, Several, Text};
use std::alloc::Global;

/// What is shown of the presence by which a session leaves; nothing where the server speaks for it.
fn last_words(alloc: Global, stanza: Option<&Stanza>) -> Result<Text, NoMemory>
    ensures { IfOk result (λ t. t ≡ last_words (option_copied stanza.entry)) }
{
    match stanza {
        Some(
            Stanza::Presence {
                form: PresenceForm::Unavailable,
                element,
                ..
            },
        ) => shown_children(alloc, element.children.slice()),
        _ => Ok(Text::empty(alloc)),
    }
}

fn seat_address<'a>(room: &'a Room, session: u64, occupant: &'a Occupant) -> &'a Jid
    ensures { result.now ≡ seat_address room.entry.now session occupant.entry.now }
{
    address_of(&room.address, session, occupant)
}

/// The unavailable presence of a session that leaves.
fn farewell(
    alloc: Global,
    room: &Room,
    session: u64,
    occupant: &Occupant,
    children: Text,
) -> Result<RoomItem, NoMemory>
    ensures { IfOk result (λ i. i ≡ farewell room.now session occupant.now children) }
{
    let mut sessions = Vec::new(alloc);
    sessions.push(session)?;
    let mut own_statuses = Vec::new(alloc);
    own_statuses.push(110)?;
    Ok(RoomItem::Presence {
        sessions: Several::of(sessions),
        nick: occupant.nick.copy(alloc)?,
        address: seat_address(room, session, occupant).copy(alloc)?,
        affiliation: occupant.affiliation,
        role: Role::Nobody,
        gone: true,
        renamed: None,
        children,
        statuses: Several::of(Vec::new(alloc)),
        own_statuses: Several::of(own_statuses),
    })
}

/// Whether the room goes with an occupant that leaves it (XEP-0045, 10.1.2).
fn goes(room: &Room) -> bool
    ensures { result ≡ goes room.now }
{
    !room.config.persistent && room.occupants.slice().len() <= 1
}

fn push_gone(room: &Room, effects: &mut Vec<Effect>) -> Result<(), NoMemory>
    ensures { OnOk result (effects.new.items ≡ effects.old.items ++ gone_if_empty room.now) }
{
    if goes(room) {
        effects.push(Effect::Set(Change::RoomGone { room: room.number }))?;
    }
    Ok(())
}

/// The only session of an occupant leaves.
fn occupant_leaves(
    alloc: Global,
    room: &Room,
    session: u64,
    occupant: &Occupant,
    children: Text,
) -> Result<Vec<Effect>, NoMemory>
    ensures { IfOk result (λ effects. effects.items ≡ occupant_leaves room.now session occupant.now children) }
{
    let mut effects = Vec::new(alloc);
    effects.push(Effect::Broadcast {
        room: room.number,
        item: farewell(alloc, room, session, occupant, children)?,
    })?;
    effects.push(Effect::Leave {
        room: room.number,
        session,
    })?;
    push_gone(room, &mut effects)?;
    Ok(effects)
}

/// One of several sessions of an occupant leaves, and it alone is told.
fn seat_leaves(
    alloc: Global,
    room: &Room,
    session: u64,
    occupant: &Occupant,
    children: Text,
) -> Result<Vec<Effect>, NoMemory>
    ensures { IfOk result (λ effects. effects.items ≡ seat_leaves room.now session occupant.now children) }
{
    let item = farewell(alloc, room, session, occupant, children)?;
    let address = seat_address(room, session, occupant);
    let mut effects = Vec::new(alloc);
    effects.push(Effect::Queue {
        session,
        to: written(alloc, address)?,
        rest: seen(alloc, &item, true, &room.address, session, address)?,
        origin: Origin::Direct,
    })?;
    effects.push(Effect::Leave {
        room: room.number,
        session,
    })?;
    Ok(effects)
}

/// What comes of a session that leaves a room (XEP-0045, 7.14), by unavailable presence, or, where there is none, since it departs. Nothing
/// comes of one that isn't in the room. A nick that several sessions have stays with the others.
pub fn leave(
    alloc: Global,
    room: &Room,
    session: u64,
    stanza: Option<&Stanza>,
) -> Result<Vec<Effect>, NoMemory>
    ensures { IfOk result (λ effects. effects.items ≡ leave room.now session (option_copied stanza.entry)) }
{
    let Some(occupant) = occupant_of(session, room.occupants.slice()) else {
        return Ok(Vec::new(alloc));
    };
    let children = last_words(alloc, stanza)?;
    if occupant.seats.slice().len() <= 1 {
        occupant_leaves(alloc, room, session, occupant, children)
    } else {
        seat_leaves(alloc, room, session, occupant, children)
    }
}
