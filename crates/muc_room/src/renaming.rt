//! Presence of an occupant: what it shows, and its nick (XEP-0045, 7.6 and 7.7).
ghost use Rattle.std.specs.Prelude.{◌≡◌, ◌∷◌, ◌++◌, [], IfOk, OnOk};
ghost use Rattle.std.specs.Option.{option_copied};
ghost use Rattle.muc_room.specs.Renaming.{old_nick, rename, renames, shown_as, shows, told_rename};

use crate::seats::{holder_of, occupant_of, sessions_of};
use crate::views::shown_children;
use jid_core::Part;
use stanza_model::{
    Change, Condition, Effect, Here, Occupant, PresenceForm, Room, RoomItem, Stanza, refuse,
};
use stanza_tree::{Element, NoMemory, Several, Text};
use std::alloc::Global;

/// One status code.
fn code(alloc: Global, status: u16) -> Result<Several<u16>, NoMemory>
    ensures { IfOk result (λ codes. codes ≡ status ∷ []) }
{
    let mut codes = Vec::new(alloc);
    codes.push(status)?;
    Ok(Several::of(codes))
}

/// The occupant's new presence, from this session and under this nick.
fn shown_as(
    alloc: Global,
    who: &Here,
    occupant: &Occupant,
    nick: &Part,
    children: Text,
) -> Result<RoomItem, NoMemory>
    ensures { IfOk result (λ i. i ≡ shown_as who.now occupant.now nick.now children) }
{
    Ok(RoomItem::Presence {
        sessions: Several::of(sessions_of(alloc, occupant)?),
        nick: nick.copy(alloc)?,
        address: who.address.copy(alloc)?,
        affiliation: occupant.affiliation,
        role: occupant.role,
        gone: false,
        renamed: None,
        children,
        statuses: Several::of(Vec::new(alloc)),
        own_statuses: code(alloc, 110)?,
    })
}

/// The presence of an occupant whose nick changes, under the old one (XEP-0045, 7.6).
fn old_nick(
    alloc: Global,
    who: &Here,
    occupant: &Occupant,
    nick: &Part,
    children: &Text,
) -> Result<RoomItem, NoMemory>
    ensures { IfOk result (λ i. i ≡ old_nick who.now occupant.now nick.now children.now) }
{
    Ok(RoomItem::Presence {
        sessions: Several::of(sessions_of(alloc, occupant)?),
        nick: occupant.nick.copy(alloc)?,
        address: who.address.copy(alloc)?,
        affiliation: occupant.affiliation,
        role: occupant.role,
        gone: true,
        renamed: Some(nick.copy(alloc)?),
        children: children.copy(alloc)?,
        statuses: code(alloc, 303)?,
        own_statuses: code(alloc, 110)?,
    })
}

fn push_shows(
    alloc: Global,
    room: &Room,
    who: &Here,
    occupant: &Occupant,
    nick: &Part,
    children: Text,
    effects: &mut Vec<Effect>,
) -> Result<(), NoMemory>
    ensures { OnOk result (effects.new.items ≡ effects.old.items ++ shows room.now who.now occupant.now nick.now children) }
{
    effects.push(Effect::Set(Change::OccupantShown {
        room: room.number,
        session: who.session,
        presence: children.copy(alloc)?,
    }))?;
    let item = shown_as(alloc, who, occupant, nick, children)?;
    effects.push(Effect::Broadcast {
        room: room.number,
        item,
    })?;
    Ok(())
}

fn push_renamed(
    alloc: Global,
    room: &Room,
    who: &Here,
    occupant: &Occupant,
    nick: &Part,
    children: &Text,
    effects: &mut Vec<Effect>,
) -> Result<(), NoMemory>
    ensures { OnOk result (effects.new.items ≡ effects.old.items ++ told_rename room.now who.now occupant.now nick.now children.now) }
{
    effects.push(Effect::Broadcast {
        room: room.number,
        item: old_nick(alloc, who, occupant, nick, children)?,
    })?;
    effects.push(Effect::Set(Change::Renamed {
        room: room.number,
        session: who.session,
        nick: nick.copy(alloc)?,
    }))?;
    Ok(())
}

fn renames(
    alloc: Global,
    room: &Room,
    who: &Here,
    stanza: &Stanza,
    occupant: &Occupant,
    presence: &Element,
    nick: Option<&Part>,
) -> Result<Vec<Effect>, NoMemory>
    ensures { IfOk result (λ effects. effects.items
        ≡ renames room.now who.now stanza.now occupant.now presence.now (option_copied nick.entry)) }
{
    let mut effects = Vec::new(alloc);
    let new = match nick {
        Some(nick) if nick.bytes() != occupant.nick.bytes() => nick,
        _ => {
            let children = shown_children(alloc, presence.children.slice())?;
            push_shows(
                alloc,
                room,
                who,
                occupant,
                &occupant.nick,
                children,
                &mut effects,
            )?;
            return Ok(effects);
        }
    };
    if holder_of(new, room.occupants.slice()).is_some() {
        return refuse(alloc, who, stanza, Condition::Conflict);
    }
    let children = shown_children(alloc, presence.children.slice())?;
    push_renamed(alloc, room, who, occupant, new, &children, &mut effects)?;
    push_shows(alloc, room, who, occupant, new, children, &mut effects)?;
    Ok(effects)
}

/// What comes of available presence to a room by a session that is in it: it shows something else of itself (XEP-0045, 7.7), or takes another
/// nick (XEP-0045, 7.6), which nobody in the room may have.
pub fn rename(
    alloc: Global,
    room: &Room,
    who: &Here,
    stanza: &Stanza,
) -> Result<Vec<Effect>, NoMemory>
    ensures { IfOk result (λ effects. effects.items ≡ rename room.now who.now stanza.now) }
{
    let Stanza::Presence {
        to: Some(to),
        form: PresenceForm::Available,
        element,
    } = stanza
    else {
        return Ok(Vec::new(alloc));
    };
    match occupant_of(who.session, room.occupants.slice()) {
        Some(occupant) => renames(
            alloc,
            room,
            who,
            stanza,
            occupant,
            element,
            to.resource.as_ref(),
        ),
        None => Ok(Vec::new(alloc)),
    }
}
