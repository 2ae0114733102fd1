//! What comes of entering a room (XEP-0045, 7.2 and 15.6).
ghost use Rattle.std.specs.Prelude.{◌≡◌, ◌++◌, IfOk, OnOk};
ghost use Rattle.std.specs.Option.{option_copied};
ghost use Rattle.muc_room.specs.Entries.{entered, entry, entry_affiliation, entry_role, entry_sessions, entry_statuses, made_if, no_subject};
ghost use Rattle.muc_room.specs.Entries.{opening, openings, present, subject_for, subject_text, told_entry};

use crate::entering::Numbers;
use crate::histories::{delayed_text, push_history};
use crate::seats::{affiliation_in, has_nick, sessions_of, spoken_from};
use crate::views::{CLIENT_SPACE, seen};
use jid_core::{Jid, Part};
use muc_roles::{initial_role, sees_addresses};
use stanza_model::make::{element_of, one_child, push_attr, spelt, text_of, written};
use stanza_model::{Affiliation, Change, Delayed, Effect, Here, Occupant, Role, Room, RoomItem};
use stanza_tree::{Element, NoMemory, Origin, Several, Text};
use std::alloc::Global;

fn entry_role(room: &Room, who: &Here, holder: Option<&Occupant>) -> Role
    ensures { result ≡ entry_role room.now who.now (option_copied holder.entry) }
{
    match holder {
        Some(occupant) => occupant.role,
        None => initial_role(affiliation_in(room, who), room.config.moderated),
    }
}

fn entry_affiliation(room: &Room, who: &Here, holder: Option<&Occupant>) -> Affiliation
    ensures { result ≡ entry_affiliation room.now who.now (option_copied holder.entry) }
{
    match holder {
        Some(occupant) => occupant.affiliation,
        None => affiliation_in(room, who),
    }
}

fn entry_sessions(
    alloc: Global,
    who: &Here,
    holder: Option<&Occupant>,
) -> Result<Vec<u64>, NoMemory>
    ensures { IfOk result (λ sessions. sessions.items ≡ entry_sessions who.now (option_copied holder.entry)) }
{
    let mut sessions = match holder {
        Some(occupant) => sessions_of(alloc, occupant)?,
        None => Vec::new(alloc),
    };
    sessions.push(who.session)?;
    Ok(sessions)
}

/// An occupant's presence as it stands.
fn present(alloc: Global, room: &Room, occupant: &Occupant) -> Result<RoomItem, NoMemory>
    ensures { IfOk result (λ i. i ≡ present room.now occupant.now) }
{
    Ok(RoomItem::Presence {
        sessions: Several::of(sessions_of(alloc, occupant)?),
        nick: occupant.nick.copy(alloc)?,
        address: spoken_from(&room.address, occupant).copy(alloc)?,
        affiliation: occupant.affiliation,
        role: occupant.role,
        gone: false,
        renamed: None,
        children: occupant.presence.copy(alloc)?,
        statuses: Several::of(Vec::new(alloc)),
        own_statuses: Several::of(Vec::new(alloc)),
    })
}

/// A newcomer in this role is sent an occupant's presence (XEP-0045, 7.2.3).
fn opening(
    alloc: Global,
    room: &Room,
    stay: u64,
    who: &Here,
    role: Role,
    occupant: &Occupant,
) -> Result<Effect, NoMemory>
    ensures { IfOk result (λ effect. effect ≡ opening room.now stay who.now role occupant.now) }
{
    let item = present(alloc, room, occupant)?;
    let sees = sees_addresses(role, room.config.anyone);
    let rest = seen(alloc, &item, sees, &room.address, who.session, &who.address)?;
    Ok(Effect::Queue {
        session: who.session,
        to: written(alloc, &who.address)?,
        rest,
        origin: Origin::Opening {
            room: room.number,
            stay,
        },
    })
}

fn push_openings(
    alloc: Global,
    room: &Room,
    stay: u64,
    who: &Here,
    role: Role,
    nick: &Part,
    effects: &mut Vec<Effect>,
) -> Result<(), NoMemory>
    ensures { OnOk result (effects.new.items ≡ effects.old.items ++ openings room.now stay who.now role nick.now) }
{
    for occupant in room.occupants.slice() {
        if !has_nick(nick, occupant) {
            effects.push(opening(alloc, room, stay, who, role, occupant)?)?;
        }
    }
    Ok(())
}

/// What the newcomer's own view of its entry says (XEP-0045, 15.6).
fn entry_statuses(alloc: Global, anyone: bool, made: bool) -> Result<Vec<u16>, NoMemory>
    ensures { IfOk result (λ codes. codes.items ≡ entry_statuses anyone made) }
{
    let mut codes = Vec::new(alloc);
    if anyone {
        codes.push(100)?;
    }
    codes.push(110)?;
    codes.push(170)?;
    if made {
        codes.push(201)?;
    }
    Ok(codes)
}

fn entry(
    alloc: Global,
    room: &Room,
    made: bool,
    who: &Here,
    children: Text,
    nick: &Part,
    holder: Option<&Occupant>,
) -> Result<RoomItem, NoMemory>
    ensures { IfOk result (λ i. i ≡ entry room.now made who.now children nick.now (option_copied holder.entry)) }
{
    Ok(RoomItem::Presence {
        sessions: Several::of(entry_sessions(alloc, who, holder)?),
        nick: nick.copy(alloc)?,
        address: who.address.copy(alloc)?,
        affiliation: entry_affiliation(room, who, holder),
        role: entry_role(room, who, holder),
        gone: false,
        renamed: None,
        children,
        statuses: Several::of(Vec::new(alloc)),
        own_statuses: Several::of(entry_statuses(alloc, room.config.anyone, made)?),
    })
}

/// The message of a room that has no subject (XEP-0045, 7.2.15).
fn no_subject(alloc: Global, room: &Jid) -> Result<Element, NoMemory>
    ensures { IfOk result (λ e. e ≡ no_subject room.now) }
{
    let mut attrs = Vec::new(alloc);
    push_attr(&mut attrs, alloc, "from", written(alloc, room)?)?;
    push_attr(&mut attrs, alloc, "type", text_of(alloc, "groupchat")?)?;
    let subject = element_of(
        alloc,
        CLIENT_SPACE,
        "subject",
        Vec::new(alloc),
        Vec::new(alloc),
    )?;
    element_of(
        alloc,
        CLIENT_SPACE,
        "message",
        attrs,
        one_child(alloc, subject)?,
    )
}

fn subject_text(alloc: Global, room: &Jid, subject: Option<&Delayed>) -> Result<Text, NoMemory>
    ensures { IfOk result (λ t. t ≡ subject_text room.now (option_copied subject.entry)) }
{
    match subject {
        Some(subject) => delayed_text(alloc, room, subject),
        None => spelt(alloc, &no_subject(alloc, room)?),
    }
}

fn subject_for(alloc: Global, room: &Room, stay: u64, who: &Here) -> Result<Effect, NoMemory>
    ensures { IfOk result (λ effect. effect ≡ subject_for room.now stay who.now) }
{
    Ok(Effect::Queue {
        session: who.session,
        to: written(alloc, &who.address)?,
        rest: subject_text(alloc, &room.address, room.subject.as_ref())?,
        origin: Origin::Opening {
            room: room.number,
            stay,
        },
    })
}

/// The room that is made by its first occupant.
fn push_made(
    alloc: Global,
    room: &Room,
    made: bool,
    who: &Here,
    effects: &mut Vec<Effect>,
) -> Result<(), NoMemory>
    ensures { OnOk result (effects.new.items ≡ effects.old.items ++ made_if made room.now who.now) }
{
    if made {
        effects.push(Effect::Set(Change::RoomMade {
            room: room.number,
            address: room.address.copy(alloc)?,
            owner: who.address.bare(alloc)?,
        }))?;
    }
    Ok(())
}

/// The session is in the room, and all that are see its presence.
fn push_entry(
    alloc: Global,
    room: &Room,
    made: bool,
    who: &Here,
    children: Text,
    nick: &Part,
    holder: Option<&Occupant>,
    effects: &mut Vec<Effect>,
) -> Result<(), NoMemory>
    ensures { OnOk result (effects.new.items ≡ effects.old.items ++ told_entry room.now made who.now children nick.now (option_copied holder.entry)) }
{
    effects.push(Effect::Enter {
        room: room.number,
        session: who.session,
        address: who.address.copy(alloc)?,
        nick: nick.copy(alloc)?,
        role: entry_role(room, who, holder),
    })?;
    effects.push(Effect::Set(Change::OccupantShown {
        room: room.number,
        session: who.session,
        presence: children.copy(alloc)?,
    }))?;
    let item = entry(alloc, room, made, who, children, nick, holder)?;
    effects.push(Effect::Broadcast {
        room: room.number,
        item,
    })?;
    Ok(())
}

/// What comes of entering a room under this nick, which this occupant has already, where so much of what was said is told.
pub(crate) fn entered(
    alloc: Global,
    room: &Room,
    made: bool,
    numbers: &Numbers,
    who: &Here,
    children: Text,
    nick: &Part,
    holder: Option<&Occupant>,
    past: &[Delayed],
) -> Result<Vec<Effect>, NoMemory>
    ensures { IfOk result (λ effects. effects.items
        ≡ entered room.now made numbers.now who.now children nick.now (option_copied holder.entry) past.now) }
{
    let mut effects = Vec::new(alloc);
    let role = entry_role(room, who, holder);
    let stay = numbers.next_stay;
    push_made(alloc, room, made, who, &mut effects)?;
    push_openings(alloc, room, stay, who, role, nick, &mut effects)?;
    push_entry(alloc, room, made, who, children, nick, holder, &mut effects)?;
    push_history(alloc, room, stay, who, past, &mut effects)?;
    effects.push(subject_for(alloc, room, stay, who)?)?;
    Ok(effects)
}
