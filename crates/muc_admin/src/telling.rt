//! What comes of an item that isn't refused (XEP-0045, 8 to 10).
ghost use Rattle.std.specs.Prelude.{◌≡◌, [], ◌∷◌, ◌++◌, map, IfOk, OnOk};
ghost use Rattle.std.specs.Option.{option_copied};
ghost use Rattle.muc_room.specs.Seats.{has_nick, holder_of};
ghost use Rattle.muc_admin.specs.Telling.{affiliation_told, all_told, changed, effects_of, gone_item, leaving, new_role};
ghost use Rattle.muc_admin.specs.Telling.{removal_code, removed, role_told, shown_as, told, told_if, unless_same};

use crate::item::Wanted;
use crate::listing::{is_same_affiliation, is_same_role};
use jid_core::Jid;
use muc_roles::{initial_role, is_outcast};
use muc_room::{affiliation_of, is_listed, is_of, sessions_of, spoken_from};
use stanza_model::{Affiliation, Change, Config, Effect, Occupant, Role, Room, RoomItem, Seat};
use stanza_tree::{NoMemory, Several};
use std::alloc::Global;

/// The status code of a kick (XEP-0045, 15.6).
const KICKED: u16 = 307;

fn has_nick(nick: &[u8], occupant: &Occupant) -> bool
    ensures { result ≡ has_nick nick.now occupant.now }
{
    occupant.nick.bytes() == nick
}

/// The occupant that has the nick of these bytes.
pub(crate) fn holder_of<'a>(nick: &[u8], occupants: &'a [Occupant]) -> Option<&'a Occupant>
    ensures { option_copied result ≡ holder_of nick.now occupants.entry.now }
{
    occupants.iter().find(|o| has_nick(nick, o))
}

/// One status code.
fn code(alloc: Global, status: u16) -> Result<Several<u16>, NoMemory>
    ensures { IfOk result (λ codes. codes ≡ status ∷ []) }
{
    let mut codes = Vec::new(alloc);
    codes.push(status)?;
    Ok(Several::of(codes))
}

/// The unavailable presence of an occupant that is removed.
fn gone_item(
    alloc: Global,
    room: &Room,
    occupant: &Occupant,
    affiliation: Affiliation,
    status: u16,
) -> Result<RoomItem, NoMemory>
    ensures { IfOk result (λ i. i ≡ gone_item room.now occupant.now affiliation status) }
{
    Ok(RoomItem::Presence {
        sessions: Several::of(sessions_of(alloc, occupant)?),
        nick: occupant.nick.copy(alloc)?,
        address: spoken_from(&room.address, occupant).copy(alloc)?,
        affiliation,
        role: Role::Nobody,
        gone: true,
        renamed: None,
        children: occupant.presence.copy(alloc)?,
        statuses: code(alloc, status)?,
        own_statuses: code(alloc, 110)?,
    })
}

fn push_leaves(room: u64, seats: &[Seat], effects: &mut Vec<Effect>) -> Result<(), NoMemory>
    ensures { OnOk result (effects.new.items ≡ effects.old.items ++ map (leaving room) seats.now) }
{
    for seat in seats {
        effects.push(Effect::Leave {
            room,
            session: seat.session,
        })?;
    }
    Ok(())
}

/// An occupant is removed, with all its sessions.
fn push_removed(
    alloc: Global,
    room: &Room,
    occupant: &Occupant,
    affiliation: Affiliation,
    status: u16,
    effects: &mut Vec<Effect>,
) -> Result<(), NoMemory>
    ensures { OnOk result (effects.new.items ≡ effects.old.items ++ removed room.now occupant.now affiliation status) }
{
    let item = gone_item(alloc, room, occupant, affiliation, status)?;
    effects.push(Effect::Broadcast {
        room: room.number,
        item,
    })?;
    push_leaves(room.number, occupant.seats.slice(), effects)
}

/// An occupant's presence, with this affiliation and this role.
fn shown_as(
    alloc: Global,
    room: &Room,
    occupant: &Occupant,
    affiliation: Affiliation,
    role: Role,
) -> Result<RoomItem, NoMemory>
    ensures { IfOk result (λ i. i ≡ shown_as room.now occupant.now affiliation role) }
{
    Ok(RoomItem::Presence {
        sessions: Several::of(sessions_of(alloc, occupant)?),
        nick: occupant.nick.copy(alloc)?,
        address: spoken_from(&room.address, occupant).copy(alloc)?,
        affiliation,
        role,
        gone: false,
        renamed: None,
        children: occupant.presence.copy(alloc)?,
        statuses: Several::of(Vec::new(alloc)),
        own_statuses: code(alloc, 110)?,
    })
}

fn push_changed(
    alloc: Global,
    room: &Room,
    occupant: &Occupant,
    affiliation: Affiliation,
    role: Role,
    effects: &mut Vec<Effect>,
) -> Result<(), NoMemory>
    ensures { OnOk result (effects.new.items ≡ effects.old.items ++ changed room.now occupant.now affiliation role) }
{
    effects.push(Effect::Set(Change::RoleSet {
        room: room.number,
        session: occupant.spoke,
        role,
    }))?;
    let item = shown_as(alloc, room, occupant, affiliation, role)?;
    effects.push(Effect::Broadcast {
        room: room.number,
        item,
    })?;
    Ok(())
}

/// An occupant has this affiliation and this role from then on; without a role it is removed, with this status code.
fn push_told(
    alloc: Global,
    room: &Room,
    occupant: &Occupant,
    affiliation: Affiliation,
    role: Role,
    status: u16,
    effects: &mut Vec<Effect>,
) -> Result<(), NoMemory>
    ensures { OnOk result (effects.new.items ≡ effects.old.items ++ told room.now occupant.now affiliation role status) }
{
    match role {
        Role::Nobody => push_removed(alloc, room, occupant, affiliation, status, effects),
        _ => push_changed(alloc, room, occupant, affiliation, role, effects),
    }
}

fn push_role_told(
    alloc: Global,
    room: &Room,
    role: Role,
    target: Option<&Occupant>,
    effects: &mut Vec<Effect>,
) -> Result<(), NoMemory>
    ensures { OnOk result (effects.new.items ≡ effects.old.items ++ role_told room.now role (option_copied target.entry)) }
{
    let Some(o) = target else {
        return Ok(());
    };
    if is_same_role(o.role, role) {
        return Ok(());
    }
    push_told(alloc, room, o, o.affiliation, role, KICKED, effects)
}

/// The role that an occupant has once its affiliation is set; none where it may not be in the room (XEP-0045, 5.1.2, 9.1 and 9.4).
pub(crate) fn new_role(config: &Config, affiliation: Affiliation) -> Role
    ensures { result ≡ new_role config.now affiliation }
{
    if config.members_only && !is_listed(affiliation) {
        Role::Nobody
    } else {
        initial_role(affiliation, config.moderated)
    }
}

/// The status code of a ban, or of the loss of an affiliation (XEP-0045, 15.6).
fn removal_code(affiliation: Affiliation) -> u16
    ensures { result ≡ removal_code affiliation }
{
    if is_outcast(affiliation) { 301 } else { 321 }
}

fn push_told_if(
    alloc: Global,
    room: &Room,
    address: &Jid,
    affiliation: Affiliation,
    occupant: &Occupant,
    effects: &mut Vec<Effect>,
) -> Result<(), NoMemory>
    ensures { OnOk result (effects.new.items ≡ effects.old.items ++ told_if room.now address.now affiliation occupant.now) }
{
    if is_of(address, occupant) {
        let role = new_role(&room.config, affiliation);
        let status = removal_code(affiliation);
        push_told(alloc, room, occupant, affiliation, role, status, effects)
    } else {
        Ok(())
    }
}

fn push_all_told(
    alloc: Global,
    room: &Room,
    address: &Jid,
    affiliation: Affiliation,
    occupants: &[Occupant],
    effects: &mut Vec<Effect>,
) -> Result<(), NoMemory>
    ensures { OnOk result (effects.new.items ≡ effects.old.items ++ all_told room.now address.now affiliation occupants.now) }
{
    for occupant in occupants {
        push_told_if(alloc, room, address, affiliation, occupant, effects)?;
    }
    Ok(())
}

/// The user of this bare address has this affiliation, which is another than it had.
pub(crate) fn push_affiliation_told(
    alloc: Global,
    room: &Room,
    address: &Jid,
    affiliation: Affiliation,
    effects: &mut Vec<Effect>,
) -> Result<(), NoMemory>
    ensures { OnOk result (effects.new.items ≡ effects.old.items ++ affiliation_told room.now address.now affiliation) }
{
    effects.push(Effect::Set(Change::Affiliated {
        room: room.number,
        address: address.copy(alloc)?,
        affiliation,
    }))?;
    push_all_told(
        alloc,
        room,
        address,
        affiliation,
        room.occupants.slice(),
        effects,
    )
}

fn push_unless_same(
    alloc: Global,
    room: &Room,
    address: &Jid,
    affiliation: Affiliation,
    effects: &mut Vec<Effect>,
) -> Result<(), NoMemory>
    ensures { OnOk result (effects.new.items ≡ effects.old.items ++ unless_same room.now address.now affiliation) }
{
    let before = affiliation_of(address, room.affiliations.slice());
    if is_same_affiliation(before, affiliation) {
        Ok(())
    } else {
        push_affiliation_told(alloc, room, address, affiliation, effects)
    }
}

/// What comes of an item in the room as it is.
pub(crate) fn push_effects(
    alloc: Global,
    room: &Room,
    wanted: &Wanted,
    effects: &mut Vec<Effect>,
) -> Result<(), NoMemory>
    ensures { OnOk result (effects.new.items ≡ effects.old.items ++ effects_of room.now wanted.now) }
{
    match wanted {
        Wanted::Role { nick, role } => {
            let target = holder_of(nick.bytes(), room.occupants.slice());
            push_role_told(alloc, room, *role, target, effects)
        }
        Wanted::Affiliation {
            address,
            affiliation,
        } => push_unless_same(alloc, room, address, *affiliation, effects),
        Wanted::Garbled => Ok(()),
    }
}
