//! The room after an item that isn't refused (XEP-0045, 8 to 10).
ghost use Rattle.std.specs.Prelude.{◌≡◌, IfOk, OnOk};
ghost use Rattle.std.specs.Option.{option_copied};
ghost use Rattle.muc_room.specs.Seats.{holder_of};
ghost use Rattle.muc_admin.specs.Afterwards.{after, after_affiliation, after_role, changed_by, speakers, with_role, with_roles, with_user};

use crate::item::Wanted;
use crate::listing::{is_same_affiliation, is_same_role};
use crate::telling::{holder_of, new_role};
use jid_core::Jid;
use muc_room::{affiliation_of, is_of, set_affiliation, set_role, without_occupant};
use stanza_model::{Affiliation, Occupant, Role, Room};
use stanza_tree::{NoMemory, Text};
use std::alloc::Global;

/// The occupant that this session is has this role; without one it is removed.
fn give_role(alloc: Global, room: &mut Room, session: u64, role: Role) -> Result<(), NoMemory>
    ensures { OnOk result (room.new ≡ with_role session role room.old) }
{
    match role {
        Role::Nobody => without_occupant(alloc, room, session),
        _ => set_role(alloc, room, session, role),
    }
}

/// The session whose presence is shown of the occupant, where that gets another role.
fn changed_by(role: Role, target: Option<&Occupant>) -> Option<u64>
    ensures { result ≡ changed_by role (option_copied target.entry) }
{
    let Some(o) = target else {
        return None;
    };
    if is_same_role(o.role, role) {
        return None;
    }
    Some(o.spoke)
}

fn change_role(alloc: Global, room: &mut Room, nick: &Text, role: Role) -> Result<(), NoMemory>
    ensures { OnOk result (room.new ≡ after_role role (changed_by role (holder_of nick.now room.old.occupants)) room.old) }
{
    let target = holder_of(nick.bytes(), room.occupants.slice());
    match changed_by(role, target) {
        Some(session) => give_role(alloc, room, session, role),
        None => Ok(()),
    }
}

/// One session of each occupant that is of this user.
fn speakers(alloc: Global, address: &Jid, occupants: &[Occupant]) -> Result<Vec<u64>, NoMemory>
    ensures { IfOk result (λ sessions. sessions.items ≡ speakers address.now occupants.now) }
{
    let mut sessions = Vec::new(alloc);
    for occupant in occupants {
        if is_of(address, occupant) {
            sessions.push(occupant.spoke)?;
        }
    }
    Ok(sessions)
}

fn give_roles(alloc: Global, room: &mut Room, sessions: &[u64], role: Role) -> Result<(), NoMemory>
    ensures { OnOk result (room.new ≡ with_roles sessions.now role room.old) }
{
    for session in sessions {
        give_role(alloc, room, *session, role)?;
    }
    Ok(())
}

/// The user of this bare address has this affiliation, and each of its occupants the role of that.
fn change_user(
    alloc: Global,
    room: &mut Room,
    address: &Jid,
    affiliation: Affiliation,
) -> Result<(), NoMemory>
    ensures { OnOk result (room.new ≡ with_user address.now affiliation room.old) }
{
    let sessions = speakers(alloc, address, room.occupants.slice())?;
    let role = new_role(&room.config, affiliation);
    set_affiliation(alloc, room, address, affiliation)?;
    give_roles(alloc, room, sessions.as_slice(), role)
}

fn change_affiliation(
    alloc: Global,
    room: &mut Room,
    address: &Jid,
    affiliation: Affiliation,
) -> Result<(), NoMemory>
    ensures { OnOk result (room.new ≡ after_affiliation address.now affiliation room.old) }
{
    let before = affiliation_of(address, room.affiliations.slice());
    if is_same_affiliation(before, affiliation) {
        Ok(())
    } else {
        change_user(alloc, room, address, affiliation)
    }
}

/// The room is as it is after an item.
pub(crate) fn carry_out(alloc: Global, room: &mut Room, wanted: &Wanted) -> Result<(), NoMemory>
    ensures { OnOk result (room.new ≡ after wanted.now room.old) }
{
    match wanted {
        Wanted::Role { nick, role } => change_role(alloc, room, nick, *role),
        Wanted::Affiliation {
            address,
            affiliation,
        } => change_affiliation(alloc, room, address, *affiliation),
        Wanted::Garbled => Ok(()),
    }
}
